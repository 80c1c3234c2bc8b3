//! The certificate and the CRLs of a signed message, with their octets.

ghost use Rattle.std.specs.Prelude.{◌≡◌, IfOk};
ghost use Rattle.std.specs.Option.{option_map};
ghost use Rattle.rpki_der.specs.Grammar.{wrapped};
ghost use Rattle.rpki_der.specs.Held.{with_octets};
ghost use Rattle.rpki_der.specs.Tags.{context};
ghost use Rattle.rpki_der.specs.Ticks.{TakesCounted, TakesPartCounted};
ghost use Rattle.rpki_idcert.specs.IdCert.{identity_certificate};
ghost use Rattle.rpki_sigmsg.specs.Message.{crl_in_der, if_any, crl_set, crl_set_of};

use crate::crl::SignedMessageCrl;
use rpki_der::{Cursor, DecodeError, OutOfMemory, Steps, Tag};
use rpki_idcert::IdCert;
use std::alloc::Global;
use std::marker::Model;
use std::sync::ledger::Ledger;

fn take_held_certificate<'a, L: Ledger>(
    alloc: Global,
    cursor: &mut Cursor<'a>,
    steps: &mut Steps<L>,
) -> Result<(&'a [u8], IdCert), DecodeError>
    ensures { TakesCounted 2 (with_octets (identity_certificate cursor.old.mode))
        (λ x. (x.0.now, x.1)) cursor.old cursor.new steps.old steps.new result }
{
    let start = cursor.here();
    let certificate = IdCert::take_from_counted(alloc, cursor, steps)?;
    let octets = cursor.since(start);
    Ok((octets, certificate))
}

/// The one certificate.
pub(crate) fn take_certificates<'a, L: Ledger>(
    alloc: Global,
    cursor: &mut Cursor<'a>,
    steps: &mut Steps<L>,
) -> Result<(&'a [u8], IdCert), DecodeError>
    ensures { TakesCounted 2 (wrapped (context 0)
        (with_octets (identity_certificate cursor.old.mode))) (λ x. (x.0.now, x.1))
        cursor.old cursor.new steps.old steps.new result }
{
    cursor.enter_counted(Tag::CTX_0, steps)?;
    let certificate = take_held_certificate(alloc, cursor, steps)?;
    cursor.leave_counted(steps)?;
    Ok(certificate)
}

fn take_held_crl<'a, L: Ledger>(
    alloc: Global,
    cursor: &mut Cursor<'a>,
    steps: &mut Steps<L>,
) -> Result<(&'a [u8], SignedMessageCrl), DecodeError>
    ensures { TakesCounted 3 (with_octets crl_in_der) (λ x. (x.0.now, x.1))
        cursor.old cursor.new steps.old steps.new result }
{
    let start = cursor.here();
    let crl = SignedMessageCrl::take_from_counted(alloc, cursor, steps)?;
    let octets = cursor.since(start);
    Ok((octets, crl))
}

// The CRL that stands next, if anything is left at this level.
fn take_other_crl<'a, L: Ledger>(
    alloc: Global,
    cursor: &mut Cursor<'a>,
    steps: &mut Steps<L>,
) -> Result<Option<(&'a [u8], SignedMessageCrl)>, DecodeError>
    ensures { TakesPartCounted 3 0 (if_any (with_octets crl_in_der))
        (λ o. option_map (λ x. (x.0.now, x.1)) o)
        cursor.old cursor.new steps.old steps.new result }
{
    if cursor.end() {
        return Ok(None);
    }
    let crl = take_held_crl(alloc, cursor, steps)?;
    Ok(Some(crl))
}

/// The CRLs of a message, and the octets of each. In a clause it is the record of these.
#[derive(Drop)]
pub(crate) struct CrlSet<'a> {
    pub(crate) lists: Vec<SignedMessageCrl>,
    pub(crate) first: &'a [u8],
    pub(crate) second: Option<&'a [u8]>,
}

impl<'a> Model for CrlSet<'a> {
    ghost use Rattle.std.specs.Option.{option_copied};
    ghost use Rattle.rpki_sigmsg.specs.Message.{AreOneOrTwo, CrlSet};

    ghost Value = { CrlSet };

    ghost view = { λ c. record {
      lists = c.lists.items;
      first = c.first.now;
      second = option_copied c.second;
    } };

    ghost invariant = { λ c. AreOneOrTwo c.lists.items };
}

impl<'a> CrlSet<'a> {
    // One CRL, or two.
    fn new(
        alloc: Global,
        one: (&'a [u8], SignedMessageCrl),
        other: Option<(&'a [u8], SignedMessageCrl)>,
    ) -> Result<CrlSet<'a>, OutOfMemory>
        ensures { IfOk result (λ c. c ≡ crl_set_of (one.entry.0.now, one.entry.1)
            (option_map (λ x. (x.0.now, x.1)) other.entry)) }
    {
        let mut lists = Vec::with_capacity(alloc, 2)?;
        lists.push(one.1)?;
        match other {
            None => Ok(CrlSet {
                lists,
                first: one.0,
                second: None,
            }),
            Some((octets, crl)) => {
                lists.push(crl)?;
                Ok(CrlSet {
                    lists,
                    first: one.0,
                    second: Some(octets),
                })
            }
        }
    }
}

/// The one or two CRLs.
pub(crate) fn take_crls<'a, L: Ledger>(
    alloc: Global,
    cursor: &mut Cursor<'a>,
    steps: &mut Steps<L>,
) -> Result<CrlSet<'a>, DecodeError>
    ensures { TakesCounted 3 crl_set (λ c. c)
        cursor.old cursor.new steps.old steps.new result }
{
    cursor.enter_counted(Tag::CTX_1, steps)?;
    let one = take_held_crl(alloc, cursor, steps)?;
    let other = take_other_crl(alloc, cursor, steps)?;
    let set = CrlSet::new(alloc, one, other)?;
    cursor.leave_counted(steps)?;
    Ok(set)
}
