//! For what purposes a key is used.

ghost use Rattle.std.specs.Prelude.{◌≡◌, IfOk};
ghost use Rattle.rpki_der.specs.Oid.{oid};
ghost use Rattle.rpki_der.specs.Ticks.{TakesCounted};
ghost use Rattle.rpki_cert.specs.ExtendedKeyUsage.{extended_key_usage, has_router};

use crate::object_identifiers::BGPSEC_ROUTER;
use rpki_common::Sequence;
use rpki_der::{Cursor, DecodeError, Oid, OutOfMemory, Steps, Tag};
use std::alloc::Global;
use std::marker::Model;
use std::sync::ledger::Ledger;

/// For what purposes a key is used (RFC 5280, 4.2.1.12). Where it was read, there is at least one.
///
/// In a clause it is the list of the object identifiers, each by its contents octets.
pub struct ExtendedKeyUsage {
    oids: Sequence<Oid>,
}

impl Drop for ExtendedKeyUsage {
    fn drop(self) {
        let ExtendedKeyUsage { oids } = self;
    }
}

impl Model for ExtendedKeyUsage {
    ghost use Rattle.std.specs.Prelude.{ℕ, List};

    ghost Value = { List (List ℕ) };

    ghost view = { λ u. u.oids };

    ghost inverse = { λ list. record { oids = list } };
}

impl ExtendedKeyUsage {
    /// The purposes, in their order.
    pub fn oids(&self) -> &[Oid]
        ensures { result.now ≡ self.now }
    {
        self.oids.as_slice()
    }

    /// Whether one of the purposes is that of a BGPsec router (RFC 8209, 3.1.3.2).
    pub(crate) fn has_router(&self) -> bool
        ensures { result ≡ has_router self.now }
    {
        self.oids
            .as_slice()
            .iter()
            .any(|oid| oid.as_slice() == BGPSEC_ROUTER.as_slice())
    }

    /// Equal purposes that share their octets with these.
    pub fn clone(&self, alloc: Global) -> Result<ExtendedKeyUsage, OutOfMemory>
        ensures { IfOk result (λ u. u ≡ self.now) }
    {
        Ok(ExtendedKeyUsage {
            oids: Sequence::from_vec(copied(alloc, self.oids())?),
        })
    }
}

// Equal object identifiers.
fn copied(alloc: Global, oids: &[Oid]) -> Result<Vec<Oid>, OutOfMemory>
    ensures { IfOk result (λ v. v.items ≡ oids.now) }
{
    let mut copies = Vec::with_capacity(alloc, oids.len())?;
    for oid in oids {
        copies.push(oid.clone(alloc)?)?;
    }
    Ok(copies)
}

// The object identifier that stands next. It ticks once; as its octets are copied, its header is read a second time.
fn take_purpose<L: Ledger>(
    alloc: Global,
    cursor: &mut Cursor<'_>,
    steps: &mut Steps<L>,
) -> Result<Oid, DecodeError>
    ensures { TakesCounted 1 oid (λ x. x) cursor.old cursor.new steps.old steps.new result }
{
    let mode = cursor.mode();
    let octets = cursor.capture_counted(steps)?;
    Oid::take(alloc, mode, octets)
}

/// The purposes that stand next, at least one. It ticks once for each header and each end mark in them.
pub(crate) fn take_extended_key_usage<L: Ledger>(
    alloc: Global,
    cursor: &mut Cursor<'_>,
    steps: &mut Steps<L>,
) -> Result<ExtendedKeyUsage, DecodeError>
    ensures { TakesCounted 1 extended_key_usage (λ x. x)
        cursor.old cursor.new steps.old steps.new result }
{
    cursor.enter_counted(Tag::SEQUENCE, steps)?;
    let mut oids = Vec::new(alloc);
    'purposes: while !cursor.end() {
        let oid = take_purpose(alloc, cursor, steps)?;
        oids.push(oid)?;
    }
    cursor.leave_counted(steps)?;
    let oids = Sequence::from_vec(oids);
    if oids.is_empty() {
        return Err(DecodeError::Malformed);
    }
    Ok(ExtendedKeyUsage { oids })
}
