//! The content of a signed message.

ghost use Rattle.rpki_der.specs.Grammar.{wrapped};
ghost use Rattle.rpki_der.specs.Held.{with_octets};
ghost use Rattle.rpki_der.specs.OctetString.{octet_string};
ghost use Rattle.rpki_der.specs.Tags.{context, set};
ghost use Rattle.rpki_der.specs.Ticks.{TakesCounted};
ghost use Rattle.rpki_sigmsg.specs.Algorithm.{digest_algorithm};
ghost use Rattle.rpki_sigmsg.specs.Message.{encapsulated_content};

use crate::algorithm::pass_digest_algorithm;
use crate::object_identifiers::CT_XML;
use crate::octets::take_held_octets;
use bytes::Bytes;
use rpki_der::{Cursor, DecodeError, Steps, Tag, take_oid_if_counted};
use std::alloc::Global;
use std::sync::ledger::Ledger;

/// Passes the digest algorithms, of which there is one.
pub(crate) fn pass_digest_algorithms<L: Ledger>(
    cursor: &mut Cursor<'_>,
    steps: &mut Steps<L>,
) -> Result<(), DecodeError>
    ensures { TakesCounted 1 (wrapped set digest_algorithm) (λ x. x)
        cursor.old cursor.new steps.old steps.new result }
{
    cursor.enter_counted(Tag::SET, steps)?;
    pass_digest_algorithm(cursor, steps)?;
    cursor.leave_counted(steps)?;
    Ok(())
}

fn take_explicit_octets<'a, L: Ledger>(
    alloc: Global,
    cursor: &mut Cursor<'a>,
    steps: &mut Steps<L>,
) -> Result<(&'a [u8], Bytes), DecodeError>
    ensures { TakesCounted 1 (wrapped (context 0) (with_octets (octet_string cursor.old.mode)))
        (λ x. (x.0.now, x.1)) cursor.old cursor.new steps.old steps.new result }
{
    cursor.enter_counted(Tag::CTX_0, steps)?;
    let octets = take_held_octets(alloc, cursor, steps)?;
    cursor.leave_counted(steps)?;
    Ok(octets)
}

/// The OCTET STRING of the encapsulated XML content, and its octets.
pub(crate) fn take_encapsulated_content<'a, L: Ledger>(
    alloc: Global,
    cursor: &mut Cursor<'a>,
    steps: &mut Steps<L>,
) -> Result<(&'a [u8], Bytes), DecodeError>
    ensures { TakesCounted 1 (encapsulated_content cursor.old.mode) (λ x. (x.0.now, x.1))
        cursor.old cursor.new steps.old steps.new result }
{
    cursor.enter_counted(Tag::SEQUENCE, steps)?;
    take_oid_if_counted(cursor, &CT_XML, steps)?;
    let content = take_explicit_octets(alloc, cursor, steps)?;
    cursor.leave_counted(steps)?;
    Ok(content)
}
