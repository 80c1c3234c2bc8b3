//! OCTET STRINGs, as shared octets.

ghost use Rattle.rpki_der.specs.Held.{with_octets};
ghost use Rattle.rpki_der.specs.OctetString.{octet_string};
ghost use Rattle.rpki_der.specs.Ticks.{TakesCounted};

use bytes::Bytes;
use rpki_der::{Cursor, DecodeError, Steps, Tag, take_octets_counted};
use std::alloc::Global;
use std::sync::ledger::Ledger;

/// The octets of the OCTET STRING that stands next, its segments joined.
pub(crate) fn take_shared_octets<L: Ledger>(
    alloc: Global,
    cursor: &mut Cursor<'_>,
    steps: &mut Steps<L>,
) -> Result<Bytes, DecodeError>
    ensures { TakesCounted 1 (octet_string cursor.old.mode) (λ x. x)
        cursor.old cursor.new steps.old steps.new result }
{
    let octets = take_octets_counted(alloc, cursor, Tag::OCTET_STRING, steps)?;
    Ok(Bytes::from_vec(octets)?)
}

/// The octets of the OCTET STRING that stands next, as they stand there, and its contents, the segments joined.
pub(crate) fn take_held_octets<'a, L: Ledger>(
    alloc: Global,
    cursor: &mut Cursor<'a>,
    steps: &mut Steps<L>,
) -> Result<(&'a [u8], Bytes), DecodeError>
    ensures { TakesCounted 1 (with_octets (octet_string cursor.old.mode)) (λ x. (x.0.now, x.1))
        cursor.old cursor.new steps.old steps.new result }
{
    let start = cursor.here();
    let joined = take_shared_octets(alloc, cursor, steps)?;
    let value = cursor.since(start);
    Ok((value, joined))
}
