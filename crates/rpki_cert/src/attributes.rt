//! The attributes of a request, which are one: the extensions that it asks for.

ghost use Rattle.rpki_der.specs.Grammar.{wrapped};
ghost use Rattle.rpki_der.specs.Tags.{set};
ghost use Rattle.rpki_der.specs.Ticks.{TakesCounted};
ghost use Rattle.rpki_cert.specs.Extensions.{extension_list};
ghost use Rattle.rpki_cert.specs.Gathered.{complete};
ghost use Rattle.rpki_cert.specs.CsrAttributes.{extension_request, attributes};

use crate::extensions::{Requested, take_requested};
use crate::object_identifiers::EXTENSION_REQUEST;
use rpki_der::{Cursor, DecodeError, Steps, Tag, take_oid_if_counted};
use std::alloc::Global;
use std::sync::ledger::Ledger;

// The extensions that stand next in a SET of one value.
fn take_value<L: Ledger>(
    alloc: Global,
    cursor: &mut Cursor<'_>,
    steps: &mut Steps<L>,
) -> Result<Requested, DecodeError>
    ensures { TakesCounted 2 (wrapped set (extension_list cursor.old.mode)) (λ r. complete r)
        cursor.old cursor.new steps.old steps.new result }
{
    cursor.enter_counted(Tag::SET, steps)?;
    let requested = take_requested(alloc, cursor, steps)?;
    cursor.leave_counted(steps)?;
    Ok(requested)
}

// What the attribute says that stands next.
fn take_attribute<L: Ledger>(
    alloc: Global,
    cursor: &mut Cursor<'_>,
    steps: &mut Steps<L>,
) -> Result<Requested, DecodeError>
    ensures { TakesCounted 2 (extension_request cursor.old.mode) (λ r. complete r)
        cursor.old cursor.new steps.old steps.new result }
{
    cursor.enter_counted(Tag::SEQUENCE, steps)?;
    take_oid_if_counted(cursor, &EXTENSION_REQUEST, steps)?;
    let requested = take_value(alloc, cursor, steps)?;
    cursor.leave_counted(steps)?;
    Ok(requested)
}

/// What the attributes say that stand next under [0]. It ticks once for each header and each end mark that it reads.
pub(crate) fn take_attributes<L: Ledger>(
    alloc: Global,
    cursor: &mut Cursor<'_>,
    steps: &mut Steps<L>,
) -> Result<Requested, DecodeError>
    ensures { TakesCounted 2 (attributes cursor.old.mode) (λ r. complete r)
        cursor.old cursor.new steps.old steps.new result }
{
    cursor.enter_counted(Tag::CTX_0, steps)?;
    let requested = take_attribute(alloc, cursor, steps)?;
    cursor.leave_counted(steps)?;
    Ok(requested)
}
