//! Signed attributes.

ghost use Rattle.std.specs.Prelude.{◌≡◌, ◌≢◌, ◌<◌, [], IfOk};
ghost use Rattle.rpki_der.specs.Number.{u64};
ghost use Rattle.rpki_der.specs.OctetString.{octet_string};
ghost use Rattle.rpki_der.specs.Entry.{set_of};
ghost use Rattle.rpki_der.specs.Oid.{oid_is};
ghost use Rattle.rpki_der.specs.Ticks.{TakesCounted, TakesRestCounted};
ghost use Rattle.rpki_common.specs.Collecting.{once};
ghost use Rattle.rpki_base.specs.Time.{time};
ghost use Rattle.rpki_sigmsg.specs.ObjectIdentifiers.{xml_content};
ghost use Rattle.rpki_sigmsg.specs.Attributes.{signed_attributes, covered};
ghost use Rattle.rpki_sigmsg.specs.Gathered.{add, add_times, add_value, complete, shown};

use crate::object_identifiers::{
    BINARY_SIGNING_TIME, CONTENT_TYPE, CT_XML, MESSAGE_DIGEST, SIGNING_TIME,
};
use crate::octets::take_shared_octets;
use bytes::Bytes;
use rpki_base::{Time, write_constructed};
use rpki_common::OutOfMemory;
use rpki_der::{
    Cursor, DecodeError, Steps, Tag, Writer, pass_rest_counted, take_oid_counted,
    take_oid_if_counted, take_u64_counted,
};
use std::alloc::Global;
use std::marker::Model;
use std::sync::ledger::Ledger;

/// What the known attributes say.
///
/// In a clause it is the record of these two.
#[derive(Drop)]
pub(crate) struct SignedAttributes {
    /// The signed digest.
    pub(crate) digest: Bytes,
    /// The time of signing, if it is said.
    pub(crate) signing_time: Option<Time>,
}

impl Model for SignedAttributes {
    ghost use Rattle.rpki_sigmsg.specs.Attributes.{AttributeFields};

    ghost Value = { AttributeFields };

    ghost view = { λ a. record { digest = a.digest; signing_time = a.signing_time } };

    ghost inverse = { λ a. record { digest = a.digest; signing_time = a.signing_time } };
}

// The times found so far.
#[derive(Clone, Copy)]
struct Times {
    signing: Option<Time>,
    binary: Option<u64>,
}

// The attributes found so far.
#[derive(Drop)]
struct Found {
    content_type: Option<()>,
    digest: Option<Bytes>,
    times: Times,
}

// What stands behind the identifier of contentType.
fn finish_content_type<L: Ledger>(
    cursor: &mut Cursor<'_>,
    found: Option<()>,
    steps: &mut Steps<L>,
) -> Result<Option<()>, DecodeError>
    requires { cursor.old.levels ≢ [] }
    ensures { TakesRestCounted 1 0 (λ vs. once found (set_of (oid_is xml_content) vs)) (λ x. x)
        cursor.old cursor.new steps.old steps.new result }
{
    if found.is_some() {
        return Err(DecodeError::Malformed);
    }
    cursor.enter_counted(Tag::SET, steps)?;
    take_oid_if_counted(cursor, &CT_XML, steps)?;
    cursor.leave_counted(steps)?;
    cursor.leave_counted(steps)?;
    Ok(Some(()))
}

// What stands behind the identifier of messageDigest.
fn finish_digest<L: Ledger>(
    alloc: Global,
    cursor: &mut Cursor<'_>,
    found: Option<Bytes>,
    steps: &mut Steps<L>,
) -> Result<Option<Bytes>, DecodeError>
    requires { cursor.old.levels ≢ [] }
    ensures { TakesRestCounted 1 0 (λ vs. once found (set_of (octet_string cursor.old.mode) vs))
        (λ x. x) cursor.old cursor.new steps.old steps.new result }
{
    if found.is_some() {
        return Err(DecodeError::Malformed);
    }
    cursor.enter_counted(Tag::SET, steps)?;
    let digest = take_shared_octets(alloc, cursor, steps)?;
    cursor.leave_counted(steps)?;
    cursor.leave_counted(steps)?;
    Ok(Some(digest))
}

// What stands behind the identifier of signingTime.
fn finish_signing_time<L: Ledger>(
    cursor: &mut Cursor<'_>,
    found: Option<Time>,
    steps: &mut Steps<L>,
) -> Result<Option<Time>, DecodeError>
    requires { cursor.old.levels ≢ [] }
    ensures { TakesRestCounted 1 0 (λ vs. once found (set_of time vs)) (λ x. x)
        cursor.old cursor.new steps.old steps.new result }
{
    if found.is_some() {
        return Err(DecodeError::Malformed);
    }
    cursor.enter_counted(Tag::SET, steps)?;
    let time = Time::take_from_counted(cursor, steps)?;
    cursor.leave_counted(steps)?;
    cursor.leave_counted(steps)?;
    Ok(Some(time))
}

// What stands behind the identifier of binarySigningTime.
fn finish_binary_time<L: Ledger>(
    cursor: &mut Cursor<'_>,
    found: Option<u64>,
    steps: &mut Steps<L>,
) -> Result<Option<u64>, DecodeError>
    requires { cursor.old.levels ≢ [] }
    ensures { TakesRestCounted 1 0 (λ vs. once found (set_of u64 vs)) (λ x. x)
        cursor.old cursor.new steps.old steps.new result }
{
    if found.is_some() {
        return Err(DecodeError::Malformed);
    }
    cursor.enter_counted(Tag::SET, steps)?;
    let seconds = take_u64_counted(cursor, steps)?;
    cursor.leave_counted(steps)?;
    cursor.leave_counted(steps)?;
    Ok(Some(seconds))
}

// What stands behind the identifier `kind` of an attribute that is neither contentType nor messageDigest.
fn finish_time<L: Ledger>(
    cursor: &mut Cursor<'_>,
    kind: &[u8],
    found: Times,
    steps: &mut Steps<L>,
) -> Result<Times, DecodeError>
    requires { cursor.old.levels ≢ [] }
    ensures { TakesRestCounted 1 0 (λ vs. add_times (found.signing, found.binary) (kind.now, vs))
        (λ t. (t.signing, t.binary)) cursor.old cursor.new steps.old steps.new result }
{
    let Times { signing, binary } = found;
    if kind == SIGNING_TIME.as_slice() {
        let signing = finish_signing_time(cursor, signing, steps)?;
        Ok(Times { signing, binary })
    } else if kind == BINARY_SIGNING_TIME.as_slice() {
        let binary = finish_binary_time(cursor, binary, steps)?;
        Ok(Times { signing, binary })
    } else {
        pass_rest_counted(cursor, steps)?;
        Ok(found)
    }
}

// What stands behind the identifier `kind` of an attribute.
fn finish_attribute<L: Ledger>(
    alloc: Global,
    cursor: &mut Cursor<'_>,
    kind: &[u8],
    found: Found,
    steps: &mut Steps<L>,
) -> Result<Found, DecodeError>
    requires { cursor.old.levels ≢ [] }
    ensures { TakesRestCounted 1 0 (λ vs. add cursor.old.mode (shown found) (kind.now, vs)) shown
        cursor.old cursor.new steps.old steps.new result }
{
    let Found {
        mut content_type,
        mut digest,
        mut times,
    } = found;
    if kind == CONTENT_TYPE.as_slice() {
        content_type = finish_content_type(cursor, content_type, steps)?;
    } else if kind == MESSAGE_DIGEST.as_slice() {
        digest = finish_digest(alloc, cursor, digest, steps)?;
    } else {
        times = finish_time(cursor, kind, times, steps)?;
    }
    Ok(Found {
        content_type,
        digest,
        times,
    })
}

fn take_attribute<L: Ledger>(
    alloc: Global,
    cursor: &mut Cursor<'_>,
    found: Found,
    steps: &mut Steps<L>,
) -> Result<Found, DecodeError>
    ensures { TakesCounted 1 (add_value cursor.old.mode (shown found)) shown
        cursor.old cursor.new steps.old steps.new result }
{
    cursor.enter_counted(Tag::SEQUENCE, steps)?;
    let kind = take_oid_counted(cursor, steps)?;
    finish_attribute(alloc, cursor, kind, found, steps)
}

// What the attributes say, if both that have to be there are.
fn all_found(found: Found) -> Option<SignedAttributes>
    ensures { result ≡ complete (shown found) }
{
    let Found {
        content_type,
        digest,
        times,
    } = found;
    content_type?;
    let digest = digest?;
    Some(SignedAttributes {
        digest,
        signing_time: times.signing,
    })
}

/// The octets of the signed attributes that stand next, and what they say.
pub(crate) fn take_signed_attributes<'a, L: Ledger>(
    alloc: Global,
    cursor: &mut Cursor<'a>,
    steps: &mut Steps<L>,
) -> Result<(&'a [u8], SignedAttributes), DecodeError>
    ensures { TakesCounted 1 (signed_attributes cursor.old.mode) (λ x. (x.0.now, x.1))
        cursor.old cursor.new steps.old steps.new result }
{
    cursor.enter_counted(Tag::CTX_0, steps)?;
    let start = cursor.here();
    let mut found = Found {
        content_type: None,
        digest: None,
        times: Times {
            signing: None,
            binary: None,
        },
    };
    'attributes: while !cursor.end() {
        found = take_attribute(alloc, cursor, found, steps)?;
    }
    let octets = cursor.leave_since_counted(start, steps)?;
    match all_found(found) {
        Some(attributes) => Ok((octets, attributes)),
        None => Err(DecodeError::Malformed),
    }
}

/// The octets that the signature of the attributes covers, of their octets as they stand; more than length octets can say are
/// refused as want of memory.
pub(crate) fn covered_octets(alloc: Global, attributes: &[u8]) -> Result<Bytes, OutOfMemory>
    ensures { IfOk result (λ b. b ≡ covered attributes.now) }
{
    let mut inner = Writer::new(alloc);
    inner.raw(attributes)?;
    let mut out = Writer::new(alloc);
    write_constructed(Tag::SET, &inner, &mut out)?;
    Ok(out.into_captured()?.into_bytes())
}
