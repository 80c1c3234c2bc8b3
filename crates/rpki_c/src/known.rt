//! What is known of objects, as records.

ghost use Rattle.std.specs.Prelude.{◌≡◌, ◌≢◌, ℕ, List, IfErr, IfOk, IfSome, IsNone};
ghost use Rattle.std.specs.Int.{to_be_bytes, w64};
ghost use Rattle.rpki_external.specs.Records.{Tagged, tagged};
ghost use Rattle.rpki_c.specs.Arguments.{IsUnread, usage};
ghost use Rattle.rpki_c.specs.Deciding as spec;
ghost use Rattle.rpki_c.specs.HandingOver.{out_of_memory};

use crate::arguments::{USAGE, digest_in, rsync_uri};
use rpki_common::OutOfMemory;
use rpki_external::KeysRefusal;
use rpki_pubserver::Known;
use std::alloc::Global;

// The octets of a digest.
const DIGEST: usize = 32;

// The SHA-256 and the URI of an object that is there.
const THERE: u8 = 22;

// The URI of an object that isn't there.
const ABSENT: u8 = 23;

// A record, and what is behind it.
#[derive(Clone, Copy)]
struct Record<'a> {
    tag: u8,
    octets: &'a [u8],
    rest: &'a [u8],
}

// The number that eight octets are.
fn number_of(octets: &[u8; 8]) -> u64
    ensures { to_be_bytes w64 result ≡ octets.now }
{
    u64::from_be_bytes(*octets)
}

// The record with which octets begin.
fn record_at(octets: &[u8]) -> Option<Record<'_>>
    ensures some { IfSome result (λ r.
        spec.BeginsRecord octets.now (tagged r.tag r.octets.now) r.rest.now) }
    ensures none { IsNone result → (t : Tagged) → (rest : List ℕ)
        → spec.BeginsRecord octets.now t rest → ⊥ }
{
    let [tag, behind @ ..] = octets else {
        return None;
    };
    let (count, behind) = behind.split_first_chunk::<8>()?;
    let (octets, rest) = behind.split_at_checked(number_of(count) as usize)?;
    Some(Record {
        tag: *tag,
        octets,
        rest,
    })
}

// An object that is there, by its digest and URI.
fn there_in(alloc: Global, octets: &[u8]) -> Result<Option<Known>, OutOfMemory>
    ensures some { IfOk result (λ o. IfSome o (spec.IsKnownIn (tagged THERE octets.now))) }
    ensures none { IfOk result (λ o. IsNone o
        → IsUnread (spec.IsKnownIn (tagged THERE octets.now))) }
{
    let Some((digest, uri)) = octets.split_at_checked(DIGEST) else {
        return Ok(None);
    };
    let Some(digest) = digest_in(alloc, digest)? else {
        return Ok(None);
    };
    match rsync_uri(alloc, uri)? {
        Some(uri) => Ok(Some(Known::new(uri, Some(digest)))),
        None => Ok(None),
    }
}

// What the octets under the tag say of an object.
fn one_in(alloc: Global, tag: u8, octets: &[u8]) -> Result<Option<Known>, OutOfMemory>
    ensures some { IfOk result (λ o. IfSome o (spec.IsKnownIn (tagged tag octets.now))) }
    ensures none { IfOk result (λ o. IsNone o
        → IsUnread (spec.IsKnownIn (tagged tag octets.now))) }
{
    match tag {
        THERE => there_in(alloc, octets),
        ABSENT => match rsync_uri(alloc, octets)? {
            Some(uri) => Ok(Some(Known::new(uri, None))),
            None => Ok(None),
        },
        _ => Ok(None),
    }
}

// What the octets say of objects, where they are such records.
fn all_in(alloc: Global, octets: &[u8]) -> Result<Option<Vec<Known>>, OutOfMemory>
    ensures some { IfOk result (λ o. IfSome o (λ list. spec.AreKnownIn octets.now list.items)) }
    ensures none { IfOk result (λ o. IsNone o → IsUnread (spec.AreKnownIn octets.now)) }
{
    let mut list = Vec::new(alloc);
    let mut rest = octets;
    while !rest.is_empty() {
        let Some(record) = record_at(rest) else {
            return Ok(None);
        };
        match one_in(alloc, record.tag, record.octets)? {
            Some(known) => list.push(known)?,
            None => return Ok(None),
        }
        rest = record.rest;
    }
    Ok(Some(list))
}

/// What the records say of objects.
pub(crate) fn known_in(alloc: Global, octets: &[u8]) -> Result<Vec<Known>, KeysRefusal>
    ensures ok { IfOk result (λ list. spec.AreKnownIn octets.now list.items) }
    ensures err { IfErr result (λ e. e ≢ out_of_memory
        → (e ≡ usage) × IsUnread (spec.AreKnownIn octets.now)) }
{
    match all_in(alloc, octets)? {
        Some(list) => Ok(list),
        None => Err(USAGE),
    }
}
