//! Where a subject publishes.

ghost use Rattle.std.specs.Prelude.{◌≡◌, Some, IfOk};
ghost use Rattle.std.specs.Option.{option_copied};
ghost use Rattle.rpki_der.specs.Grammar.{so};
ghost use Rattle.rpki_der.specs.Tags.{context};
ghost use Rattle.rpki_der.specs.Ticks.{TakesCounted};
ghost use Rattle.rpki_cert.specs.Access.{lawful, located, either, uri_location, access_description, subject_info_access};
ghost use Rattle.rpki_cert.specs.Gathered.{with_description};

use crate::object_identifiers::{CA_REPOSITORY, RPKI_MANIFEST, RPKI_NOTIFY};
use rpki_der::{
    Cursor, DecodeError, OutOfMemory, Steps, Tag, take_oid_counted, take_whole_primitive,
};
use rpki_text::uri::{Error, Https, Rsync, Uri, UriKind};
use std::alloc::Global;
use std::marker::Model;
use std::sync::ledger::Ledger;

/// Where a subject publishes (RFC 5280, 4.2.2.2).
///
/// In a clause it is the record of the three.
#[derive(Drop)]
pub(crate) struct Access {
    /// Where the objects of an authority are.
    pub(crate) ca_repository: Option<Rsync>,
    /// Where its manifest is.
    pub(crate) rpki_manifest: Option<Rsync>,
    /// Where changes are notified.
    pub(crate) rpki_notify: Option<Https>,
}

impl Model for Access {
    ghost use Rattle.rpki_cert.specs.Access.{AccessFields};

    ghost Value = { AccessFields };

    ghost view = { λ a. record {
      ca_repository = a.ca_repository;
      rpki_manifest = a.rpki_manifest;
      rpki_notify = a.rpki_notify;
    } };
}

impl Access {
    /// An equal value, whose URIs share their octets with these.
    pub(crate) fn clone(&self, alloc: Global) -> Result<Access, OutOfMemory>
        ensures { IfOk result (λ a. a ≡ self.now) }
    {
        let ca_repository = copied(alloc, &self.ca_repository)?;
        let rpki_manifest = copied(alloc, &self.rpki_manifest)?;
        let rpki_notify = copied(alloc, &self.rpki_notify)?;
        Ok(Access {
            ca_repository,
            rpki_manifest,
            rpki_notify,
        })
    }
}

// An equal URI, if one is there.
fn copied<K: UriKind>(alloc: Global, uri: &Option<Uri<K>>) -> Result<Option<Uri<K>>, OutOfMemory>
    ensures { IfOk result (λ u. u ≡ uri.now) }
{
    match uri {
        None => Ok(None),
        Some(uri) => Ok(Some(uri.clone(alloc)?)),
    }
}

// What a description says: the contents octets of the object identifier, and the octets of a uniform resource identifier.
//
// In a clause it is the record of the two, with the octets as lists.
#[derive(Drop)]
struct AccessDescription<'a> {
    method: &'a [u8],
    location: Option<&'a [u8]>,
}

impl<'a> Model for AccessDescription<'a> {
    ghost use Rattle.std.specs.Option.{option_copied};
    ghost use Rattle.rpki_cert.specs.Access.{Description};

    ghost Value = { Description };

    ghost view = { λ d. record {
      method = d.method.now;
      location = option_copied d.location;
    } };
}

/// The tag of a uniform resource identifier among general names, [6].
pub(crate) fn uri_tag() -> Tag
    ensures { result ≡ context 6 }
{
    match Tag::new(&[0x86]) {
        Some(tag) => tag,
        None => unreachable!(),
    }
}

// The location that stands next: the octets of a uniform resource identifier, or None for a name of another form. It ticks once for
// each header and each end mark in it; the first header is read a second time.
fn take_location<'a, L: Ledger>(
    cursor: &mut Cursor<'a>,
    steps: &mut Steps<L>,
) -> Result<Option<&'a [u8]>, DecodeError>
    ensures { TakesCounted 1 uri_location (λ x. option_copied x)
        cursor.old cursor.new steps.old steps.new result }
{
    let mode = cursor.mode();
    let octets = cursor.capture_counted(steps)?;
    Ok(take_whole_primitive(mode, octets, uri_tag()))
}

// The description that stands next.
fn take_description<'a, L: Ledger>(
    cursor: &mut Cursor<'a>,
    steps: &mut Steps<L>,
) -> Result<AccessDescription<'a>, DecodeError>
    ensures { TakesCounted 1 access_description (λ d. d)
        cursor.old cursor.new steps.old steps.new result }
{
    cursor.enter_counted(Tag::SEQUENCE, steps)?;
    let method = take_oid_counted(cursor, steps)?;
    let location = take_location(cursor, steps)?;
    cursor.leave_counted(steps)?;
    Ok(AccessDescription { method, location })
}

// The URI of the kind that the octets are, if they are one.
fn lawful<K: UriKind>(alloc: Global, octets: &[u8]) -> Result<Option<Uri<K>>, OutOfMemory>
    ensures { IfOk result (λ u. u ≡ lawful K.kind octets.now) }
{
    let Ok(text) = str::from_utf8(octets) else {
        return Ok(None);
    };
    match Uri::from_str(alloc, text) {
        Ok(uri) => Ok(Some(uri)),
        Err(Error::OutOfMemory) => Err(OutOfMemory),
        Err(_) => Ok(None),
    }
}

// The URI of the kind at which this is accessed, if the description gives one.
fn located<K: UriKind>(
    alloc: Global,
    method: &[u8],
    description: &AccessDescription<'_>,
) -> Result<Option<Uri<K>>, OutOfMemory>
    ensures { IfOk result (λ u. u ≡ located method.now K.kind description.now) }
{
    if description.method != method {
        return Ok(None);
    }
    match description.location {
        None => Ok(None),
        Some(octets) => lawful(alloc, octets),
    }
}

// What was found before, or the URI of the kind at which this is accessed.
#[tactic(auto, unfolding(crate::specs::Access::either))]
fn or_located<K: UriKind>(
    alloc: Global,
    found: Option<Uri<K>>,
    method: &[u8],
    description: &AccessDescription<'_>,
) -> Result<Option<Uri<K>>, OutOfMemory>
    ensures { IfOk result (λ u. u ≡ either found (located method.now K.kind description.now)) }
{
    match found {
        Some(uri) => Ok(Some(uri)),
        None => located(alloc, method, description),
    }
}

// What was found before, and what one more description says.
#[tactic(auto, unfolding(crate::specs::Gathered::with_description))]
fn with_description(
    alloc: Global,
    found: Access,
    description: &AccessDescription<'_>,
) -> Result<Access, OutOfMemory>
    ensures { IfOk result (λ a. with_description found description.now ≡ Some a) }
{
    let Access {
        ca_repository,
        rpki_manifest,
        rpki_notify,
    } = found;
    let ca_repository = or_located(alloc, ca_repository, &CA_REPOSITORY, description)?;
    let rpki_manifest = or_located(alloc, rpki_manifest, &RPKI_MANIFEST, description)?;
    let rpki_notify = or_located(alloc, rpki_notify, &RPKI_NOTIFY, description)?;
    Ok(Access {
        ca_repository,
        rpki_manifest,
        rpki_notify,
    })
}

// What was found before, and what the description says that stands next.
fn take_with<L: Ledger>(
    alloc: Global,
    cursor: &mut Cursor<'_>,
    found: Access,
    steps: &mut Steps<L>,
) -> Result<Access, DecodeError>
    ensures { TakesCounted 1 (so access_description (with_description found)) (λ a. a)
        cursor.old cursor.new steps.old steps.new result }
{
    let description = take_description(cursor, steps)?;
    let found = with_description(alloc, found, &description)?;
    Ok(found)
}

/// What the descriptions say that stand next: of each method the first location counts that is a lawful URI of its kind. It ticks
/// once for each header and each end mark in them.
pub(crate) fn take_subject_info_access<L: Ledger>(
    alloc: Global,
    cursor: &mut Cursor<'_>,
    steps: &mut Steps<L>,
) -> Result<Access, DecodeError>
    ensures { TakesCounted 1 subject_info_access (λ a. a)
        cursor.old cursor.new steps.old steps.new result }
{
    cursor.enter_counted(Tag::SEQUENCE, steps)?;
    let mut found = Access {
        ca_repository: None,
        rpki_manifest: None,
        rpki_notify: None,
    };
    'descriptions: while !cursor.end() {
        found = take_with(alloc, cursor, found, steps)?;
    }
    cursor.leave_counted(steps)?;
    Ok(found)
}
