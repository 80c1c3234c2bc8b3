//! The extensions of identity certificates.

ghost use Rattle.std.specs.Prelude.{◌≡◌, ◌≢◌, []};
ghost use Rattle.rpki_common.specs.Collecting.{once};
ghost use Rattle.rpki_der.specs.declared.mode.Mode.TheVariants.{Der};
ghost use Rattle.rpki_der.specs.Grammar.{optional, wrapped};
ghost use Rattle.rpki_der.specs.Tags.{context};
ghost use Rattle.rpki_der.specs.Ticks.{TakesCounted, TakesPartCounted, TakesRestCounted};
ghost use Rattle.rpki_der.specs.InDer.{in_der, GivesCounted};
ghost use Rattle.rpki_base.specs.KeyIdentifier.{key_identifier, key_identifier_under};
ghost use Rattle.rpki_idcert.specs.Extensions.{path_length, basic_constraints, authority_key, extension_list};
ghost use Rattle.rpki_idcert.specs.Gathered.{complete};
ghost use Rattle.rpki_idcert.specs.Shown.{key_shown};

use rpki_base::{
    AUTHORITY_KEY_IDENTIFIER, BASIC_CONSTRAINTS, Extension, FindsExtensions, KeyIdentifier,
    SUBJECT_KEY_IDENTIFIER, take_tagged_extensions_counted,
};
use rpki_der::{
    Cursor, DecodeError, Item, Mode, Steps, Tag, pass_rest_counted, take_opt_boolean_counted,
    take_u64_counted,
};
use std::alloc::Global;
use std::marker::Model;
use std::sync::ledger::Ledger;

/// What the known extensions say.
///
/// In a clause it is the record of these three.
#[derive(Clone, Copy)]
pub(crate) struct Known {
    /// The key identifier of the subject.
    subject: KeyIdentifier,
    /// Whether the subject is an authority, if that is said.
    basic_ca: Option<bool>,
    /// The key identifier of the issuer, if it is there.
    authority: Option<KeyIdentifier>,
}

impl Model for Known {
    ghost use Rattle.rpki_idcert.specs.Extensions.{KnownExtensions};

    ghost Value = { KnownExtensions };

    ghost view = { λ k. record {
      subject = k.subject;
      basic_ca = k.basic_ca;
      authority = k.authority;
    } };

    ghost inverse = { λ k. record {
      subject = k.subject;
      basic_ca = k.basic_ca;
      authority = k.authority;
    } };
}

impl Known {
    /// The key identifier of the subject, whether the subject is an authority, and the key identifier of the issuer.
    pub(crate) fn parts(self) -> (KeyIdentifier, Option<bool>, Option<KeyIdentifier>)
        ensures { result ≡ (self.subject, self.basic_ca, self.authority) }
    {
        (self.subject, self.basic_ca, self.authority)
    }
}

// What was found so far.
#[derive(Drop)]
struct Found {
    subject: Option<KeyIdentifier>,
    basic_ca: Option<bool>,
    authority: Option<KeyIdentifier>,
}

impl Model for Found {
    ghost use Rattle.rpki_idcert.specs.Gathered.{FoundSoFar};

    ghost Value = { FoundSoFar };

    ghost view = { λ f. (f.subject, (f.basic_ca, f.authority)) };
}

// Passes the length of a path, if it stands next, and goes out of the value that it ends.
fn leave_path_length<L: Ledger>(
    cursor: &mut Cursor<'_>,
    steps: &mut Steps<L>,
) -> Result<(), DecodeError>
    requires { cursor.old.levels ≢ [] }
    ensures { TakesRestCounted 1 0 path_length (λ x. x)
        cursor.old cursor.new steps.old steps.new result }
{
    if cursor.end() {
        return cursor.leave_counted(steps);
    }
    take_u64_counted(cursor, steps)?;
    cursor.leave_counted(steps)
}

// Whether the basicConstraints that stand next say that the subject is an authority.
fn take_basic_constraints<L: Ledger>(
    cursor: &mut Cursor<'_>,
    steps: &mut Steps<L>,
) -> Result<bool, DecodeError>
    ensures { TakesCounted 1 (basic_constraints cursor.old.mode) (λ x. x)
        cursor.old cursor.new steps.old steps.new result }
{
    cursor.enter_counted(Tag::SEQUENCE, steps)?;
    let ca = take_opt_boolean_counted(cursor, steps)?;
    leave_path_length(cursor, steps)?;
    Ok(ca.unwrap_or(false))
}

// The key identifier that a value shows, in DER.
fn key_shown(item: &Item<'_>) -> Option<KeyIdentifier>
    ensures { result ≡ key_shown item.now }
{
    if item.constructed {
        None
    } else {
        KeyIdentifier::from_octets(item.content)
    }
}

// The key identifier under [0] in DER, if a value with that tag stands next.
fn take_opt_key_identifier<L: Ledger>(
    cursor: &mut Cursor<'_>,
    steps: &mut Steps<L>,
) -> Result<Option<KeyIdentifier>, DecodeError>
    ensures { TakesPartCounted 1 1 (optional (context 0) (key_identifier_under (context 0) Der))
        (λ x. x) cursor.old cursor.new steps.old steps.new result }
{
    match cursor.take_opt_if_counted(Tag::CTX_0, steps)? {
        None => Ok(None),
        Some(item) => match key_shown(&item) {
            Some(value) => Ok(Some(value)),
            None => Err(DecodeError::Malformed),
        },
    }
}

// The key identifier in the authorityKeyIdentifier that stands next, if it is there.
fn take_authority_key<L: Ledger>(
    cursor: &mut Cursor<'_>,
    steps: &mut Steps<L>,
) -> Result<Option<KeyIdentifier>, DecodeError>
    ensures { TakesCounted 1 authority_key (λ x. x)
        cursor.old cursor.new steps.old steps.new result }
{
    cursor.enter_counted(Tag::SEQUENCE, steps)?;
    let key = take_opt_key_identifier(cursor, steps)?;
    pass_rest_counted(cursor, steps)?;
    Ok(key)
}

// The subject's key identifier, if none was found before.
fn add_subject<L: Ledger>(
    alloc: Global,
    octets: &[u8],
    found: Option<KeyIdentifier>,
    steps: &mut Steps<L>,
) -> Result<Option<KeyIdentifier>, DecodeError>
    ensures { GivesCounted 1 (once found (in_der (key_identifier Der) octets.now)) (λ x. x)
        octets.now steps.old steps.new result }
{
    if found.is_some() {
        return Err(DecodeError::Malformed);
    }
    let mut cursor = Cursor::new(alloc, Mode::Der, octets);
    let identifier = KeyIdentifier::take_from_counted(alloc, &mut cursor, steps)?;
    Ok(Some(identifier))
}

// Whether the subject is an authority, if that was not said before.
fn add_ca<L: Ledger>(
    alloc: Global,
    octets: &[u8],
    found: Option<bool>,
    steps: &mut Steps<L>,
) -> Result<Option<bool>, DecodeError>
    ensures { GivesCounted 1 (once found (in_der (basic_constraints Der) octets.now)) (λ x. x)
        octets.now steps.old steps.new result }
{
    if found.is_some() {
        return Err(DecodeError::Malformed);
    }
    let mut cursor = Cursor::new(alloc, Mode::Der, octets);
    let ca = take_basic_constraints(&mut cursor, steps)?;
    Ok(Some(ca))
}

// The issuer's key identifier, if it is there.
fn read_authority<L: Ledger>(
    alloc: Global,
    octets: &[u8],
    steps: &mut Steps<L>,
) -> Result<Option<KeyIdentifier>, DecodeError>
    ensures { GivesCounted 1 (in_der authority_key octets.now) (λ x. x) octets.now steps.old
        steps.new result }
{
    let mut cursor = Cursor::new(alloc, Mode::Der, octets);
    take_authority_key(&mut cursor, steps)
}

impl FindsExtensions for Found {
    ghost use Rattle.rpki_idcert.specs.Gathered.{add};

    ghost with = { add };

    fn found_with<L: Ledger>(
        self,
        alloc: Global,
        extension: &Extension<'_>,
        steps: &mut Steps<L>,
    ) -> Result<Found, DecodeError> {
        let Found {
            mut subject,
            mut basic_ca,
            mut authority,
        } = self;
        let value = extension.held();
        if extension.identifier == SUBJECT_KEY_IDENTIFIER.as_slice() {
            subject = add_subject(alloc, value, subject, steps)?;
        } else if extension.identifier == BASIC_CONSTRAINTS.as_slice() {
            basic_ca = add_ca(alloc, value, basic_ca, steps)?;
        } else if extension.identifier == AUTHORITY_KEY_IDENTIFIER.as_slice() {
            authority = read_authority(alloc, value, steps)?;
        }
        Ok(Found {
            subject,
            basic_ca,
            authority,
        })
    }
}

// What was found, if the subject's key identifier was.
fn all_found(found: Found) -> Option<Known>
    ensures { result ≡ complete found }
{
    let subject = found.subject?;
    Some(Known {
        subject,
        basic_ca: found.basic_ca,
        authority: found.authority,
    })
}

/// What the known ones of the extensions say that stand next under [3].
pub(crate) fn take_extensions<L: Ledger>(
    alloc: Global,
    cursor: &mut Cursor<'_>,
    steps: &mut Steps<L>,
) -> Result<Known, DecodeError>
    ensures { TakesCounted 2 (wrapped (context 3) (extension_list cursor.old.mode)) (λ x. x)
        cursor.old cursor.new steps.old steps.new result }
{
    let none = Found {
        subject: None,
        basic_ca: None,
        authority: None,
    };
    let found = take_tagged_extensions_counted(alloc, cursor, Tag::CTX_3, none, steps)?;
    match all_found(found) {
        Some(known) => Ok(known),
        None => Err(DecodeError::Malformed),
    }
}
