//! The extensions that a request asks for.

ghost use Rattle.rpki_common.specs.Collecting.{once};
ghost use Rattle.rpki_der.specs.declared.mode.Mode.TheVariants.{Der};
ghost use Rattle.rpki_der.specs.Ticks.{TakesCounted};
ghost use Rattle.rpki_der.specs.InDer.{in_der, GivesCounted};
ghost use Rattle.rpki_cert.specs.KeyUsage.{key_usage};
ghost use Rattle.rpki_cert.specs.ExtendedKeyUsage.{extended_key_usage};
ghost use Rattle.rpki_cert.specs.Access.{subject_info_access};
ghost use Rattle.rpki_cert.specs.Extensions.{authority, extension_list};
ghost use Rattle.rpki_cert.specs.Gathered.{complete};

use crate::access::{Access, take_subject_info_access};
use crate::extended_key_usage::{ExtendedKeyUsage, take_extended_key_usage};
use crate::key_usage::{KeyUsage, take_key_usage};
use crate::object_identifiers::{EXTENDED_KEY_USAGE, KEY_USAGE, SUBJECT_INFO_ACCESS};
use rpki_base::{BASIC_CONSTRAINTS, Extension, FindsExtensions, take_extensions_counted};
use rpki_der::{Cursor, DecodeError, Mode, Steps, Tag, take_opt_boolean_counted};
use std::alloc::Global;
use std::marker::Model;
use std::sync::ledger::Ledger;

/// What the extensions say, as far as they were found.
///
/// In a clause it is what each of them says.
#[derive(Drop)]
pub(crate) struct Requested {
    /// Whether the subject is to be an authority.
    pub(crate) basic_ca: Option<bool>,
    /// What the key may be used for.
    pub(crate) key_usage: Option<KeyUsage>,
    /// For what purposes it is used.
    pub(crate) extended_key_usage: Option<ExtendedKeyUsage>,
    /// Where the subject publishes.
    pub(crate) access: Option<Access>,
}

impl Model for Requested {
    ghost use Rattle.rpki_cert.specs.Gathered.{FoundSoFar};

    ghost Value = { FoundSoFar };

    ghost view = { λ r. (tt, (r.basic_ca, (r.key_usage, (r.extended_key_usage, r.access)))) };
}

// Whether the basicConstraints that stand next say that the subject is to be an authority.
fn take_authority<L: Ledger>(
    cursor: &mut Cursor<'_>,
    steps: &mut Steps<L>,
) -> Result<bool, DecodeError>
    ensures { TakesCounted 1 (authority cursor.old.mode) (λ x. x)
        cursor.old cursor.new steps.old steps.new result }
{
    cursor.enter_counted(Tag::SEQUENCE, steps)?;
    let ca = take_opt_boolean_counted(cursor, steps)?;
    cursor.leave_counted(steps)?;
    Ok(ca.unwrap_or(false))
}

// Whether the subject is to be an authority, if that was not said before.
fn add_authority<L: Ledger>(
    alloc: Global,
    octets: &[u8],
    found: Option<bool>,
    steps: &mut Steps<L>,
) -> Result<Option<bool>, DecodeError>
    ensures { GivesCounted 1 (once found (in_der (authority Der) octets.now)) (λ x. x)
        octets.now steps.old steps.new result }
{
    if found.is_some() {
        return Err(DecodeError::Malformed);
    }
    let mut cursor = Cursor::new(alloc, Mode::Der, octets);
    let ca = take_authority(&mut cursor, steps)?;
    Ok(Some(ca))
}

// What the key may be used for, if that was not said before.
fn add_usage<L: Ledger>(
    alloc: Global,
    octets: &[u8],
    found: Option<KeyUsage>,
    steps: &mut Steps<L>,
) -> Result<Option<KeyUsage>, DecodeError>
    ensures { GivesCounted 1 (once found (in_der key_usage octets.now)) (λ x. x)
        octets.now steps.old steps.new result }
{
    if found.is_some() {
        return Err(DecodeError::Malformed);
    }
    let mut cursor = Cursor::new(alloc, Mode::Der, octets);
    let usage = take_key_usage(&mut cursor, steps)?;
    Ok(Some(usage))
}

// For what purposes the key is used, if that was not said before.
fn add_purposes<L: Ledger>(
    alloc: Global,
    octets: &[u8],
    found: Option<ExtendedKeyUsage>,
    steps: &mut Steps<L>,
) -> Result<Option<ExtendedKeyUsage>, DecodeError>
    ensures { GivesCounted 1 (once found (in_der extended_key_usage octets.now)) (λ x. x)
        octets.now steps.old steps.new result }
{
    if found.is_some() {
        return Err(DecodeError::Malformed);
    }
    let mut cursor = Cursor::new(alloc, Mode::Der, octets);
    let purposes = take_extended_key_usage(alloc, &mut cursor, steps)?;
    Ok(Some(purposes))
}

// Where the subject publishes, if that was not said before.
fn add_access<L: Ledger>(
    alloc: Global,
    octets: &[u8],
    found: Option<Access>,
    steps: &mut Steps<L>,
) -> Result<Option<Access>, DecodeError>
    ensures { GivesCounted 1 (once found (in_der subject_info_access octets.now)) (λ x. x)
        octets.now steps.old steps.new result }
{
    if found.is_some() {
        return Err(DecodeError::Malformed);
    }
    let mut cursor = Cursor::new(alloc, Mode::Der, octets);
    let access = take_subject_info_access(alloc, &mut cursor, steps)?;
    Ok(Some(access))
}

impl FindsExtensions for Requested {
    ghost use Rattle.rpki_cert.specs.Gathered.{add};

    ghost with = { add };

    fn found_with<L: Ledger>(
        self,
        alloc: Global,
        extension: &Extension<'_>,
        steps: &mut Steps<L>,
    ) -> Result<Requested, DecodeError> {
        let Requested {
            mut basic_ca,
            mut key_usage,
            mut extended_key_usage,
            mut access,
        } = self;
        let value = extension.held();
        if extension.identifier == BASIC_CONSTRAINTS.as_slice() {
            basic_ca = add_authority(alloc, value, basic_ca, steps)?;
        } else if extension.identifier == KEY_USAGE.as_slice() {
            key_usage = add_usage(alloc, value, key_usage, steps)?;
        } else if extension.identifier == EXTENDED_KEY_USAGE.as_slice() {
            extended_key_usage = add_purposes(alloc, value, extended_key_usage, steps)?;
        } else if extension.identifier == SUBJECT_INFO_ACCESS.as_slice() {
            access = add_access(alloc, value, access, steps)?;
        } else {
            return Err(DecodeError::Malformed);
        }
        Ok(Requested {
            basic_ca,
            key_usage,
            extended_key_usage,
            access,
        })
    }
}

/// What the extensions say that stand next in a SEQUENCE, each at most once and no others. It ticks once for each header and each end
/// mark that it reads.
pub(crate) fn take_requested<L: Ledger>(
    alloc: Global,
    cursor: &mut Cursor<'_>,
    steps: &mut Steps<L>,
) -> Result<Requested, DecodeError>
    ensures { TakesCounted 2 (extension_list cursor.old.mode) (λ r. complete r)
        cursor.old cursor.new steps.old steps.new result }
{
    let none = Requested {
        basic_ca: None,
        key_usage: None,
        extended_key_usage: None,
        access: None,
    };
    take_extensions_counted(alloc, cursor, none, steps)
}
