//! The extensions of a CRL.

ghost use Rattle.std.specs.Prelude.{◌≡◌};
ghost use Rattle.rpki_common.specs.Collecting.{once};
ghost use Rattle.rpki_der.specs.declared.mode.Mode.TheVariants.{Der};
ghost use Rattle.rpki_der.specs.Grammar.{wrapped};
ghost use Rattle.rpki_der.specs.Tags.{context};
ghost use Rattle.rpki_der.specs.Ticks.{TakesCounted};
ghost use Rattle.rpki_der.specs.InDer.{in_der, GivesCounted};
ghost use Rattle.rpki_base.specs.Serial.{serial};
ghost use Rattle.rpki_sigmsg.specs.CrlExtensions.{issuer_key, extension_list};

use rpki_base::{
    AUTHORITY_KEY_IDENTIFIER, CRL_NUMBER, Extension, FindsExtensions, KeyIdentifier, Serial,
    take_tagged_extensions_counted,
};
use rpki_der::{Cursor, DecodeError, Mode, Steps, Tag};
use std::alloc::Global;
use std::marker::Model;
use std::sync::ledger::Ledger;

/// What the known extensions say, as far as they were found.
///
/// In a clause it is these two.
#[derive(Drop)]
pub(crate) struct Found {
    /// The key identifier of the issuer.
    authority: Option<KeyIdentifier>,
    /// The number of the CRL.
    number: Option<Serial>,
}

impl Model for Found {
    ghost use Rattle.rpki_sigmsg.specs.CrlExtensions.{KnownExtensions};

    ghost Value = { KnownExtensions };

    ghost view = { λ f. (f.authority, f.number) };
}

impl Found {
    /// The key identifier of the issuer and the number of the CRL.
    pub(crate) fn parts(self) -> (Option<KeyIdentifier>, Option<Serial>)
        ensures { result ≡ self }
    {
        (self.authority, self.number)
    }
}

// The key identifier in the authorityKeyIdentifier that stands next.
fn take_issuer_key<L: Ledger>(
    alloc: Global,
    cursor: &mut Cursor<'_>,
    steps: &mut Steps<L>,
) -> Result<KeyIdentifier, DecodeError>
    ensures { TakesCounted 1 (issuer_key cursor.old.mode) (λ x. x)
        cursor.old cursor.new steps.old steps.new result }
{
    cursor.enter_counted(Tag::SEQUENCE, steps)?;
    let key = KeyIdentifier::take_under_counted(alloc, cursor, Tag::CTX_0, steps)?;
    cursor.leave_counted(steps)?;
    Ok(key)
}

// The issuer's key identifier, if none was found before.
fn add_authority<L: Ledger>(
    alloc: Global,
    octets: &[u8],
    found: Option<KeyIdentifier>,
    steps: &mut Steps<L>,
) -> Result<Option<KeyIdentifier>, DecodeError>
    ensures { GivesCounted 1 (once found (in_der (issuer_key Der) octets.now)) (λ x. x) octets.now
        steps.old steps.new result }
{
    if found.is_some() {
        return Err(DecodeError::Malformed);
    }
    let mut cursor = Cursor::new(alloc, Mode::Der, octets);
    let identifier = take_issuer_key(alloc, &mut cursor, steps)?;
    Ok(Some(identifier))
}

// The number of the CRL, if none was found before.
fn add_number<L: Ledger>(
    alloc: Global,
    octets: &[u8],
    found: Option<Serial>,
    steps: &mut Steps<L>,
) -> Result<Option<Serial>, DecodeError>
    ensures { GivesCounted 1 (once found (in_der serial octets.now)) (λ x. x) octets.now steps.old
        steps.new result }
{
    if found.is_some() {
        return Err(DecodeError::Malformed);
    }
    let mut cursor = Cursor::new(alloc, Mode::Der, octets);
    let number = Serial::take_from_counted(&mut cursor, steps)?;
    Ok(Some(number))
}

impl FindsExtensions for Found {
    ghost use Rattle.rpki_sigmsg.specs.CrlGathered.{add};

    ghost with = { add };

    fn found_with<L: Ledger>(
        self,
        alloc: Global,
        extension: &Extension<'_>,
        steps: &mut Steps<L>,
    ) -> Result<Found, DecodeError> {
        let Found { authority, number } = self;
        let value = extension.held();
        if extension.identifier == AUTHORITY_KEY_IDENTIFIER.as_slice() {
            let authority = add_authority(alloc, value, authority, steps)?;
            Ok(Found { authority, number })
        } else if extension.identifier == CRL_NUMBER.as_slice() {
            let number = add_number(alloc, value, number, steps)?;
            Ok(Found { authority, number })
        } else {
            Ok(Found { authority, number })
        }
    }
}

/// What the known ones of the extensions say that stand next under [0].
pub(crate) fn take_extensions<L: Ledger>(
    alloc: Global,
    cursor: &mut Cursor<'_>,
    steps: &mut Steps<L>,
) -> Result<Found, DecodeError>
    ensures { TakesCounted 2 (wrapped (context 0) (extension_list cursor.old.mode)) (λ known. known)
        cursor.old cursor.new steps.old steps.new result }
{
    let none = Found {
        authority: None,
        number: None,
    };
    take_tagged_extensions_counted(alloc, cursor, Tag::CTX_0, none, steps)
}
