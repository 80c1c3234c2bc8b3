//! Signer information.

ghost use Rattle.std.specs.Prelude.{◌<◌};
ghost use Rattle.rpki_der.specs.Grammar.{wrapped};
ghost use Rattle.rpki_der.specs.Tags.{set};
ghost use Rattle.rpki_der.specs.Ticks.{TakesCounted};
ghost use Rattle.rpki_sigmsg.specs.Signer.{signer_info};

use crate::algorithm::{pass_digest_algorithm, take_signature_algorithm};
use crate::attributes::{SignedAttributes, take_signed_attributes};
use crate::octets::take_held_octets;
use rpki_base::{KeyIdentifier, RpkiSignatureAlgorithm, Signature};
use rpki_der::{Cursor, DecodeError, Steps, Tag, take_integer_if_counted};
use std::alloc::Global;
use std::marker::Model;
use std::sync::ledger::Ledger;

/// What a signer's information says, with the octets of two of its parts as they stand in the message.
///
/// In a clause it is the record of these, with the octets as lists.
#[derive(Drop)]
pub(crate) struct SignerInfo<'a> {
    /// The signer's key identifier.
    pub(crate) identifier: KeyIdentifier,
    /// The octets of the signed attributes.
    pub(crate) attributes: &'a [u8],
    /// What the signed attributes say.
    pub(crate) said: SignedAttributes,
    /// The value that holds the signature.
    pub(crate) signature_value: &'a [u8],
    /// The signature of the attributes.
    pub(crate) signature: Signature<RpkiSignatureAlgorithm>,
}

impl<'a> Model for SignerInfo<'a> {
    ghost use Rattle.rpki_sigmsg.specs.Signer.{SignerFields};

    ghost Value = { SignerFields };

    ghost view = { λ s. record {
      identifier = s.identifier;
      attributes = s.attributes.now;
      said = s.said;
      signature_value = s.signature_value.now;
      signature = s.signature;
    } };
}

fn take_signer_info<'a, L: Ledger>(
    alloc: Global,
    cursor: &mut Cursor<'a>,
    steps: &mut Steps<L>,
) -> Result<SignerInfo<'a>, DecodeError>
    ensures { TakesCounted 1 (signer_info cursor.old.mode) (λ x. x)
        cursor.old cursor.new steps.old steps.new result }
{
    cursor.enter_counted(Tag::SEQUENCE, steps)?;
    take_integer_if_counted(cursor, 3, steps)?;
    let identifier = KeyIdentifier::take_under_counted(alloc, cursor, Tag::CTX_0, steps)?;
    pass_digest_algorithm(cursor, steps)?;
    let (attributes, said) = take_signed_attributes(alloc, cursor, steps)?;
    let algorithm = take_signature_algorithm(cursor, steps)?;
    let (signature_value, value) = take_held_octets(alloc, cursor, steps)?;
    cursor.leave_counted(steps)?;
    let signature = Signature::new(algorithm, value);
    Ok(SignerInfo {
        identifier,
        attributes,
        said,
        signature_value,
        signature,
    })
}

/// What the one signer's information says.
pub(crate) fn take_signer_infos<'a, L: Ledger>(
    alloc: Global,
    cursor: &mut Cursor<'a>,
    steps: &mut Steps<L>,
) -> Result<SignerInfo<'a>, DecodeError>
    ensures { TakesCounted 1 (wrapped set (signer_info cursor.old.mode)) (λ x. x)
        cursor.old cursor.new steps.old steps.new result }
{
    cursor.enter_counted(Tag::SET, steps)?;
    let signer = take_signer_info(alloc, cursor, steps)?;
    cursor.leave_counted(steps)?;
    Ok(signer)
}
