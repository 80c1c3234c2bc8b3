//! Algorithm identifiers.

ghost use Rattle.std.specs.Prelude.{◌<◌};
ghost use Rattle.rpki_der.specs.Ticks.{TakesCounted};
ghost use Rattle.rpki_sigmsg.specs.Algorithm.{digest_algorithm, signature_algorithm, any_sequence};

use crate::object_identifiers::SHA256;
use rpki_base::RpkiSignatureAlgorithm;
use rpki_der::{
    Cursor, DecodeError, Steps, Tag, pass_rest_counted, take_oid_if_counted, take_opt_null_counted,
};
use std::sync::ledger::Ledger;

/// Passes the digest algorithm, which is SHA-256, with NULL or without parameters.
pub(crate) fn pass_digest_algorithm<L: Ledger>(
    cursor: &mut Cursor<'_>,
    steps: &mut Steps<L>,
) -> Result<(), DecodeError>
    ensures { TakesCounted 1 digest_algorithm (λ x. x)
        cursor.old cursor.new steps.old steps.new result }
{
    cursor.enter_counted(Tag::SEQUENCE, steps)?;
    take_oid_if_counted(cursor, &SHA256, steps)?;
    take_opt_null_counted(cursor, steps)?;
    cursor.leave_counted(steps)?;
    Ok(())
}

/// The algorithm of a signer's signature that stands next: rsaEncryption or sha256WithRSAEncryption, with NULL or without
/// parameters.
pub(crate) fn take_signature_algorithm<L: Ledger>(
    cursor: &mut Cursor<'_>,
    steps: &mut Steps<L>,
) -> Result<RpkiSignatureAlgorithm, DecodeError>
    ensures { TakesCounted 1 (signature_algorithm cursor.old.mode) (λ a. a)
        cursor.old cursor.new steps.old steps.new result }
{
    let mode = cursor.mode();
    let octets = cursor.capture_counted(steps)?;
    match RpkiSignatureAlgorithm::cms_take_from(mode, octets) {
        Some(algorithm) => Ok(algorithm),
        None => Err(DecodeError::Malformed),
    }
}

/// Passes any SEQUENCE.
pub(crate) fn pass_sequence<L: Ledger>(
    cursor: &mut Cursor<'_>,
    steps: &mut Steps<L>,
) -> Result<(), DecodeError>
    ensures { TakesCounted 1 any_sequence (λ x. x)
        cursor.old cursor.new steps.old steps.new result }
{
    cursor.enter_counted(Tag::SEQUENCE, steps)?;
    pass_rest_counted(cursor, steps)
}
