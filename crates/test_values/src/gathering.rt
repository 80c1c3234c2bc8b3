//! Counted calls that gather extensions, and that leave signed data.

use crate::shown::tag_of;
use rpki_base::{
    Extension, FindsExtensions, RpkiSignatureAlgorithm, SignatureAlgorithm, leave_signature,
    take_extension_counted, take_extensions_counted, take_tagged_extensions_counted,
};
use rpki_der::{Cursor, DecodeError, Steps, Writer};
use std::alloc::Global;
use std::marker::Model;
use std::sync::ledger::Ledger;
use test_stored::{Fields, Step};

/// The octets of the extensions that were found: the identifier and the value of each.
#[derive(Drop)]
struct Found {
    octets: Vec<u8>,
}

impl Model for Found {
    ghost use Rattle.std.specs.Prelude.{ℕ, List};

    ghost Value = { List ℕ };

    ghost view = { λ f. f.octets.items };
}

impl FindsExtensions for Found {
    ghost use Rattle.std.specs.Prelude.{◌++◌, Some};

    ghost with = { λ found e. Some ((found ++ e.identifier) ++ e.value) };

    fn found_with<L: Ledger>(
        self,
        _alloc: Global,
        extension: &Extension<'_>,
        _steps: &mut Steps<L>,
    ) -> Result<Found, DecodeError> {
        let Found { mut octets } = self;
        octets.extend_from_slice(extension.identifier)?;
        octets.extend_from_slice(&extension.value)?;
        Ok(Found { octets })
    }
}

fn nothing(alloc: Global) -> Found {
    Found {
        octets: Vec::new(alloc),
    }
}

fn shown(alloc: Global, found: Result<Found, DecodeError>) -> Result<Fields, DecodeError> {
    Ok(Fields::one(alloc, &found?.octets)?)
}

// What is found in two extensions that stand one after the other.
fn two<L: Ledger>(
    alloc: Global,
    cursor: &mut Cursor<'_>,
    steps: &mut Steps<L>,
) -> Result<Fields, DecodeError> {
    let first = take_extension_counted(alloc, cursor, steps)?;
    let second = take_extension_counted(alloc, cursor, steps)?;
    let found = nothing(alloc).found_with(alloc, &first, steps)?;
    shown(alloc, found.found_with(alloc, &second, steps))
}

fn tagged<L: Ledger>(
    alloc: Global,
    cursor: &mut Cursor<'_>,
    tag: &[u8],
    steps: &mut Steps<L>,
) -> Result<Fields, DecodeError> {
    let tag = tag_of(tag)?;
    let found = nothing(alloc);
    shown(
        alloc,
        take_tagged_extensions_counted(alloc, cursor, tag, found, steps),
    )
}

// The algorithm, as a certificate has it, and the octets of the signature.
fn signature<L: Ledger>(
    alloc: Global,
    cursor: &mut Cursor<'_>,
    steps: &mut Steps<L>,
) -> Result<Fields, DecodeError> {
    if cursor.depth() == 0 {
        return Err(DecodeError::Malformed);
    }
    let signature = leave_signature::<RpkiSignatureAlgorithm, L>(alloc, cursor, steps)?;
    let mut out = Writer::new(alloc);
    signature.algorithm().x509_encode(&mut out)?;
    let mut fields = Fields::one(alloc, out.as_slice())?;
    fields.octets(signature.value().as_slice())?;
    Ok(fields)
}

/// What a call of this module answers; None where the step is none.
pub fn answer<L: Ledger>(
    alloc: Global,
    cursor: &mut Cursor<'_>,
    step: &Step<'_>,
    steps: &mut Steps<L>,
) -> Option<Result<Fields, DecodeError>> {
    match step.call {
        "two_extensions" => Some(two(alloc, cursor, steps)),
        "extensions" => Some(shown(
            alloc,
            take_extensions_counted(alloc, cursor, nothing(alloc), steps),
        )),
        "extensions_under" => Some(tagged(alloc, cursor, &step.argument, steps)),
        "signature" => Some(signature(alloc, cursor, steps)),
        _ => None,
    }
}
