//! Several parts in one result: records, one behind the other.

ghost use Rattle.std.specs.Prelude.{◌≡◌, ◌∷◌, [], IfOk};
ghost use Rattle.rpki_external.specs.Records as records;
ghost use Rattle.rpki_c.specs.Records as spec;

use rpki_common::OutOfMemory;
use rpki_external::{Questions, push_record};
use std::alloc::Global;

// The digest of the questions in the records before.
const DIGEST: u8 = 19;

/// The records of questions, and behind them that of their digest.
pub(crate) fn asked_records(alloc: Global, questions: &Questions) -> Result<Vec<u8>, OutOfMemory>
    ensures { IfOk result (λ text.
        text.items ≡ records.records_of (spec.asked_records questions.now)) }
{
    let mut text = questions.to_octets(alloc)?;
    let digest = questions.digest(alloc)?;
    push_record(DIGEST, digest.as_slice(), &mut text)?;
    Ok(text)
}

/// One record alone.
pub(crate) fn one_record(alloc: Global, tag: u8, octets: &[u8]) -> Result<Vec<u8>, OutOfMemory>
    ensures { IfOk result (λ text.
        text.items ≡ records.records_of (records.tagged tag octets.now ∷ [])) }
{
    let mut text = Vec::new(alloc);
    push_record(tag, octets, &mut text)?;
    Ok(text)
}
