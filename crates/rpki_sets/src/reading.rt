//! The runs that a text stands for.

ghost use Rattle.std.specs.Prelude.{◌≡◌, Some, None, IfOk, IsErrOf};
ghost use Rattle.rpki_sets.specs.Texts.{read_all, at_commas};
ghost use Rattle.rpki_sets.specs.Kinds.{spaced_item, runs_of};

use crate::error::BlocksError;
use crate::item::read_item;
use crate::numbers::Numbers;
use crate::run::Run;
use crate::texts::{cut, trimmed};
use std::alloc::Global;

/// The run of one item, which may have spaces round it. None where the text is no item.
fn read_spaced_item<N: Numbers>(text: &[u8]) -> Option<Run>
    ensures { result ≡ spaced_item N.kind text.now }
{
    read_item::<N>(trimmed(text))
}

/// The runs of the items between commas.
fn read_parts<N: Numbers>(alloc: Global, text: &[u8]) -> Result<Vec<Run>, BlocksError>
    ensures runs { IfOk result (λ runs. read_all (spaced_item N.kind) (at_commas text.now)
        ≡ Some runs.items) }
    ensures malformed { IsErrOf result BlocksError.Malformed
        → read_all (spaced_item N.kind) (at_commas text.now) ≡ None }
{
    let mut runs = Vec::new(alloc);
    let mut rest = text;
    'parts: while let Some((part, more)) = cut(rest, b',') {
        let Some(run) = read_spaced_item::<N>(part) else {
            return Err(BlocksError::Malformed);
        };
        runs.push(run)?;
        rest = more;
    }
    let Some(last) = read_spaced_item::<N>(rest) else {
        return Err(BlocksError::Malformed);
    };
    runs.push(last)?;
    Ok(runs)
}

/// The runs that the items of a text stand for, in their order.
pub fn read_runs<N: Numbers>(alloc: Global, text: &[u8]) -> Result<Vec<Run>, BlocksError>
    ensures runs { IfOk result (λ runs. runs_of N.kind text.now ≡ Some runs.items) }
    ensures malformed { IsErrOf result BlocksError.Malformed → runs_of N.kind text.now ≡ None }
{
    if trimmed(text).is_empty() {
        return Ok(Vec::new(alloc));
    }
    read_parts::<N>(alloc, text)
}
