//! A line that is written.

ghost use Rattle.std.specs.Prelude.{◌≡◌, ◌++◌, ◌∷◌, [], IfOk};

use rpki_common::OutOfMemory;
use std::alloc::Global;

/// The octets of a text, and a line feed behind them.
pub fn line_of(text: Vec<u8>) -> Result<Vec<u8>, OutOfMemory>
    ensures { IfOk result (λ line. line.items ≡ text.items ++ 10 ∷ []) }
{
    let mut line = text;
    line.push(b'\n')?;
    Ok(line)
}

/// The octets of a text that is lent, and a line feed behind them.
pub(crate) fn line_of_lent(alloc: Global, text: &[u8]) -> Result<Vec<u8>, OutOfMemory>
    ensures { IfOk result (λ line. line.items ≡ text.now ++ 10 ∷ []) }
{
    let mut line = Vec::with_capacity(alloc, text.len().saturating_add(1))?;
    line.extend_from_slice(text)?;
    line_of(line)
}
