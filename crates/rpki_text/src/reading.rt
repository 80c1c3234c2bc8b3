//! All that a source has, up to a limit.

ghost use Rattle.std.specs.Prelude.{◌≡◌, ◌≤◌, ◌+◌, ◌++◌, length, IfOk, OnOk, OnErr, IfSome, IsErrOf};
ghost use Rattle.std.specs.Io.KnownBytes.{Consumes, IsAtEnd};
ghost use Rattle.rpki_common.specs.Causes.{Rose};
ghost use Rattle.rpki_text.specs.Source.{TakesExactly, TakesAtMost};
ghost use Rattle.rpki_text.specs.declared.reading.ReadAllError.TheVariants as variant;

use crate::traits::Source;
use std::alloc::{AllocError, AllocFailed, Global};

/// Why a source was not read to its end.
#[derive(Clone, Copy, Debug, PartialEq, Eq)]
pub enum ReadAllError {
    /// The source failed.
    Read,
    /// There are more octets than the limit allows.
    TooLong,
    /// Memory ran out.
    OutOfMemory,
}

impl From<AllocError> for ReadAllError {
    ghost from_gives = { λ _ e. e ≡ variant.OutOfMemory };

    fn from(_: AllocError) -> ReadAllError {
        ReadAllError::OutOfMemory
    }
}

impl<T: Drop> From<AllocFailed<T>> for ReadAllError {
    ghost from_gives = { λ _ e. e ≡ variant.OutOfMemory };

    fn from(_: AllocFailed<T>) -> ReadAllError {
        ReadAllError::OutOfMemory
    }
}

/// The most octets that one call reads.
const BLOCK: usize = 8192;

/// Adds `octets` behind `out`. Where room is missing, `out` grows by a quarter of its length, or by
/// a block if that is more, so the old room and the new one take at most 2.25 times what is held,
/// and a block.
fn append(out: &mut Vec<u8>, octets: &[u8]) -> Result<(), AllocError>
    ensures ok { OnOk result (out.new.items ≡ out.old.items ++ octets.now) }
    ensures err { OnErr result (out.new.items ≡ out.old.items) }
{
    if out.capacity() - out.len() < octets.len() {
        out.reserve_exact(octets.len().max(BLOCK).max(out.len() / 4))?;
    }
    out.extend_from_slice(octets)
}

/// Reads `source` to the end of input, to its first fault, or until one octet more than `limit` was
/// read. `limit` counts octets, and every number is allowed. Read is answered exactly where the
/// source failed, and TooLong where one octet more came.
///
/// What was read before an error is gone. How much memory it takes, no clause says: the octet past
/// the limit takes none, nor does the end of input, and while it reads, the result takes at most
/// 2.25 times the memory of the octets read, and a block.
pub fn read_all<I: Source>(
    alloc: Global,
    source: &mut I,
    limit: u64,
) -> Result<Vec<u8>, ReadAllError>
    // The result is all that there was to come.
    ensures whole { IfOk result (λ v. IfSome (I.rest source.old) (λ octets. v.items ≡ octets)) }
    ensures taken { IfOk result (λ v. Consumes (I.rest source.old) (I.rest source.new) v.items) }
    ensures end { OnOk result (IsAtEnd (I.rest source.new)) }
    ensures within { IfOk result (λ v. length v.items ≤ limit) }

    // A fault of the source is told, and nothing else is told as one.
    ensures cause { IsErrOf result ReadAllError.Read
        → Rose (I.faults source.old) (I.faults source.new) }
    ensures kept { ¬ (IsErrOf result ReadAllError.Read)
        → I.faults source.new ≡ I.faults source.old }
    ensures later { I.faults source.old ≤ I.faults source.new }

    // How much was read: never more than one octet past the limit, and that octet for `TooLong`
    // alone.
    ensures most { TakesAtMost (I.rest source.old) (I.rest source.new) (limit + 1) }
    ensures too_long { IsErrOf result ReadAllError.TooLong
        → TakesExactly (I.rest source.old) (I.rest source.new) (limit + 1) }
    ensures no_more { ¬ (IsErrOf result ReadAllError.TooLong)
        → TakesAtMost (I.rest source.old) (I.rest source.new) limit }
{
    let mut out = Vec::new(alloc);
    let mut block = [0u8; BLOCK];
    'reading: loop {
        let left = limit - out.len() as u64;
        // At most one octet more than is left of the limit, by which an input that is too long shows.
        let room = left.min(BLOCK as u64 - 1) as usize + 1;
        let Ok(count) = source.read(&mut block[..room]) else {
            return Err(ReadAllError::Read);
        };
        if count == 0 {
            return Ok(out);
        }
        if count as u64 > left {
            return Err(ReadAllError::TooLong);
        }
        append(&mut out, &block[..count])?;
    }
}
