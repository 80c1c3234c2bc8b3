//! Items of a text: numbers, ranges and prefixes.

ghost use Rattle.std.specs.Prelude.{◌≡◌};
ghost use Rattle.rpki_sets.specs.Kinds.{range, prefix_of, item, run_from as run_from_of};

use crate::numbers::Numbers;
use crate::prefix::prefix;
use crate::run::Run;
use crate::texts::{cut, decimal_below};

/// The run between two ends. None where the first is above the second.
fn run_from(first: u128, last: u128) -> Option<Run>
    ensures { result ≡ run_from_of first last }
{
    if first <= last {
        Some(Run { first, last })
    } else {
        None
    }
}

/// One number, or two with `-` between. None where the text is neither, or the first is above the second.
fn read_range<N: Numbers>(text: &[u8]) -> Option<Run>
    ensures { result ≡ range N.kind text.now }
{
    match cut(text, b'-') {
        Some((first, last)) => run_from(N::read(first)?, N::read(last)?),
        None => {
            let number = N::read(text)?;
            run_from(number, number)
        }
    }
}

/// The prefix of an address and a length. None where the texts are not these.
fn read_prefix<N: Numbers>(address: &[u8], len: &[u8]) -> Option<Run>
    ensures { result ≡ prefix_of N.kind (address.now, len.now) }
{
    let address = N::read(address)?;
    // For the proof: the laws of this kind of numbers.
    N::law();
    let width = N::width();
    let len = decimal_below(u64::from(width) + 1, len)?;
    Some(prefix(width, address, len as u32))
}

/// The run that one item stands for. None where the text is no item.
pub fn read_item<N: Numbers>(text: &[u8]) -> Option<Run>
    ensures { result ≡ item N.kind text.now }
{
    if !N::has_prefixes() {
        return read_range::<N>(text);
    }
    match cut(text, b'/') {
        Some((address, len)) => read_prefix::<N>(address, len),
        None => read_range::<N>(text),
    }
}
