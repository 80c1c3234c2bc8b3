//! Prefixes: the addresses that agree in their first bits.

ghost use Rattle.std.specs.Prelude.{◌≡◌, ◌<◌, ◌≤◌, ◌^◌};
ghost use Rattle.rpki_sets.specs.Prefixes.{prefix as prefix_of, prefix_length as prefix_length_of};

use crate::run::Run;

/// The addresses of `width` bits that agree with `address` in the first `len`.
pub fn prefix(width: u32, address: u128, len: u32) -> Run
    requires width { width ≤ 128 }
    requires len { len ≤ width }
    requires address { address < 2 ^ width }
    ensures { result ≡ prefix_of width address len }
{
    let free = width - len;
    if free == 128 {
        return Run {
            first: 0,
            last: u128::MAX,
        };
    }
    let size = 1u128 << free;
    let first = address / size * size;
    Run {
        first,
        last: first + (size - 1),
    }
}

/// The length of the prefix that is just this run. None where the run is no prefix.
pub fn prefix_length(width: u32, run: &Run) -> Option<u32>
    requires width { width ≤ 128 }
    requires ordered { run.now.first ≤ run.now.last }
    requires within { run.now.last < 2 ^ width }
    ensures { result ≡ prefix_length_of width run.now }
{
    let len = width.saturating_sub((run.last - run.first).count_ones());
    if prefix(width, run.first, len) == *run {
        Some(len)
    } else {
        None
    }
}
