//! The text of a run.

ghost use Rattle.std.specs.Prelude.{◌≡◌, ◌<◌, ◌≤◌, ◌^◌, Some};
ghost use Rattle.std.specs.Fmt.{DisplaysOnOk};
ghost use Rattle.rpki_sets.specs.Kinds.{range_text, run_text};

use crate::numbers::Numbers;
use crate::prefix::prefix_length;
use crate::run::Run;
use std::fmt;

/// Writes two numbers with `-` between.
fn write_range<N: Numbers, W: fmt::Write>(f: &mut fmt::Formatter<W>, run: &Run) -> fmt::Result
    requires ordered { run.now.first ≤ run.now.last }
    requires within { run.now.last < 2 ^ N.kind.width }
    ensures { DisplaysOnOk W.Write.write_str_gives f.old result (Some (range_text N.kind run.now))
        f.new }
{
    N::write(f, run.first)?;
    f.write_str("-")?;
    N::write(f, run.last)
}

/// Writes a run: as a prefix where the kind has them and the run is one, as one number, or as two.
pub fn write_run<N: Numbers, W: fmt::Write>(f: &mut fmt::Formatter<W>, run: &Run) -> fmt::Result
    requires ordered { run.now.first ≤ run.now.last }
    requires within { run.now.last < 2 ^ N.kind.width }
    ensures { DisplaysOnOk W.Write.write_str_gives f.old result (Some (run_text N.kind run.now))
        f.new }
{
    if N::has_prefixes() {
        // For the proof: the laws of this kind of numbers.
        N::law();
        match prefix_length(N::width(), run) {
            Some(len) => {
                N::write(f, run.first)?;
                write!(f, "/{len}")
            }
            None => write_range::<N, W>(f, run),
        }
    } else if run.first == run.last {
        N::write(f, run.first)
    } else {
        write_range::<N, W>(f, run)
    }
}
