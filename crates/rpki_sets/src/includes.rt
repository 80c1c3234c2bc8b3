//! Whether one set has every number of another.

ghost use Rattle.std.specs.Prelude.{◌↔◌, ◌≤◌, IsTrue};
ghost use Rattle.rpki_sets.specs.Runs.{Includes, IsMaximal};

use crate::run::Run;

/// Whether the second run lies in the first.
fn is_inside(held: &Run, run: &Run) -> bool
    ensures { IsTrue result ↔ ((held.now.first ≤ run.now.first) × (run.now.last ≤ held.now.last)) }
{
    held.first <= run.first && run.last <= held.last
}

/// Whether the maximal runs `all` have every number of the maximal runs `part`. Each step passes a run of one of
/// the two.
pub fn includes(all: &[Run], part: &[Run]) -> bool
    requires all_maximal { IsMaximal all.now }
    requires part_maximal { IsMaximal part.now }
    ensures { IsTrue result ↔ Includes all.now part.now }
{
    let mut held = all;
    let mut asked = part;
    'walk: while let Some((run, rest)) = asked.split_first() {
        let Some((first, others)) = held.split_first() else {
            return false;
        };
        if first.last < run.first {
            held = others;
        } else if is_inside(first, run) {
            asked = rest;
        } else {
            return false;
        }
    }
    true
}
