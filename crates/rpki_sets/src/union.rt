//! The maximal runs of the numbers in some runs.

ghost use Rattle.std.specs.Prelude.{◌≡◌, IfOk, IsTrue, ◌↔◌, ◌+◌, ◌≤◌};
ghost use Rattle.rpki_sets.specs.Ascending.{IsAscending};
ghost use Rattle.rpki_sets.specs.Runs.{AllOrdered, SameNumbers, union as union_of};

use crate::run::Run;
use rpki_common::OutOfMemory;
use std::alloc::Global;

/// Whether the second run, which doesn't begin before the first, overlaps or touches it.
fn is_joined(held: Run, next: Run) -> bool
    requires { held.first ≤ next.first }
    ensures { IsTrue result ↔ (next.first ≤ held.last + 1) }
{
    next.first <= held.last || next.first - 1 == held.last
}

/// Puts the runs in the order of their first numbers.
fn sort(runs: &mut Vec<Run>)
    requires { AllOrdered runs.old.items }
    ensures same { SameNumbers runs.new.items runs.old.items }
    ensures ordered { AllOrdered runs.new.items }
    ensures ascending { IsAscending runs.new.items }
{
    runs.sort_unstable_by_key(|run| run.first);
}

/// The maximal runs of the numbers in runs that ascend.
fn join(alloc: Global, runs: &[Run]) -> Result<Vec<Run>, OutOfMemory>
    requires ordered { AllOrdered runs.now }
    requires ascending { IsAscending runs.now }
    ensures { IfOk result (λ joined. joined.items ≡ union_of runs.now) }
{
    let mut joined = Vec::new(alloc);
    let Some((first, more)) = runs.split_first() else {
        return Ok(joined);
    };
    let mut held = *first;
    'each: for next in more {
        if is_joined(held, *next) {
            held.last = held.last.max(next.last);
        } else {
            joined.push(held)?;
            held = *next;
        }
    }
    joined.push(held)?;
    Ok(joined)
}

/// The maximal runs of the numbers in `runs`, which may overlap and stand in any order.
pub fn union(alloc: Global, mut runs: Vec<Run>) -> Result<Vec<Run>, OutOfMemory>
    requires { AllOrdered runs.items }
    ensures { IfOk result (λ joined. joined.items ≡ union_of runs.items) }
{
    sort(&mut runs);
    join(alloc, &runs)
}
