//! The constructed values that a reader is in.

ghost use Rattle.std.specs.Prelude.{◌≡◌, ◌+◌, ◌^◌, ◌<◌, [], ◌∷◌, length, drop, IfSome, IfNone, OnOk, OnErr};
ghost use Rattle.rpki_der.specs.Level.{IsSized};
ghost use Rattle.rpki_der.specs.Part.{level_of};

use crate::part::Open;
use rpki_common::OutOfMemory;
use std::alloc::Global;
use std::marker::Model;

// A level of definite length, behind whose value `after` stands, and how many levels of indefinite length are next round it.
#[derive(Clone, Copy)]
pub(crate) struct Run<'a> {
    after: &'a [u8],
    marked: usize,
}

/// The levels that are open. Those of indefinite length are counted, so that they take no memory however deep they are.
///
/// In a clause it is the list of the levels, the innermost first.
#[derive(Drop)]
pub(crate) struct Levels<'a> {
    runs: Vec<Run<'a>>,
    marked: usize,
    depth: usize,
}

impl<'a> Model for Levels<'a> {
    ghost use Rattle.std.specs.Prelude.{◌≡◌, List, length};
    ghost use Rattle.rpki_der.specs.Level.{Level};
    ghost use Rattle.rpki_der.specs.Levels.{marked_in, levels_of};

    ghost Value = { List Level };

    ghost view = { λ l. marked_in l.marked (levels_of l.runs.items) };

    ghost invariant = { λ l. l.depth ≡ length (marked_in l.marked (levels_of l.runs.items)) };
}

impl<'a> Levels<'a> {
    /// No level.
    pub(crate) fn new(alloc: Global) -> Levels<'a>
        ensures { result ≡ [] }
    {
        Levels {
            runs: Vec::new(alloc),
            marked: 0,
            depth: 0,
        }
    }

    /// Goes into a level.
    pub(crate) fn push(&mut self, level: Open<'a>) -> Result<(), OutOfMemory>
        requires room { length self.old + 1 < 2 ^ 64 }
        ensures ok { OnOk result (self.new ≡ level_of level.entry ∷ self.old) }
        ensures err { OnErr result (self.new ≡ self.old) }
        ensures sized { OnErr result (IsSized (level_of level.entry)) }
    {
        match level {
            Open::Indefinite => self.marked += 1,
            Open::Definite(after) => {
                self.runs.push(Run {
                    after,
                    marked: self.marked,
                })?;
                self.marked = 0;
            }
        }
        self.depth += 1;
        Ok(())
    }

    /// Goes out of the innermost level.
    pub(crate) fn pop(&mut self)
        ensures { self.new ≡ drop 1 self.old }
    {
        if self.marked > 0 {
            self.marked -= 1;
            self.depth -= 1;
        } else if let Some(run) = self.runs.pop() {
            self.marked = run.marked;
            self.depth -= 1;
        }
    }

    /// Where the innermost level ends.
    pub(crate) fn last(&self) -> Option<Open<'a>>
        ensures some { IfSome result (λ o. self.now ≡ level_of o ∷ drop 1 self.now) }
        ensures none { IfNone result (self.now ≡ []) }
    {
        if self.marked > 0 {
            return Some(Open::Indefinite);
        }
        match self.runs.last() {
            Some(run) => Some(Open::Definite(run.after)),
            None => None,
        }
    }

    /// How many levels are open.
    pub(crate) fn depth(&self) -> usize
        ensures { result ≡ length self.now }
    {
        self.depth
    }
}
