//! Sets of numbers.

ghost use Rattle.std.specs.Prelude.{◌≡◌, ◌↔◌, [], Some, None, IfOk, IsErrOf, IsSomeAnd, IsTrue};
ghost use Rattle.std.specs.Cmp.{partial_equiv_from_equiv};
ghost use Rattle.std.specs.Cmp.Lexicographic.{pointwise, lists_equiv};
ghost use Rattle.rpki_sets.specs.Comparing.{is_same, is_same-equiv};
ghost use Rattle.rpki_sets.specs.Runs.{SameNumbers, Includes, IsSet};
ghost use Rattle.rpki_sets.specs.Kinds.{runs_of, blocks_of, printed};

use crate::error::BlocksError;
use crate::includes::includes;
use crate::numbers::Numbers;
use crate::reading::read_runs;
use crate::run::Run;
use crate::union::union;
use crate::writing::write_run;
use rpki_common::OutOfMemory;
use std::alloc::Global;
use std::fmt;
use std::marker::{Model, PhantomData};

/// A set of numbers of one kind. In a clause it is the list of its maximal runs in ascending order, of which each set
/// has one.
#[derive(Debug, Drop)]
pub struct Blocks<N: Numbers> {
    runs: Vec<Run>,
    kind: PhantomData<N>,
}

impl<N: Numbers> Model for Blocks<N> {
    ghost use Rattle.std.specs.Prelude.{List};
    ghost use Rattle.rpki_sets.specs.declared.run.Run.{Run};
    ghost use Rattle.rpki_sets.specs.Runs.{IsSet};
    ghost use Rattle.rpki_sets.specs.Kinds.{Kind};

    ghost Value = { List Run };

    ghost view = { λ b. b.runs.items };

    ghost invariant = { λ b. IsSet N.kind.width b.runs.items };
}

impl<N: Numbers> Blocks<N> {
    /// The set of no numbers. It takes no memory.
    pub fn empty(alloc: Global) -> Self
        ensures { result ≡ [] }
    {
        Blocks {
            runs: Vec::new(alloc),
            kind: PhantomData,
        }
    }

    /// The set that a text stands for: the union of its items, which are separated by `,` and may have spaces round them, overlap and
    /// stand in any order; the empty set where the text is empty or spaces. The kind of numbers says what an item is. Malformed exactly
    /// where the text isn't by the rule.
    pub fn from_str(alloc: Global, text: &str) -> Result<Self, BlocksError>
        ensures set { IfOk result (λ blocks. blocks_of N.kind text.now ≡ Some blocks) }
        ensures numbers { IfOk result (λ blocks. IsSomeAnd (runs_of N.kind text.now)
            (λ runs. SameNumbers blocks runs)) }
        ensures malformed { IsErrOf result BlocksError.Malformed
            → blocks_of N.kind text.now ≡ None }
    {
        let runs = read_runs::<N>(alloc, text.as_bytes())?;
        // For the proof: the laws of this kind of numbers.
        N::law();
        Ok(Blocks {
            runs: union(alloc, runs)?,
            kind: PhantomData,
        })
    }

    /// The maximal runs of the set in ascending order, lent: first and last number of each, both in it. No two of them overlap or touch.
    pub fn runs(&self) -> &[Run]
        ensures runs { result.now ≡ self.now }
        ensures set { IsSet N.kind.width self.now }
    {
        self.runs.as_slice()
    }

    /// Whether this set has every number of `other`.
    pub fn contains(&self, other: &Self) -> bool
        ensures { IsTrue result ↔ Includes self.now other.now }
    {
        includes(self.runs(), other.runs())
    }

    /// The text that this set prints is read as the same set.
    pub fn text_is_read_back(&self)
        ensures runs { runs_of N.kind (printed N.kind self.now) ≡ Some self.now }
        ensures set { blocks_of N.kind (printed N.kind self.now) ≡ Some self.now }
    {
        // For the proof: the set's runs are maximal, by its type.
        let _runs = self.runs();
        // For the proof: the laws of this kind of numbers.
        N::law();
    }

    /// An equal set.
    pub fn clone(&self, _alloc: Global) -> Result<Self, OutOfMemory>
        ensures { IfOk result (λ blocks. blocks ≡ self.now) }
    {
        Ok(Blocks {
            runs: self.runs.clone()?,
            kind: PhantomData,
        })
    }
}

impl<N: Numbers> PartialEq for Blocks<N> {
    ghost eq = { pointwise is_same };

    ghost laws = { partial_equiv_from_equiv (lists_equiv is_same-equiv) };

    fn eq(&self, other: &Self) -> bool
        ensures value { result ≡ pointwise is_same self.now other.now }
        ensures same { IsTrue result ↔ (self.now ≡ other.now) }
        ensures numbers { IsTrue result ↔ SameNumbers self.now other.now }
    {
        self.runs() == other.runs()
    }
}

impl<N: Numbers> Eq for Blocks<N> {
    ghost laws = { lists_equiv is_same-equiv };
}

impl<N: Numbers> fmt::Display for Blocks<N> {
    ghost output = { λ b. Some (printed N.kind b) };

    fn fmt<W: fmt::Write>(&self, f: &mut fmt::Formatter<W>) -> fmt::Result {
        let Some((first, more)) = self.runs().split_first() else {
            return Ok(());
        };
        write_run::<N, W>(f, first)?;
        'each: for run in more {
            f.write_str(",")?;
            write_run::<N, W>(f, run)?;
        }
        Ok(())
    }
}
