//! What holds of every archive.

ghost use Rattle.std.specs.Prelude.{◌≡◌, ◌⊎◌, ◌≤◌, ℕ, Bool, List, Result, Some, length, map};
ghost use Rattle.rpki_common.specs.Limits.{most_input};
ghost use Rattle.rpki_archive.specs.Checking.{AreAllExplanations, AreAllVerdicts, EndsArchiveTask};
ghost use Rattle.rpki_archive.specs.Explanation.{IsExplanation};
ghost use Rattle.rpki_ca.specs.Lines.{digit_of};
ghost use Rattle.rpki_archive.specs.Lines.{IsLine};
ghost use Rattle.rpki_archive.specs.Ties.{BringsMessage, TellsSame};
ghost use Rattle.rpki_archive.specs.Verdict.{IsLineAnswer};
ghost use Rattle.rpki_archive.specs.declared.checking.Task.{Task as TaskOf};
ghost use Rattle.rpki_archive.specs.declared.checking.Task.TheVariants as tasks;
ghost use Rattle.rpki_ca.specs.Lines.{EndsRun, WroteAll, lines_of};
ghost use Rattle.rpki_ca.specs.Seen.{HasFailed, Seen};
ghost use Rattle.rpki_ca.specs.declared.refusals.Refusal.{Refusal as RefusalOf};

use rpki_base::Scheme;

/// A line has one verdict. So it is the same whatever lines stand beside it.
pub fn one_verdict<P: Scheme>()
    ensures { (line : List ℕ) (one other : Result (List ℕ) RefusalOf) →
        IsLineAnswer P.checks line one → IsLineAnswer P.checks line other → one ≡ other }
{}

/// Where a line's message has a content that reads, its explanation is the digits of the checks, and they
/// tell what its verdict does: all are 1 and the message is accepted, or the first 0 stands at the
/// number of the check that the verdict names.
pub fn digits_tell_the_answer<P: Scheme>()
    ensures { (line text : List ℕ) (answer : Result (List ℕ) RefusalOf) →
        IsLine line → BringsMessage line →
        IsExplanation P.checks line text → IsLineAnswer P.checks line answer →
        (checks : List Bool) × (text ≡ map digit_of checks) × TellsSame checks answer }
{}

/// Whatever the lines are, a run with words of the grammar ends with 0 or 12, if neither stream failed
/// and the input is within the limit.
pub fn ends_with_0_or_12<P: Scheme>()
    ensures { (task : TaskOf) (status : ℕ) (source sink : Seen) (input : List ℕ) →
        EndsRun (λ octets. EndsArchiveTask P.checks task (lines_of octets) status sink) status
        source sink → source.before ≡ Some input → length input ≤ most_input
        → ¬ (HasFailed source) → ¬ (HasFailed sink) →
        (status ≡ 0) ⊎ (status ≡ 12) }
{}

/// With 0 the verdicts on all lines were written, and their total.
pub fn batch_writes_all<P: Scheme>()
    ensures { (source sink : Seen) (input : List ℕ) →
        EndsRun (λ octets. EndsArchiveTask P.checks tasks.Batch (lines_of octets) 0 sink) 0 source
        sink → source.before ≡ Some input →
        WroteAll (AreAllVerdicts P.checks (lines_of input)) sink }
{}

/// With 0 the explanations of all lines were written.
pub fn explain_writes_all<P: Scheme>()
    ensures { (source sink : Seen) (input : List ℕ) →
        EndsRun (λ octets. EndsArchiveTask P.checks tasks.Explain (lines_of octets) 0 sink) 0 source
        sink → source.before ≡ Some input →
        WroteAll (AreAllExplanations P.checks (lines_of input)) sink }
{}
