//! What holds of every guard.

ghost use Rattle.std.specs.Prelude.{◌≡◌, ◌≤◌, ◌++◌, ◌∷◌, ℕ, ℤ, List, Ok, Some, length};
ghost use Rattle.rpki_common.specs.Limits.{most_input};
ghost use Rattle.rpki_base.specs.PublicKey.{KeyFields};
ghost use Rattle.rpki_ca.specs.Lines.{EndsRun};
ghost use Rattle.rpki_ca.specs.Seen.{HasFailed, Seen};
ghost use Rattle.rpki_replay.specs.Ends.{GuardAnswersAll, GuardEndsForCause};
ghost use Rattle.rpki_replay.specs.History.{AreMade, Call, Rise, times_under};
ghost use Rattle.rpki_replay.specs.Messages.{OpensWithState};
ghost use Rattle.rpki_replay.specs.Running.{EndsInput};
ghost use Rattle.rpki_replay.specs.State.{last_of};
ghost use Rattle.rpki_replay.specs.StateText.{IsStateText};
ghost use Rattle.rpki_replay.specs.declared.peers.Peer.{Peer as HeldPeer};

use rpki_base::Scheme;

/// A text is that of one state. So the guard that is read of a guard's text is that guard.
pub fn one_state()
    ensures { (text : List ℕ) (one other : List HeldPeer) →
        IsStateText text one → IsStateText text other → one ≡ other }
{}

/// An input begins with one state at most, and one list of lines is behind it.
pub fn one_opening()
    ensures { (input : List ℕ) (one other : List HeldPeer) (behind more : List (List ℕ)) →
        OpensWithState input one behind → OpensWithState input other more →
        (one ≡ other) × (behind ≡ more) }
{}

/// Over every list of calls the times that are admitted under one key rise strictly, from the time that
/// was held for it.
pub fn times_rise<P: Scheme>()
    ensures { (peers : List HeldPeer) (calls : List Call) (key : KeyFields) →
        AreMade P.checks peers calls → Rise (last_of peers key) (times_under key calls) }
{}

/// No message is admitted twice under one key, whatever was called between.
pub fn none_is_admitted_twice<P: Scheme>()
    ensures { (peers : List HeldPeer) (before between behind : List Call) (one other : Call)
        (first second : ℤ) →
        AreMade P.checks peers (before ++ one ∷ (between ++ other ∷ behind)) →
        one.key ≡ other.key → one.message ≡ other.message →
        one.answer ≡ Ok first → other.answer ≡ Ok second → ⊥ }
{}

/// With 0 the answers to all messages were written, and the new state.
pub fn zero_answers_all<P: Scheme>()
    ensures { (when : ℤ) (source sink : Seen) (input : List ℕ) →
        EndsRun (λ octets. EndsInput P.checks when octets 0 sink) 0 source sink →
        source.before ≡ Some input → GuardAnswersAll P.checks when input sink }
{}

/// A run with one moment ends with 0 or 12, if neither stream failed and the input is within the limit;
/// or with 3 or 13, where the input isn't of the form.
pub fn runs_end_for_cause<P: Scheme>()
    ensures { (when : ℤ) (status : ℕ) (source sink : Seen) (input : List ℕ) →
        EndsRun (λ octets. EndsInput P.checks when octets status sink) status source sink →
        source.before ≡ Some input → length input ≤ most_input
        → ¬ (HasFailed source) → ¬ (HasFailed sink) → GuardEndsForCause input status }
{}
