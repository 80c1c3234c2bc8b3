//! What holds of every parent.

ghost use Rattle.std.specs.Prelude.{◌≡◌, ◌≢◌, ◌≤◌, ◌⊎◌, ◌++◌, ◌∷◌, ℕ, List, None, Some, length};
ghost use Rattle.rpki_common.specs.Causes.{Rose};
ghost use Rattle.rpki_common.specs.Limits.{most_input};
ghost use Rattle.rpki_updown.specs.KeyElement.{KeyElementFields};
ghost use Rattle.rpki_provisioning.specs.Shape.{MessageFields};
ghost use Rattle.rpki_provisioning.specs.declared.payload.Payload.TheVariants as payloads;
ghost use Rattle.rpki_ca.specs.Seen.{HasFailed, Seen};
ghost use Rattle.rpki_upserver.specs.Ends.{ParentAnswersAll, ParentCanServe, ParentEndsForCause};
ghost use Rattle.rpki_upserver.specs.History.{Adds, AreAllOnce, AreMade, AreNew, Call, IsEntitled, ListsAs, last_issued, table_behind};
ghost use Rattle.rpki_upserver.specs.Issuer.{IssuerState, Made};
ghost use Rattle.rpki_upserver.specs.Response.{IsFromChild, IsResponse, Outcome, refusal};
ghost use Rattle.rpki_upserver.specs.Running.{EndsParentRun, Run};
ghost use Rattle.rpki_upserver.specs.Table.{ParentState};

use rpki_base::Scheme;
use rpki_signer::Signer;

/// No certificate is issued for more than the child has in the class, or for longer.
pub fn no_certificate_is_beyond_its_class<P: Scheme>()
    ensures { (parent : ParentState) (m : MessageFields) (o : Outcome) (made : Made) →
        IsResponse P.checks parent m o → Adds o made → IsEntitled parent.table made }
{}

/// A key that was revoked in some class isn't certified again, in any class, whatever was asked for between.
pub fn revoked_keys_are_not_certified_again<P: Scheme>()
    ensures { (parent : ParentState) (issuer : IssuerState) (before between behind : List Call)
        (one other : Call) (key : KeyElementFields) (made : Made) →
        AreMade P.checks parent issuer (before ++ one ∷ (between ++ other ∷ behind)) →
        one.outcome.payload ≡ payloads.RevokeResponse key → Adds other.outcome made →
        made.key ≢ key.key }
{}

/// If nothing had been issued in a class at first, the parent lists for each key the certificate issued last, unless it was revoked
/// since. A reply counts also where it was decided and not sent.
pub fn what_is_told_was_issued_and_not_revoked<P: Scheme>()
    ensures { (parent : ParentState) (issuer : IssuerState) (calls : List Call) →
        AreNew parent.table → AreMade P.checks parent issuer calls →
        ListsAs (table_behind parent.table calls) (λ name key. last_issued name key calls None) }
{}

/// A class in which nothing was issued at first holds at most one certificate of a key.
pub fn a_class_holds_one_certificate_a_key<P: Scheme>()
    ensures { (parent : ParentState) (issuer : IssuerState) (calls : List Call) →
        AreNew parent.table → AreMade P.checks parent issuer calls →
        AreAllOnce (table_behind parent.table calls) }
{}

/// The error 2001 comes only where the parties are others, or where the issuer's count of faults rose.
pub fn internal_errors_have_causes<P: Scheme>()
    ensures { (parent : ParentState) (m : MessageFields) (o : Outcome) →
        IsResponse P.checks parent m o → o.payload ≡ refusal 2001 →
        (IsFromChild parent m → ⊥) ⊎ Rose o.before.faults o.after.faults }
{}

/// With 0 the answers to all lines were written, and the issuer did what they say and nothing else.
pub fn zero_answers_all<P: Scheme, S: Signer<P>>()
    ensures { (run : Run S.KeyId) (source sink : Seen) (input : List ℕ) →
        EndsParentRun P.checks run 0 source sink → source.before ≡ Some input →
        ParentAnswersAll P.checks run input sink }
{}

/// A run with two words of the form ends with 0 or 12, if neither stream failed, the input is within the limit, the signer can sign and no
/// reply is too long; or with 3 or 8, where a line isn't hexadecimal or the moment has no window.
pub fn runs_end_for_cause<P: Scheme, S: Signer<P>>()
    ensures { (run : Run S.KeyId) (status : ℕ) (source sink : Seen) (input : List ℕ) →
        EndsParentRun P.checks run status source sink →
        source.before ≡ Some input → length input ≤ most_input → ¬ (HasFailed source) →
        ¬ (HasFailed sink) → ParentCanServe P.checks run input →
        ParentEndsForCause run input status }
{}
