//! What holds of every server.

ghost use Rattle.std.specs.Prelude.{◌≡◌, ◌∷◌, ◌≤◌, [], ℕ, ℤ, List, Ok, Some, length, map};
ghost use Rattle.rpki_common.specs.Limits.{most_input};
ghost use Rattle.rpki_publication.specs.ListReply.{withdrawal_of};
ghost use Rattle.rpki_publication.specs.declared.publish_delta_element.PublishDeltaElement.TheVariants as change;
ghost use Rattle.rpki_ca.specs.Acceptance.{Accepted};
ghost use Rattle.rpki_ca.specs.Seen.{HasFailed, Seen, SignerSeen};
ghost use Rattle.rpki_ca.specs.declared.receiving.Kind.TheVariants as kinds;
ghost use Rattle.rpki_ca.specs.declared.receiving.Received.{Received as Message};
ghost use Rattle.rpki_pubserver.specs.Changes.{after_all};
ghost use Rattle.rpki_pubserver.specs.Ends.{ServerCanServe, ServerEndsForCause, RepliesAll};
ghost use Rattle.rpki_pubserver.specs.Replies.{Reply};
ghost use Rattle.rpki_pubserver.specs.Running.{EndsServerRun};
ghost use Rattle.rpki_pubserver.specs.Server.{IsReply, ServerFields};
ghost use Rattle.rpki_pubserver.specs.Store.{IsStore, LieUnder, Store, listed_store};

use rpki_base::Scheme;
use rpki_signer::Signer;

/// A server has one reply to octets at a moment, and one store behind it.
pub fn one_reply<P: Scheme>()
    ensures { (server : ServerFields) (octets : List ℕ) (when : ℤ) (a b : Reply) →
        IsReply P.checks server octets when a → IsReply P.checks server octets when b → a ≡ b }
{}

/// What isn't accepted under the publisher's key changes no object.
pub fn others_change_nothing<P: Scheme>()
    ensures { (server : ServerFields) (octets : List ℕ) (when : ℤ) (reply : Reply) →
        IsReply P.checks server octets when reply →
        ((message : Message) → Accepted P.checks kinds.Publication octets
        (server.publisher ∷ []) when message → ⊥) →
        reply.next ≡ server.store }
{}

/// Where all objects lie under the base, they still do behind each reply.
pub fn objects_lie_under_the_base<P: Scheme>()
    ensures { (server : ServerFields) (octets : List ℕ) (when : ℤ) (reply : Reply) →
        IsReply P.checks server octets when reply → LieUnder server.base server.store →
        LieUnder server.base reply.next }
{}

/// Where the objects ascend by their URIs, which then are distinct, they still do behind each reply.
pub fn objects_stay_in_order<P: Scheme>()
    ensures { (server : ServerFields) (octets : List ℕ) (when : ℤ) (reply : Reply) →
        IsReply P.checks server octets when reply → IsStore server.store → IsStore reply.next }
{}

/// The changes that withdraw each listed object are all made, and leave none.
pub fn withdrawn_list_leaves_none()
    ensures { (base : List ℕ) (store : Store) → LieUnder base store →
        after_all base (Ok store) (map (λ e. change.Withdraw (withdrawal_of e))
        (listed_store store)) ≡ Ok [] }
{}

/// With 0 the replies to all lines were written.
pub fn zero_replies_to_all<P: Scheme, S: Signer<P>>()
    ensures { (when : ℤ) (signer : SignerSeen S.KeyId) (server : ServerFields)
        (source sink : Seen) (input : List ℕ) →
        EndsServerRun P.checks when signer server 0 source sink → source.before ≡ Some input →
        RepliesAll P.checks when signer server input sink }
{}

/// A run with three words of the form ends with 0 or 12, if neither stream failed, the input is within the
/// limit and the signer can sign; or with 3 or 8, where a line isn't hexadecimal or the moment has no window.
pub fn runs_end_for_cause<P: Scheme, S: Signer<P>>()
    ensures { (when : ℤ) (signer : SignerSeen S.KeyId) (server : ServerFields) (status : ℕ)
        (source sink : Seen) (input : List ℕ) →
        EndsServerRun P.checks when signer server status source sink →
        source.before ≡ Some input → length input ≤ most_input → ¬ (HasFailed source) →
        ¬ (HasFailed sink) → ServerCanServe P.checks when signer server input →
        ServerEndsForCause when input status }
{}
