//! What holds of all answers, and of all that is made.

ghost use Rattle.std.specs.Prelude.{◌≡◌, ◌↔◌, ◌∷◌, ◌≤ℤ◌, [], ℕ, ℤ, Bool, List, Ok, Option, Result, true};
ghost use Rattle.rpki_base.specs.PublicKey.{KeyFields};
ghost use Rattle.rpki_base.specs.Validity.{ValidityFields};
ghost use Rattle.rpki_base.specs.declared.algorithm.SigningAlgorithm.TheVariants.{RsaSha256};
ghost use Rattle.rpki_base.specs.declared.validation.ValidationError.{ValidationError};
ghost use Rattle.rpki_ca.specs.Acceptance.{IsReceivedUnder, ReadsAs, accepted_text};
ghost use Rattle.rpki_ca.specs.Answer.{BringsAccepted};
ghost use Rattle.rpki_ca.specs.Seen.{Seen};
ghost use Rattle.rpki_sigmsg.specs.Spelling.{CanSpellMessage, rewritten};
ghost use Rattle.rpki_external.specs.Running.{AreRightIn, AreToIn, DeliversReceipt, EndsAsVerified, EndsKeysTask, EndsWell, Finishes, IsLaterIn};
ghost use Rattle.rpki_external.specs.declared.task.Finished.TheVariants as finishing;
ghost use Rattle.rpki_external.specs.declared.task.Prepared.TheVariants as preparing;
ghost use Rattle.rpki_external.specs.declared.task.Task.TheVariants as tasks;
ghost use Rattle.rpki_external.specs.declared.task.Verified.{Verified};
ghost use Rattle.rpki_external.specs.declared.task.Verified.TheVariants as verified;
ghost use Rattle.rpki_ca.specs.declared.receiving.Kind.{Kind};
ghost use Rattle.rpki_ca.specs.declared.receiving.ReceiveError.{ReceiveError};
ghost use Rattle.rpki_ca.specs.declared.receiving.Received.{Received};
ghost use Rattle.rpki_ca.specs.declared.setup_message.SetupKind.{SetupKind};
ghost use Rattle.rpki_ca.specs.declared.setup_message.SetupMessage.{SetupMessage};
ghost use Rattle.rpki_base.specs.RpkiSignatureAlgorithm.{spelled_x509};
ghost use Rattle.rpki_base.specs.SignedData.{spelled_data};
ghost use Rattle.rpki_cert.specs.Making.{CaRequest, IsRequestMade};
ghost use Rattle.rpki_idcert.specs.Checks.{IsTaBelieved};
ghost use Rattle.rpki_idcert.specs.IdCert.{CertificateFields};
ghost use Rattle.rpki_idcert.specs.Making.{IsIssued};
ghost use Rattle.rpki_idcert.specs.Spelling.{spelled_tbs};
ghost use Rattle.rpki_replay.specs.declared.guard.GuardError.{GuardError};
ghost use Rattle.rpki_sigmsg.specs.Checks.{IsBelieved, SameAnswersUnder};
ghost use Rattle.rpki_sigmsg.specs.Making.{IsMessageMade};
ghost use Rattle.rpki_sigmsg.specs.Message.{MessageFields};
ghost use Rattle.rpki_external.specs.Answers.{AnswersFields, AreRight, CountFor, answered_scheme};
ghost use Rattle.rpki_external.specs.Making.{AreShort, AreSignatures, CanPrepare, CanPrepareAnchor, CanPrepareRequest, FinishAnchorFails, FinishFails, FinishRequestFails, IsAcceptedSo, IsInWindow, PrepareAnchorFails, PrepareFails, PrepareRequestFails, anchor_fields, finished, finished_anchor, finished_request, request_to_sign, unsigned_request};
ghost use Rattle.rpki_external.specs.Question.{QuestionsFields, anchor_questions, listed, message_questions, request_questions};
ghost use Rattle.rpki_external.specs.Receiving.{AreAskedOf, IsGuardRefusal, IsReceipt, IsReceiptBy};
ghost use Rattle.rpki_external.specs.Records.{AreWritable, SameUnlessCollide, digest_of};
ghost use Rattle.rpki_external.specs.Verifying.{AreChecksBy, AreChecksOf, AreSetupQuestions, IsAnchorVerified, IsRequestSigned, IsRequestVerified, IsSetupAnswered, IsSetupAnsweredUnder, IsTaValidation};
ghost use Rattle.rpki_external.specs.declared.answers.AnswersError.{AnswersError};
ghost use Rattle.rpki_external.specs.declared.preparing.Plan.{Plan};
ghost use Rattle.rpki_external.specs.declared.preparing.PrepareError.{PrepareError};
ghost use Rattle.rpki_external.specs.declared.preparing.Signatures.{Signatures};
ghost use Rattle.rpki_external.specs.declared.preparing_requests.RequestPlan.{RequestPlan};
ghost use Rattle.rpki_signer.specs.Limits.{IsShort};
ghost use Rattle.rpki_signer.specs.Signer.{SignerState};
ghost use Rattle.rpki_external.specs.declared.preparing.PrepareError.TheVariants as prepare;
ghost use Rattle.rpki_external.specs.declared.question.Part.{Part};
ghost use Rattle.rpki_external.specs.declared.receiving.AnsweredError.{AnsweredError};
ghost use Rattle.rpki_external.specs.declared.receiving.Receipt.{Receipt};
ghost use Rattle.rpki_external.specs.declared.setting_up.SetupError.{SetupError};
ghost use Rattle.rpki_external.specs.declared.verifying.VerifyError.{VerifyError};

use crate::answers::AnswersError;
use crate::preparing::PrepareError;
use crate::question::Part;
use crate::receiving::AnsweredError;
use crate::setting_up::SetupError;
use crate::verifying::VerifyError;
use rpki_base::Scheme;
use rpki_setup::at_most_one;
use rpki_signer::Signer;

/// `==` holds exactly between the same parts, and between the same errors.
pub fn equal_values_are_the_same()
    ensures part { (a b : Part) → (⟦<Part as PartialEq>⟧.eq a b ≡ true) ↔ (a ≡ b) }
    ensures answers { (a b : AnswersError)
        → (⟦<AnswersError as PartialEq>⟧.eq a b ≡ true) ↔ (a ≡ b) }
    ensures answered { (a b : AnsweredError)
        → (⟦<AnsweredError as PartialEq>⟧.eq a b ≡ true) ↔ (a ≡ b) }
    ensures verify { (a b : VerifyError)
        → (⟦<VerifyError as PartialEq>⟧.eq a b ≡ true) ↔ (a ≡ b) }
    ensures setup { (a b : SetupError)
        → (⟦<SetupError as PartialEq>⟧.eq a b ≡ true) ↔ (a ≡ b) }
    ensures prepare { (a b : PrepareError)
        → (⟦<PrepareError as PartialEq>⟧.eq a b ≡ true) ↔ (a ≡ b) }
{}

/// Answers count for one value of questions: where they do for two, these are the same, or their octets, which differ, have one SHA-256.
/// So no answer that was given for one key, message or part counts for another.
pub fn answers_are_to_one_value()
    ensures counted { (answers : AnswersFields) (a b : QuestionsFields)
        → CountFor answers a → CountFor answers b → SameUnlessCollide a b }

    // So it is where they count for one, and were given to the other, whose digest is theirs.
    ensures given { (answers : AnswersFields) (a b : QuestionsFields) → CountFor answers a
        → AreWritable b → answers.digest ≡ digest_of b → SameUnlessCollide a b }
{}

/// By the same answers two messages are received, or their checks told, two certificates are verified, and two requests, only where what
/// is asked of them is the same, with the same keys: or else octets differ that have one SHA-256.
pub fn same_answers_have_the_same_questions()
    ensures received { (answers : AnswersFields) (kind other_kind : Kind)
        (octets others : List ℕ) (keys other_keys : List KeyFields) (when then : ℤ)
        (last before : Option ℤ) (r s : Receipt)
        (one : IsReceiptBy kind octets keys when answers last r)
        (other : IsReceiptBy other_kind others other_keys then answers before s)
        → SameUnlessCollide one.q other.q }
    ensures told { (answers : AnswersFields) (octets others : List ℕ) (key other_key : KeyFields)
        (when then : ℤ) (list other_list : List Bool)
        (one : AreChecksBy octets key when answers list)
        (other : AreChecksBy others other_key then answers other_list)
        → SameUnlessCollide one.q other.q }
    ensures anchors { (answers : AnswersFields) (c d : CertificateFields) (when then : ℤ)
        → IsAnchorVerified c when answers (Ok tt) → IsAnchorVerified d then answers (Ok tt)
        → SameUnlessCollide (anchor_questions c) (anchor_questions d) }
    ensures requests { (answers : AnswersFields) (r s : CaRequest)
        → IsRequestVerified r answers (Ok tt) → IsRequestVerified s answers (Ok tt)
        → SameUnlessCollide (request_questions r) (request_questions s) }
{}

/// Each question that the checks of a message ask under the keys has the same answer under the scheme that right answers are as under the
/// scheme for which they are right. So whatever asks a verifier of answers ([`crate::AnswerVerifier`]) about the message, the checks, the
/// guard or the archive, does what it does under that scheme.
pub fn right_answers_are_the_schemes<P: Scheme>()
    ensures { (m : MessageFields) (keys : List KeyFields) (answers : AnswersFields)
        → AreRight P.checks (listed (message_questions m keys)) answers.values
        → SameAnswersUnder (answered_scheme (message_questions m keys) answers) P.checks m keys }
{}

/// What is received by answers is what is received under each scheme for which the answers are right; so is each receipt, and each
/// refusal of the guard; and each of the fourteen checks of a message is told as it is there.
pub fn right_answers_decide<P: Scheme>()
    ensures received { (kind : Kind) (octets : List ℕ) (keys : List KeyFields) (when : ℤ)
        (q : QuestionsFields) (answers : AnswersFields)
        (answer : Result (Received × ℕ) ReceiveError)
        → AreAskedOf octets keys q → AreRight P.checks (listed q) answers.values
        → (IsReceivedUnder (answered_scheme q answers) kind octets keys when answer
        ↔ IsReceivedUnder P.checks kind octets keys when answer) }
    ensures receipt { (kind : Kind) (octets : List ℕ) (keys : List KeyFields) (when : ℤ)
        (last : Option ℤ) (q : QuestionsFields) (answers : AnswersFields) (r : Receipt)
        → AreAskedOf octets keys q → AreRight P.checks (listed q) answers.values
        → IsReceipt (answered_scheme q answers) kind octets keys when last r
        → IsReceipt P.checks kind octets keys when last r }
    ensures guard { (kind : Kind) (octets : List ℕ) (keys : List KeyFields) (when : ℤ)
        (last : Option ℤ) (q : QuestionsFields) (answers : AnswersFields) (error : GuardError)
        → AreAskedOf octets keys q → AreRight P.checks (listed q) answers.values
        → IsGuardRefusal (answered_scheme q answers) kind octets keys when last error
        → IsGuardRefusal P.checks kind octets keys when last error }
    ensures checks { (octets : List ℕ) (key : KeyFields) (when : ℤ) (q : QuestionsFields)
        (answers : AnswersFields) (list : List Bool)
        → AreAskedOf octets (key ∷ []) q → AreRight P.checks (listed q) answers.values
        → (AreChecksOf (answered_scheme q answers) octets key when list
        ↔ AreChecksOf P.checks octets key when list) }
{}

/// Under each scheme for which the answers are right, `receive`, `explain`, `setup`, `request` and `issue` end with what they answer there,
/// each refusal among it, or for want of memory. With 0 `receive` wrote a receipt of the message that the input spells, of which there is
/// one there; and where a message is accepted there, the answers are to its questions and it says a later time than the last one that is
/// handed in, if one is, `receive` ends with 0, but for want of memory and a fault of the sink.
pub fn right_answers_deliver<P: Scheme>()
    ensures answered { (what : Verified) (answers : AnswersFields) (input : List ℕ) (status : ℕ)
        (sink : Seen) → EndsKeysTask (tasks.Verify what answers) input status sink
        → AreRightIn P.checks what input answers
        → EndsAsVerified P.checks what answers input status sink }
    ensures received { (kind : Kind) (keys : List KeyFields) (when : ℤ) (last : Option ℤ)
        (answers : AnswersFields) (input : List ℕ) (sink : Seen)
        → EndsKeysTask (tasks.Verify (verified.Message kind when last keys) answers) input 0 sink
        → AreRightIn P.checks (verified.Message kind when last keys) input answers
        → DeliversReceipt P.checks kind keys when last input sink }
    ensures accepted { (kind : Kind) (keys : List KeyFields) (when : ℤ) (last : Option ℤ)
        (answers : AnswersFields) (input : List ℕ) (status : ℕ) (sink : Seen)
        → EndsKeysTask (tasks.Verify (verified.Message kind when last keys) answers) input status
        sink → AreRightIn P.checks (verified.Message kind when last keys) input answers
        → AreToIn (verified.Message kind when last keys) input answers
        → BringsAccepted P.checks kind keys when input → IsLaterIn last input
        → EndsWell status sink }
{}

/// What the checks of a trust anchor's certificate, and that of a request, answer by answers is what they answer under each scheme for
/// which the answers are right; so is what is answered to a setup message.
pub fn right_answers_verify<P: Scheme>()
    ensures anchor { (c : CertificateFields) (when : ℤ) (answers : AnswersFields)
        (answer : Result (Unit {0}) ValidationError)
        → AreRight P.checks (listed (anchor_questions c)) answers.values
        → (IsTaValidation (answered_scheme (anchor_questions c) answers) c when answer
        ↔ IsTaValidation P.checks c when answer) }
    ensures request { (r : CaRequest) (answers : AnswersFields)
        → AreRight P.checks (listed (request_questions r)) answers.values
        → (IsRequestSigned (answered_scheme (request_questions r) answers) r
        ↔ IsRequestSigned P.checks r) }
    ensures setup { (kind : SetupKind) (octets : List ℕ) (when : ℤ) (q : QuestionsFields)
        (answers : AnswersFields) (answer : Result SetupMessage SetupError)
        → AreSetupQuestions kind octets q → AreRight P.checks (listed q) answers.values
        → IsSetupAnswered kind octets when answers answer
        → IsSetupAnsweredUnder P.checks kind octets when answers answer }
{
    at_most_one();
}

/// What can be prepared is, and what can be prepared and whose signatures are short enough is finished, but for want of memory: no other
/// error comes then.
pub fn nothing_but_memory_is_wanting()
    ensures prepared { (content : List ℕ) (plan : Plan) (e : PrepareError)
        → CanPrepare content plan → PrepareFails content plan e → e ≡ prepare.OutOfMemory }
    ensures finished { (content : List ℕ) (plan : Plan) (signatures : Signatures)
        (e : PrepareError) → CanPrepare content plan → AreShort signatures
        → FinishFails content plan signatures e → e ≡ prepare.OutOfMemory }
    ensures anchor_prepared { (key : KeyFields) (e : PrepareError)
        → CanPrepareAnchor key → PrepareAnchorFails key e → e ≡ prepare.OutOfMemory }
    ensures anchor_finished { (key : KeyFields) (signature : List ℕ) (e : PrepareError)
        → CanPrepareAnchor key → IsShort signature → FinishAnchorFails key signature e
        → e ≡ prepare.OutOfMemory }
    ensures request_prepared { (plan : RequestPlan) (e : PrepareError)
        → CanPrepareRequest plan → PrepareRequestFails plan e → e ≡ prepare.OutOfMemory }
    ensures request_finished { (plan : RequestPlan) (signature : List ℕ) (e : PrepareError)
        → CanPrepareRequest plan → IsShort signature → FinishRequestFails plan signature e
        → e ≡ prepare.OutOfMemory }
{}

/// Where the input reads as a message of the kind that can be prepared, `prepare message` ends with 0, but for want of memory and a fault
/// of the sink; so does `finish message`, where the signatures are short enough. So do the two of anchors and of requests, which look at
/// no input.
pub fn preparing_and_finishing_succeed()
    ensures message { (kind : Kind) (plan : Plan) (input : List ℕ) (m : Received) (status : ℕ)
        (sink : Seen)
        → EndsKeysTask (tasks.Prepare (preparing.Message kind plan)) input status sink
        → ReadsAs kind input m → CanPrepare (accepted_text m) plan → EndsWell status sink }
    ensures anchor { (validity : ValidityFields) (key : KeyFields) (input : List ℕ) (status : ℕ)
        (sink : Seen)
        → EndsKeysTask (tasks.Prepare (preparing.Anchor validity key)) input status sink
        → CanPrepareAnchor key → EndsWell status sink }
    ensures request { (plan : RequestPlan) (input : List ℕ) (status : ℕ) (sink : Seen)
        → EndsKeysTask (tasks.Prepare (preparing.Request plan)) input status sink
        → CanPrepareRequest plan → EndsWell status sink }
    ensures message_finished { (kind : Kind) (plan : Plan) (signatures : Signatures)
        (input : List ℕ) (m : Received) (status : ℕ) (sink : Seen)
        → EndsKeysTask (tasks.Finish (finishing.Message kind plan signatures)) input status sink
        → ReadsAs kind input m → CanPrepare (accepted_text m) plan → AreShort signatures
        → EndsWell status sink }
    ensures anchor_finished { (validity : ValidityFields) (key : KeyFields) (signature : List ℕ)
        (input : List ℕ) (status : ℕ) (sink : Seen)
        → EndsKeysTask (tasks.Finish (finishing.Anchor validity key signature)) input status sink
        → CanPrepareAnchor key → IsShort signature → EndsWell status sink }
    ensures request_finished { (plan : RequestPlan) (signature : List ℕ) (input : List ℕ)
        (status : ℕ) (sink : Seen)
        → EndsKeysTask (tasks.Finish (finishing.Request plan signature)) input status sink
        → CanPrepareRequest plan → IsShort signature → EndsWell status sink }
{}

/// A message with three signatures of what is prepared of it is believed under the issuing key, at each second from 300 before the
/// moment to 300 after it, under each scheme in which they hold.
pub fn finished_is_believed<P: Scheme>()
    ensures { (content : List ℕ) (plan : Plan) (signatures : Signatures) (when : ℤ)
        → CanPrepare content plan → AreShort signatures
        → AreSignatures P.checks content plan signatures → IsInWindow plan when
        → IsBelieved P.checks (finished content plan signatures) plan.issuing_key when }
{}

/// What [`crate::finish`] makes of the text of a message that was read, by a plan by which it can be prepared, and is written, is accepted
/// as the message's normal form, under each scheme in which the signatures hold for what [`crate::prepare`] gives, each list of keys
/// that holds the issuing key, and each second of the window. So is what `finish message` wrote with 0.
pub fn finished_is_accepted<P: Scheme>()
    ensures made { (kind : Kind) (input : List ℕ) (message : Received) (plan : Plan)
        (signatures : Signatures) → ReadsAs kind input message
        → CanPrepare (accepted_text message) plan → AreShort signatures
        → CanSpellMessage (finished (accepted_text message) plan signatures)
        → IsAcceptedSo P.checks kind message plan signatures
        (rewritten (finished (accepted_text message) plan signatures)) }
    ensures written { (kind : Kind) (plan : Plan) (signatures : Signatures) (input : List ℕ)
        (sink : Seen)
        → EndsKeysTask (tasks.Finish (finishing.Message kind plan signatures)) input 0 sink
        → Finishes P.checks kind plan signatures input sink }
{}

/// What is made with a signer is what is finished with the signatures that it gave, by the plan with its keys and its serial number.
pub fn made_is_finished<P: Scheme>()
    ensures { (content : List ℕ) (plan : Plan) (m : MessageFields)
        → IsMessageMade P.checks content plan.when plan.issuing_key plan.key plan.serial m
        → (signatures : Signatures) × AreSignatures P.checks content plan signatures
        × (m ≡ finished content plan signatures) }
{}

/// A key's own certificate is believed as a trust anchor's at each second of its validity, whatever its signature: it doesn't name
/// itself as its issuer, so its signature isn't asked.
pub fn finished_anchor_is_believed<P: Scheme>()
    ensures { (key : KeyFields) (validity : ValidityFields) (signature : List ℕ) (when : ℤ)
        → validity.not_before ≤ℤ when → when ≤ℤ validity.not_after
        → IsTaBelieved P.checks (finished_anchor key validity signature) when }
{}

/// What is made of a trust anchor's certificate with a signer is what is finished with the signature that it gave.
pub fn made_anchor_is_finished<P: Scheme>()
    ensures { (validity : ValidityFields) (c : CertificateFields) (key : KeyFields)
        → c.tbs ≡ anchor_fields key validity → IsIssued P.checks key c
        → (signature : List ℕ)
        × P.checks RsaSha256 key (spelled_tbs (anchor_fields key validity)) signature
        × (c ≡ finished_anchor key validity signature) }
{}

/// A certificate request with a signature of what is prepared of it is verified, under each scheme in which the signature holds.
pub fn finished_request_is_verified<P: Scheme>()
    ensures { (plan : RequestPlan) (signature : List ℕ)
        → P.checks RsaSha256 plan.key (request_to_sign plan) signature
        → IsRequestSigned P.checks (finished_request plan signature) }
{}

/// What is made of a certificate request with a signer is what is finished with the signature that it gave, by the plan with its key and
/// its places.
pub fn made_request_is_finished<P: Scheme, S: Signer<P>>()
    ensures { (id : S.KeyId) (before after : SignerState S.KeyId) (octets : List ℕ)
        (plan : RequestPlan)
        (m : IsRequestMade P.checks id (unsigned_request plan).places before after octets)
        → m.key ≡ plan.key → (signature : List ℕ)
        × P.checks RsaSha256 plan.key (request_to_sign plan) signature
        × (octets ≡ spelled_data spelled_x509 (finished_request plan signature).signed) }
{}
