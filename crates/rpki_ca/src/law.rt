//! What holds of every answer.

ghost use Rattle.std.specs.Prelude.{◌≡◌, ◌≢◌, ◌↔◌, ◌++◌, ℕ, ℤ, List, Option, Result, Some, Err};
ghost use Rattle.rpki_base.specs.PublicKey.{KeyFields};
ghost use Rattle.rpki_sigmsg.specs.Checks.{SameAnswersUnder, AreAmong, IsInSpan};
ghost use Rattle.rpki_sigmsg.specs.Making.{IsMessageCreated};
ghost use Rattle.rpki_sigmsg.specs.Message.{MessageFields};
ghost use Rattle.rpki_sigmsg.specs.Spelling.{rewritten, CanSpellMessage};
ghost use Rattle.rpki_sigmsg.specs.Beginning.{BeginsSigned};
ghost use Rattle.rpki_ca.specs.declared.command.Command.{Command};
ghost use Rattle.rpki_ca.specs.declared.receiving.Kind.{Kind};
ghost use Rattle.rpki_ca.specs.declared.receiving.Received.{Received};
ghost use Rattle.rpki_ca.specs.declared.receiving.ReceiveError.{ReceiveError};
ghost use Rattle.rpki_ca.specs.declared.receiving.ReceiveError.TheVariants as errors;
ghost use Rattle.rpki_ca.specs.declared.refusals.Refusal.{Refusal};
ghost use Rattle.rpki_ca.specs.Answer.{AnswersSpelled, IsAnswer};
ghost use Rattle.rpki_ca.specs.Acceptance.{Accepted, IsReceived, IsReceivedUnder, IsWritable, protocol_of, accepted_text};
ghost use Rattle.rpki_ca.specs.Creation.{IsReceivable};
ghost use Rattle.rpki_ca.specs.Hexadecimal.{IsSpelling, hexadecimal};
ghost use Rattle.rpki_ca.specs.Lines.{AreLines, lines_of};
ghost use Rattle.rpki_ca.specs.Seen.{SignerSeen};

use rpki_base::Scheme;
use rpki_signer::Signer;

/// A command has one answer to octets, memory aside, as far as it asks no signer.
pub fn one_answer<P: Scheme>()
    ensures { (command : Command) (octets : Option (List ℕ)) (a b : Result (List ℕ) Refusal)
        → AnswersSpelled P.checks command octets a → AnswersSpelled P.checks command octets b
        → a ≡ b }
{}

/// Words and input have one answer, memory and faults aside, as far as no signer is asked.
pub fn one_answer_to_words<P: Scheme>()
    ensures { (words : List (List ℕ)) (input : List ℕ) (a b : Result (List ℕ) Refusal)
        → IsAnswer P.checks words input a → IsAnswer P.checks words input b → a ≡ b }
{}

/// Octets have one receipt: at one moment, under one list of keys and one scheme, one message is
/// accepted, with one place of the first key that believes it, or they are refused for one cause. Want
/// of memory stands beside each.
pub fn one_receipt<P: Scheme>()
    ensures with_place { (kind : Kind) (octets : List ℕ) (keys : List KeyFields) (when : ℤ)
        (a b : Result (Received × ℕ) ReceiveError)
        → IsReceivedUnder P.checks kind octets keys when a
        → IsReceivedUnder P.checks kind octets keys when b
        → a ≢ Err errors.OutOfMemory → b ≢ Err errors.OutOfMemory → a ≡ b }
    ensures without_place { (kind : Kind) (octets : List ℕ) (keys : List KeyFields) (when : ℤ)
        (a b : Result Received ReceiveError) → IsReceived P.checks kind octets keys when a
        → IsReceived P.checks kind octets keys when b
        → a ≢ Err errors.OutOfMemory → b ≢ Err errors.OutOfMemory → a ≡ b }
{}

/// What is received depends on the scheme by its questions alone, of the attributes and under each
/// key of the certificate and the CRLs: two schemes that answer them alike, of the message with
/// which the octets begin, allow the same answers.
pub fn receipts_ask_three_questions<P: Scheme, Q: Scheme>()
    ensures { (kind : Kind) (octets : List ℕ) (keys : List KeyFields) (when : ℤ)
        (answer : Result (Received × ℕ) ReceiveError)
        → ((m : MessageFields) → BeginsSigned octets m
        → SameAnswersUnder P.checks Q.checks m keys)
        → IsReceivedUnder P.checks kind octets keys when answer
        → IsReceivedUnder Q.checks kind octets keys when answer }
{}

/// What is received of a message that is written again in DER, whatever stands behind it, is what is
/// received of the octets that begin with it: the answers are the same under each kind, list of
/// keys, moment and scheme.
pub fn rewritten_is_received_alike<P: Scheme>()
    ensures { (kind : Kind) (octets rest : List ℕ) (m : MessageFields) (keys : List KeyFields)
        (when : ℤ) (answer : Result (Received × ℕ) ReceiveError)
        → BeginsSigned octets m → CanSpellMessage m
        → (IsReceivedUnder P.checks kind octets keys when answer
        ↔ IsReceivedUnder P.checks kind (rewritten m ++ rest) keys when answer) }
{}

/// An input is the hexadecimal of octets exactly where it is their digits, two of either case an octet, with a line feed behind them
/// or none.
pub fn hexadecimal_is_digits()
    ensures { (input octets : List ℕ) →
        hexadecimal input ≡ Some octets ↔ IsSpelling input octets }
{}

/// The lines of an input, in their order, are the input.
pub fn an_input_is_its_lines()
    ensures { (input : List ℕ) → AreLines input (lines_of input) }
{}

/// What is accepted under a list of keys is accepted under each list that holds these keys, in any
/// order.
pub fn more_keys_accept<P: Scheme>()
    ensures { (kind : Kind) (octets : List ℕ) (keys more : List KeyFields) (when : ℤ)
        (message : Received) → AreAmong keys more
        → Accepted P.checks kind octets keys when message
        → Accepted P.checks kind octets more when message }
{}

/// The moments at which a message is accepted of one input under one list of keys are none, or all
/// from the latest of notBefore and each thisUpdate to the earliest of notAfter and each
/// nextUpdate, both ends in: where one is such a moment, all of these are, and no other.
pub fn accepted_moments_are_one_span<P: Scheme>()
    ensures { (kind : Kind) (octets : List ℕ) (keys : List KeyFields) (one : ℤ)
        (message : Received) → Accepted P.checks kind octets keys one message
        → (m : MessageFields) × BeginsSigned octets m
        × ((when : ℤ) → Accepted P.checks kind octets keys when message ↔ IsInSpan m when) }
{}

/// What `create` of either protocol creates of a writable message is received as that message: the octets that `to_bytes` gives of
/// it are accepted as the message's normal form, under every list of keys that holds the issuing key, at each second from 300 before
/// the moment to 300 after it. Its premises are the clauses `created` of `create` and `spelled` of `to_bytes`.
pub fn created_is_received<P: Scheme, S: Signer<P>>()
    ensures { (message : Received) (when : ℤ) (signer : SignerSeen S.KeyId) (m : MessageFields)
        → IsWritable message
        → IsMessageCreated P.checks (accepted_text message) when signer.id signer.before
        signer.after m
        → CanSpellMessage m
        → IsReceivable P.checks (protocol_of message) (rewritten m) message when signer }
{}
