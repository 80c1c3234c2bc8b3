//! All that the program does.

ghost use Rattle.std.specs.Prelude.{◌≡◌, ◌≢◌, ◌+◌, ◌++◌, ◌∷◌, [], ◌⊎◌, ◌^◌, ◌≤◌, ℕ, ℤ, List, Result, Ok, Err};
ghost use Rattle.std.specs.Prelude.{IfOk, IfErr, IfSome, OnOk, IsErrOf, MatchResult, length};
ghost use Rattle.std.specs.Io.KnownBytes.{Appends, IsAtEnd};
ghost use Rattle.rpki_common.specs.Limits.{most_input};
ghost use Rattle.rpki_base.specs.PublicKey.{KeyFields};
ghost use Rattle.rpki_text.specs.Sink.{AppendsPart};
ghost use Rattle.rpki_text.specs.Source.{OfInput, TakesAtMost};
ghost use Rattle.rpki_ca.specs.declared.receiving.Kind.{Kind};
ghost use Rattle.rpki_ca.specs.declared.refusals.Refusal.{Refusal};
ghost use Rattle.rpki_ca.specs.Refusal.{status_of};
ghost use Rattle.rpki_ca.specs.Command.{IsNoCommand, IsReceive, IsCreate, AreNoCreate, AsksSigner};
ghost use Rattle.rpki_ca.specs.Command.{IsLimited, IsSetup, IsMake, AreNoMake, ReadsInput};
ghost use Rattle.rpki_ca.specs.Summary.{IsMakeAnswer, Makes};
ghost use Rattle.rpki_ca.specs.Setup.{IsSetUp};
ghost use Rattle.rpki_ca.specs.declared.setup_message.SetupKind.{SetupKind};
ghost use Rattle.rpki_ca.specs.Creation.{Creates, CanCreate, CanSign};
ghost use Rattle.rpki_ca.specs.Seen.{seen, seen_signer, HasFailed, IsSteady};
ghost use Rattle.rpki_ca.specs.Answer.{AnswersSpelled, octets_in, Performs, IsAnswer, IsGiven, IsShown, IsAdmitted, IsUnread};
ghost use Rattle.rpki_ca.specs.Answer.{IsLineOf, Ends, EndsAs, ReadsAll, Delivers, BringsAccepted, Succeeds};
ghost use Rattle.rpki_signer.specs.Limits.{Keeps};

use crate::command::Command;
use crate::content_line::content_line;
use crate::create_line::create_line;
use crate::hexadecimal::input_octets;
use crate::make_line::make_line;
use crate::reading::read_input;
use crate::receive_line::receive_line;
use crate::refusals::Refusal;
use crate::setup_line::setup_line;
use crate::words::Words;
use rpki_base::{Scheme, Verifier};
use rpki_signer::Signer;
use rpki_text::{Sink, Source, write_all};
use std::alloc::Global;

/// An exit status.
#[derive(Clone, Copy, Debug, PartialEq, Eq)]
pub struct Status(pub u8);

// The line with what the command answers to the input.
fn perform<P: Scheme, V: Verifier<P>, S: Signer<P>>(
    alloc: Global,
    command: &Command,
    input: Vec<u8>,
    verifier: &V,
    signer: &mut S,
    key: &S::KeyId,
) -> Result<Vec<u8>, Refusal>
    requires { IsLimited command.now }
    ensures ok { IfOk result (λ line. IsLineOf (Performs P.checks command.now input.items
        (seen_signer key.now (S.state signer.old) (S.state signer.new))) line.items) }
    ensures err { IfErr result (λ e. e ≢ Refusal.OutOfMemory
        → Performs P.checks command.now input.items
        (seen_signer key.now (S.state signer.old) (S.state signer.new)) (Err e)) }
    ensures keeps { Keeps (S.state signer.old) (S.state signer.new) }
    ensures untouched { AsksSigner command.now ⊎ (signer.new ≡ signer.old) }
    ensures unasked { (answer : Result (List ℕ) Refusal)
        → AnswersSpelled P.checks command.now (octets_in command.now input.items) answer
        → signer.new ≡ signer.old }
{
    match command {
        Command::Content => {
            let octets = input_octets(alloc, input)?;
            content_line(alloc, &octets)
        }
        Command::Receive { kind, when, keys } => {
            let octets = input_octets(alloc, input)?;
            receive_line(alloc, *kind, &octets, keys.as_slice(), *when, verifier)
        }
        Command::Create { kind, when } => create_line(alloc, *kind, input, *when, key, signer),
        Command::Setup { kind, when } => setup_line(alloc, *kind, &input, *when, verifier),
        Command::Make { count, seed } => make_line(alloc, *count, *seed, verifier, key, signer),
    }
}

// The whole input, if the command reads it.
fn input_for<I: Source>(alloc: Global, command: &Command, input: &mut I) -> Result<Vec<u8>, Refusal>
    ensures ok { IfOk result (λ octets. IfSome (I.rest input.old) (λ rest.
        ReadsInput command.now → (octets.items ≡ rest) × (length rest ≤ most_input))) }
    ensures short { IfOk result (λ octets. ReadsInput command.now
        → length octets.items ≤ most_input) }
    ensures steady { OnOk result (IsSteady (seen I.rest I.faults input.old input.new)) }
    ensures end { ReadsInput command.now → OnOk result (IsAtEnd (I.rest input.new)) }
    ensures err { IfErr result (λ e. IsUnread (seen I.rest I.faults input.old input.new) e) }
    ensures reads { IfErr result (λ e. ReadsInput command.now) }
    ensures unread { ReadsInput command.now ⊎ (input.new ≡ input.old) }
    ensures most { TakesAtMost (I.rest input.old) (I.rest input.new) (most_input + 1) }
{
    match command {
        Command::Make { .. } => Ok(Vec::new(alloc)),
        _ => read_input(alloc, input),
    }
}

// The line with the text that the words ask for.
fn answer<P: Scheme, I: Source, V: Verifier<P>, S: Signer<P>>(
    alloc: Global,
    words: &Words,
    input: &mut I,
    verifier: &V,
    signer: &mut S,
    key: &S::KeyId,
) -> Result<Vec<u8>, Refusal>
    ensures ok { IfOk result (λ line. IsLineOf
        (IsShown P.checks words.now (seen I.rest I.faults input.old input.new)
        (seen_signer key.now (S.state signer.old) (S.state signer.new))) line.items) }
    ensures err { IfErr result (λ e.
        IsAdmitted P.checks words.now (seen I.rest I.faults input.old input.new)
        (seen_signer key.now (S.state signer.old) (S.state signer.new)) (Err e)) }
    ensures keeps { Keeps (S.state signer.old) (S.state signer.new) }
    ensures untouched { AreNoCreate words.now → AreNoMake words.now → signer.new ≡ signer.old }
    ensures unasked { (answer : Result (List ℕ) Refusal) → IfSome (I.rest input.old) (λ rest.
        IsAnswer P.checks words.now rest answer → signer.new ≡ signer.old) }
    ensures usage { IsErrOf result Refusal.Usage → IsNoCommand words.now }
    ensures usage_always { IsNoCommand words.now
        → IsErrOf result Refusal.Usage ⊎ IsErrOf result Refusal.OutOfMemory }
    ensures unread { IsNoCommand words.now → input.new ≡ input.old }
    ensures whole { AreNoMake words.now → MatchResult result (λ _. IsAtEnd (I.rest input.new))
        (λ e. ReadsAll (status_of e) → IsAtEnd (I.rest input.new)) }
    ensures long { AreNoMake words.now → IsErrOf result Refusal.TooLong → IfSome (I.rest input.old)
        (λ rest. length rest ≤ most_input → IsAtEnd (I.rest input.new)) }
    ensures made { (count seed : ℕ) → IsMake words.now count seed → MatchResult result
        (λ line. IsLineOf (IsMakeAnswer P.checks count seed
        (seen_signer key.now (S.state signer.old) (S.state signer.new))) line.items)
        (λ e. e ≢ Refusal.OutOfMemory → IsMakeAnswer P.checks count seed
        (seen_signer key.now (S.state signer.old) (S.state signer.new)) (Err e)) }
    ensures unread_by_make { (count seed : ℕ) → IsMake words.now count seed
        → input.new ≡ input.old }
    ensures most { TakesAtMost (I.rest input.old) (I.rest input.new) (most_input + 1) }
{
    let Some(command) = words.command(alloc)? else {
        return Err(Refusal::Usage);
    };
    let octets = input_for(alloc, &command, input)?;
    perform(alloc, &command, octets, verifier, signer, key)
}

// Writes the line, and answers the status; or 11, where a write fails.
fn write_line<O: Sink>(output: &mut O, line: &[u8], status: u8) -> Status
    requires { status ≢ 11 }
    ensures whole { result.0 ≢ 11 → (result.0 ≡ status)
        × Appends (O.written output.old) (O.written output.new) line.now }
    ensures part { result.0 ≡ 11
        → AppendsPart (O.written output.old) (O.written output.new) line.now }
    ensures fault { result.0 ≡ 11 → HasFailed (seen O.written O.faults output.old output.new) }
    ensures steady { result.0 ≢ 11 → IsSteady (seen O.written O.faults output.old output.new) }
{
    match write_all(output, line) {
        Ok(()) => Status(status),
        Err(_) => Status(11),
    }
}

/// Writes the line of the refusal and answers its status, or 11 where a write failed. It takes no
/// memory.
pub fn refuse<O: Sink>(output: &mut O, refusal: Refusal) -> Status
    ensures ends { Ends (Err refusal) result.0 (seen O.written O.faults output.old output.new) }
    ensures status { (result.0 ≡ status_of refusal) ⊎ (result.0 ≡ 11) }
    ensures fault { result.0 ≡ 11 → HasFailed (seen O.written O.faults output.old output.new) }
    ensures steady { result.0 ≢ 11 → IsSteady (seen O.written O.faults output.old output.new) }
{
    write_line(output, refusal.line().as_str().as_bytes(), refusal.status())
}

// Writes the line with status 0, or that of the refusal.
fn finish<O: Sink>(output: &mut O, answer: Result<Vec<u8>, Refusal>) -> Status
    ensures text { IfOk answer (λ line. (text : List ℕ) → line.items ≡ text ++ 10 ∷ []
        → Ends (Ok text) result.0 (seen O.written O.faults output.old output.new)) }
    ensures refusal { IfErr answer (λ e.
        Ends (Err e) result.0 (seen O.written O.faults output.old output.new)) }
    ensures status { MatchResult answer (λ _. (result.0 ≡ 0) ⊎ (result.0 ≡ 11))
        (λ e. (result.0 ≡ status_of e) ⊎ (result.0 ≡ 11)) }
    ensures fault { result.0 ≡ 11 → HasFailed (seen O.written O.faults output.old output.new) }
    ensures steady { result.0 ≢ 11 → IsSteady (seen O.written O.faults output.old output.new) }
{
    match answer {
        Ok(line) => write_line(output, &line, 0),
        Err(refusal) => refuse(output, refusal),
    }
}

/// Does what the words ask for with the input, writes one line, and answers the exit status: 0,
/// that of a refusal, or 11 where a write failed.
///
/// `content` and `receive` read a signed message in hexadecimal, an even number of digits of either
/// case and at most one line feed behind them; octets behind the message are allowed. `content`
/// writes its content. `receive KIND MOMENT KEY..` writes the message of the protocol that it is,
/// where one of the one to eight keys issued its certificate for the moment and all fourteen checks
/// hold under it: MOMENT in seconds since 1970, each KEY in DER and hexadecimal. `create KIND
/// MOMENT` reads a message and writes, in hexadecimal, a signed message with it, which the signer
/// makes under the issuing key with the identifier `key`. `setup KIND MOMENT` reads one of the
/// four setup messages and writes it anew, where its certificate is accepted as a trust anchor's
/// certificate at the moment. `make COUNT SEED` makes a query of the publication protocol with COUNT
/// elements, at most 10000, creates a signed message with it and receives that, and writes a
/// summary; it reads nothing. Reading stops behind 2^26 octets and one more. The whole line is made
/// before the first write.
pub fn run<P: Scheme, I: Source, O: Sink, V: Verifier<P>, S: Signer<P>>(
    alloc: Global,
    words: &Words,
    input: &mut I,
    output: &mut O,
    verifier: &V,
    signer: &mut S,
    key: &S::KeyId,
) -> Status
    // `receive` ends with 0 only where a message was accepted, whose text is the line that was
    // written. Here and below `OfInput` speaks of what the source tells, or else of some octets.
    ensures received { (kind : Kind) (when : ℤ) (keys : List KeyFields)
        → IsReceive words.now kind when keys → result.0 ≡ 0
        → OfInput (I.rest input.old) (λ rest.
        Delivers P.checks kind keys when rest (seen O.written O.faults output.old output.new)) }

    // Where a message is accepted, `receive` ends with 0, but for want of memory and for faults of
    // source and sink.
    ensures accepted { (kind : Kind) (when : ℤ) (keys : List KeyFields)
        → IsReceive words.now kind when keys
        → IfSome (I.rest input.old) (λ rest. BringsAccepted P.checks kind keys when rest
        → Succeeds result.0 (seen I.rest I.faults input.old input.new)
        (seen O.written O.faults output.old output.new)) }

    // `create` ends with 0 only where the input reads as a message, and what was written is received
    // as that message's normal form under every list of keys that holds the issuing key, at each
    // second from 300 before the moment to 300 after it.
    ensures created { (kind : Kind) (when : ℤ) → IsCreate words.now kind when → result.0 ≡ 0
        → OfInput (I.rest input.old) (λ rest. Creates P.checks kind when rest
        (seen_signer key.now (S.state signer.old) (S.state signer.new))
        (seen O.written O.faults output.old output.new)) }

    // Where a message can be created, `create` ends with 0, but for want of memory and for faults of
    // source and sink.
    ensures creates { (kind : Kind) (when : ℤ) → IsCreate words.now kind when
        → IfSome (I.rest input.old) (λ rest. CanCreate kind when rest
        (seen_signer key.now (S.state signer.old) (S.state signer.new)) → Succeeds result.0
        (seen I.rest I.faults input.old input.new)
        (seen O.written O.faults output.old output.new)) }

    // `setup` ends with 0 only where the input reads as the message that is asked for, whose
    // certificate is accepted as a trust anchor's certificate at the moment, and writes the message
    // anew.
    ensures set_up { (kind : SetupKind) (when : ℤ) → IsSetup words.now kind when → result.0 ≡ 0
        → OfInput (I.rest input.old) (λ rest. (text : List ℕ)
        × IsSetUp P.checks kind rest when text
        × Appends (O.written output.old) (O.written output.new) (text ++ 10 ∷ [])) }

    // `make` ends with 0 only where the signer holds the issuing key, and what was written is the
    // summary of octets that are received, under every list of keys that holds it, as the message
    // with so many elements, at each second from 300 before the moment to 300 after it. And where
    // the signer gives what is asked it ends with 0, but for want of memory and a fault of the sink.
    ensures made { (count seed : ℕ) → IsMake words.now count seed → result.0 ≡ 0
        → Makes P.checks count seed
        (seen_signer key.now (S.state signer.old) (S.state signer.new))
        (seen O.written O.faults output.old output.new) }
    ensures makes { (count seed : ℕ) → IsMake words.now count seed
        → CanSign (seen_signer key.now (S.state signer.old) (S.state signer.new))
        → (result.0 ≡ 0) ⊎ ((result.0 ≡ 12) ⊎ (result.0 ≡ 11)) }

    // Where words and input show an answer, the call ends with it, but for want of memory and for
    // faults of source and sink.
    ensures shown { (answer : Result (List ℕ) Refusal) → IfSome (I.rest input.old) (λ rest.
        IsAnswer P.checks words.now rest answer → EndsAs answer result.0
        (seen I.rest I.faults input.old input.new)
        (seen O.written O.faults output.old output.new)) }

    // Every status comes with an admitted answer: the one that words and input show; or one of the
    // signer's, by its cause and as its first refusal; or ReadFault, where the source failed; or
    // OutOfMemory.
    ensures answered { (answer : Result (List ℕ) Refusal)
        × IsAdmitted P.checks words.now (seen I.rest I.faults input.old input.new)
        (seen_signer key.now (S.state signer.old) (S.state signer.new)) answer
        × Ends answer result.0 (seen O.written O.faults output.old output.new) }

    // Status 0 comes only with the text that the words ask for of this input, as the line that was
    // written.
    ensures done { result.0 ≡ 0 → OfInput (I.rest input.old) (λ rest. (text : List ℕ)
        × IsGiven P.checks words.now
        (seen_signer key.now (S.state signer.old) (S.state signer.new)) rest (Ok text)
        × Appends (O.written output.old) (O.written output.new) (text ++ 10 ∷ [])) }

    // The signer holds the same keys, and words other than those of `create` and `make` leave it
    // untouched. So do words and input that show an answer, as where `create` refuses its input.
    ensures keeps { Keeps (S.state signer.old) (S.state signer.new) }
    ensures untouched { AreNoCreate words.now → AreNoMake words.now → signer.new ≡ signer.old }
    ensures unasked { (answer : Result (List ℕ) Refusal) → IfSome (I.rest input.old) (λ rest.
        IsAnswer P.checks words.now rest answer → signer.new ≡ signer.old) }

    // A fault of the source or of the sink is told, and nothing else is told as one.
    ensures read_fault { result.0 ≡ 10 → HasFailed (seen I.rest I.faults input.old input.new) }
    ensures no_read_fault { result.0 ≢ 10 → result.0 ≢ 11
        → IsSteady (seen I.rest I.faults input.old input.new) }
    ensures write_fault { result.0 ≡ 11
        → HasFailed (seen O.written O.faults output.old output.new) }
    ensures no_write_fault { result.0 ≢ 11
        → IsSteady (seen O.written O.faults output.old output.new) }

    // Other words leave the source unread, and are answered so unless the write fails or memory
    // runs out. `make` leaves it unread too.
    ensures usage { result.0 ≡ 2 → IsNoCommand words.now }
    ensures usage_always { IsNoCommand words.now
        → (result.0 ≡ 2) ⊎ ((result.0 ≡ 11) ⊎ (result.0 ≡ 12)) }
    ensures unread { IsNoCommand words.now → input.new ≡ input.old }
    ensures unread_by_make { (count seed : ℕ) → IsMake words.now count seed
        → input.new ≡ input.old }

    // Where the input decided or the signer, nothing of it is left, but by `make`; and no more is
    // read than the limit and one.
    ensures whole { AreNoMake words.now → ReadsAll result.0 → IsAtEnd (I.rest input.new) }
    ensures long { AreNoMake words.now → result.0 ≡ 9 → IfSome (I.rest input.old)
        (λ rest. length rest ≤ most_input → IsAtEnd (I.rest input.new)) }
    ensures most { TakesAtMost (I.rest input.old) (I.rest input.new) (most_input + 1) }
{
    let answer = answer(alloc, words, input, verifier, signer, key);
    finish(output, answer)
}
