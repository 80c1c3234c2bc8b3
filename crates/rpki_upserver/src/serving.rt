//! All that the program does.

ghost use Rattle.std.specs.Prelude.{◌^◌, ◌+◌, ◌≡◌, ◌≢◌, ◌⊎◌, ◌++◌, ◌∷◌, [], Err, IfErr, IfOk, List, OnErr, OnOk, map, ℕ, ℤ};
ghost use Rattle.hex.specs.Hex.{encode_lower};
ghost use Rattle.rpki_common.specs.Limits.{most_input};
ghost use Rattle.rpki_base.specs.PublicKey.{KeyFields};
ghost use Rattle.rpki_signer.specs.Limits.{Keeps};
ghost use Rattle.rpki_sigmsg.specs.Spelling.{CanSpellMessage, rewritten};
ghost use Rattle.rpki_text.specs.Source.{TakesAtMost};
ghost use Rattle.rpki_ca.specs.Acceptance.{of_provisioning, refusal_of};
ghost use Rattle.rpki_ca.specs.Answer.{Ends};
ghost use Rattle.rpki_ca.specs.Lines.{Answered};
ghost use Rattle.rpki_ca.specs.Refusal.{name_of};
ghost use Rattle.rpki_ca.specs.Seen.{seen, seen_signer};
ghost use Rattle.rpki_ca.specs.declared.refusals.Refusal.TheVariants as refusals;
ghost use Rattle.rpki_upserver.specs.Answering.{with_issuer};
ghost use Rattle.rpki_upserver.specs.Running.{AreNoParentWords, AreParentWords, EndsParentServed, EndsParentRun, run_of};
ghost use Rattle.rpki_upserver.specs.Serving.{AreAllAnswered, AreFirstAnswered, FailsLine, IsLeft, IsLineAnswered, StopsAnswering, service_of};

use crate::issuer::Issuer;
use crate::parent::{AnswerError, Parent};
use crate::preparing::{Terms, first_parent, terms_of};
use rpki_base::{PublicKey, Scheme, Time, Verifier};
use rpki_ca::{
    Lines, ReceiveError, Refusal, Status, Stop, Words, finish_lines, hexadecimal_line, messages_in,
    read_input, refuse,
};
use rpki_common::OutOfMemory;
use rpki_provisioning::ProvisioningCms;
use rpki_sigmsg::Window;
use rpki_signer::Signer;
use rpki_text::{Sink, Source, write_all};
use rpki_updown::{Error, SigningCert};
use std::alloc::Global;

// The line of a signed message: its octets in hexadecimal of lower case.
fn message_line(alloc: Global, cms: &ProvisioningCms) -> Result<Vec<u8>, OutOfMemory>
    ensures line { IfOk result (λ line. line.items
        ≡ encode_lower (rewritten cms.now.signed) ++ 10 ∷ []) }
    ensures spelled { OnOk result (CanSpellMessage cms.now.signed) }
{
    let octets = cms.to_bytes(alloc)?;
    hexadecimal_line(alloc, octets.as_slice())
}

// The line where octets are refused: the one that `receive provisioning` writes.
fn refusal_line(alloc: Global, error: Error) -> Result<Vec<u8>, OutOfMemory>
    ensures { IfOk result (λ line. line.items
        ≡ name_of (refusal_of (of_provisioning error)) ++ 10 ∷ []) }
{
    let refusal = Refusal::from(ReceiveError::from(error));
    let mut line = Vec::new(alloc);
    line.extend_from_slice(refusal.line().as_str().as_bytes())?;
    Ok(line)
}

// The line with which octets are answered.
fn answer_line<P: Scheme, V: Verifier<P>, N: Issuer, S: Signer<P>>(
    alloc: Global,
    parent: &mut Parent,
    octets: &[u8],
    when: Time,
    verifier: &V,
    issuer: &mut N,
    signer: &mut S,
    key: &S::KeyId,
) -> Result<Vec<u8>, Refusal>
    ensures ok { IfOk result (λ line. (text : List ℕ) × IsLineAnswered P.checks when key.now
        (service_of (with_issuer parent.old (N.state issuer.old)) (S.state signer.old)) octets.now
        text (service_of (with_issuer parent.new (N.state issuer.new)) (S.state signer.new))
        × (line.items ≡ text ++ 10 ∷ [])) }
    ensures err { IfErr result (λ e. e ≢ refusals.OutOfMemory → FailsLine P.checks when
        (seen_signer key.now (S.state signer.old) (S.state signer.new))
        (with_issuer parent.old (N.state issuer.old)) octets.now
        (with_issuer parent.new (N.state issuer.new)) e) }
    ensures left { OnErr result (IsLeft P.checks when (with_issuer parent.old (N.state issuer.old))
        octets.now (with_issuer parent.new (N.state issuer.new))) }
    ensures keeps { Keeps (S.state signer.old) (S.state signer.new) }
{
    match parent.answer(octets, when, verifier, issuer, signer, key) {
        Ok(cms) => Ok(message_line(alloc, &cms)?),
        Err(AnswerError::Refused(error)) => Ok(refusal_line(alloc, error)?),
        Err(AnswerError::Unsent(error)) => Err(Refusal::from(error)),
        Err(AnswerError::OutOfMemory) => Err(Refusal::OutOfMemory),
    }
}

// Answers each message by a line of its own.
fn answer_all<P: Scheme, O: Sink, V: Verifier<P>, N: Issuer, S: Signer<P>>(
    alloc: Global,
    parent: &mut Parent,
    messages: &[Vec<u8>],
    when: Time,
    output: &mut O,
    verifier: &V,
    issuer: &mut N,
    signer: &mut S,
    key: &S::KeyId,
) -> Result<(), Stop>
    ensures answered { Answered
        (AreAllAnswered P.checks when
        (seen_signer key.now (S.state signer.old) (S.state signer.new))
        (with_issuer parent.old (N.state issuer.old)) (N.state issuer.new)
        (map (λ m. m.items) messages.now))
        (AreFirstAnswered P.checks when
        (seen_signer key.now (S.state signer.old) (S.state signer.new))
        (with_issuer parent.old (N.state issuer.old)) (N.state issuer.new)
        (map (λ m. m.items) messages.now))
        (StopsAnswering P.checks when
        (seen_signer key.now (S.state signer.old) (S.state signer.new))
        (with_issuer parent.old (N.state issuer.old)) (N.state issuer.new)
        (map (λ m. m.items) messages.now))
        result (seen O.written O.faults output.old output.new) }
    ensures keeps { Keeps (S.state signer.old) (S.state signer.new) }
{
    for octets in messages {
        let line = answer_line(alloc, parent, octets, when, verifier, issuer, signer, key)?;
        write_all(output, &line)?;
    }
    Ok(())
}

// Answers the lines from the parent at first, if all are of the form and replies can be signed at
// the moment.
fn serve_lines<P: Scheme, O: Sink, V: Verifier<P>, N: Issuer, S: Signer<P>>(
    alloc: Global,
    child_key: PublicKey,
    lines: Lines<'_>,
    when: Time,
    output: &mut O,
    verifier: &V,
    issuer: &mut N,
    signer: &mut S,
    key: &S::KeyId,
    signing: &SigningCert,
) -> Status
    ensures ends { EndsParentServed P.checks
        (run_of when child_key signing.now (N.state issuer.old) (N.state issuer.new)
        (seen_signer key.now (S.state signer.old) (S.state signer.new))) lines.entry result.0
        (seen O.written O.faults output.old output.new) }
    ensures keeps { Keeps (S.state signer.old) (S.state signer.new) }
{
    let messages = match messages_in(alloc, lines) {
        Ok(Some(messages)) => messages,
        Ok(None) => return refuse(output, Refusal::Hex),
        Err(_) => return refuse(output, Refusal::OutOfMemory),
    };
    if Window::new(when).is_none() {
        return refuse(output, Refusal::Moment);
    }
    let mut parent = match first_parent(alloc, child_key, signing) {
        Ok(parent) => parent,
        Err(_) => return refuse(output, Refusal::OutOfMemory),
    };
    let answered = answer_all(
        alloc,
        &mut parent,
        &messages,
        when,
        output,
        verifier,
        issuer,
        signer,
        key,
    );
    finish_lines(output, answered)
}

/// Answers the messages of a child one behind the other, each by a line. Where all are answered, the exit status that it answers is 0.
///
/// The words are the moment in seconds since 1970 and the child's public key in DER, in hexadecimal digits of either case. Each line of
/// the input is a signed message of the provisioning protocol in hexadecimal digits of either case, and is answered by a line: the signed
/// message that [`Parent::answer`] gives, in hexadecimal of lower case, or, where it refuses the octets, what
/// `rpkica receive provisioning` writes of them. The parent calls itself `Bob` and its child `Carol`, and has one class, `0`, in which
/// nothing was issued: the child has the AS numbers 1 to 10 and the addresses 10.0.0.0/8 and 2001:db8::/32 in it until
/// the second 2524607999, its certificates are published under `rsync://localhost/repo/`, and `signing` is the certificate of the issuing
/// key. Replies are signed under the issuing key with the identifier `key`.
///
/// The other exit statuses are 2 where the words are others, 3 where a line isn't hexadecimal, and 8 where the 300 seconds before or after
/// the moment leave the years 1970 to 9999, and then no message is answered; 7 where the signer refuses, 9 where the input has more than
/// 2^26 octets, a reply's text more than 2^31, or a key or a signature of the signer more than 2^16, 10 where the input fails, 11 where a
/// write failed, and 12 where memory ran out.
pub fn serve<P: Scheme, I: Source, O: Sink, V: Verifier<P>, N: Issuer, S: Signer<P>>(
    alloc: Global,
    words: &Words,
    input: &mut I,
    output: &mut O,
    verifier: &V,
    issuer: &mut N,
    signer: &mut S,
    key: &S::KeyId,
    signing: &SigningCert,
) -> Status

    // Other words are refused, the source is left unread, and issuer and signer unasked.
    ensures usage { AreNoParentWords words.now
        → Ends (Err refusals.Usage) result.0 (seen O.written O.faults output.old output.new)
        ⊎ Ends (Err refusals.OutOfMemory) result.0 (seen O.written O.faults output.old output.new) }
    ensures unread { AreNoParentWords words.now → input.new ≡ input.old }
    ensures unasked { AreNoParentWords words.now → (issuer.new ≡ issuer.old)
        × (signer.new ≡ signer.old) }

    // At most one octet more than the limit is taken of the source.
    ensures most { TakesAtMost (I.rest input.old) (I.rest input.new) (most_input + 1) }

    // Where the source isn't read whole, that is what is answered, and issuer and signer did
    // nothing; and where it is, the messages are answered.
    ensures ends { (when : ℤ) (child : KeyFields) → AreParentWords words.now when child
        → EndsParentRun P.checks
        (run_of when child signing.now (N.state issuer.old) (N.state issuer.new)
        (seen_signer key.now (S.state signer.old) (S.state signer.new)))
        result.0 (seen I.rest I.faults input.old input.new)
        (seen O.written O.faults output.old output.new) }

    // The signer holds the same keys, whatever the answer.
    ensures keeps { Keeps (S.state signer.old) (S.state signer.new) }
{
    let Terms { when, child } = match terms_of(alloc, words) {
        Ok(Some(terms)) => terms,
        Ok(None) => return refuse(output, Refusal::Usage),
        Err(_) => return refuse(output, Refusal::OutOfMemory),
    };
    match read_input(alloc, input) {
        Ok(octets) => {
            let lines = Lines::new(&octets);
            serve_lines(
                alloc, child, lines, when, output, verifier, issuer, signer, key, signing,
            )
        }
        Err(refusal) => refuse(output, refusal),
    }
}
