//! All that the program does.

ghost use Rattle.std.specs.Prelude.{◌^◌, ◌+◌, ◌≡◌, ◌≢◌, ◌⊎◌, ◌++◌, ◌∷◌, [], Err, IfErr, IfOk, List, MatchResult, OnErr, OnOk, map, ℕ, ℤ};
ghost use Rattle.rpki_common.specs.Limits.{most_input};
ghost use Rattle.rpki_base.specs.PublicKey.{KeyFields};
ghost use Rattle.rpki_signer.specs.Limits.{Keeps};
ghost use Rattle.rpki_text.specs.Source.{TakesAtMost};
ghost use Rattle.rpki_ca.specs.Answer.{Ends};
ghost use Rattle.rpki_ca.specs.Lines.{Answered};
ghost use Rattle.rpki_ca.specs.Seen.{seen, seen_signer};
ghost use Rattle.rpki_ca.specs.declared.refusals.Refusal.TheVariants as refusals;
ghost use Rattle.rpki_pubserver.specs.Running.{AreNoServerWords, AreServerWords, EndsServerServed, EndsServerRun, new_server};
ghost use Rattle.rpki_pubserver.specs.Serving.{AreAllReplied, AreFirstReplied, FailsLine, IsReplied, StopsReplying, with_signer};

use crate::preparing::{Terms, terms_of};
use crate::server::Server;
use rpki_base::{Scheme, Time, Verifier};
use rpki_ca::{
    Lines, Refusal, Status, Stop, Words, finish_lines, hexadecimal_line, messages_in, read_input,
    refuse,
};
use rpki_sigmsg::Window;
use rpki_signer::Signer;
use rpki_text::{Sink, Source, write_all};
use std::alloc::Global;

// The line with the reply to a message.
fn answer_line<P: Scheme, V: Verifier<P>, S: Signer<P>>(
    alloc: Global,
    server: &mut Server,
    octets: &[u8],
    when: Time,
    verifier: &V,
    signer: &mut S,
    key: &S::KeyId,
) -> Result<Vec<u8>, Refusal>
    ensures ok { IfOk result (λ line. (text : List ℕ)
        × IsReplied P.checks when key.now (with_signer server.old (S.state signer.old)) octets.now
        text (with_signer server.new (S.state signer.new)) × (line.items ≡ text ++ 10 ∷ [])) }
    ensures err { IfErr result (λ e. e ≢ refusals.OutOfMemory → FailsLine P.checks when
        (seen_signer key.now (S.state signer.old) (S.state signer.new)) server.old octets.now e) }
    ensures keeps { Keeps (S.state signer.old) (S.state signer.new) }
{
    let reply = server.answer(octets, when, verifier, signer, key)?;
    let octets = reply.to_bytes(alloc)?;
    Ok(hexadecimal_line(alloc, octets.as_slice())?)
}

// Answers each message by a line of its own.
fn answer_all<P: Scheme, O: Sink, V: Verifier<P>, S: Signer<P>>(
    alloc: Global,
    server: &mut Server,
    messages: &[Vec<u8>],
    when: Time,
    output: &mut O,
    verifier: &V,
    signer: &mut S,
    key: &S::KeyId,
) -> Result<(), Stop>
    ensures answered { Answered
        (AreAllReplied P.checks when
        (seen_signer key.now (S.state signer.old) (S.state signer.new))
        server.old (map (λ m. m.items) messages.now))
        (AreFirstReplied P.checks when
        (seen_signer key.now (S.state signer.old) (S.state signer.new))
        server.old (map (λ m. m.items) messages.now))
        (StopsReplying P.checks when
        (seen_signer key.now (S.state signer.old) (S.state signer.new))
        server.old (map (λ m. m.items) messages.now))
        result (seen O.written O.faults output.old output.new) }
    ensures keeps { Keeps (S.state signer.old) (S.state signer.new) }
{
    for octets in messages {
        let line = answer_line(alloc, server, octets, when, verifier, signer, key)?;
        write_all(output, &line)?;
    }
    Ok(())
}

// Answers the lines, if all are of the form and replies can be signed at the moment.
fn serve_lines<P: Scheme, O: Sink, V: Verifier<P>, S: Signer<P>>(
    alloc: Global,
    server: &mut Server,
    lines: Lines<'_>,
    when: Time,
    output: &mut O,
    verifier: &V,
    signer: &mut S,
    key: &S::KeyId,
) -> Status
    ensures ends { EndsServerServed P.checks when
        (seen_signer key.now (S.state signer.old) (S.state signer.new)) server.old lines.entry
        result.0 (seen O.written O.faults output.old output.new) }
    ensures keeps { Keeps (S.state signer.old) (S.state signer.new) }
{
    let messages = match messages_in(alloc, lines) {
        Ok(Some(messages)) => messages,
        Ok(None) => return refuse(output, Refusal::Hex),
        Err(_) => return refuse(output, Refusal::OutOfMemory),
    };
    if Window::new(when).is_none() {
        return refuse(output, Refusal::Moment);
    }
    let answered = answer_all(
        alloc, server, &messages, when, output, verifier, signer, key,
    );
    finish_lines(output, answered)
}

/// Keeps the objects of one publisher and answers its queries one behind the other, each by a signed
/// reply. Where all are answered, the exit status that it answers is 0.
///
/// The words are the moment in seconds since 1970, the base URI, which is that of a directory, and the
/// publisher's key in DER and hexadecimal. Each line of the input is a signed message in hexadecimal
/// digits of either case, and is answered by a line with the signed reply in hexadecimal of lower case,
/// which the signer makes under the issuing key with the identifier `key`. At first there are no objects.
///
/// The other exit statuses are 2 where the words are others, 3 where a line isn't hexadecimal, and 8 where
/// the 300 seconds before or after the moment leave the years 1970 to 9999, and then no query is answered;
/// 7 where the signer refuses, 9 where the input has more than 2^26 octets, a reply's text more than 2^31, or
/// a key or a signature of the signer more than 2^16, 10 where the input fails, 11 where a write failed, and
/// 12 where memory ran out.
pub fn serve<P: Scheme, I: Source, O: Sink, V: Verifier<P>, S: Signer<P>>(
    alloc: Global,
    words: &Words,
    input: &mut I,
    output: &mut O,
    verifier: &V,
    signer: &mut S,
    key: &S::KeyId,
) -> Status
    // Other words are refused, the source is left unread, and the signer unasked.
    ensures usage { AreNoServerWords words.now
        → Ends (Err refusals.Usage) result.0 (seen O.written O.faults output.old output.new)
        ⊎ Ends (Err refusals.OutOfMemory) result.0 (seen O.written O.faults output.old output.new) }
    ensures unread { AreNoServerWords words.now → input.new ≡ input.old }
    ensures unasked { AreNoServerWords words.now → signer.new ≡ signer.old }

    // At most one octet more than the limit is taken of the source.
    ensures most { TakesAtMost (I.rest input.old) (I.rest input.new) (most_input + 1) }

    // Where the source isn't read whole, that is what is answered, and the signer did nothing; and
    // where it is, the queries are answered.
    ensures ends { (when : ℤ) (base : List ℕ) (publisher : KeyFields)
        → AreServerWords words.now when base publisher
        → EndsServerRun P.checks when
        (seen_signer key.now (S.state signer.old) (S.state signer.new)) (new_server base publisher)
        result.0 (seen I.rest I.faults input.old input.new)
        (seen O.written O.faults output.old output.new) }

    // The signer holds the same keys, whatever the answer.
    ensures keeps { Keeps (S.state signer.old) (S.state signer.new) }
{
    let Terms {
        when,
        base,
        publisher,
    } = match terms_of(alloc, words) {
        Ok(Some(terms)) => terms,
        Ok(None) => return refuse(output, Refusal::Usage),
        Err(_) => return refuse(output, Refusal::OutOfMemory),
    };
    let Some(mut server) = Server::new(alloc, base, publisher) else {
        return refuse(output, Refusal::Usage);
    };
    match read_input(alloc, input) {
        Ok(octets) => {
            let lines = Lines::new(&octets);
            serve_lines(
                alloc,
                &mut server,
                lines,
                when,
                output,
                verifier,
                signer,
                key,
            )
        }
        Err(refusal) => refuse(output, refusal),
    }
}
