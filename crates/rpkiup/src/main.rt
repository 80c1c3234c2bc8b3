//! The program: its words, standard input and standard output are handed to `rpki_upserver::serve`, with toy signers and a toy issuer.
#![tactic(auto)]

ghost use Rattle.std.specs.Prelude.{◌≡◌, ℤ, IfOk, OnErr};
ghost use Rattle.rpki_base.specs.PublicKey.{KeyFields};
ghost use Rattle.rpki_ca.specs.Seen.{seen};
ghost use Rattle.rpki_upserver.specs.ProgramIssuer.{IsProgramRun};
ghost use Rattle.rpki_upserver.specs.Running.{AreParentWords};

use command_line::{Own, own_text, program_signer, signer_of, words_of, write_text};
use rpki_ca::{Refusal, Status, Words, refuse};
use rpki_signer::ToyVerifier;
use rpki_text::{Sink, Source, StdSink, StdSource};
use rpki_upserver::{program_issuer, serve};
use std::alloc::Global;
use std::process::ExitCode;

const HELP: &[u8] = b"\
rpkiup is a parent: it answers the provisioning messages of one child.

    rpkiup MOMENT KEY < INPUT
        Answers each line of the input by one line. MOMENT is in seconds since
        1970, in decimal digits without leading zeros, up to 253402300799. KEY
        is the child's public key in DER, in hexadecimal digits.
        The signature scheme is a toy WITHOUT SECURITY: whoever knows the
        public key can sign.
        Example: rpkiup 1700000000 \\
    3022300d06092a864886f70d010101050003110000000000000000010000000000000000 \\
    < examples/up.txt

    rpkiup --help
    rpkiup --version

A line of the input is a signed message (RFC 6492) in hexadecimal digits of
either case. It is answered by a signed message, in hexadecimal digits of
lower case, if it has a message of the protocol and all fourteen checks of
`rpkica receive` hold at MOMENT under KEY, and else by what `rpkica receive
provisioning` writes: CmsDecode, XmlError, CertSyntax, InvalidCsrSyntax, or
Validation and a number.

The parent calls itself Bob and its child Carol. It has one class, 0, in which
the child has the AS numbers 1-10 and the addresses 10.0.0.0/8 and
2001:db8::/32 until 2049-12-31T23:59:59Z. To `list` it answers with the class
and the certificates that were issued, to `issue` with a certificate, to
`revoke` with the key; or with an error:
    1103  the message asks for nothing that a parent does
    1201  a certificate is asked for in another class
    1202  more is asked for than the child has in the class
    1203  the certificate request isn't signed under its own key
    1204  its key was revoked
    1301  revocation is asked for in another class
    1302  there is no certificate of the key
    2001  sender or recipient is another, or the issuer failed
A run begins with no certificates, and nothing is kept behind it. Its issuer is
a toy too: what it issues has the form of a certificate, and says nothing of
resources.

The exit status is
     0  all lines were answered
     2  Usage         the words are not a moment and a key; nothing is read
     3  Hex           a line isn't hexadecimal; none is answered
     7  KeyNotFound, IncompatibleKey, KeyReused, Signer: the signer refuses
     8  Moment        MOMENT is less than 300 seconds behind the start of
                      1970 or before the end of 9999; no line is answered
     9  TooLong       more than 67108864 octets of input; or a reply, a key or
                      a signature that is over its limit
    10  ReadFault     standard input failed
    11                standard output failed
    12  OutOfMemory   memory ran out; lines may have been answered before
Example: rpkiup --help; echo $?
";

const VERSION: &[u8] = b"rpkiup 0.1.0\n";

// What it does with its words, where they ask for no text on itself.
fn run<I: Source, O: Sink>(
    alloc: Global,
    words: &Words,
    input: &mut I,
    output: &mut O,
) -> Result<Status, Refusal>
    // The issuer and the signer of replies are those of the program.
    ensures ran { IfOk result (λ status. (when : ℤ) (child : KeyFields)
        → AreParentWords words.now when child → IsProgramRun when child status.0
        (seen I.rest I.faults input.old input.new)
        (seen O.written O.faults output.old output.new)) }

    // Where they aren't made, nothing is read or written.
    ensures idle { OnErr result ((input.new ≡ input.old) × (output.new ≡ output.old)) }
{
    let (mut signer, key) = program_signer(alloc)?;
    let (of_issuer, issuing_key) = signer_of(alloc, 3)?;
    let (mut issuer, signing) = program_issuer(alloc, of_issuer, issuing_key)?;
    let verifier = ToyVerifier::new();
    Ok(serve(
        alloc,
        words,
        input,
        output,
        &verifier,
        &mut issuer,
        &mut signer,
        &key,
        &signing,
    ))
}

fn main(rt: HostRuntime) -> ExitCode {
    let mut input = StdSource::new(rt.stdin());
    let mut output = StdSink::new(rt.stdout());
    let own = Own {
        help: HELP,
        version: VERSION,
    };
    let Status(status) = match words_of(&rt) {
        Err(refusal) => refuse(&mut output, refusal),
        Ok(words) => match own_text(&words, own) {
            Some(text) => write_text(&mut output, text),
            None => match run(rt.alloc(), &words, &mut input, &mut output) {
                Ok(status) => status,
                Err(refusal) => refuse(&mut output, refusal),
            },
        },
    };
    ExitCode::from(status)
}
