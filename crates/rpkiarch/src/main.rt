//! The program: its words, standard input and standard output are handed to `rpki_archive::check`.
#![tactic(auto)]

use command_line::{Own, own_text, words_of, write_text};
use rpki_archive::check;
use rpki_ca::{Status, refuse};
use rpki_signer::ToyVerifier;
use rpki_text::{StdSink, StdSource};
use std::process::ExitCode;

const HELP: &[u8] = b"\
rpkiarch says of signed messages that were kept which of them are to be
believed, and why not.

    rpkiarch batch < ARCHIVE
        Writes for each line what `rpkica receive` answers to it: the exit
        status, a space, and the SHA-256 of the message's text in hexadecimal,
        or the name of the refusal. Then a line `total N accepted A` follows,
        with the number of lines and of those with status 0.
        Example: rpkiarch batch < examples/archive.txt

    rpkiarch explain < ARCHIVE
        Writes for each line fourteen digits, one for each check of
        `rpkica receive`: 1 where it holds, 0 where it doesn't. Or Usage, Hex
        or CmsDecode, where there is no message to check. The content is not
        read.
        Example: rpkiarch explain < examples/archive.txt

    rpkiarch --help
    rpkiarch --version

ARCHIVE has a line for each message, with one space between its four words:
its kind, publication or provisioning; the moment at which it came, in seconds
since 1970; the key that is to have issued its certificate, in DER and
hexadecimal; and the message in hexadecimal. Each line is judged by itself,
whatever stands beside it, and none ends the run. The signature scheme is a
toy WITHOUT SECURITY: whoever knows the public key can sign.

The exit status is
     0  all lines were answered
     2  Usage         the words are neither batch nor explain; nothing is read
     9  TooLong       more than 67108864 octets of input
    10  ReadFault     standard input failed
    11                standard output failed
    12  OutOfMemory   memory ran out; lines may have been answered before
Example: rpkiarch --help; echo $?
";

const VERSION: &[u8] = b"rpkiarch 0.1.0\n";

fn main(rt: HostRuntime) -> ExitCode {
    let mut input = StdSource::new(rt.stdin());
    let mut output = StdSink::new(rt.stdout());
    let own = Own {
        help: HELP,
        version: VERSION,
    };
    let Status(status) = match words_of(&rt) {
        Err(refusal) => refuse(&mut output, refusal),
        Ok(words) => match own_text(&words, own) {
            Some(text) => write_text(&mut output, text),
            None => check(
                rt.alloc(),
                &words,
                &mut input,
                &mut output,
                &ToyVerifier::new(),
            ),
        },
    };
    ExitCode::from(status)
}
