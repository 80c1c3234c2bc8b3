//! The program: its words, standard input and standard output are handed to `rpki_replay::run_guard`.
#![tactic(auto)]

use command_line::{Own, own_text, words_of, write_text};
use rpki_ca::{Status, refuse};
use rpki_replay::run_guard;
use rpki_signer::ToyVerifier;
use rpki_text::{StdSink, StdSource};
use std::process::ExitCode;

const HELP: &[u8] = b"\
rpkiguard admits the signed messages of peers, and none of them twice.

    rpkiguard MOMENT < INPUT
        Reads a state and messages, and writes for each message what comes of
        it, and the new state. A message is admitted if all fourteen checks of
        `rpkica receive` hold at MOMENT under the key that stands before it,
        and if it was signed later than the last message that was admitted
        under that key. MOMENT is in seconds since 1970, in decimal digits
        without leading zeros, up to 253402300799.
        The signature scheme is a toy WITHOUT SECURITY: whoever knows the
        public key can sign.
        Example: rpkiguard 1700000000 < examples/guard.txt

    rpkiguard --help
    rpkiguard --version

INPUT is the state, a line with a dash, and a line for each message: the key
in DER and the message, in hexadecimal digits of either case, with one space
between. The state is what an earlier run wrote behind its dash, and at first
nothing: a line for each key in the order of first admission, the key in DER
in hexadecimal digits of lower case, a space, and the signing time of the last
message that was admitted under it, in seconds since 1970.

Each message is answered by a line, in order:
    ok TIME              admitted; it was signed at TIME
    CmsDecode            its octets begin with no signed message
    Validation N         check N of `rpkica receive` fails, the first that does
    NoTime               it doesn't say when it was signed
    Replayed LAST TIME   it was signed at TIME, not later than LAST
Then a line with a dash is written, and the new state. Of messages that say the
same second as their time of signing, one at most is admitted under a key.

The exit status is
     0  all lines were answered
     2  Usage         the words are not one moment; nothing is read
     3  Hex           a line behind the dash is no message; none is answered
     9  TooLong       more than 67108864 octets of input
    10  ReadFault     standard input failed
    11                standard output failed
    12  OutOfMemory   memory ran out; lines may have been answered before
    13  BadState      there is no line with a dash, or no state before it
Example: rpkiguard --help; echo $?
";

const VERSION: &[u8] = b"rpkiguard 0.1.0\n";

fn main(rt: HostRuntime) -> ExitCode {
    let mut input = StdSource::new(rt.stdin());
    let mut output = StdSink::new(rt.stdout());
    let own = Own {
        help: HELP,
        version: VERSION,
    };
    let Status(status) = match words_of(&rt) {
        Err(refusal) => refuse(&mut output, refusal),
        Ok(words) => match own_text(&words, own) {
            Some(text) => write_text(&mut output, text),
            None => run_guard(
                rt.alloc(),
                &words,
                &mut input,
                &mut output,
                &ToyVerifier::new(),
            ),
        },
    };
    ExitCode::from(status)
}
