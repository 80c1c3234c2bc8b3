//! The program: its words, standard input and standard output, and a signer of the toy scheme, are handed to
//! `rpki_pubserver::serve`.
#![tactic(auto)]

use command_line::{Own, own_text, program_signer, words_of, write_text};
use rpki_ca::{Status, refuse};
use rpki_pubserver::serve;
use rpki_signer::ToyVerifier;
use rpki_text::{StdSink, StdSource};
use std::process::ExitCode;

const HELP: &[u8] = b"\
rpkipub keeps the objects of one publisher and answers its queries (RFC 8181).

    rpkipub MOMENT BASE KEY < QUERIES
        Answers each query by a signed reply. Objects may lie under BASE alone,
        an rsync URI with a host and a module, a slash behind each, whose path
        is empty or ends with a slash; at first there are none. A query is
        believed if all fourteen checks of `rpkica receive` hold at MOMENT
        under KEY, the publisher's public key in DER, in hexadecimal. MOMENT
        is in seconds since 1970, in decimal digits without leading zeros,
        from 300 to 253402300499.
        Replies are valid from 300 seconds before MOMENT to 300 seconds after
        it, and are issued by a toy key that everyone has.
        The signature scheme is a toy WITHOUT SECURITY: whoever knows the
        public key can sign.
        Example, on one line:
        rpkipub 1700000000 rsync://localhost/ca/
        3022300d06092a864886f70d010101050003110000000000000000010000000000000000
        < examples/queries.txt

    rpkipub --help
    rpkipub --version

QUERIES has a line for each signed message, in hexadecimal digits of either
case. Each is answered by a line with a signed message in hexadecimal of lower
case, in order. The reply in it is
    list            to a query for the list: every object's URI and SHA-256
    success         all changes of a query were made
    report_error    none was made. Its code is
        bad_cms_signature        no signed message; or a check of it fails, and
                                 its content is a message of the protocol
        xml_error                its content is none; or no check fails, and it
                                 is a reply
        permission_failure       a URI that does not begin with BASE
        object_already_present   a publish where there is an object
        no_object_present        an update or withdraw where there is none
        no_object_matching_hash  .. or where it has another SHA-256
    The last four are of the first change that can't be made behind those
    before it, which is in the reply.
`rpkica content` shows the reply that a line has.

The exit status is
     0  all lines were answered
     2  Usage         the words are not MOMENT BASE KEY; nothing is read
     3  Hex           a line is not hexadecimal; none is answered
     7  KeyNotFound, IncompatibleKey, KeyReused, Signer: the signer refuses
     8  Moment        MOMENT is below 300, or from 253402300500 on
     9  TooLong       more than 67108864 octets of input; or a reply, a key or
                      a signature that is over its limit
    10  ReadFault     standard input failed
    11                standard output failed
    12  OutOfMemory   memory ran out; lines may have been answered before
Example: rpkipub --help; echo $?
";

const VERSION: &[u8] = b"rpkipub 0.1.0\n";

fn main(rt: HostRuntime) -> ExitCode {
    let mut input = StdSource::new(rt.stdin());
    let mut output = StdSink::new(rt.stdout());
    let own = Own {
        help: HELP,
        version: VERSION,
    };
    let Status(status) = match words_of(&rt) {
        Err(refusal) => refuse(&mut output, refusal),
        Ok(words) => match own_text(&words, own) {
            Some(text) => write_text(&mut output, text),
            None => match program_signer(rt.alloc()) {
                Err(refusal) => refuse(&mut output, refusal),
                Ok((mut signer, key)) => serve(
                    rt.alloc(),
                    &words,
                    &mut input,
                    &mut output,
                    &ToyVerifier::new(),
                    &mut signer,
                    &key,
                ),
            },
        },
    };
    ExitCode::from(status)
}
