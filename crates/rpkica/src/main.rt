//! The program: its words, standard input and standard output, with the toy verifier and a toy signer with a key, are handed to
//! `rpki_ca::run`.
#![tactic(auto)]

use command_line::{Own, own_text, program_signer, words_of, write_text};
use rpki_ca::{Status, refuse, run};
use rpki_signer::ToyVerifier;
use rpki_text::{StdSink, StdSource};
use std::process::ExitCode;

const HELP: &[u8] = b"\
rpkica reads, checks and makes the messages of RPKI certification authorities.

    rpkica content < MESSAGE
        Writes the content of a signed message, if the content has the digest
        that was signed; who signed is not looked at.
        Example: rpkica content < examples/content.hex

    rpkica receive KIND MOMENT KEY.. < MESSAGE
        Writes the message that a signed message is, if all fourteen checks
        hold under one KEY, which has issued its certificate for the moment.
        KIND is publication (RFC 8181) or provisioning (RFC 6492).
        MOMENT is in seconds since 1970, in decimal digits without leading
        zeros, up to 253402300799. There are one to eight KEYs; each is a
        public key in DER, in hexadecimal.
        The signature scheme is a toy WITHOUT SECURITY: whoever knows the
        public key can sign.
        Example, on one line:
        rpkica receive publication 1700000000
        3022300d06092a864886f70d010101050003110000000000000000010000000000000000
        < examples/query-list.hex

    rpkica create KIND MOMENT < TEXT
        Reads a message of that protocol and writes it signed, in
        hexadecimal of lower case. Its certificate and its CRL are valid from
        300 seconds before MOMENT to 300 seconds after it, both ends in, and
        are issued by the key of the example above, a toy key that everyone
        has.
        Example: rpkica create publication 1700000000 < examples/query-list.xml

    rpkica setup KIND MOMENT < TEXT
        Reads a setup message and writes it anew, if its certificate is that
        of a trust anchor and all checks of it hold at MOMENT. KIND is
        child_request, parent_response, publisher_request or
        repository_response. The scheme is the toy's, so a certificate of a
        real key is NOT verified: one that names its own key as its issuer's
        is refused as InvalidTaCert, and of any other no signature is checked.
        Example: rpkica setup child_request 1700000000 < examples/child-request.xml

    rpkica make COUNT SEED
        Makes a query of the publication protocol with COUNT elements, at most
        10000, signs it as create does at 1700000000, receives it, and writes
        how many elements it has and the SHA-256 of the signed message. SEED,
        below 4294967296, is what its objects are made of. Nothing is read.
        Example: rpkica make 10 7

    rpkica --help
    rpkica --version

TEXT is a document of XML. MESSAGE is read loosely, in BER, and is in
hexadecimal: an even number of digits of either case, then at most one line
feed. Octets behind the signed message are allowed.

One line is written to standard output. The exit status is
     0  the line is what was asked for
     2  Usage         the words are no command; nothing is read
     3  Hex           the input is not hexadecimal
     4  CmsDecode     the input begins with no signed message
     5  XmlError      the content, or TEXT, is no message that was asked for
        CertSyntax, InvalidCsrSyntax: it has the form of a provisioning message,
                      but a certificate or the request in it cannot be read
        InvalidTaCertEncoding, InvalidTaCert: the certificate of a setup
                      message cannot be read, or a check of it fails
     6  Validation N  check N fails, as below
     7  KeyNotFound, IncompatibleKey, KeyReused, Signer: the signer refuses
     8  Moment        MOMENT - 300 is before 1970, or MOMENT + 300 after 9999
     9  TooLong       more than 67108864 octets of input; or a message, a key or
                      a signature that is over its limit
    10  ReadFault     standard input failed
    11                standard output failed
    12  OutOfMemory   memory ran out

The checks of receive in their order, and where to look if one fails; content
makes the second alone. N is the first that fails; under several KEYs, the
greatest of the first that fail, one under each. EE is the certificate in the
message, which has one CRL or two; SKI and AKI are subject and authority key
identifier, MOMENT and KEY are your words.
     1  the signer is named by the EE's SKI                  message
     2  the content's SHA-256 is the digest that was signed  message
     3  the EE's key signed the attributes                   message, scheme
     4  the EE's SKI is the SHA-1 of its key                 certificate
     5  MOMENT is in the EE's validity                       clock, certificate
     6  the EE's AKI, if there is one, is that of KEY        KEY
     7  the EE is no certificate of an authority             certificate
     8  KEY signed the EE                                    KEY, certificate
     9  each CRL has one algorithm, inside and outside       CRL
    10  KEY signed each CRL                                  KEY, CRL
    11  thisUpdate of no CRL is after MOMENT                 clock, CRL
    12  nextUpdate of no CRL is before MOMENT                clock, CRL
    13  the AKI of each CRL, if there, is that of KEY        KEY, CRL
    14  no CRL lists the EE                                  CRL
Example: rpkica --help; echo $?
";

const VERSION: &[u8] = b"rpkica 0.1.0\n";

fn main(rt: HostRuntime) -> ExitCode {
    let mut input = StdSource::new(rt.stdin());
    let mut output = StdSink::new(rt.stdout());
    let own = Own {
        help: HELP,
        version: VERSION,
    };
    let Status(status) = match words_of(&rt) {
        Err(refusal) => refuse(&mut output, refusal),
        Ok(words) => match own_text(&words, own) {
            Some(text) => write_text(&mut output, text),
            None => match program_signer(rt.alloc()) {
                Err(refusal) => refuse(&mut output, refusal),
                Ok((mut signer, key)) => run(
                    rt.alloc(),
                    &words,
                    &mut input,
                    &mut output,
                    &ToyVerifier::new(),
                    &mut signer,
                    &key,
                ),
            },
        },
    };
    ExitCode::from(status)
}
