//! The program: its words, standard input and standard output are handed to `rpki_external::run_keys`.
#![tactic(auto)]

use command_line::{Own, own_text, words_of, write_text};
use rpki_ca::{Status, refuse};
use rpki_external::run_keys;
use rpki_text::{StdSink, StdSource};
use std::process::ExitCode;

const HELP: &[u8] = b"\
rpkikeys receives and makes messages under real keys. It holds no key and knows
no signature scheme: it asks which signatures hold, takes the answers, writes
what is to be signed, and takes the signatures. OpenSSL can stand behind it, or
a device. The command calmizsed asks both, over the library for C.

Examples run in the top folder of the repository, behind these two lines:
    key=$(cat examples/rsa-key.hex)
    toy=3022300d06092a864886f70d010101050003110000000000000000010000000000000000

QUESTIONS. Each of these commands writes the questions of its input:

    rpkikeys questions message KEY.. < MESSAGE
        Of a signed message under one to eight KEYs.
        Example: ./rpkikeys questions message $key < examples/rsa-query.hex

    rpkikeys questions setup SETUP-KIND < TEXT
        Of the trust anchor in a setup message, if it names its own key as its
        issuer's. If it doesn't, there are none.
        Example: ./rpkikeys questions setup child_request \\
            < examples/rsa-child-request.xml

    rpkikeys questions request < REQUEST
        Of a certificate request.
        Example: ./rpkikeys questions request < examples/rsa-request.hex

    rpkikeys questions issue < TEXT
        Of the certificate request in an issue request.
        Example: ./rpkikeys questions issue < examples/rsa-issue.xml

The lines are, in this order:
    attributes KEY OCTETS SIGNATURE     (message: asked under this KEY, which
                                        is that of the message's certificate)
    anchor KEY OCTETS SIGNATURE         (setup: asked under this KEY, its own)
    request KEY OCTETS SIGNATURE        (request, issue: the same)
    certificate - OCTETS SIGNATURE      (message: asked under each KEY)
    crl - OCTETS SIGNATURE              (message, one for each CRL: the same)
    key KEY                             (message: a KEY that was handed in)
    digest DIGEST
A question is: is SIGNATURE one of RSA with SHA-256 of OCTETS under KEY? DIGEST
is that of the questions, and of no other ones.

ANSWERS. Each of these commands takes DIGEST, for which questions the answers
are, and ANSWERS, a digit for each question, 1 for yes and 0 for no: first the
question of the line that has a KEY of its own, if there is one; then, for one
`key` line after the other, each line with a hyphen. Where there are no
questions ANSWERS is an empty word.

    rpkikeys receive KIND MOMENT LAST DIGEST ANSWERS KEY.. < MESSAGE
        Writes which KEY issued the message's certificate, counted from 0, and
        when the message was signed, or a hyphen if it doesn't say that; on the
        next line the message of the protocol KIND, as `rpkica receive` does.
        LAST is a hyphen, or a moment: then the message has to be signed later.
        Example: ./rpkikeys receive publication 1795927341 - \\
            b4332e7c87719fd309a60dfc95c54c0e2e0aa41c0f4d37784f5daaba5dd69d91 \\
            111 $key < examples/rsa-query.hex

    rpkikeys explain MOMENT DIGEST ANSWERS KEY < MESSAGE
        Writes fourteen digits, one for each check of `rpkica --help`, which
        is 1 where the check holds under KEY.
        Example: ./rpkikeys explain 1795927642 \\
            b4332e7c87719fd309a60dfc95c54c0e2e0aa41c0f4d37784f5daaba5dd69d91 \\
            111 $key < examples/rsa-query.hex

    rpkikeys setup SETUP-KIND MOMENT DIGEST ANSWERS < TEXT
        Writes the setup message anew, if the checks of its trust anchor hold.
        Example: ./rpkikeys setup child_request 1800000000 \\
            4644e9da4b8972c2ffd3129c69f83df27893d09a17697354ca30b5172e871de0 \\
            1 < examples/rsa-child-request.xml

    rpkikeys request DIGEST ANSWERS < REQUEST
        Writes the key of the certificate request, if it is signed under it.
        Example: ./rpkikeys request \\
            8905980e88ed70d8467acad271ffa20f75ee513d8e4258c1f22ca408bbb38afe \\
            1 < examples/rsa-request.hex

    rpkikeys issue DIGEST ANSWERS < TEXT
        The same of the certificate request in an issue request.
        Example: ./rpkikeys issue \\
            8905980e88ed70d8467acad271ffa20f75ee513d8e4258c1f22ca408bbb38afe \\
            1 < examples/rsa-issue.xml

NO QUESTIONS:

    rpkikeys inspect < MESSAGE
        Writes what is in a signed message, as JSON. Nothing of it is checked.
        Example: ./rpkikeys inspect < examples/rsa-query.hex

SIGNATURES. `prepare` writes a line for each signature: a name, and the octets
that are to be signed. `finish` takes the same words and the same TEXT, and the
signatures. It looks at their lengths alone, and writes in hexadecimal what was
prepared, with them.

    rpkikeys prepare message KIND MOMENT SERIAL ISSUER-KEY ONE-OFF-KEY < TEXT
        A signed message with the message of the protocol KIND. The holder of
        ONE-OFF-KEY signs the attributes, the holder of ISSUER-KEY the CRL and
        the certificate.
        Example: ./rpkikeys prepare message publication 1700000000 \\
            0123456789abcdef0123456789abcdef01234567 $key $toy \\
            < examples/query-list.xml

    rpkikeys finish message KIND MOMENT SERIAL ISSUER-KEY ONE-OFF-KEY \\
            attributes=HEX crl=HEX certificate=HEX < TEXT
        Where the signatures hold it is received under ISSUER-KEY from 300
        seconds before MOMENT to 300 seconds after it.
        Example, with signatures that don't hold:
        ./rpkikeys finish message publication 1700000000 \\
            0123456789abcdef0123456789abcdef01234567 $key $toy \\
            attributes=00 crl=00 certificate=00 < examples/query-list.xml

    rpkikeys prepare anchor NOT-BEFORE NOT-AFTER KEY
    rpkikeys finish anchor NOT-BEFORE NOT-AFTER KEY anchor=HEX
        KEY's own certificate, for a setup message. Nothing is read.
        Examples: ./rpkikeys prepare anchor 1700000000 1800000000 $key
        ./rpkikeys finish anchor 1700000000 1800000000 $key anchor=00

    rpkikeys prepare request KEY REPOSITORY MANIFEST NOTIFY
    rpkikeys finish request KEY REPOSITORY MANIFEST NOTIFY request=HEX
        A certificate request for KEY. REPOSITORY and MANIFEST are rsync URIs;
        NOTIFY is an https URI, or a hyphen. Nothing is read.
        Examples: ./rpkikeys prepare request $key rsync://localhost/ca/ \\
            rsync://localhost/ca/ca.mft -
        ./rpkikeys finish request $key rsync://localhost/ca/ \\
            rsync://localhost/ca/ca.mft - request=00

    rpkikeys --help
    rpkikeys --version

KIND is `publication` or `provisioning`. SETUP-KIND is `child_request`,
`parent_response`, `publisher_request` or `repository_response`. MOMENT, LAST,
NOT-BEFORE and NOT-AFTER are in seconds since 1970, in decimal digits without
leading zeros, up to 253402300799. A key is in DER. Keys, DIGEST, SERIAL,
signatures, MESSAGE and REQUEST are in hexadecimal digits of either case.
SERIAL is twenty octets, of which the first bit is 0. At most one line feed may
stand behind MESSAGE and REQUEST. TEXT is a document of XML.

The exit status is
     0  the answer was written
     2  Usage            the words are none of these, or ANSWERS has more or
                         fewer digits than there are questions
     3  Hex              MESSAGE or REQUEST isn't hexadecimal
     4  CmsDecode        MESSAGE begins with no signed message
     5  XmlError         the content, or TEXT, has not the form of the message
                         that is asked for, as of an issue request (`issue`)
     5  CertSyntax       it has, and a certificate in it is none
     5  InvalidCsrSyntax it has, and the certificate request in it is none; or
                         REQUEST begins with none
     5  InvalidTaCertEncoding  TEXT has the form, and its trust anchor is no
                         certificate
     5  InvalidTaCert    `setup`: a check of the trust anchor fails
     6  Validation N     `receive`: check N fails, as `rpkica --help` says
     6  Signature        `request`, `issue`: it isn't signed under its own key
     7  IncompatibleKey  a key is no RSA key
     7  KeyReused        ONE-OFF-KEY is ISSUER-KEY
     8  Moment           `prepare` and `finish` of a message: MOMENT is below
                         300, or from 253402300500 on
     9  TooLong          more than 67108864 octets of input, 2147483648 of the
                         message's text, or 65536 of a key or a signature
    10  ReadFault        standard input failed
    11                   standard output failed
    12  OutOfMemory      memory ran out
    14  OtherQuestions   DIGEST is not that of the questions
    15  NoTime           LAST is a moment, and MESSAGE doesn't say when it was
                         signed
    15  Replayed LAST TIME  MESSAGE was signed at TIME, not later than LAST
Example: ./rpkikeys --help; echo $?
";

const VERSION: &[u8] = b"rpkikeys 0.1.0\n";

fn main(rt: HostRuntime) -> ExitCode {
    let mut input = StdSource::new(rt.stdin());
    let mut output = StdSink::new(rt.stdout());
    let own = Own {
        help: HELP,
        version: VERSION,
    };
    let Status(status) = match words_of(&rt) {
        Err(refusal) => refuse(&mut output, refusal),
        Ok(words) => match own_text(&words, own) {
            Some(text) => write_text(&mut output, text),
            None => run_keys(rt.alloc(), &words, &mut input, &mut output),
        },
    };
    ExitCode::from(status)
}
