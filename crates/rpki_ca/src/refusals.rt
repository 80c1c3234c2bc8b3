//! What is answered where something is refused.

ghost use Rattle.std.specs.Prelude.{◌≡◌, ◌≤◌, ◌++◌, ◌∷◌, [], Some, length};
ghost use Rattle.rpki_ca.specs.declared.refusals.Refusal.TheVariants as variant;
ghost use Rattle.rpki_ca.specs.Refusal.{status_of, word_of, name_of};

use arrayvec::ArrayString;
use itoa::Buffer;
use rpki_common::OutOfMemory;
use std::fmt;

/// Why the program doesn't do what it was asked for. Each has an exit status, and prints as its
/// name, which is the line that is written.
#[derive(Clone, Copy, Debug, PartialEq, Eq)]
pub enum Refusal {
    /// The words are no command, or the answers in them are more or fewer than is asked.
    Usage,
    /// The input isn't hexadecimal.
    Hex,
    /// The octets begin with no signed message.
    CmsDecode,
    /// The content, or the input, is no message of the kind that was asked for.
    XmlError,
    /// The content, or the input, has the form of a message, and the octets of a certificate in it begin
    /// with none.
    CertSyntax,
    /// The content, or the input, has the form of a message, and the octets of the certificate request
    /// in it begin with none.
    InvalidCsrSyntax,
    /// The octets in the place of a setup message's certificate begin with none.
    InvalidTaCertEncoding,
    /// The certificate of a setup message is not accepted as a trust anchor's certificate at the
    /// moment.
    InvalidTaCert,
    /// A check of the signed message failed: its number, from 1 to 14.
    Validation(u8),
    /// The signer holds no key with the identifier.
    KeyNotFound,
    /// The issuing key, or the key for one use where it is handed in, has another format than signatures
    /// need.
    IncompatibleKey,
    /// The key for one use is the issuing key.
    KeyReused,
    /// The signer failed.
    Signer,
    /// The 300 seconds before or after the moment leave the years 1970 to 9999.
    Moment,
    /// There are more than 2^26 octets of input; or a message's text has more than 2^31; or a key or a
    /// signature, which the signer gave or which was handed in, more than 2^16.
    TooLong,
    /// The input failed.
    ReadFault,
    /// Memory ran out.
    OutOfMemory,
}

impl Refusal {
    /// The exit status, from 2 to 12.
    pub fn status(self) -> u8
        ensures { result ≡ status_of self }
    {
        match self {
            Refusal::Usage => 2,
            Refusal::Hex => 3,
            Refusal::CmsDecode => 4,
            Refusal::XmlError => 5,
            Refusal::CertSyntax => 5,
            Refusal::InvalidCsrSyntax => 5,
            Refusal::InvalidTaCertEncoding => 5,
            Refusal::InvalidTaCert => 5,
            Refusal::Validation(_) => 6,
            Refusal::KeyNotFound => 7,
            Refusal::IncompatibleKey => 7,
            Refusal::KeyReused => 7,
            Refusal::Signer => 7,
            Refusal::Moment => 8,
            Refusal::TooLong => 9,
            Refusal::ReadFault => 10,
            Refusal::OutOfMemory => 12,
        }
    }

    /// The line that is written, with its line feed. It takes no memory.
    pub fn line(self) -> ArrayString<64>
        ensures { result.bytes ≡ name_of self ++ 10 ∷ [] }
    {
        let mut line = ArrayString::new();
        line.push_str(self.word());
        if let Refusal::Validation(check) = self {
            line.push_str(" ");
            line.push_str(Buffer::new().format(check));
        }
        line.push_str("\n");
        line
    }

    // The first word of the name.
    fn word(self) -> &'static str
        ensures word { result.now ≡ word_of self }
        ensures short { length result.now ≤ 21 }
    {
        match self {
            Refusal::Usage => "Usage",
            Refusal::Hex => "Hex",
            Refusal::CmsDecode => "CmsDecode",
            Refusal::XmlError => "XmlError",
            Refusal::CertSyntax => "CertSyntax",
            Refusal::InvalidCsrSyntax => "InvalidCsrSyntax",
            Refusal::InvalidTaCertEncoding => "InvalidTaCertEncoding",
            Refusal::InvalidTaCert => "InvalidTaCert",
            Refusal::Validation(_) => "Validation",
            Refusal::KeyNotFound => "KeyNotFound",
            Refusal::IncompatibleKey => "IncompatibleKey",
            Refusal::KeyReused => "KeyReused",
            Refusal::Signer => "Signer",
            Refusal::Moment => "Moment",
            Refusal::TooLong => "TooLong",
            Refusal::ReadFault => "ReadFault",
            Refusal::OutOfMemory => "OutOfMemory",
        }
    }
}

impl fmt::Display for Refusal {
    ghost output = { λ r. Some (name_of r) };

    fn fmt<W: fmt::Write>(&self, f: &mut fmt::Formatter<W>) -> fmt::Result {
        match self {
            Refusal::Validation(check) => write!(f, "Validation {check}"),
            refusal => f.write_str(refusal.word()),
        }
    }
}

impl From<OutOfMemory> for Refusal {
    ghost from_gives = { λ _ e. e ≡ variant.OutOfMemory };

    fn from(_: OutOfMemory) -> Refusal {
        Refusal::OutOfMemory
    }
}
