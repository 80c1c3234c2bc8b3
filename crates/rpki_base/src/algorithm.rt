//! Formats of keys, and kinds of signature.

ghost use Rattle.std.specs.Prelude.{◌≡◌};
ghost use Rattle.rpki_base.specs.Algorithm.{format_of};

/// The format of a public key.
#[derive(Clone, Copy, Debug, PartialEq, Eq)]
pub enum PublicKeyFormat {
    /// An RSA key (RFC 7935, 3).
    Rsa,
    /// A point of the curve prime256v1 (RFC 8208, 3).
    EcdsaP256,
}

/// A kind of signature: how a message is digested, and how the digest is signed.
#[derive(Clone, Copy, Debug, PartialEq, Eq)]
pub enum SigningAlgorithm {
    /// RSA over SHA-256 (RFC 7935, 2).
    RsaSha256,
    /// ECDSA on the curve prime256v1 over SHA-256 (RFC 8208, 2).
    EcdsaP256Sha256,
}

impl SigningAlgorithm {
    /// The format of the keys that signatures of this kind are made and checked with.
    pub fn public_key_format(self) -> PublicKeyFormat
        ensures { result ≡ format_of self }
    {
        if self == Self::RsaSha256 {
            PublicKeyFormat::Rsa
        } else {
            PublicKeyFormat::EcdsaP256
        }
    }
}
