//! Identity certificates as JSON texts.

ghost use Rattle.std.specs.Prelude.{◌≡◌, List, ℕ, Some, None, IfOk, IsErrOf, string_bytes};
ghost use Rattle.base64.specs.Engines.{standard};
ghost use Rattle.base64.specs.GeneralPurpose.{encode_of};
ghost use Rattle.serde_json.specs.Data.{string};
ghost use Rattle.serde_json.specs.Written.{compact_text};
ghost use Rattle.rpki_der.specs.declared.mode.Mode.{Mode};
ghost use Rattle.rpki_der.specs.declared.mode.Mode.TheVariants.{Der};
ghost use Rattle.rpki_der.specs.Takes.{BeginsAs};
ghost use Rattle.rpki_base.specs.RpkiSignatureAlgorithm.{spelled_x509};
ghost use Rattle.rpki_base.specs.SignedData.{spelled_data};
ghost use Rattle.rpki_idcert.specs.IdCert.{CertificateFields, identity_certificate};
ghost use Rattle.rpki_idcert.specs.Json.{in_json};
ghost use Rattle.rpki_idcert.specs.Making.{IsReadAgain};

use crate::id_cert::IdCert;
use rpki_der::{DecodeError, OutOfMemory};
use rpki_text::{JsonError, read_octets, write_octets};
use std::alloc::Global;

/// # JSON
impl IdCert {
    /// The certificate of a JSON text, which is one string: the base64 text (RFC 4648, 4) of octets, without white space, of
    /// which [`IdCert::decode`] reads the certificate.
    ///
    /// Malformed exactly where the text is no JSON or no string, where the string is the base64 text of no octets, or where no
    /// beginning of the octets is a certificate.
    pub fn from_json(alloc: Global, text: &str) -> Result<IdCert, JsonError>
        ensures value { IfOk result (λ c. in_json (identity_certificate Der) text.now ≡ Some c) }
        ensures malformed { IsErrOf result JsonError.Malformed
            → in_json (identity_certificate Der) text.now ≡ None }
    {
        let octets = read_octets(alloc, text)?;
        match IdCert::decode(alloc, octets.as_slice()) {
            Ok(found) => Ok(found),
            Err(DecodeError::Malformed) => Err(JsonError::Malformed),
            Err(DecodeError::OutOfMemory) => Err(JsonError::OutOfMemory),
        }
    }

    /// The certificate as a JSON text, which is one string: the base64 text (RFC 4648, 4) of what [`IdCert::encode_ref`] appends.
    pub fn to_json(&self, alloc: Global) -> Result<String, OutOfMemory>
        ensures text { IfOk result (λ s. string_bytes s ≡ compact_text (string
            (encode_of standard (spelled_data spelled_x509 self.now.signed)))) }

        // The text is read as this certificate, where what is written of it is: so it is with each that was made or decoded in DER.
        ensures again { IfOk result (λ s. IsReadAgain Der self.now
            → in_json (identity_certificate Der) (string_bytes s) ≡ Some self.now) }
    {
        let octets = self.to_captured(alloc)?;
        write_octets(alloc, octets.as_slice())
    }
}

/// What is written of a certificate with which some octets begin is read again as it.
pub fn read_certificates_are_read_again()
    ensures { (mode : Mode) (octets : List ℕ) (c : CertificateFields)
        → BeginsAs (identity_certificate mode) mode octets c → IsReadAgain mode c }
{}
