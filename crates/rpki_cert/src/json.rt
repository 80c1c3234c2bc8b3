//! Certificate requests as JSON texts.

ghost use Rattle.std.specs.Prelude.{◌≡◌, Some, None, IfOk, IsErrOf, string_bytes};
ghost use Rattle.base64.specs.Engines.{standard};
ghost use Rattle.base64.specs.GeneralPurpose.{encode_of};
ghost use Rattle.serde_json.specs.Data.{string};
ghost use Rattle.serde_json.specs.Written.{compact_text};
ghost use Rattle.rpki_der.specs.declared.mode.Mode.TheVariants.{Der};
ghost use Rattle.rpki_base.specs.SignedData.{spelled_data};
ghost use Rattle.rpki_idcert.specs.Json.{in_json};
ghost use Rattle.rpki_cert.specs.Csr.{certification_request};

use crate::csr::Csr;
use crate::csr_attributes::CsrAttributes;
use crate::law::written_requests_are_read;
use rpki_base::SignatureAlgorithm;
use rpki_der::{DecodeError, OutOfMemory};
use rpki_text::{JsonError, read_octets, write_octets};
use std::alloc::Global;

/// # JSON
impl<Alg: SignatureAlgorithm, Attributes: CsrAttributes> Csr<Alg, Attributes> {
    /// The request of a JSON text, which is one string: the base64 text (RFC 4648, 4) of octets, without white space, of
    /// which [`Csr::decode`] reads the request.
    ///
    /// Malformed exactly where the text is no JSON or no string, where the string is the base64 text of no octets, or where no
    /// beginning of the octets is a request of this kind.
    pub fn from_json(alloc: Global, text: &str) -> Result<Csr<Alg, Attributes>, JsonError>
        ensures value { IfOk result (λ c.
            in_json (certification_request Attributes.reads Alg.reads Der) text.now ≡ Some c) }
        ensures malformed { IsErrOf result JsonError.Malformed
            → in_json (certification_request Attributes.reads Alg.reads Der) text.now ≡ None }
    {
        let octets = read_octets(alloc, text)?;
        match Csr::<Alg, Attributes>::decode(alloc, octets.as_slice()) {
            Ok(found) => Ok(found),
            Err(DecodeError::Malformed) => Err(JsonError::Malformed),
            Err(DecodeError::OutOfMemory) => Err(JsonError::OutOfMemory),
        }
    }

    /// The request as a JSON text, which is one string: the base64 text (RFC 4648, 4) of what [`Csr::encode_ref`] appends.
    pub fn to_json(&self, alloc: Global) -> Result<String, OutOfMemory>
        ensures text { IfOk result (λ s. string_bytes s ≡ compact_text (string
            (encode_of standard (spelled_data Alg.spelled self.now.signed)))) }

        // The text is read as this request.
        ensures again { IfOk result (λ s.
            in_json (certification_request Attributes.reads Alg.reads Der) (string_bytes s)
            ≡ Some self.now) }
    {
        // For the proof: the request was read in DER, and what is written of it is read as it.
        let _signed = self.signed_data();
        written_requests_are_read::<Alg, Attributes>();
        let octets = self.to_captured(alloc)?;
        write_octets(alloc, octets.as_slice())
    }
}
