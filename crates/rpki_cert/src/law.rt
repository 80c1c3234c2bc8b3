//! What is written is read again, and is no longer than what was read.

ghost use Rattle.std.specs.Prelude.{◌≡◌, ◌≤◌, ◌++◌, ℕ, List, length};
ghost use Rattle.base64.specs.GeneralPurpose.{IsBytes};
ghost use Rattle.rpki_der.specs.declared.mode.Mode.{Mode};
ghost use Rattle.rpki_der.specs.declared.mode.Mode.TheVariants.{Der};
ghost use Rattle.rpki_der.specs.Takes.{BeginsAs};
ghost use Rattle.rpki_der.specs.Whole.{whole_of};
ghost use Rattle.rpki_base.specs.RpkiSignatureAlgorithm.{x509_algorithm, spelled_x509};
ghost use Rattle.rpki_base.specs.SignedData.{Signed, spelled_data, CanSpellSigned};
ghost use Rattle.rpki_cert.specs.Cert.{CertFields, certificate};
ghost use Rattle.rpki_cert.specs.Csr.{RequestFields, certification_request};
ghost use Rattle.rpki_cert.specs.CsrAttributes.{ca_attributes};
ghost use Rattle.rpki_cert.specs.Making.{CaRequest};
ghost use Rattle.rpki_cert.specs.ReadInDer.{IsRequest};

use crate::csr::RpkiCaCsr;
use crate::csr_attributes::CsrAttributes;
use rpki_base::SignatureAlgorithm;

/// What `Csr::encode_ref` writes of a request with which some octets begin is read again as that request, whatever stands behind it.
pub fn written_requests_are_read<Alg: SignatureAlgorithm, Attributes: CsrAttributes>()
    ensures { (mode : Mode) (octets rest : List ℕ) (r : Signed Alg (RequestFields Attributes)) →
        BeginsAs (certification_request Attributes.reads Alg.reads mode) mode octets r →
        CanSpellSigned Alg.spelled r.signed →
        BeginsAs (certification_request Attributes.reads Alg.reads mode) mode
        (spelled_data Alg.spelled r.signed ++ rest) r }
{}

/// What `Csr::encode_ref` writes of an authority's request are octets, which are read as it.
pub fn requests_are_read_again(request: &RpkiCaCsr)
    ensures { IsRequest request.now }
{
    // For the proof: the request was read in DER.
    let _signed = request.signed_data();
}

/// The octets of a certificate with which some octets begin are read again as that certificate, whatever stands behind them.
pub fn written_certificates_are_read()
    ensures { (octets rest : List ℕ) (c : CertFields) → BeginsAs (certificate Der) Der octets c
        → BeginsAs (certificate Der) Der (c.slice ++ rest) c }
{}

/// Two certificates with which octets begin are the same if their own octets are.
pub fn octets_determine_certificates()
    ensures { (m n : List ℕ) (a b : CertFields) → BeginsAs (certificate Der) Der m a
        → BeginsAs (certificate Der) Der n b → a.slice ≡ b.slice → a ≡ b }
{}

/// A certificate with which some octets begin has no more octets than they.
pub fn read_certificates_are_no_longer()
    ensures { (octets : List ℕ) (c : CertFields) → BeginsAs (certificate Der) Der octets c
        → length c.slice ≤ length octets }
{}

/// What is written of an authority's request that was read in DER has no more octets than it was read of, and can be written.
pub fn written_requests_are_no_longer()
    ensures length { (octets : List ℕ) (r : CaRequest) → IsBytes octets
        → BeginsAs (certification_request ca_attributes (whole_of x509_algorithm) Der) Der octets r
        → length (spelled_data spelled_x509 r.signed) ≤ length octets }
    ensures spelled { (octets : List ℕ) (r : CaRequest) → IsBytes octets
        → BeginsAs (certification_request ca_attributes (whole_of x509_algorithm) Der) Der octets r
        → CanSpellSigned spelled_x509 r.signed }
{}
