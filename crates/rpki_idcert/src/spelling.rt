//! Writing what is signed of an identity certificate.

ghost use Rattle.std.specs.Prelude.{◌≡◌, ◌+◌, ◌^◌, ◌<◌, ◌++◌, length, OnOk, OnErr};
ghost use Rattle.rpki_der.specs.Tags.{sequence, context};
ghost use Rattle.rpki_der.specs.Writing.{der_constructed};
ghost use Rattle.rpki_idcert.specs.Spelling as spec;

use crate::tbs::TbsIdCert;
use rpki_base::{
    AUTHORITY_KEY_IDENTIFIER, BASIC_CONSTRAINTS, KeyIdentifier, RpkiSignatureAlgorithm,
    SUBJECT_KEY_IDENTIFIER, SignatureAlgorithm, Validity, write_constructed,
};
use rpki_der::{OutOfMemory, Tag, Writer};

// Version 3.
const VERSION: [u8; 5] = [0xA0, 0x03, 0x02, 0x01, 0x02];

// The octets that a SEQUENCE of TRUE has, and an empty one.
const TRUE_ALONE: [u8; 5] = [0x30, 0x03, 0x01, 0x01, 0xFF];

const NOTHING: [u8; 2] = [0x30, 0x00];

/// Appends an extension (RFC 5280, 4.1): the contents octets of its object identifier, its flag, which is written only where it is
/// true, and the octets that it holds. Identifier and value together have to be below 2^32 - 64 octets. After a refusal nothing is
/// appended.
pub fn write_extension(
    identifier: &[u8],
    critical: bool,
    value: &[u8],
    out: &mut Writer,
) -> Result<(), OutOfMemory>
    requires short { length identifier.now + length value.now + 64 < 2 ^ 32 }
    ensures ok { OnOk result
        (out.new ≡ out.old ++ spec.spelled_extension identifier.now critical value.now) }
    ensures err { OnErr result (out.new ≡ out.old) }
{
    let mut inner = out.inner();
    inner.primitive(Tag::OID, identifier)?;
    if critical {
        inner.primitive(Tag::BOOLEAN, &[0xFF])?;
    }
    inner.primitive(Tag::OCTET_STRING, value)?;
    out.constructed(Tag::SEQUENCE, &inner)
}

// Appends basicConstraints, where cA is there.
fn write_constraints(basic_ca: Option<bool>, out: &mut Writer) -> Result<(), OutOfMemory>
    ensures ok { OnOk result (out.new ≡ out.old ++ spec.spelled_constraints basic_ca) }
    ensures err { OnErr result (out.new ≡ out.old) }
{
    match basic_ca {
        None => Ok(()),
        Some(true) => write_extension(&BASIC_CONSTRAINTS, true, &TRUE_ALONE, out),
        Some(false) => write_extension(&BASIC_CONSTRAINTS, true, &NOTHING, out),
    }
}

// Appends subjectKeyIdentifier.
fn write_subject_key(identifier: KeyIdentifier, out: &mut Writer) -> Result<(), OutOfMemory>
    ensures ok { OnOk result (out.new ≡ out.old ++ spec.spelled_subject_key identifier) }
    ensures err { OnErr result (out.new ≡ out.old) }
{
    let mut value = out.inner();
    value.primitive(Tag::OCTET_STRING, identifier.as_slice())?;
    write_extension(&SUBJECT_KEY_IDENTIFIER, false, value.as_slice(), out)
}

/// Appends the extension authorityKeyIdentifier (RFC 5280, 4.2.1.1), not critical, where the identifier is there, and nothing where
/// it isn't. After a refusal nothing is appended.
pub fn write_authority_key(
    identifier: Option<KeyIdentifier>,
    out: &mut Writer,
) -> Result<(), OutOfMemory>
    ensures ok { OnOk result (out.new ≡ out.old ++ spec.spelled_authority_key identifier) }
    ensures err { OnErr result (out.new ≡ out.old) }
{
    let Some(identifier) = identifier else {
        return Ok(());
    };
    let mut inner = out.inner();
    inner.primitive(Tag::CTX_0, identifier.as_slice())?;
    let mut value = out.inner();
    value.constructed(Tag::SEQUENCE, &inner)?;
    write_extension(&AUTHORITY_KEY_IDENTIFIER, false, value.as_slice(), out)
}

// Appends a validity.
fn write_validity(validity: Validity, out: &mut Writer) -> Result<(), OutOfMemory>
    ensures ok { OnOk result (out.new ≡ out.old ++ spec.spelled_validity validity) }
    ensures err { OnErr result (out.new ≡ out.old) }
{
    let mut times = out.inner();
    validity.not_before().to_der_varied(&mut times)?;
    validity.not_after().to_der_varied(&mut times)?;
    out.constructed(Tag::SEQUENCE, &times)
}

// Appends the algorithm identifier of the RPKI, with NULL.
#[tactic(auto, unfolding(crate::specs::Spelling::spelled_algorithm))]
fn write_algorithm(out: &mut Writer) -> Result<(), OutOfMemory>
    ensures ok { OnOk result (out.new ≡ out.old ++ spec.spelled_algorithm) }
    ensures err { OnErr result (out.new ≡ out.old) }
{
    RpkiSignatureAlgorithm::default().x509_encode(out)
}

impl TbsIdCert {
    // Appends the extensions.
    fn write_extensions(&self, out: &mut Writer) -> Result<(), OutOfMemory>
        ensures ok { OnOk result (out.new ≡ out.old ++ spec.spelled_extensions self.now) }
    {
        write_constraints(self.basic_ca(), out)?;
        write_subject_key(self.subject_key_identifier(), out)?;
        write_authority_key(self.authority_key_id(), out)
    }

    // Appends the extensions under their tags.
    fn write_tagged_extensions(&self, out: &mut Writer) -> Result<(), OutOfMemory>
        ensures ok { OnOk result
            (out.new ≡ out.old ++ der_constructed (context 3)
            (der_constructed sequence (spec.spelled_extensions self.now))) }
    {
        let mut extensions = out.inner();
        self.write_extensions(&mut extensions)?;
        let mut list = out.inner();
        write_constructed(Tag::SEQUENCE, &extensions, &mut list)?;
        write_constructed(Tag::CTX_3, &list, out)
    }

    // Appends the fields.
    fn write_fields(&self, out: &mut Writer) -> Result<(), OutOfMemory>
        ensures ok { OnOk result (out.new ≡ out.old ++ spec.spelled_fields self.now) }
    {
        out.raw(&VERSION)?;
        self.serial_number().encode(out)?;
        write_algorithm(out)?;
        self.issuer().encode_ref(out)?;
        write_validity(self.validity(), out)?;
        self.subject().encode_ref(out)?;
        self.public_key().encode_ref(out)?;
        self.write_tagged_extensions(out)
    }

    /// Appends what is held, in DER but for the names, which stand as they were read or made: the algorithm with NULL; basicConstraints
    /// where cA is there, critical in both cases; the key identifier of the subject; that of the issuer where it is there. Whatever else
    /// was read isn't written. After a refusal nothing is appended; fields that are longer than length octets can say are refused as want
    /// of memory.
    #[tactic(auto, unfolding(crate::specs::Spelling::spelled_tbs))]
    pub fn encode_ref(&self, out: &mut Writer) -> Result<(), OutOfMemory>
        ensures ok { OnOk result (out.new ≡ out.old ++ spec.spelled_tbs self.now) }
        ensures spelled { OnOk result (spec.CanSpellCertificate self.now) }
        ensures err { OnErr result (out.new ≡ out.old) }
    {
        let mut fields = out.inner();
        self.write_fields(&mut fields)?;
        write_constructed(Tag::SEQUENCE, &fields, out)
    }
}
