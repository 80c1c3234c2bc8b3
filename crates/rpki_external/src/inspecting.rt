//! What is in a signed message, as JSON.

ghost use Rattle.std.specs.Prelude.{◌≡◌, IfOk, IfErr, OnOk, codes, length, map, string_bytes};
ghost use Rattle.std.specs.Option.{option_copied};
ghost use Rattle.serde_json.specs.Data.{boolean, string, put as with_member};
ghost use Rattle.serde_json.specs.View.{view, members_view};
ghost use Rattle.serde_json.specs.Written.{compact_text};
ghost use Rattle.sha2.specs.Sha256.{sha256};
ghost use Rattle.rpki_base.specs.RpkiSignatureAlgorithm.{RpkiAlgorithm, spelled_cms, spelled_x509};
ghost use Rattle.rpki_base.specs.Serial as base;
ghost use Rattle.rpki_base.specs.SignedData.{spelled_data};
ghost use Rattle.rpki_ca.specs.Acceptance.{HoldsNoSigned};
ghost use Rattle.rpki_der.specs.Arcs.{oid_text};
ghost use Rattle.rpki_der.specs.declared.error.DecodeError.TheVariants as decode;
ghost use Rattle.rpki_external.specs.Inspection as spec;
ghost use Rattle.rpki_sigmsg.specs.ObjectIdentifiers.{xml_content};

use rpki_base::{
    KeyIdentifier, PublicKey, PublicKeyFormat, RpkiSignatureAlgorithm, RsaIdentifier, Serial, Time,
    Validity,
};
use rpki_der::{DecodeError, Leaf, Mode, OutOfMemory, Tag, Writer, take_whole_pair};
use rpki_idcert::IdCert;
use rpki_sigmsg::{SignedMessage, SignedMessageCrl, message_identifiers_have_texts};
use serde_json::{Map, Value, json, put};
use sha2::{Digest, Sha256};
use std::alloc::Global;

// ---- single values

fn json_octets(alloc: Global, octets: &[u8]) -> Result<Value, OutOfMemory>
    ensures { IfOk result (λ v. view v ≡ spec.json_octets octets.now) }
{
    Ok(Value::from(hex::encode(alloc, octets)?))
}

// The key identifier, if it is there.
fn json_key_identifier(alloc: Global, key: Option<KeyIdentifier>) -> Result<Value, OutOfMemory>
    ensures { IfOk result (λ v. view v ≡ spec.json_or_null spec.json_octets key) }
{
    match key {
        Some(key) => json_octets(alloc, key.as_slice()),
        None => Ok(Value::Null),
    }
}

fn json_moment(when: Time) -> Value
    ensures { view result ≡ spec.json_moment when }
{
    Value::from(when.seconds())
}

// The moment, if it is there.
fn json_moment_or_null(when: Option<Time>) -> Value
    ensures { view result ≡ spec.json_or_null spec.json_moment when }
{
    match when {
        Some(when) => json_moment(when),
        None => Value::Null,
    }
}

// A truth value, if it is there.
fn json_truth_or_null(truth: Option<bool>) -> Value
    ensures { view result ≡ spec.json_or_null boolean truth }
{
    match truth {
        Some(truth) => Value::Bool(truth),
        None => Value::Null,
    }
}

// The octets from the first on that isn't zero.
fn significant(octets: &[u8]) -> &[u8]
    ensures { result.now ≡ base.significant octets.now }
{
    let mut rest = octets;
    'zeros: while let Some((octet, more)) = rest.split_first() {
        if *octet != 0 {
            return rest;
        }
        rest = more;
    }
    rest
}

fn json_serial(alloc: Global, serial: Serial) -> Result<Value, OutOfMemory>
    ensures { IfOk result (λ v. view v ≡ spec.json_serial serial) }
{
    match significant(serial.as_slice()) {
        [] => json_octets(alloc, &[0]),
        octets => json_octets(alloc, octets),
    }
}

// The number, if it is there.
fn json_serial_or_null(alloc: Global, serial: Option<Serial>) -> Result<Value, OutOfMemory>
    ensures { IfOk result (λ v. view v ≡ spec.json_or_null spec.json_serial serial) }
{
    match serial {
        Some(serial) => json_serial(alloc, serial),
        None => Ok(Value::Null),
    }
}

// ---- algorithms

// The object identifier that the algorithm identifier of a signer's information names.
fn named_in(octets: &[u8]) -> RsaIdentifier
    ensures { (a : RpkiAlgorithm) → octets.now ≡ spelled_cms a → result ≡ a.identifier }
{
    match octets {
        [.., 11] | [.., 11, 5, 0] => RsaIdentifier::Sha256WithRsaEncryption,
        _ => RsaIdentifier::RsaEncryption,
    }
}

// Whether NULL stands in it behind the object identifier.
fn has_null(octets: &[u8]) -> bool
    ensures { (a : RpkiAlgorithm) → octets.now ≡ spelled_cms a → result ≡ a.null }
{
    matches!(octets, [.., 5, 0])
}

// What an algorithm keeps of how it was spelled, by what it writes.
fn spelling_of(
    alloc: Global,
    algorithm: RpkiSignatureAlgorithm,
) -> Result<(RsaIdentifier, bool), OutOfMemory>
    ensures { IfOk result (λ p. record { identifier = p.0; null = p.1 } ≡ algorithm) }
{
    let mut out = Writer::new(alloc);
    algorithm.cms_encode(&mut out)?;
    let octets = out.as_slice();
    Ok((named_in(octets), has_null(octets)))
}

fn identifier_name(identifier: RsaIdentifier) -> &'static str
    ensures { result.now ≡ spec.identifier_name identifier }
{
    match identifier {
        RsaIdentifier::RsaEncryption => "rsaEncryption",
        RsaIdentifier::Sha256WithRsaEncryption => "sha256WithRSAEncryption",
    }
}

fn parameters_name(null: bool) -> &'static str
    ensures { result.now ≡ spec.parameters_name null }
{
    if null { "NULL" } else { "absent" }
}

// The algorithm of this name.
#[tactic(auto, unfolding(crate::specs::Inspection::algorithm_inspection))]
fn inspect_algorithm(alloc: Global, name: &str, null: bool) -> Result<Value, OutOfMemory>
    ensures { IfOk result (λ v. view v ≡ spec.algorithm_inspection name.now null) }
{
    Ok(json!(in alloc; {"algorithm": name, "parameters": parameters_name(null)})?)
}

// The algorithm in a signer's information.
fn inspect_cms(alloc: Global, algorithm: RpkiSignatureAlgorithm) -> Result<Value, OutOfMemory>
    ensures { IfOk result (λ v. view v ≡ spec.cms_inspection algorithm) }
{
    let (identifier, null) = spelling_of(alloc, algorithm)?;
    inspect_algorithm(alloc, identifier_name(identifier), null)
}

// The algorithm in a CRL.
fn inspect_x509(alloc: Global, algorithm: RpkiSignatureAlgorithm) -> Result<Value, OutOfMemory>
    ensures { IfOk result (λ v. view v ≡ spec.x509_inspection algorithm) }
{
    let (_, null) = spelling_of(alloc, algorithm)?;
    inspect_algorithm(alloc, "sha256WithRSAEncryption", null)
}

fn format_name(format: PublicKeyFormat) -> &'static str
    ensures { result.now ≡ spec.format_name format }
{
    match format {
        PublicKeyFormat::Rsa => "RSA",
        PublicKeyFormat::EcdsaP256 => "ECDSA P-256",
    }
}

// ---- keys

fn are_integers(first: &Leaf<'_>, second: &Leaf<'_>) -> bool
    ensures { result ≡ spec.are_integers first.now second.now }
{
    first.tag.as_slice() == Tag::INTEGER.as_slice()
        && second.tag.as_slice() == Tag::INTEGER.as_slice()
}

// The contents of the modulus of the RSA key that the octets are, if they are one.
#[tactic(auto, unfolding(crate::specs::Inspection::rsa_modulus))]
fn rsa_modulus(octets: &[u8]) -> Option<&[u8]>
    ensures { option_copied result ≡ spec.rsa_modulus octets.now }
{
    let (modulus, exponent) = take_whole_pair(Mode::Der, octets)?;
    let exponent = exponent?;
    if are_integers(&modulus, &exponent) {
        Some(modulus.content)
    } else {
        None
    }
}

// How many octets it has without the zeros in front.
fn json_modulus_length(octets: &[u8]) -> Value
    ensures { view result ≡ spec.json_or_null spec.json_count (spec.modulus_length octets.now) }
{
    match rsa_modulus(octets) {
        None => Value::Null,
        Some(modulus) => Value::from(significant(modulus).len()),
    }
}

// ---- the parts

// Puts octets under this name.
fn put_octets(
    alloc: Global,
    map: &mut Map<String, Value>,
    name: &str,
    octets: &[u8],
) -> Result<(), OutOfMemory>
    ensures { OnOk result (members_view map.new.entries ≡ with_member name.now
        (spec.json_octets octets.now) (members_view map.old.entries)) }
{
    let value = json_octets(alloc, octets)?;
    Ok(put(map, alloc, name, value)?)
}

// Puts how many there are under this name.
fn put_count(
    alloc: Global,
    map: &mut Map<String, Value>,
    name: &str,
    count: usize,
) -> Result<(), OutOfMemory>
    ensures { OnOk result (members_view map.new.entries ≡ with_member name.now
        (spec.json_count count) (members_view map.old.entries)) }
{
    Ok(put(map, alloc, name, Value::from(count))?)
}

// Puts a text under this name.
fn put_text(
    alloc: Global,
    map: &mut Map<String, Value>,
    name: &str,
    text: &str,
) -> Result<(), OutOfMemory>
    ensures { OnOk result (members_view map.new.entries ≡ with_member name.now
        (string text.now) (members_view map.old.entries)) }
{
    let value = Value::try_from_str(alloc, text)?;
    Ok(put(map, alloc, name, value)?)
}

// Puts what is told of a key.
fn put_key(alloc: Global, map: &mut Map<String, Value>, key: &PublicKey) -> Result<(), OutOfMemory>
    ensures { OnOk result (members_view map.new.entries
        ≡ with_member (codes "subject_public_key_length") (spec.json_count (length key.now.bits))
        (with_member (codes "modulus_length")
        (spec.json_or_null spec.json_count (spec.modulus_length key.now.bits))
        (with_member (codes "key_algorithm") (string (spec.format_name key.now.format))
        (members_view map.old.entries)))) }
{
    let bits = key.bits_bytes().as_slice();
    put_text(alloc, map, "key_algorithm", format_name(key.format()))?;
    put(map, alloc, "modulus_length", json_modulus_length(bits))?;
    put_count(alloc, map, "subject_public_key_length", bits.len())
}

// Puts from when to when a certificate is valid.
fn put_validity(
    alloc: Global,
    map: &mut Map<String, Value>,
    validity: Validity,
) -> Result<(), OutOfMemory>
    ensures { OnOk result (members_view map.new.entries
        ≡ with_member (codes "not_before") (spec.json_moment validity.not_before)
        (with_member (codes "not_after") (spec.json_moment validity.not_after)
        (members_view map.old.entries))) }
{
    put(map, alloc, "not_after", json_moment(validity.not_after()))?;
    put(map, alloc, "not_before", json_moment(validity.not_before()))?;
    Ok(())
}

// Puts length and SHA-256 of the certificate in DER.
fn put_der(
    alloc: Global,
    map: &mut Map<String, Value>,
    certificate: &IdCert,
) -> Result<(), OutOfMemory>
    ensures { OnOk result (members_view map.new.entries
        ≡ with_member (codes "sha256")
        (spec.json_octets (sha256 (spelled_data spelled_x509 certificate.now.signed)))
        (with_member (codes "length")
        (spec.json_count (length (spelled_data spelled_x509 certificate.now.signed)))
        (members_view map.old.entries))) }
{
    let octets = certificate.to_captured(alloc)?;
    put_count(alloc, map, "length", octets.as_slice().len())?;
    put_octets(alloc, map, "sha256", &Sha256::digest(octets.as_slice()))
}

#[tactic(auto, unfolding(crate::specs::Inspection::certificate_inspection))]
fn inspect_certificate(alloc: Global, certificate: &IdCert) -> Result<Value, OutOfMemory>
    ensures { IfOk result (λ v. view v ≡ spec.certificate_inspection certificate.now) }
{
    let tbs = certificate.tbs();
    let authority = tbs.authority_key_id();
    let subject = tbs.subject_key_identifier();
    let mut map = Map::new(alloc);
    let value = json_key_identifier(alloc, authority)?;
    put(&mut map, alloc, "authority_key_identifier", value)?;
    put(&mut map, alloc, "ca", json_truth_or_null(tbs.basic_ca()))?;
    let value = json_serial(alloc, tbs.serial_number())?;
    put(&mut map, alloc, "serial_number", value)?;
    put_octets(
        alloc,
        &mut map,
        "subject_key_identifier",
        subject.as_slice(),
    )?;
    put_key(alloc, &mut map, tbs.public_key())?;
    put_validity(alloc, &mut map, tbs.validity())?;
    put_der(alloc, &mut map, certificate)?;
    Ok(Value::Object(map))
}

#[tactic(auto, unfolding(crate::specs::Inspection::crl_inspection))]
fn inspect_crl(alloc: Global, crl: &SignedMessageCrl) -> Result<Value, OutOfMemory>
    ensures { IfOk result (λ v. view v ≡ spec.crl_inspection crl.now) }
{
    let tbs = crl.tbs();
    let outer = crl.signed_data().signature().algorithm();
    Ok(json!(in alloc; {
        "authority_key_identifier": json_key_identifier(alloc, tbs.authority_key_id())?,
        "crl_number": json_serial_or_null(alloc, tbs.crl_number())?,
        "entries": tbs.revoked_certs().entries().len(),
        "next_update": json_moment(tbs.next_update()),
        "signature_algorithm": inspect_x509(alloc, outer)?,
        "tbs_algorithm": inspect_x509(alloc, tbs.algorithm())?,
        "this_update": json_moment(tbs.this_update())
    })?)
}

fn inspect_crls(alloc: Global, crls: &[SignedMessageCrl]) -> Result<Vec<Value>, OutOfMemory>
    ensures { IfOk result (λ list. map view list.items ≡ map spec.crl_inspection crls.now) }
{
    let mut list = Vec::new(alloc);
    for crl in crls {
        list.push(inspect_crl(alloc, crl)?)?;
    }
    Ok(list)
}

// The text of the object identifier of XML.
fn content_type_text() -> &'static str
    ensures { result.now ≡ oid_text xml_content }
{
    // For the proof: it is the text.
    message_identifiers_have_texts();
    "1.2.840.113549.1.9.16.1.28"
}

#[tactic(auto, unfolding(crate::specs::Inspection::inspection))]
fn inspect_message(alloc: Global, message: &SignedMessage) -> Result<Value, OutOfMemory>
    ensures { IfOk result (λ v. view v ≡ spec.inspection message.now) }
{
    let content = message.content().as_slice();
    let signer = message.signer_identifier();
    let signature = message.signature();
    let mut map = Map::new(alloc);
    let value = inspect_certificate(alloc, message.ee_cert())?;
    put(&mut map, alloc, "certificate", value)?;
    put_count(alloc, &mut map, "content_length", content.len())?;
    put_octets(alloc, &mut map, "content_sha256", &Sha256::digest(content))?;
    put_text(alloc, &mut map, "content_type", content_type_text())?;
    let list = inspect_crls(alloc, message.crls())?;
    put(&mut map, alloc, "crls", Value::Array(list))?;
    put_octets(alloc, &mut map, "message_digest", message.digest())?;
    let value = inspect_cms(alloc, signature.algorithm())?;
    put(&mut map, alloc, "signature_algorithm", value)?;
    put_count(alloc, &mut map, "signature_length", signature.value().len())?;
    put_octets(alloc, &mut map, "signer_identifier", signer.as_slice())?;
    let value = json_moment_or_null(message.signing_time());
    put(&mut map, alloc, "signing_time", value)?;
    Ok(Value::Object(map))
}

/// What is in a signed message, as a JSON text (RFC 8259) without white space, its members in the order of their names. Nothing of it
/// is judged: neither digest nor signatures nor moments. Moments are seconds since 1970, octets and numbers of certificates and CRLs
/// hexadecimal digits of lower case, and what isn't there is `null`.
///
/// The object has `certificate`, `content_length`, `content_sha256`, `content_type` (the object identifier), `crls` (in their order),
/// `message_digest`, `signature_algorithm`, `signature_length`, `signer_identifier` and `signing_time`; lengths are in octets.
///
/// The certificate has `authority_key_identifier`, `ca`, `key_algorithm`, `length` and `sha256` (of it in DER), `modulus_length` (of an
/// RSA key), `not_after`, `not_before`, `serial_number`, `subject_key_identifier` and `subject_public_key_length` (of the BIT STRING).
///
/// A CRL has `authority_key_identifier`, `crl_number`, `entries` (how many), `next_update`, `signature_algorithm`, `tbs_algorithm` (which
/// is signed) and `this_update`. An algorithm has a name, `algorithm`, and `parameters`, which are `NULL` or `absent`.
pub fn inspection_text(alloc: Global, message: &SignedMessage) -> Result<String, OutOfMemory>
    ensures { IfOk result (λ s. string_bytes s ≡ compact_text (spec.inspection message.now)) }
{
    let value = inspect_message(alloc, message)?;
    Ok(value.to_string(alloc)?)
}

/// What is in the signed message at the beginning of the octets, in BER, as the text that [`inspection_text`] writes.
///
/// Malformed exactly where no beginning of the octets is a signed message. What stands behind it isn't read, nor is its content.
pub fn inspect(alloc: Global, octets: &[u8]) -> Result<String, DecodeError>
    ensures ok { IfOk result (λ s. spec.IsInspectedAs octets.now (string_bytes s)) }
    ensures err { IfErr result (λ e. e ≡ decode.Malformed → HoldsNoSigned octets.now) }
{
    match SignedMessage::decode(alloc, octets, false) {
        Ok(message) => Ok(inspection_text(alloc, &message)?),
        Err(error) => Err(error),
    }
}
