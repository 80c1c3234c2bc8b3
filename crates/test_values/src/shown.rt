//! What values show, as the fields of an answer.

use rpki_base::{
    Extension, KeyIdentifier, Name, PublicKey, PublicKeyFormat, RpkiSignatureAlgorithm, Serial,
    SignatureAlgorithm, SignedData, Time, Validity,
};
use rpki_der::{DecodeError, Item, Leaf, Node, OutOfMemory, Tag, Writer};
use std::alloc::Global;
use test_stored::Fields;

/// The tag whose identifier octets these are.
pub fn tag_of(octets: &[u8]) -> Result<Tag, DecodeError> {
    Tag::new(octets).ok_or(DecodeError::Malformed)
}

/// That the call succeeded.
pub fn done_shown(alloc: Global, taken: Result<(), DecodeError>) -> Result<Fields, DecodeError> {
    taken?;
    Ok(Fields::done(alloc)?)
}

/// The octets.
pub fn octets_shown(
    alloc: Global,
    taken: Result<&[u8], DecodeError>,
) -> Result<Fields, DecodeError> {
    Ok(Fields::one(alloc, taken?)?)
}

/// The truth value.
pub fn truth_shown(alloc: Global, taken: Result<bool, DecodeError>) -> Result<Fields, DecodeError> {
    Ok(Fields::truth(alloc, taken?)?)
}

/// What is answered to an optional truth value.
pub fn optional_truth(
    alloc: Global,
    taken: Result<Option<bool>, DecodeError>,
) -> Result<Fields, DecodeError> {
    match taken? {
        Some(holds) => Ok(Fields::truth(alloc, holds)?),
        None => Ok(Fields::new(alloc)),
    }
}

/// The number.
pub fn number_shown(alloc: Global, taken: Result<u64, DecodeError>) -> Result<Fields, DecodeError> {
    Ok(Fields::number(alloc, taken?)?)
}

fn item_fields(alloc: Global, item: &Item<'_>) -> Result<Fields, DecodeError> {
    let mut fields = Fields::one(alloc, item.tag.as_slice())?;
    fields.octets(&[u8::from(item.constructed)])?;
    fields.octets(item.content)?;
    fields.octets(item.slice)?;
    Ok(fields)
}

/// Tag, form, contents and octets.
pub fn item_shown(
    alloc: Global,
    taken: Result<Item<'_>, DecodeError>,
) -> Result<Fields, DecodeError> {
    item_fields(alloc, &taken?)
}

/// What is answered to an optional value.
pub fn optional_item(
    alloc: Global,
    taken: Result<Option<Item<'_>>, DecodeError>,
) -> Result<Fields, DecodeError> {
    match taken? {
        Some(item) => item_fields(alloc, &item),
        None => Ok(Fields::new(alloc)),
    }
}

/// Appends the tag, the form, the contents and the octets of a node.
pub fn append_node(fields: &mut Fields, node: &Node<'_>) -> Result<(), DecodeError> {
    fields.octets(node.tag().as_slice())?;
    fields.octets(&[u8::from(node.is_constructed())])?;
    fields.octets(node.content())?;
    fields.octets(node.slice())?;
    Ok(())
}

/// Tag and contents of the first value, then of the second if there is one.
pub fn pair_shown(
    alloc: Global,
    first: &Leaf<'_>,
    second: Option<Leaf<'_>>,
) -> Result<Fields, DecodeError> {
    let mut fields = Fields::one(alloc, first.tag.as_slice())?;
    fields.octets(first.content)?;
    if let Some(second) = second {
        fields.octets(second.tag.as_slice())?;
        fields.octets(second.content)?;
    }
    Ok(fields)
}

/// The count of unused bits, and the octets.
pub fn bits_shown(
    alloc: Global,
    taken: Result<(u8, &[u8]), DecodeError>,
) -> Result<Fields, DecodeError> {
    let (unused, octets) = taken?;
    let mut fields = Fields::one(alloc, &[unused])?;
    fields.octets(octets)?;
    Ok(fields)
}

/// The seconds, what is written in DER, and the text of RFC 3339.
pub fn time_shown(alloc: Global, taken: Result<Time, DecodeError>) -> Result<Fields, DecodeError> {
    let time = taken?;
    let mut out = Writer::new(alloc);
    time.to_der_varied(&mut out)?;
    let mut fields = Fields::new(alloc);
    fields.print(alloc, time.seconds())?;
    fields.octets(out.as_slice())?;
    fields.octets(time.to_rfc3339(alloc)?.as_bytes())?;
    Ok(fields)
}

/// The seconds of both times.
pub fn validity_shown(
    alloc: Global,
    taken: Result<Validity, DecodeError>,
) -> Result<Fields, DecodeError> {
    let validity = taken?;
    let mut fields = Fields::new(alloc);
    fields.print(alloc, validity.not_before().seconds())?;
    fields.print(alloc, validity.not_after().seconds())?;
    Ok(fields)
}

/// The twenty octets, and what is written.
pub fn serial_shown(
    alloc: Global,
    taken: Result<Serial, DecodeError>,
) -> Result<Fields, DecodeError> {
    let serial = taken?;
    let mut out = Writer::new(alloc);
    serial.encode(&mut out)?;
    let mut fields = Fields::one(alloc, serial.as_slice())?;
    fields.octets(out.as_slice())?;
    Ok(fields)
}

/// The octets, and what is printed.
pub fn identifier_shown(
    alloc: Global,
    taken: Result<KeyIdentifier, DecodeError>,
) -> Result<Fields, DecodeError> {
    let identifier = taken?;
    let mut fields = Fields::one(alloc, identifier.as_slice())?;
    fields.print(alloc, identifier)?;
    Ok(fields)
}

// What is written of a name.
fn written_name(alloc: Global, name: &Name) -> Result<Writer, OutOfMemory> {
    let mut out = Writer::new(alloc);
    name.encode_ref(&mut out)?;
    Ok(out)
}

// The octets of the name, which a copy has to write.
fn as_written(alloc: Global, name: &Name, copy: &Name) -> Result<Fields, DecodeError> {
    let written = written_name(alloc, copy)?;
    if written.as_slice() == name.as_slice() {
        Ok(Fields::one(alloc, name.as_slice())?)
    } else {
        Err(DecodeError::Malformed)
    }
}

/// What a copy of the name writes.
pub fn name_shown(alloc: Global, taken: Result<Name, DecodeError>) -> Result<Fields, DecodeError> {
    let name = taken?;
    let copy = name.clone(alloc)?;
    as_written(alloc, &name, &copy)
}

/// What is written of a key.
pub fn written_key(alloc: Global, key: &PublicKey) -> Result<Writer, OutOfMemory> {
    let mut out = Writer::new(alloc);
    key.encode_ref(&mut out)?;
    Ok(out)
}

// The word for a format.
fn format_name(format: PublicKeyFormat) -> &'static str {
    match format {
        PublicKeyFormat::Rsa => "rsa",
        PublicKeyFormat::EcdsaP256 => "ec",
    }
}

// The format, the bits, the key identifier, and what a copy of the key writes.
fn both_fields(alloc: Global, key: &PublicKey, copy: &PublicKey) -> Result<Fields, DecodeError> {
    let mut fields = Fields::one(alloc, format_name(key.format()).as_bytes())?;
    fields.octets(key.bits_bytes().as_slice())?;
    fields.octets(key.key_identifier().as_slice())?;
    fields.octets(written_key(alloc, copy)?.as_slice())?;
    Ok(fields)
}

/// The format, the bits, the key identifier, and what a copy of the key writes.
pub fn key_fields(alloc: Global, key: &PublicKey) -> Result<Fields, DecodeError> {
    both_fields(alloc, key, &key.clone(alloc)?)
}

/// The format, the bits, the key identifier, and what a copy writes, of a key that was taken.
pub fn key_shown(
    alloc: Global,
    taken: Result<PublicKey, DecodeError>,
) -> Result<Fields, DecodeError> {
    key_fields(alloc, &taken?)
}

/// The object identifier, whether it is critical, and what it holds.
pub fn extension_shown(
    alloc: Global,
    taken: Result<Extension<'_>, DecodeError>,
) -> Result<Fields, DecodeError> {
    let extension = taken?;
    let mut fields = Fields::one(alloc, extension.identifier)?;
    fields.octets(&[u8::from(extension.critical)])?;
    fields.octets(&extension.value)?;
    Ok(fields)
}

/// What a certificate writes of the algorithm, and what a signer's information does.
pub fn algorithm_shown(
    alloc: Global,
    taken: Result<RpkiSignatureAlgorithm, DecodeError>,
) -> Result<Fields, DecodeError> {
    let algorithm = taken?;
    let mut x509 = Writer::new(alloc);
    algorithm.x509_encode(&mut x509)?;
    let mut cms = Writer::new(alloc);
    algorithm.cms_encode(&mut cms)?;
    let mut fields = Fields::one(alloc, x509.as_slice())?;
    fields.octets(cms.as_slice())?;
    Ok(fields)
}

/// What is written of signed data.
pub fn written_data<Alg: SignatureAlgorithm>(
    alloc: Global,
    data: &SignedData<Alg>,
) -> Result<Writer, OutOfMemory> {
    let mut out = Writer::new(alloc);
    data.encode_ref(&mut out)?;
    Ok(out)
}

// The signed octets, the signature, and what a copy of the signed data writes.
fn data_fields<Alg: SignatureAlgorithm>(
    alloc: Global,
    data: &SignedData<Alg>,
    copy: &SignedData<Alg>,
) -> Result<Fields, DecodeError> {
    let mut fields = Fields::one(alloc, data.slice().as_slice())?;
    fields.octets(data.signature().value().as_slice())?;
    fields.octets(written_data(alloc, copy)?.as_slice())?;
    Ok(fields)
}

fn copied_shown<Alg: SignatureAlgorithm>(
    alloc: Global,
    data: &SignedData<Alg>,
) -> Result<Fields, DecodeError> {
    data_fields(alloc, data, &data.clone(alloc)?)
}

/// The signed octets, the signature, and what a copy of the signed data writes.
pub fn data_shown<Alg: SignatureAlgorithm>(
    alloc: Global,
    taken: Result<SignedData<Alg>, DecodeError>,
) -> Result<Fields, DecodeError> {
    copied_shown(alloc, &taken?)
}
