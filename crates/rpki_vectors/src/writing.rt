//! What is written in more than one place.

use rpki_base::{
    AUTHORITY_KEY_IDENTIFIER, Name, PublicKey, RpkiSignatureAlgorithm, Signature, SignedData,
};
use rpki_common::OutOfMemory;
use rpki_der::{Tag, Writer};
use rpki_signer::ToyScheme;
use std::alloc::Global;

/// Appends a primitive value; 2^30 octets or more are refused as want of memory.
pub(crate) fn write_primitive(
    tag: Tag,
    content: &[u8],
    out: &mut Writer,
) -> Result<(), OutOfMemory> {
    if content.len() >= 1 << 30 {
        return Err(OutOfMemory);
    }
    out.primitive(tag, content)
}

/// Appends a constructed value; contents of 2^30 octets or more are refused as want of memory.
pub(crate) fn write_constructed(
    tag: Tag,
    content: &Writer,
    out: &mut Writer,
) -> Result<(), OutOfMemory> {
    if content.as_slice().len() >= 1 << 30 {
        return Err(OutOfMemory);
    }
    out.constructed(tag, content)
}

/// Appends a number as an INTEGER: its octets from the first that is needed, with 00 in front where bit 8 of that one is set.
pub(crate) fn write_number(number: u64, out: &mut Writer) -> Result<(), OutOfMemory> {
    let [a, b, c, d, e, f, g, h] = number.to_be_bytes();
    let octets = [0, a, b, c, d, e, f, g, h];
    let bits = 64 - number.leading_zeros() as usize;
    write_primitive(Tag::INTEGER, &octets[8 - bits / 8..], out)
}

/// Appends the name that is made of a key: its key identifier in hexadecimal.
pub(crate) fn write_name(
    alloc: Global,
    key: &PublicKey,
    out: &mut Writer,
) -> Result<(), OutOfMemory> {
    let name = Name::from_pub_key(alloc, key)?;
    name.encode_ref(out)
}

/// Appends an extension that isn't critical, with a value that was written before (RFC 5280, 4.1).
pub(crate) fn write_extension(
    alloc: Global,
    identifier: &[u8],
    value: &Writer,
    out: &mut Writer,
) -> Result<(), OutOfMemory> {
    let mut inner = Writer::new(alloc);
    write_primitive(Tag::OID, identifier, &mut inner)?;
    write_primitive(Tag::OCTET_STRING, value.as_slice(), &mut inner)?;
    write_constructed(Tag::SEQUENCE, &inner, out)
}

/// Appends the authorityKeyIdentifier of a key (RFC 5280, 4.2.1.1).
pub(crate) fn write_authority_key(
    alloc: Global,
    key: &PublicKey,
    out: &mut Writer,
) -> Result<(), OutOfMemory> {
    let mut identifier = Writer::new(alloc);
    write_primitive(Tag::CTX_0, key.key_identifier().as_slice(), &mut identifier)?;
    let mut value = Writer::new(alloc);
    write_constructed(Tag::SEQUENCE, &identifier, &mut value)?;
    write_extension(alloc, &AUTHORITY_KEY_IDENTIFIER, &value, out)
}

/// Appends a SEQUENCE that the key signs: its fields, which were written before, the algorithm and the signature (RFC 5280, 4.1.1
/// and 5.1.1).
pub(crate) fn write_signed(
    alloc: Global,
    key: &PublicKey,
    fields: &Writer,
    out: &mut Writer,
) -> Result<(), OutOfMemory> {
    let mut signed = Writer::new(alloc);
    write_constructed(Tag::SEQUENCE, fields, &mut signed)?;
    let value = ToyScheme::signature(alloc, key, signed.as_slice())?;
    let signature = Signature::new(RpkiSignatureAlgorithm::default(), value);
    let slice = signed.into_captured()?.into_bytes();
    SignedData::new(slice, signature).encode_ref(out)
}
