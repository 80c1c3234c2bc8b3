//! Public keys.

ghost use Rattle.std.specs.Prelude.{◌≡◌, ◌≢◌, ◌<◌, ◌++◌, [], IfOk, OnOk, OnErr, ℕ, List, Some};
ghost use Rattle.sha1.specs.Sha1.{sha1};
ghost use Rattle.rpki_der.specs.declared.mode.Mode.{Mode};
ghost use Rattle.rpki_der.specs.declared.mode.Mode.TheVariants.{Der};
ghost use Rattle.rpki_der.specs.Value.{Value, Begins};
ghost use Rattle.rpki_der.specs.Takes.{Takes, Decodes};
ghost use Rattle.rpki_der.specs.Ticks.{TakesCounted, TakesRestCounted};
ghost use Rattle.rpki_der.specs.Whole.{HoldsOne};
ghost use Rattle.rpki_base.specs.declared.algorithm.PublicKeyFormat.TheVariants.{Rsa, EcdsaP256};
ghost use Rattle.rpki_base.specs.PublicKey as spec;

use crate::algorithm::PublicKeyFormat;
use crate::bits::{write_bits, write_constructed};
use crate::key_identifier::KeyIdentifier;
use crate::object_identifiers::{
    EC_ALGORITHM, EC_PUBLIC_KEY, PRIME256V1, RSA_ALGORITHM, RSA_ENCRYPTION,
};
use bytes::Bytes;
use rpki_common::OutOfMemory;
use rpki_der::{
    Cursor, DecodeError, Mode, Steps, Tag, Writer, take_bits_counted, take_oid_counted,
    take_oid_if_counted, take_opt_null_counted,
};
use sha1::Sha1;
use std::alloc::Global;
use std::marker::{Brand, Model};
use std::sync::ledger::{Blank, Ledger};

/// A public key: its format and the octets of its bits (RFC 5280, 4.1.2.7).
///
/// In a clause it is these two.
#[derive(Debug, PartialEq, Eq)]
pub struct PublicKey {
    format: PublicKeyFormat,
    bits: Bytes,
}

impl Drop for PublicKey {
    fn drop(self) {
        let PublicKey { format, bits } = self;
    }
}

impl Model for PublicKey {
    ghost use Rattle.rpki_base.specs.PublicKey.{KeyFields};

    ghost Value = { KeyFields };

    ghost view = { λ k. record { format = k.format; bits = k.bits } };

    ghost inverse = { λ k. record { format = k.format; bits = k.bits } };
}

impl PublicKey {
    /// A key of this format with these octets as its bits, which are copied.
    pub fn new(
        alloc: Global,
        format: PublicKeyFormat,
        bits: &[u8],
    ) -> Result<PublicKey, OutOfMemory>
        ensures { IfOk result (λ k. k ≡ record { format = format; bits = bits.now }) }
    {
        let bits = Bytes::copy_from_slice(alloc, bits)?;
        Ok(PublicKey { format, bits })
    }

    /// An equal key that shares its octets with this one.
    pub fn clone(&self, _alloc: Global) -> Result<PublicKey, OutOfMemory>
        ensures { IfOk result (λ k. k ≡ self.now) }
    {
        let bits = self.bits.clone()?;
        Ok(PublicKey {
            format: self.format,
            bits,
        })
    }
}

/// # Data access
impl PublicKey {
    /// The format.
    pub fn format(&self) -> PublicKeyFormat
        ensures { result ≡ self.now.format }
    {
        self.format
    }

    /// The octets of the bits, without the count of unused bits in front of them.
    pub fn bits_bytes(&self) -> &Bytes
        ensures { result.now ≡ self.now.bits }
    {
        &self.bits
    }

    /// The key identifier: the SHA-1 of the octets of the bits, without the count of unused bits in front of them (RFC 5280,
    /// 4.2.1.2, method 1). It takes no memory.
    pub fn key_identifier(&self) -> KeyIdentifier
        ensures { result ≡ sha1 self.now.bits }
    {
        KeyIdentifier::of(Sha1::digest(self.bits.as_slice()))
    }
}

/// # Decoding
impl PublicKey {
    /// The key at the beginning of the octets, in DER; what stands behind it isn't read.
    ///
    /// Malformed exactly where no beginning of the octets is a key.
    pub fn decode(alloc: Global, octets: &[u8]) -> Result<PublicKey, DecodeError>
        ensures { Decodes spec.public_key (λ k. k) Der octets.now result }
    {
        let mut cursor = Cursor::new(alloc, Mode::Der, octets);
        PublicKey::take_from(alloc, &mut cursor)
    }

    /// The key that the octets hold, as `take_from` reads it, with nothing behind it; Malformed exactly where they hold none.
    pub fn take(alloc: Global, mode: Mode, octets: &[u8]) -> Result<PublicKey, DecodeError>
        ensures { HoldsOne spec.public_key (λ k. k) mode octets.now result }
    {
        let mut cursor = Cursor::new(alloc, mode, octets);
        let key = PublicKey::take_from(alloc, &mut cursor)?;
        if !cursor.end() {
            return Err(DecodeError::Malformed);
        }
        Ok(key)
    }

    /// The key that stands next (RFC 5280, 4.1.2.7): a SEQUENCE of an algorithm identifier, which is rsaEncryption with NULL or without
    /// parameters or ecPublicKey with prime256v1, and a BIT STRING, whose count of unused bits is dropped. How long the bits are isn't
    /// looked at.
    pub fn take_from(alloc: Global, cursor: &mut Cursor<'_>) -> Result<PublicKey, DecodeError>
        ensures { Takes spec.public_key (λ k. k) cursor.old cursor.new result }
    {
        take_from_within::<Brand>(alloc, cursor, Blank::new(1))
    }

    /// The key that stands next, as `take_from` reads it. It ticks once for each header and each end mark that it reads.
    pub fn take_from_counted<L: Ledger>(
        alloc: Global,
        cursor: &mut Cursor<'_>,
        steps: &mut Steps<L>,
    ) -> Result<PublicKey, DecodeError>
        ensures { TakesCounted 1 spec.public_key (λ k. k)
            cursor.old cursor.new steps.old steps.new result }
    {
        cursor.enter_counted(Tag::SEQUENCE, steps)?;
        let format = take_key_algorithm(cursor, steps)?;
        let (_, octets) = take_bits_counted(cursor, steps)?;
        let bits = Bytes::copy_from_slice(alloc, octets)?;
        cursor.leave_counted(steps)?;
        Ok(PublicKey { format, bits })
    }
}

/// # Encoding
impl PublicKey {
    /// Appends the key in DER, an RSA key with NULL behind rsaEncryption, and with no unused bits. After a refusal nothing is
    /// appended; a key that is longer than length octets can say is refused as want of memory.
    pub fn encode_ref(&self, out: &mut Writer) -> Result<(), OutOfMemory>
        ensures ok { OnOk result (out.new ≡ out.old ++ spec.spelled_key self.now) }
        ensures spelled { OnOk result (spec.CanSpellKey self.now) }
        ensures err { OnErr result (out.new ≡ out.old) }
    {
        let mut inner = out.inner();
        write_algorithm(self.format, &mut inner)?;
        write_bits(self.bits.as_slice(), &mut inner)?;
        write_constructed(Tag::SEQUENCE, &inner, out)
    }
}

fn write_algorithm(format: PublicKeyFormat, out: &mut Writer) -> Result<(), OutOfMemory>
    ensures ok { OnOk result (out.new ≡ out.old ++ spec.spelled_algorithm format) }
    ensures err { OnErr result (out.new ≡ out.old) }
{
    match format {
        PublicKeyFormat::Rsa => out.raw(&RSA_ALGORITHM),
        PublicKeyFormat::EcdsaP256 => out.raw(&EC_ALGORITHM),
    }
}

/// What `encode_ref` writes of a key is taken again as the same key, in both modes and whatever stands behind it.
pub fn written_key_is_taken()
    ensures { (mode : Mode) (key : spec.KeyFields) (rest : List ℕ) →
        spec.CanSpellKey key →
        (v : Value) × Begins mode (spec.spelled_key key ++ rest) v rest ×
        (spec.public_key v ≡ Some key) }
{}

fn take_from_within<L: Ledger>(
    alloc: Global,
    cursor: &mut Cursor<'_>,
    blank: Blank,
) -> Result<PublicKey, DecodeError>
    requires name { blank.name ≡ L.name }
    requires parts { blank.parts ≡ L.parts }
    requires some { 0 < blank.parts }
    ensures { Takes spec.public_key (λ k. k) cursor.old cursor.new result }
{
    let mut steps = Steps::<L>::new(blank);
    PublicKey::take_from_counted(alloc, cursor, &mut steps)
}

// The algorithm identifier of a key: the format that it names.
fn take_key_algorithm<L: Ledger>(
    cursor: &mut Cursor<'_>,
    steps: &mut Steps<L>,
) -> Result<PublicKeyFormat, DecodeError>
    ensures { TakesCounted 1 spec.key_algorithm (λ x. x)
        cursor.old cursor.new steps.old steps.new result }
{
    cursor.enter_counted(Tag::SEQUENCE, steps)?;
    let format = take_named_format(cursor, steps)?;
    leave_parameters(format, cursor, steps)
}

// The format that the octets name, which are the contents of an object identifier.
fn format_named(name: &[u8]) -> Option<PublicKeyFormat>
    ensures { result ≡ spec.format_named name.now }
{
    if name == RSA_ENCRYPTION.as_slice() {
        Some(PublicKeyFormat::Rsa)
    } else if name == EC_PUBLIC_KEY.as_slice() {
        Some(PublicKeyFormat::EcdsaP256)
    } else {
        None
    }
}

fn take_named_format<L: Ledger>(
    cursor: &mut Cursor<'_>,
    steps: &mut Steps<L>,
) -> Result<PublicKeyFormat, DecodeError>
    ensures { TakesCounted 1 spec.named_format (λ x. x)
        cursor.old cursor.new steps.old steps.new result }
{
    let name = take_oid_counted(cursor, steps)?;
    match format_named(name) {
        Some(format) => Ok(format),
        None => Err(DecodeError::Malformed),
    }
}

// Passes the parameters that belong to the format, and goes out of the value that they end.
fn leave_parameters<L: Ledger>(
    format: PublicKeyFormat,
    cursor: &mut Cursor<'_>,
    steps: &mut Steps<L>,
) -> Result<PublicKeyFormat, DecodeError>
    requires { cursor.old.levels ≢ [] }
    ensures { TakesRestCounted 1 1 (spec.parameters format) (λ x. x)
        cursor.old cursor.new steps.old steps.new result }
{
    match format {
        PublicKeyFormat::Rsa => leave_opt_null(cursor, steps),
        PublicKeyFormat::EcdsaP256 => leave_curve(cursor, steps),
    }
}

fn leave_opt_null<L: Ledger>(
    cursor: &mut Cursor<'_>,
    steps: &mut Steps<L>,
) -> Result<PublicKeyFormat, DecodeError>
    requires { cursor.old.levels ≢ [] }
    ensures { TakesRestCounted 1 1 (spec.parameters Rsa) (λ x. x)
        cursor.old cursor.new steps.old steps.new result }
{
    take_opt_null_counted(cursor, steps)?;
    cursor.leave_counted(steps)?;
    Ok(PublicKeyFormat::Rsa)
}

fn leave_curve<L: Ledger>(
    cursor: &mut Cursor<'_>,
    steps: &mut Steps<L>,
) -> Result<PublicKeyFormat, DecodeError>
    requires { cursor.old.levels ≢ [] }
    ensures { TakesRestCounted 1 0 (spec.parameters EcdsaP256) (λ x. x)
        cursor.old cursor.new steps.old steps.new result }
{
    take_oid_if_counted(cursor, &PRIME256V1, steps)?;
    cursor.leave_counted(steps)?;
    Ok(PublicKeyFormat::EcdsaP256)
}

/// Whether an authority key identifier, if it is there, is that of the issuer's key, the SHA-1 of the key's bits (RFC 5280, 4.2.1.1).
pub fn names_issuer(identifier: Option<KeyIdentifier>, issuer_key: &PublicKey) -> bool
    ensures { result ≡ spec.names_issuer identifier issuer_key.now }
{
    match identifier {
        Some(identifier) => identifier.as_slice() == issuer_key.key_identifier().as_slice(),
        None => true,
    }
}
