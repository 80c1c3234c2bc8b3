//! Names.

ghost use Rattle.std.specs.Prelude.{◌≡◌, ◌≢◌, ◌<◌, ℕ, List, [], ◌++◌, length, Some, OnOk, OnErr, IfOk};
ghost use Rattle.hex.specs.Hex.{encode_upper};
ghost use Rattle.sha1.specs.Sha1.{sha1};
ghost use Rattle.rpki_der.specs.declared.mode.Mode.{Mode};
ghost use Rattle.rpki_der.specs.declared.mode.Mode.TheVariants.{Ber, Der};
ghost use Rattle.rpki_der.specs.Value.{Value, Begins};
ghost use Rattle.rpki_der.specs.Grammar.{within};
ghost use Rattle.rpki_der.specs.Tags.{sequence};
ghost use Rattle.rpki_der.specs.Takes.{Takes};
ghost use Rattle.rpki_der.specs.Ticks.{TakesCounted, TakesRestCounted};
ghost use Rattle.rpki_der.specs.Whole.{HoldsOne};
ghost use Rattle.rpki_base.specs.Name.{each, name_attribute, relative_name, name, name_of_text};

use crate::public_key::PublicKey;
use bytes::Bytes;
use rpki_common::OutOfMemory;
use rpki_der::{Cursor, DecodeError, Mode, Steps, Tag, Writer, take_oid_counted};
use std::alloc::Global;
use std::marker::{Brand, Model};
use std::sync::ledger::{Blank, Ledger};

/// The name of an issuer or a subject (RFC 5280, 4.1.2.4), as the octets that were read or made.
///
/// In a clause it is the list of the octets.
#[derive(PartialEq, Eq)]
pub struct Name {
    octets: Bytes,
}

impl Drop for Name {
    fn drop(self) {
        let Name { octets } = self;
    }
}

impl Model for Name {
    ghost use Rattle.std.specs.Prelude.{ℕ, List};

    ghost Value = { List ℕ };

    ghost view = { λ n. n.octets };

    ghost inverse = { λ l. record { octets = l } };
}

// Passes an attribute: its type and one value.
fn pass_attribute<L: Ledger>(
    cursor: &mut Cursor<'_>,
    steps: &mut Steps<L>,
) -> Result<(), DecodeError>
    ensures { TakesCounted 1 name_attribute (λ x. x)
        cursor.old cursor.new steps.old steps.new result }
{
    cursor.enter_counted(Tag::SEQUENCE, steps)?;
    take_oid_counted(cursor, steps)?;
    cursor.capture_counted(steps)?;
    cursor.leave_counted(steps)?;
    Ok(())
}

// Passes attributes up to the end of the level, and goes out of it.
fn pass_attributes<L: Ledger>(
    cursor: &mut Cursor<'_>,
    steps: &mut Steps<L>,
) -> Result<(), DecodeError>
    requires { cursor.old.levels ≢ [] }
    ensures { TakesRestCounted 1 0 (each name_attribute) (λ x. x)
        cursor.old cursor.new steps.old steps.new result }
{
    'attributes: while !cursor.end() {
        pass_attribute(cursor, steps)?;
    }
    cursor.leave_counted(steps)
}

// Passes a relative distinguished name.
fn pass_relative_name<L: Ledger>(
    cursor: &mut Cursor<'_>,
    steps: &mut Steps<L>,
) -> Result<(), DecodeError>
    ensures { TakesCounted 1 relative_name (λ x. x)
        cursor.old cursor.new steps.old steps.new result }
{
    cursor.enter_counted(Tag::SET, steps)?;
    pass_attributes(cursor, steps)
}

// Passes relative distinguished names up to the end of the level, and goes out of it.
fn pass_relative_names<L: Ledger>(
    cursor: &mut Cursor<'_>,
    steps: &mut Steps<L>,
) -> Result<(), DecodeError>
    requires { cursor.old.levels ≢ [] }
    ensures { TakesRestCounted 1 0 (each relative_name) (λ x. x)
        cursor.old cursor.new steps.old steps.new result }
{
    'names: while !cursor.end() {
        pass_relative_name(cursor, steps)?;
    }
    cursor.leave_counted(steps)
}

// Passes a name.
fn pass_name<L: Ledger>(cursor: &mut Cursor<'_>, steps: &mut Steps<L>) -> Result<(), DecodeError>
    ensures { TakesCounted 1 (within sequence (each relative_name)) (λ x. x)
        cursor.old cursor.new steps.old steps.new result }
{
    cursor.enter_counted(Tag::SEQUENCE, steps)?;
    pass_relative_names(cursor, steps)
}

// The octets of a name whose one attribute, commonName, is a text of forty octets, in front of that text.
const BEFORE_TEXT: [u8; 13] = [
    0x30, 0x33, 0x31, 0x31, 0x30, 0x2F, 0x06, 0x03, 0x55, 0x04, 0x03, 0x13, 0x28,
];

/// # Making
impl Name {
    /// The name of a key: its one attribute is commonName, with the key identifier in upper case hexadecimal digits.
    #[tactic(auto, using(crate::proofs::MadeNames::made_of_forty))]
    pub fn from_pub_key(alloc: Global, key: &PublicKey) -> Result<Name, OutOfMemory>
        ensures { IfOk result (λ n. n ≡ name_of_text (encode_upper (sha1 key.now.bits))) }
    {
        let mut octets = Vec::with_capacity(alloc, 53)?;
        octets.extend_from_slice(&BEFORE_TEXT)?;
        octets.extend_from_slice(&key.key_identifier().digits())?;
        let octets = Bytes::from_vec(octets)?;
        Ok(Name { octets })
    }
}

/// What `from_pub_key` makes is read as that name, in both modes, whatever stands behind it.
pub fn made_name_is_read()
    ensures { (mode : Mode) (digits rest : List ℕ) → length digits ≡ 40
        → (v : Value) × Begins mode (name_of_text digits ++ rest) v rest
        × (name v ≡ Some (name_of_text digits)) }
{}

/// # Decoding
impl Name {
    /// The name that the octets hold, as `take_from` reads it, with nothing behind it; Malformed exactly where they hold none.
    pub fn take(alloc: Global, mode: Mode, octets: &[u8]) -> Result<Name, DecodeError>
        ensures { HoldsOne name (λ n. n) mode octets.now result }
    {
        let mut cursor = Cursor::new(alloc, mode, octets);
        let found = Name::take_from(alloc, &mut cursor)?;
        if !cursor.end() {
            return Err(DecodeError::Malformed);
        }
        Ok(found)
    }

    /// The name that stands next, as `take_from` reads it. It ticks once for each header and each end mark in it.
    pub fn take_from_counted<L: Ledger>(
        alloc: Global,
        cursor: &mut Cursor<'_>,
        steps: &mut Steps<L>,
    ) -> Result<Name, DecodeError>
        ensures { TakesCounted 1 name (λ n. n) cursor.old cursor.new steps.old steps.new result }
    {
        let start = cursor.here();
        pass_name(cursor, steps)?;
        let octets = Bytes::copy_from_slice(alloc, cursor.since(start))?;
        Ok(Name { octets })
    }

    fn take_from_within<L: Ledger>(
        alloc: Global,
        cursor: &mut Cursor<'_>,
        blank: Blank,
    ) -> Result<Name, DecodeError>
        requires name { blank.name ≡ L.name }
        requires parts { blank.parts ≡ L.parts }
        requires some { 0 < blank.parts }
        ensures { Takes name (λ n. n) cursor.old cursor.new result }
    {
        let mut steps = Steps::<L>::new(blank);
        Name::take_from_counted(alloc, cursor, &mut steps)
    }

    /// The name that stands next (RFC 5280, 4.1.2.4): a SEQUENCE of SETs of attributes, each a SEQUENCE of an object identifier and a
    /// value of any kind. A SET may have any number of them, and so may the SEQUENCE of SETs.
    pub fn take_from(alloc: Global, cursor: &mut Cursor<'_>) -> Result<Name, DecodeError>
        ensures { Takes name (λ n. n) cursor.old cursor.new result }
    {
        Name::take_from_within::<Brand>(alloc, cursor, Blank::new(1))
    }
}

/// # Data access and encoding
impl Name {
    /// The octets of the name, its header among them.
    pub fn as_slice(&self) -> &[u8]
        ensures { result.now ≡ self.now }
    {
        self.octets.as_slice()
    }

    /// Appends the name as it was read or made. After a refusal nothing is appended.
    pub fn encode_ref(&self, out: &mut Writer) -> Result<(), OutOfMemory>
        ensures ok { OnOk result (out.new ≡ out.old ++ self.now) }
        ensures err { OnErr result (out.new ≡ out.old) }
    {
        out.raw(self.octets.as_slice())
    }

    /// An equal name that shares its octets with this one.
    pub fn clone(&self, _alloc: Global) -> Result<Name, OutOfMemory>
        ensures { IfOk result (λ n. n ≡ self.now) }
    {
        Ok(Name {
            octets: self.octets.clone()?,
        })
    }
}

/// What `encode_ref` writes of a name that was read is read again as that name, by the rules that it was read by; and in BER, where
/// it was read in DER.
pub fn read_name_is_read_again()
    ensures again { (mode : Mode) (v : Value) (octets rest more : List ℕ)
        → Begins mode octets v rest →
        (n : List ℕ) → name v ≡ Some n → Begins mode (n ++ more) v more }
    ensures loosely { (v : Value) (octets rest more : List ℕ) → Begins Der octets v rest →
        (n : List ℕ) → name v ≡ Some n → Begins Ber (n ++ more) v more }
{}
