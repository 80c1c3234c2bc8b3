//! What a key may be used for.

ghost use Rattle.std.specs.Prelude.{◌≡◌, ◌↔◌, true};
ghost use Rattle.rpki_der.specs.Ticks.{TakesCounted};
ghost use Rattle.rpki_cert.specs.KeyUsage.{usage_of, key_usage};
ghost use Rattle.rpki_cert.specs.declared.key_usage.KeyUsage.{KeyUsage};

use rpki_der::{Cursor, DecodeError, Steps, take_bits_counted};
use std::sync::ledger::Ledger;

/// What a key may be used for (RFC 5280, 4.2.1.3; RFC 6487, 4.8.4).
#[derive(Clone, Copy, Debug, PartialEq, Eq)]
pub enum KeyUsage {
    /// An authority's: to sign certificates and CRLs.
    Ca,
    /// An end entity's: to sign objects.
    Ee,
}

/// `==` holds exactly between usages that are the same.
pub fn equal_usages_are_the_same()
    ensures { (a b : KeyUsage) → (⟦<KeyUsage as PartialEq>⟧.eq a b ≡ true) ↔ (a ≡ b) }
{}

// What the bits say: those of an authority, or that of an end entity.
fn usage_of(unused: u8, octets: &[u8]) -> Option<KeyUsage>
    ensures { result ≡ usage_of (record { unused = unused; octets = octets.now }) }
{
    if unused == 1 && octets == [6].as_slice() {
        Some(KeyUsage::Ca)
    } else if unused == 7 && octets == [128].as_slice() {
        Some(KeyUsage::Ee)
    } else {
        None
    }
}

/// The usage that stands next. It ticks once.
pub(crate) fn take_key_usage<L: Ledger>(
    cursor: &mut Cursor<'_>,
    steps: &mut Steps<L>,
) -> Result<KeyUsage, DecodeError>
    ensures { TakesCounted 1 key_usage (λ x. x) cursor.old cursor.new steps.old steps.new result }
{
    let (unused, octets) = take_bits_counted(cursor, steps)?;
    match usage_of(unused, octets) {
        Some(usage) => Ok(usage),
        None => Err(DecodeError::Malformed),
    }
}
