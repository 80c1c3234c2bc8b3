//! Extensions.

ghost use Rattle.std.specs.Prelude.{◌≡◌, ◌+◌, ◌≤◌, length, IfOk};
ghost use Rattle.rpki_der.specs.Ticks.{TakesCounted, left};
ghost use Rattle.rpki_der.specs.Grammar.{so, wrapped};
ghost use Rattle.rpki_base.specs.Extension.{extension, gathered};

use rpki_der::{
    Cursor, DecodeError, Steps, Tag, take_octets_counted, take_oid_counted,
    take_opt_boolean_counted,
};
use std::alloc::Global;
use std::marker::Model;
use std::sync::ledger::Ledger;

/// An extension of a certificate or a CRL (RFC 5280, 4.2).
///
/// In a clause it is the record of these three, with the octets as lists.
#[derive(Drop)]
pub struct Extension<'a> {
    /// The contents octets of the object identifier.
    pub identifier: &'a [u8],
    /// Whether it is critical; it isn't where nothing says so.
    pub critical: bool,
    /// The octets that it holds, their segments joined in BER.
    pub value: Vec<u8>,
}

impl<'a> Model for Extension<'a> {
    ghost use Rattle.rpki_base.specs.Extension.{ExtensionFields};

    ghost Value = { ExtensionFields };

    ghost view = { λ e. record {
      identifier = e.identifier.now;
      critical = e.critical;
      value = e.value.items;
    } };
}

impl<'a> Extension<'a> {
    /// The octets that it holds, as a slice.
    pub fn held(&self) -> &[u8]
        ensures { result.now ≡ self.now.value }
    {
        &self.value
    }
}

/// The extension that stands next: a SEQUENCE of an object identifier, a BOOLEAN or none, and an OCTET STRING (RFC 5280, 4.1).
/// What it holds isn't read. It ticks each time it looks at a header, and for each end mark.
pub fn take_extension_counted<'a, L: Ledger>(
    alloc: Global,
    cursor: &mut Cursor<'a>,
    steps: &mut Steps<L>,
) -> Result<Extension<'a>, DecodeError>
    ensures value { TakesCounted 1 (extension cursor.old.mode) (λ e. e)
        cursor.old cursor.new steps.old steps.new result }

    // What it holds is among the octets that were passed.
    ensures within { IfOk result (λ e. length e.value + left cursor.new ≤ left cursor.old) }
{
    cursor.enter_counted(Tag::SEQUENCE, steps)?;
    let identifier = take_oid_counted(cursor, steps)?;
    let critical = take_opt_boolean_counted(cursor, steps)?;
    let value = take_octets_counted(alloc, cursor, Tag::OCTET_STRING, steps)?;
    cursor.leave_counted(steps)?;
    Ok(Extension {
        identifier,
        critical: critical.unwrap_or(false),
        value,
    })
}

/// What is found in extensions that are read one after the other.
pub trait FindsExtensions: Drop {
    ghost use Rattle.std.specs.Prelude.{Option};
    ghost use Rattle.rpki_der.specs.InDer.{GivesCounted};
    ghost use Rattle.rpki_base.specs.Extension.{ExtensionFields};

    /// What was found before, and what one more extension says; nothing where that isn't lawful.
    ghost with: { Self → ExtensionFields → Option Self };

    /// What was found before, and what this extension says. What it holds is read in DER; Malformed exactly where it isn't lawful. It
    /// ticks once for each header and each end mark that it reads.
    fn found_with<L: Ledger>(
        self,
        alloc: Global,
        extension: &Extension<'_>,
        steps: &mut Steps<L>,
    ) -> Result<Self, DecodeError>
        ensures { GivesCounted 1 (with self extension.now) (λ found. found) extension.now.value
            steps.old steps.new result };
}

// What was found with the extension that stands next.
fn take_extension<F: FindsExtensions, L: Ledger>(
    alloc: Global,
    cursor: &mut Cursor<'_>,
    found: F,
    steps: &mut Steps<L>,
) -> Result<F, DecodeError>
    ensures { TakesCounted 2 (so (extension cursor.old.mode) (F.with found)) (λ found. found)
        cursor.old cursor.new steps.old steps.new result }
{
    let extension = take_extension_counted(alloc, cursor, steps)?;
    found.found_with(alloc, &extension, steps)
}

/// What was found before, and what the extensions say that stand next in a SEQUENCE. It ticks each time it looks at a header, and
/// for each end mark.
pub fn take_extensions_counted<F: FindsExtensions, L: Ledger>(
    alloc: Global,
    cursor: &mut Cursor<'_>,
    found: F,
    steps: &mut Steps<L>,
) -> Result<F, DecodeError>
    ensures { TakesCounted 2 (gathered F.with cursor.old.mode found) (λ found. found)
        cursor.old cursor.new steps.old steps.new result }
{
    cursor.enter_counted(Tag::SEQUENCE, steps)?;
    let mut found = found;
    'extensions: while !cursor.end() {
        found = take_extension(alloc, cursor, found, steps)?;
    }
    cursor.leave_counted(steps)?;
    Ok(found)
}

/// What was found before, and what the extensions say that stand next under this tag, as [3] in certificates and [0] in CRLs.
pub fn take_tagged_extensions_counted<F: FindsExtensions, L: Ledger>(
    alloc: Global,
    cursor: &mut Cursor<'_>,
    tag: Tag,
    found: F,
    steps: &mut Steps<L>,
) -> Result<F, DecodeError>
    ensures { TakesCounted 2 (wrapped tag (gathered F.with cursor.old.mode found)) (λ found. found)
        cursor.old cursor.new steps.old steps.new result }
{
    cursor.enter_counted(tag, steps)?;
    let found = take_extensions_counted(alloc, cursor, found, steps)?;
    cursor.leave_counted(steps)?;
    Ok(found)
}
