//! The certificates that a CRL revokes.

ghost use Rattle.std.specs.Prelude.{◌≡◌, ◌↔◌, ◌<◌, true, IfOk};
ghost use Rattle.rpki_der.specs.Grammar.{optional};
ghost use Rattle.rpki_der.specs.Tags.{sequence};
ghost use Rattle.rpki_der.specs.Takes.{Takes};
ghost use Rattle.rpki_der.specs.Ticks.{TakesCounted, TakesPartCounted};
ghost use Rattle.rpki_der.specs.Whole.{HoldsOne};
ghost use Rattle.rpki_sigmsg.specs.Ahead.{begins_sequence};
ghost use Rattle.rpki_sigmsg.specs.Algorithm.{any_sequence};
ghost use Rattle.rpki_sigmsg.specs.RevokedCertificates.{EntryFields, crl_entry, revoked_certificates, none_revoked, is_listed};

use crate::algorithm::pass_sequence;
use bytes::Bytes;
use rpki_base::{Serial, Time};
use rpki_common::Sequence;
use rpki_der::{Cursor, DecodeError, Mode, OutOfMemory, Steps, Tag};
use std::alloc::Global;
use std::marker::{Brand, Model};
use std::sync::ledger::{Blank, Ledger};

/// A certificate that is revoked (RFC 5280, 5.1.2.6).
///
/// In a clause it is the record of these two.
#[derive(Clone, Copy, Debug, PartialEq, Eq)]
pub struct CrlEntry {
    /// The certificate's serial number.
    pub user_certificate: Serial,
    /// When it was revoked.
    pub revocation_date: Time,
}

impl Model for CrlEntry {
    ghost use Rattle.rpki_sigmsg.specs.RevokedCertificates.{EntryFields};

    ghost Value = { EntryFields };

    ghost view = { λ e. record {
      user_certificate = e.user_certificate;
      revocation_date = e.revocation_date;
    } };

    ghost inverse = { λ e. record {
      user_certificate = e.user_certificate;
      revocation_date = e.revocation_date;
    } };
}

/// `==` holds exactly between entries that are the same.
pub fn equal_entries_are_the_same()
    ensures { (a b : EntryFields) → (⟦<CrlEntry as PartialEq>⟧.eq a b ≡ true) ↔ (a ≡ b) }
{}

// Whether the octets begin with the identifier of a SEQUENCE.
fn begins_sequence(octets: &[u8]) -> bool
    ensures { result ≡ begins_sequence octets.now }
{
    matches!(octets, [0x10, ..] | [0x30, ..])
}

// Passes the extensions of an entry, if they stand next.
fn pass_entry_extensions<L: Ledger>(
    cursor: &mut Cursor<'_>,
    steps: &mut Steps<L>,
) -> Result<Option<()>, DecodeError>
    ensures { TakesPartCounted 1 1 (optional sequence any_sequence) (λ x. x)
        cursor.old cursor.new steps.old steps.new result }
{
    if !begins_sequence(cursor.here()) {
        return Ok(None);
    }
    pass_sequence(cursor, steps)?;
    Ok(Some(()))
}

/// # Decoding
impl CrlEntry {
    /// The entry that the octets hold, with nothing behind it; Malformed exactly where they hold none.
    pub fn take(alloc: Global, mode: Mode, octets: &[u8]) -> Result<CrlEntry, DecodeError>
        ensures { HoldsOne crl_entry (λ e. e) mode octets.now result }
    {
        let mut cursor = Cursor::new(alloc, mode, octets);
        let found = CrlEntry::take_from(&mut cursor)?;
        if !cursor.end() {
            return Err(DecodeError::Malformed);
        }
        Ok(found)
    }

    /// The entry that stands next: a SEQUENCE of a serial number, a time, and a SEQUENCE of extensions or none, which are
    /// unread; Malformed exactly where none does.
    pub fn take_from(cursor: &mut Cursor<'_>) -> Result<CrlEntry, DecodeError>
        ensures { Takes crl_entry (λ e. e) cursor.old cursor.new result }
    {
        CrlEntry::take_from_within::<Brand>(cursor, Blank::new(1))
    }

    fn take_from_within<L: Ledger>(
        cursor: &mut Cursor<'_>,
        blank: Blank,
    ) -> Result<CrlEntry, DecodeError>
        requires name { blank.name ≡ L.name }
        requires parts { blank.parts ≡ L.parts }
        requires some { 0 < blank.parts }
        ensures { Takes crl_entry (λ e. e) cursor.old cursor.new result }
    {
        let mut steps = Steps::<L>::new(blank);
        CrlEntry::take_from_counted(cursor, &mut steps)
    }

    /// The entry that stands next, as `take_from` reads it. It ticks each time it looks at a header, and for each end mark.
    pub fn take_from_counted<L: Ledger>(
        cursor: &mut Cursor<'_>,
        steps: &mut Steps<L>,
    ) -> Result<CrlEntry, DecodeError>
        ensures { TakesCounted 1 crl_entry (λ e. e)
            cursor.old cursor.new steps.old steps.new result }
    {
        cursor.enter_counted(Tag::SEQUENCE, steps)?;
        let user_certificate = Serial::take_from_counted(cursor, steps)?;
        let revocation_date = Time::take_from_counted(cursor, steps)?;
        let _extensions = pass_entry_extensions(cursor, steps)?;
        cursor.leave_counted(steps)?;
        Ok(CrlEntry {
            user_certificate,
            revocation_date,
        })
    }
}

/// The certificates that a CRL revokes, as the octets of their entries and as a list (RFC 5280, 5.1.2.6).
///
/// In a clause it is these two.
pub struct RevokedCertificates {
    octets: Bytes,
    entries: Sequence<CrlEntry>,
}

impl Drop for RevokedCertificates {
    fn drop(self) {
        let RevokedCertificates { octets, entries } = self;
    }
}

impl Model for RevokedCertificates {
    ghost use Rattle.rpki_sigmsg.specs.RevokedCertificates.{RevokedFields};

    ghost Value = { RevokedFields };

    ghost view = { λ r. record { octets = r.octets; entries = r.entries } };

    ghost inverse = { λ r. record { octets = r.octets; entries = r.entries } };
}

/// # Decoding
impl RevokedCertificates {
    /// The list of no entries, which has no octets. It takes no memory.
    pub fn empty(alloc: Global) -> RevokedCertificates
        ensures { result ≡ none_revoked }
    {
        RevokedCertificates {
            octets: Bytes::new(),
            entries: Sequence::new(alloc),
        }
    }

    /// The list that the octets hold, with nothing behind it; Malformed exactly where they hold none.
    pub fn take(
        alloc: Global,
        mode: Mode,
        octets: &[u8],
    ) -> Result<RevokedCertificates, DecodeError>
        ensures { HoldsOne revoked_certificates (λ r. r) mode octets.now result }
    {
        let mut cursor = Cursor::new(alloc, mode, octets);
        let found = RevokedCertificates::take_from(alloc, &mut cursor)?;
        if !cursor.end() {
            return Err(DecodeError::Malformed);
        }
        Ok(found)
    }

    /// The list that stands next: a SEQUENCE of entries; Malformed exactly where none does.
    pub fn take_from(
        alloc: Global,
        cursor: &mut Cursor<'_>,
    ) -> Result<RevokedCertificates, DecodeError>
        ensures { Takes revoked_certificates (λ r. r) cursor.old cursor.new result }
    {
        RevokedCertificates::take_from_within::<Brand>(alloc, cursor, Blank::new(1))
    }

    fn take_from_within<L: Ledger>(
        alloc: Global,
        cursor: &mut Cursor<'_>,
        blank: Blank,
    ) -> Result<RevokedCertificates, DecodeError>
        requires name { blank.name ≡ L.name }
        requires parts { blank.parts ≡ L.parts }
        requires some { 0 < blank.parts }
        ensures { Takes revoked_certificates (λ r. r) cursor.old cursor.new result }
    {
        let mut steps = Steps::<L>::new(blank);
        RevokedCertificates::take_from_counted(alloc, cursor, &mut steps)
    }

    /// The list that stands next, as `take_from` reads it. It ticks each time it looks at a header, and for each end mark.
    pub fn take_from_counted<L: Ledger>(
        alloc: Global,
        cursor: &mut Cursor<'_>,
        steps: &mut Steps<L>,
    ) -> Result<RevokedCertificates, DecodeError>
        ensures { TakesCounted 1 revoked_certificates (λ r. r)
            cursor.old cursor.new steps.old steps.new result }
    {
        cursor.enter_counted(Tag::SEQUENCE, steps)?;
        let start = cursor.here();
        let mut entries = Vec::new(alloc);
        'entries: while !cursor.end() {
            let entry = CrlEntry::take_from_counted(cursor, steps)?;
            entries.push(entry)?;
        }
        let octets = Bytes::copy_from_slice(alloc, cursor.since(start))?;
        cursor.leave_counted(steps)?;
        Ok(RevokedCertificates {
            octets,
            entries: Sequence::from_vec(entries),
        })
    }
}

/// The list that stands next, if a SEQUENCE does.
pub(crate) fn take_opt_revoked<L: Ledger>(
    alloc: Global,
    cursor: &mut Cursor<'_>,
    steps: &mut Steps<L>,
) -> Result<Option<RevokedCertificates>, DecodeError>
    ensures { TakesPartCounted 1 1 (optional sequence revoked_certificates) (λ x. x)
        cursor.old cursor.new steps.old steps.new result }
{
    if !begins_sequence(cursor.here()) {
        return Ok(None);
    }
    let list = RevokedCertificates::take_from_counted(alloc, cursor, steps)?;
    Ok(Some(list))
}

/// # Data access
impl RevokedCertificates {
    /// Whether an entry has this serial number. It takes no memory.
    pub fn contains(&self, serial: Serial) -> bool
        ensures { result ≡ is_listed serial self.now.entries }
    {
        for entry in self.entries() {
            if entry.user_certificate.as_slice() == serial.as_slice() {
                return true;
            }
        }
        false
    }

    /// The entries in their order.
    pub fn entries(&self) -> &[CrlEntry]
        ensures { result.now ≡ self.now.entries }
    {
        self.entries.as_slice()
    }

    /// The octets of the entries as they were read, one behind the other, without the header of their SEQUENCE.
    pub fn as_slice(&self) -> &[u8]
        ensures { result.now ≡ self.now.octets }
    {
        self.octets.as_slice()
    }

    /// An equal list that shares its octets with this one.
    pub fn clone(&self, alloc: Global) -> Result<RevokedCertificates, OutOfMemory>
        ensures { IfOk result (λ r. r ≡ self.now) }
    {
        let octets = self.octets.clone()?;
        let entries = self.entries().to_vec(alloc)?;
        Ok(RevokedCertificates {
            octets,
            entries: Sequence::from_vec(entries),
        })
    }
}
