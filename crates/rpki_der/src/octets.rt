//! Octet strings, of one segment or many.

ghost use Rattle.std.specs.Prelude.{◌≡◌, ◌+◌, ◌<◌, ◌≤◌, length, OnOk, OnErr, MatchResult};
ghost use Rattle.rpki_der.specs.Takes.{Takes, Refuses};
ghost use Rattle.rpki_der.specs.Grammar.{primitive};
ghost use Rattle.rpki_der.specs.Walk.{left_in};
ghost use Rattle.rpki_der.specs.OctetString.{joined_pieces, octets_under};
ghost use Rattle.rpki_der.specs.Segments.{Segment};
ghost use Rattle.rpki_der.specs.Ticks.{TakesCounted, left};
ghost use Rattle.rpki_der.specs.CountedWalk.{Onward};

use crate::cursor::Cursor;
use crate::error::DecodeError;
use crate::mode::Mode;
use crate::steps::Steps;
use crate::tag::Tag;
use std::alloc::Global;
use std::marker::Brand;
use std::sync::ledger::{Blank, Ledger};

// Passes a primitive segment with this tag, or goes into a constructed one.
fn segment<L: Ledger>(
    cursor: &mut Cursor<'_>,
    tag: Tag,
    octets: &mut Vec<u8>,
    steps: &mut Steps<L>,
) -> Result<(), DecodeError>
    ensures place { MatchResult result (λ _. Segment tag cursor.old octets.old.items cursor.new
        octets.new.items) (Refuses (joined_pieces tag) cursor.old) }
    ensures smaller { OnOk result (length cursor.new.here + left_in cursor.new.levels < length
        cursor.old.here + left_in cursor.old.levels) }
    ensures counted { OnOk result (Onward cursor.old steps.old cursor.new steps.new) }
    ensures most { OnOk result (steps.new + left cursor.new ≤ steps.old + left cursor.old) }
    ensures later { steps.old ≤ steps.new }
    ensures refused { OnErr result (steps.new ≤ steps.old + 2) }
{
    match cursor.enter_counted(tag, steps) {
        Ok(()) => Ok(()),
        Err(DecodeError::OutOfMemory) => Err(DecodeError::OutOfMemory),
        Err(DecodeError::Malformed) => {
            let contents = cursor.take_primitive_counted(tag, steps)?;
            octets.extend_from_slice(contents)?;
            Ok(())
        }
    }
}

// The octets of the value with this tag that stands next: its contents, or its segments joined.
fn take_joined_counted<L: Ledger>(
    alloc: Global,
    cursor: &mut Cursor<'_>,
    tag: Tag,
    steps: &mut Steps<L>,
) -> Result<Vec<u8>, DecodeError>
    ensures { TakesCounted 1 (joined_pieces tag) (λ x. x.items)
        cursor.old cursor.new steps.old steps.new result }
{
    let mut octets: Vec<u8> = Vec::new(alloc);
    let base = cursor.depth();
    segment(cursor, tag, &mut octets, steps)?;
    'segments: while cursor.depth() > base {
        if cursor.end() {
            cursor.leave_counted(steps)?;
        } else {
            segment(cursor, Tag::OCTET_STRING, &mut octets, steps)?;
        }
    }
    Ok(octets)
}

// The contents of the primitive value with this tag that stands next, copied.
fn take_copied_counted<L: Ledger>(
    alloc: Global,
    cursor: &mut Cursor<'_>,
    tag: Tag,
    steps: &mut Steps<L>,
) -> Result<Vec<u8>, DecodeError>
    ensures { TakesCounted 1 (primitive tag) (λ x. x.items)
        cursor.old cursor.new steps.old steps.new result }
{
    let contents = cursor.take_primitive_counted(tag, steps)?;
    Ok(contents.to_vec(alloc)?)
}

/// The octets of the octet string under `tag` that stands next, its segments joined; Malformed exactly where none does. It
/// ticks each time it looks at a header, and for each end mark.
pub fn take_octets_counted<L: Ledger>(
    alloc: Global,
    cursor: &mut Cursor<'_>,
    tag: Tag,
    steps: &mut Steps<L>,
) -> Result<Vec<u8>, DecodeError>
    ensures { TakesCounted 1 (octets_under tag cursor.old.mode) (λ x. x.items)
        cursor.old cursor.new steps.old steps.new result }
{
    match cursor.mode() {
        Mode::Ber => take_joined_counted(alloc, cursor, tag, steps),
        Mode::Der => take_copied_counted(alloc, cursor, tag, steps),
    }
}

fn take_octets_within<L: Ledger>(
    alloc: Global,
    cursor: &mut Cursor<'_>,
    tag: Tag,
    blank: Blank,
) -> Result<Vec<u8>, DecodeError>
    requires name { blank.name ≡ L.name }
    requires parts { blank.parts ≡ L.parts }
    requires some { 0 < blank.parts }
    ensures { Takes (octets_under tag cursor.old.mode) (λ x. x.items) cursor.old cursor.new result }
{
    let mut steps = Steps::<L>::new(blank);
    take_octets_counted(alloc, cursor, tag, &mut steps)
}

/// The octets of the octet string under `tag` that stands next (X.690, 8.7); Malformed exactly where none does.
///
/// In BER it may be one primitive value or segments at any depth, whose octets are joined in their order; a segment
/// inside has the tag of OCTET STRING. In DER it is one primitive value.
pub fn take_octets(alloc: Global, cursor: &mut Cursor<'_>, tag: Tag) -> Result<Vec<u8>, DecodeError>
    ensures { Takes (octets_under tag cursor.old.mode) (λ x. x.items) cursor.old cursor.new result }
{
    take_octets_within::<Brand>(alloc, cursor, tag, Blank::new(1))
}
