//! Reading a value with all that is in it.

ghost use Rattle.std.specs.Prelude.{◌≡◌, ◌<◌, ◌+◌, ◌-◌, true, false, length, drop, IfOk, Err};
ghost use Rattle.rpki_der.specs.Value.{Value, spelling, Begins};
ghost use Rattle.rpki_der.specs.Identifier.{IsIdentifier, tag_of};
ghost use Rattle.rpki_der.specs.Part.{NoValue, level_of};
ghost use Rattle.rpki_der.specs.Level.{behind_level, mark_of};
ghost use Rattle.rpki_der.specs.Entries.{entries_of};
ghost use Rattle.rpki_der.specs.Growth.{entries_closed, DescendsTree, left_at};

use crate::error::DecodeError;
use crate::mode::Mode;
use crate::part::{Open, Part, take_part};
use crate::tag::Tag;
use crate::tree::{Entry, Tree};
use crate::walk::level_end;
use std::alloc::Global;

// A constructed value that is being read: where it ends, its place in the list, and the octets from its first one on.
#[derive(Clone, Copy)]
pub(crate) struct Inside<'a> {
    pub(crate) extent: Open<'a>,
    pub(crate) entry: usize,
    pub(crate) before: &'a [u8],
}

// How many octets stand behind the level where it began, as far as is known.
fn behind(level: Open<'_>) -> usize
    ensures { result ≡ behind_level (level_of level.entry) }
{
    match level {
        Open::Definite(after) => after.len(),
        Open::Indefinite => 0,
    }
}

// How many octets end the level.
fn mark_len(level: Open<'_>) -> usize
    ensures { result ≡ length (mark_of (level_of level.entry)) }
{
    match level {
        Open::Definite(_) => 0,
        Open::Indefinite => 2,
    }
}

// The entry of a primitive value, behind which `rest` stands.
fn primitive_entry(here: &[u8], identifier: &[u8], content: &[u8], rest: &[u8]) -> Entry
    requires identifier { IsIdentifier identifier.now }
    ensures { result ≡ record {
      tag = tag_of identifier.now;
      constructed = false;
      header = length here.now - length rest.now - length content.now;
      mark = 0;
      size =
          length here.now - length rest.now;
      count = 0;
    } }
{
    let size = here.len().saturating_sub(rest.len());
    Entry {
        tag: Tag::of(identifier),
        constructed: false,
        header: size.saturating_sub(content.len()),
        mark: 0,
        size,
        count: 0,
    }
}

// The entry of a constructed value, as far as its header tells.
fn opening_entry(here: &[u8], identifier: &[u8], extent: Open<'_>, inner: &[u8]) -> Entry
    requires identifier { IsIdentifier identifier.now }
    ensures { result ≡ record {
      tag = tag_of identifier.now;
      constructed = true;
      header = length here.now - behind_level (level_of extent.entry) - length inner.now;
      mark =
          length (mark_of (level_of extent.entry));
      size =
          length here.now - behind_level (level_of extent.entry);
      count = 0;
    } }
{
    let size = here.len().saturating_sub(behind(extent));
    Entry {
        tag: Tag::of(identifier),
        constructed: true,
        header: size.saturating_sub(inner.len()),
        mark: mark_len(extent),
        size,
        count: 0,
    }
}

// Notes the value that begins here, and passes it or goes into it.
fn descend<'a>(
    mode: Mode,
    here: &'a [u8],
    levels: &mut Vec<Inside<'a>>,
    entries: &mut Vec<Entry>,
) -> Result<&'a [u8], DecodeError>
    ensures ok { IfOk result (λ r. DescendsTree mode here.now levels.old.items entries.old.items
        r.now levels.new.items entries.new.items) }
    ensures malformed { result ≡ Err DecodeError.Malformed → NoValue mode here.now }
    ensures smaller { IfOk result (λ r. length r.now + left_at levels.new.items < length here.now +
        left_at levels.old.items) }
{
    match take_part(mode, here) {
        None => Err(DecodeError::Malformed),
        Some(
            Part::Primitive {
                identifier,
                content,
                rest,
            },
        ) => {
            entries.push(primitive_entry(here, identifier, content, rest))?;
            Ok(rest)
        }
        Some(
            Part::Constructed {
                identifier,
                open,
                inner,
            },
        ) => {
            let entry = entries.len();
            entries.push(opening_entry(here, identifier, open, inner))?;
            levels.push(Inside {
                extent: open,
                entry,
                before: here,
            })?;
            Ok(inner)
        }
    }
}

// Notes the size of the value whose last octet was read.
fn close(entries: &mut Vec<Entry>, entry: usize, size: usize)
    ensures { entries.new.items ≡ entries_closed entries.old.items entry size }
{
    if entry < entries.len() {
        let count = entries.len() - entry - 1;
        let closed = &mut entries[entry];
        closed.size = size;
        closed.count = count;
    }
}

// The entries of the value at the beginning, and what stands behind it.
fn index_value<'a>(
    alloc: Global,
    mode: Mode,
    octets: &'a [u8],
) -> Result<(Vec<Entry>, &'a [u8]), DecodeError>
    ensures ok { IfOk result (λ r. (v : Value) × Begins mode octets.now v r.1.now
        × (r.0.items ≡ entries_of v)) }
    ensures malformed { result ≡ Err DecodeError.Malformed → NoValue mode octets.now }
{
    let mut entries: Vec<Entry> = Vec::new(alloc);
    let mut levels: Vec<Inside<'a>> = Vec::new(alloc);
    let mut here = descend(mode, octets, &mut levels, &mut entries)?;
    'levels: while let Some(level) = levels.last() {
        let level = *level;
        match level_end(level.extent, here) {
            Some(rest) => {
                let size = level.before.len().saturating_sub(rest.len());
                close(&mut entries, level.entry, size);
                levels.pop();
                here = rest;
            }
            None => here = descend(mode, here, &mut levels, &mut entries)?,
        }
    }
    Ok((entries, here))
}

/// The value at the beginning of the octets, and how many octets it has; Malformed exactly where none begins them. What stands behind it
/// is unread.
pub fn read_tree(alloc: Global, mode: Mode, octets: &[u8]) -> Result<(Tree, usize), DecodeError>
    ensures ok { IfOk result (λ r. Begins mode octets.now r.0 (drop r.1 octets.now)) }
    ensures size { IfOk result (λ r. r.1 ≡ length (spelling r.0)) }
    ensures malformed { result ≡ Err DecodeError.Malformed → NoValue mode octets.now }
{
    let (entries, rest) = index_value(alloc, mode, octets)?;
    let size = octets.len().saturating_sub(rest.len());
    let octets = Vec::from_slice(alloc, &octets[..size])?;
    Ok((Tree { octets, entries }, size))
}
