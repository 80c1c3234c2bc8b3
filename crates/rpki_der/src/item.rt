//! Whole values.

ghost use Rattle.std.specs.Prelude.{◌≡◌, ◌+◌, ◌-◌, ◌<◌, ◌≤◌, [], length, take, IfOk, OnOk, OnErr, OnSome, Err};
ghost use Rattle.rpki_der.specs.Value.{Value, Begins};
ghost use Rattle.rpki_der.specs.Level.{Marked, Opens};
ghost use Rattle.rpki_der.specs.Header.{IdentifierFirst};
ghost use Rattle.rpki_der.specs.Part.{level_of, IsPart, NoValue};
ghost use Rattle.rpki_der.specs.Takes.{Takes};
ghost use Rattle.rpki_der.specs.Ticks.{TakesCounted, counts};
ghost use Rattle.rpki_der.specs.Item.{item_with, TakesNext, TakesNextCounted, TakesOptional, TakesOptionalCounted, OtherFirst};
ghost use Rattle.rpki_der.specs.BehindHeader.{content_in, ShowsWhole};
ghost use Rattle.rpki_der.specs.Stopping.{StopsIn, StopsAt};

use crate::cursor::Cursor;
use crate::error::DecodeError;
use crate::header::take_identifier;
use crate::levels::Levels;
use crate::mode::Mode;
use crate::part::{Open, Part, take_part_behind};
use crate::steps::Steps;
use crate::tag::{Tag, tag_is};
use crate::walk::skip_levels;
use std::alloc::Global;
use std::marker::{Brand, Model};
use std::sync::ledger::{Blank, Ledger};

/// One whole value, as it stands in the octets.
///
/// In a clause it is the record of these four, with the octets as lists.
#[derive(Drop)]
pub struct Item<'a> {
    /// What kind of value it is.
    pub tag: Tag,
    /// Whether it has the constructed form: then its contents are values.
    pub constructed: bool,
    /// Its contents octets. Where 00 00 ends the value, they are those in front of it.
    pub content: &'a [u8],
    /// Its exact octets, from the first of its identifier to its last.
    pub slice: &'a [u8],
}

impl<'a> Model for Item<'a> {
    ghost use Rattle.rpki_der.specs.Item.{ItemFields};

    ghost Value = { ItemFields };

    ghost view = { λ i. record {
      tag = i.tag;
      constructed = i.constructed;
      content = i.content.now;
      slice = i.slice.now;
    } };
}

// The octets in front of those at the end.
fn in_front_of<'a>(octets: &'a [u8], rest: &'a [u8]) -> &'a [u8]
    requires within { length rest.now ≤ length octets.now }
    ensures { result.now ≡ take (length octets.now - length rest.now) octets.now }
{
    &octets[..octets.len() - rest.len()]
}

// The contents of a constructed value, behind which `rest` stands.
fn content_of<'a>(level: Open<'a>, inner: &'a [u8], rest: &'a [u8]) -> &'a [u8]
    requires within { level_of level ≡ Marked → length rest.now + 2 ≤ length inner.now }
    ensures { result.now ≡ content_in (level_of level.entry) inner.now rest.now }
{
    match level {
        Open::Definite(_) => inner,
        Open::Indefinite => &inner[..inner.len() - rest.len() - 2],
    }
}

// The constructed value whose header was read, and what stands behind it.
fn constructed_item<'a, L: Ledger>(
    alloc: Global,
    mode: Mode,
    here: &'a [u8],
    identifier: &'a [u8],
    level: Open<'a>,
    inner: &'a [u8],
    steps: &mut Steps<L>,
) -> Result<(Item<'a>, &'a [u8]), DecodeError>
    requires opens { Opens mode here.now identifier.now (level_of level) inner.now }
    ensures ok { IfOk result (λ r. ShowsWhole mode here.now r.1.now steps.old steps.new r.0) }
    ensures malformed { result ≡ Err DecodeError.Malformed → NoValue mode here.now }
    ensures later { OnErr result (steps.old ≤ steps.new) }
    ensures refused { OnErr result (steps.new ≤ steps.old + length here.now) }
    ensures stopped { OnErr result (StopsIn 0 mode here.now [] steps.old steps.new) }
{
    let mut opened = Levels::new(alloc);
    opened.push(level)?;
    let rest = skip_levels(mode, inner, opened, steps)?;
    let item = Item {
        tag: Tag::of(identifier),
        constructed: true,
        content: content_of(level, inner, rest),
        slice: in_front_of(here, rest),
    };
    Ok((item, rest))
}

// The value whose header was read, and what stands behind it.
fn whole_item<'a, L: Ledger>(
    alloc: Global,
    mode: Mode,
    here: &'a [u8],
    part: Part<'a>,
    steps: &mut Steps<L>,
) -> Result<(Item<'a>, &'a [u8]), DecodeError>
    requires part { IsPart mode here.now part }
    ensures ok { IfOk result (λ r. ShowsWhole mode here.now r.1.now steps.old steps.new r.0) }
    ensures malformed { result ≡ Err DecodeError.Malformed → NoValue mode here.now }
    ensures later { OnErr result (steps.old ≤ steps.new) }
    ensures refused { OnErr result (steps.new ≤ steps.old + length here.now) }
    ensures stopped { OnErr result (StopsIn 0 mode here.now [] steps.old steps.new) }
{
    match part {
        Part::Primitive {
            identifier,
            content,
            rest,
        } => {
            let item = Item {
                tag: Tag::of(identifier),
                constructed: false,
                content,
                slice: in_front_of(here, rest),
            };
            Ok((item, rest))
        }
        Part::Constructed {
            identifier,
            open,
            inner,
        } => constructed_item(alloc, mode, here, identifier, open, inner, steps),
    }
}

impl<'a> Cursor<'a> {
    // The value that begins with this identifier, which was counted, behind which these octets stand.
    fn take_behind<L: Ledger>(
        &mut self,
        identifier: &'a [u8],
        behind: &'a [u8],
        steps: &mut Steps<L>,
    ) -> Result<Item<'a>, DecodeError>
        requires first { IdentifierFirst self.old.here identifier.now behind.now }
        ensures ok { IfOk result (λ i. ShowsWhole self.old.mode self.old.here self.new.here
            steps.old steps.new i) }
        ensures place { OnOk result ((self.new.levels ≡ self.old.levels)
            × (self.new.mode ≡ self.old.mode)) }
        ensures malformed { result ≡ Err DecodeError.Malformed
            → NoValue self.old.mode self.old.here }
        ensures err { OnErr result (self.new ≡ self.old) }
        ensures later { OnErr result (steps.old ≤ steps.new) }
        ensures refused { OnErr result (steps.new ≤ steps.old + length self.old.here) }
        ensures stopped { OnErr result (StopsIn 0 self.old.mode self.old.here [] steps.old
            steps.new) }
    {
        match take_part_behind(self.mode, identifier, behind) {
            Some(part) => {
                let (item, rest) = whole_item(self.alloc, self.mode, self.here, part, steps)?;
                self.here = rest;
                Ok(item)
            }
            None => Err(DecodeError::Malformed),
        }
    }

    /// The value that stands next; None at the end of the level; Malformed exactly where neither is there. It ticks once for each header
    /// and each end mark in it.
    pub fn next_value_counted<L: Ledger>(
        &mut self,
        steps: &mut Steps<L>,
    ) -> Result<Option<Item<'a>>, DecodeError>
        ensures value { TakesNextCounted 1 self.old self.new steps.old steps.new result }
        ensures err { OnErr result (self.new ≡ self.old) }
        ensures ticks { IfOk result (λ found. OnSome found
            ((v : Value) × Begins self.old.mode self.old.here v self.new.here
            × (steps.new ≡ steps.old + counts v))) }
        ensures refused { OnErr result (steps.new ≤ steps.old + length self.old.here + 1) }
        ensures stopped { OnErr result (StopsAt self.old.mode self.old.here steps.old steps.new) }
    {
        if self.end() {
            return Ok(None);
        }
        steps.tick();
        match take_identifier(self.here) {
            Some((identifier, behind)) => {
                let value = self.take_behind(identifier, behind, steps)?;
                Ok(Some(value))
            }
            None => Err(DecodeError::Malformed),
        }
    }

    fn next_value_within<L: Ledger>(
        &mut self,
        blank: Blank,
    ) -> Result<Option<Item<'a>>, DecodeError>
        requires name { blank.name ≡ L.name }
        requires parts { blank.parts ≡ L.parts }
        requires some { 0 < blank.parts }
        ensures value { TakesNext self.old self.new result }
        ensures err { OnErr result (self.new ≡ self.old) }
    {
        let mut steps = Steps::<L>::new(blank);
        self.next_value_counted(&mut steps)
    }

    /// The value that stands next; None at the end of the level; Malformed exactly where neither is there.
    pub fn next_value(&mut self) -> Result<Option<Item<'a>>, DecodeError>
        ensures value { TakesNext self.old self.new result }
        ensures err { OnErr result (self.new ≡ self.old) }
    {
        self.next_value_within::<Brand>(Blank::new(1))
    }

    /// The value with this tag, of either form, that stands next; Malformed exactly where none does. It ticks once for each header
    /// and each end mark in it.
    pub fn take_if_counted<L: Ledger>(
        &mut self,
        tag: Tag,
        steps: &mut Steps<L>,
    ) -> Result<Item<'a>, DecodeError>
        ensures value { TakesCounted 1 (item_with tag) (λ i. i) self.old self.new steps.old
            steps.new result }
        ensures err { OnErr result (self.new ≡ self.old) }
        ensures ticks { OnOk result ((v : Value) × Begins self.old.mode self.old.here v
            self.new.here × (steps.new ≡ steps.old + counts v)) }
        ensures other { OtherFirst tag self.old.here → steps.new ≡ steps.old + 1 }
        ensures refused { OnErr result (steps.new ≤ steps.old + length self.old.here + 1) }
        ensures stopped { OnErr result (StopsAt self.old.mode self.old.here steps.old steps.new) }
    {
        steps.tick();
        match take_identifier(self.here) {
            Some((identifier, behind)) if tag_is(identifier, tag) => {
                self.take_behind(identifier, behind, steps)
            }
            _ => Err(DecodeError::Malformed),
        }
    }

    fn take_if_within<L: Ledger>(&mut self, tag: Tag, blank: Blank) -> Result<Item<'a>, DecodeError>
        requires name { blank.name ≡ L.name }
        requires parts { blank.parts ≡ L.parts }
        requires some { 0 < blank.parts }
        ensures value { Takes (item_with tag) (λ i. i) self.old self.new result }
        ensures err { OnErr result (self.new ≡ self.old) }
    {
        let mut steps = Steps::<L>::new(blank);
        self.take_if_counted(tag, &mut steps)
    }

    /// The value with this tag, of either form, that stands next; Malformed exactly where none does.
    pub fn take_if(&mut self, tag: Tag) -> Result<Item<'a>, DecodeError>
        ensures value { Takes (item_with tag) (λ i. i) self.old self.new result }
        ensures err { OnErr result (self.new ≡ self.old) }
    {
        self.take_if_within::<Brand>(tag, Blank::new(1))
    }

    /// The value that stands next, if it has this tag; None at the end of the level, and where an identifier of another
    /// tag stands next, whatever follows it; else Malformed. It ticks once for each header and each end mark in the value,
    /// and once for another identifier.
    pub fn take_opt_if_counted<L: Ledger>(
        &mut self,
        tag: Tag,
        steps: &mut Steps<L>,
    ) -> Result<Option<Item<'a>>, DecodeError>
        ensures value { TakesOptionalCounted 1 tag self.old self.new steps.old steps.new result }
        ensures err { OnErr result (self.new ≡ self.old) }
        ensures ticks { IfOk result (λ found. OnSome found
            ((v : Value) × Begins self.old.mode self.old.here v self.new.here
            × (steps.new ≡ steps.old + counts v))) }
        ensures refused { OnErr result (steps.new ≤ steps.old + length self.old.here + 1) }
        ensures stopped { OnErr result (StopsAt self.old.mode self.old.here steps.old steps.new) }
    {
        if self.end() {
            return Ok(None);
        }
        steps.tick();
        match take_identifier(self.here) {
            Some((identifier, behind)) if tag_is(identifier, tag) => {
                let item = self.take_behind(identifier, behind, steps)?;
                Ok(Some(item))
            }
            Some(_) => Ok(None),
            None => Err(DecodeError::Malformed),
        }
    }

    fn take_opt_if_within<L: Ledger>(
        &mut self,
        tag: Tag,
        blank: Blank,
    ) -> Result<Option<Item<'a>>, DecodeError>
        requires name { blank.name ≡ L.name }
        requires parts { blank.parts ≡ L.parts }
        requires some { 0 < blank.parts }
        ensures value { TakesOptional tag self.old self.new result }
        ensures err { OnErr result (self.new ≡ self.old) }
    {
        let mut steps = Steps::<L>::new(blank);
        self.take_opt_if_counted(tag, &mut steps)
    }

    /// The value that stands next, if it has this tag; None at the end of the level, and where an identifier of another
    /// tag stands next, whatever follows it; else Malformed.
    pub fn take_opt_if(&mut self, tag: Tag) -> Result<Option<Item<'a>>, DecodeError>
        ensures value { TakesOptional tag self.old self.new result }
        ensures err { OnErr result (self.new ≡ self.old) }
    {
        self.take_opt_if_within::<Brand>(tag, Blank::new(1))
    }
}
