//! A reader over borrowed octets.

ghost use Rattle.std.specs.Prelude.{◌≡◌, ◌≢◌, ◌<◌, ◌≤◌, ◌+◌, ◌↔◌, [], ◌∷◌, length, IsTrue, IfSome, IfNone, OnOk, OnErr};
ghost use Rattle.rpki_der.specs.Value.{Value, Begins};
ghost use Rattle.rpki_der.specs.Level.{EndsLevel};
ghost use Rattle.rpki_der.specs.Position.{Position, top, AtEnd};
ghost use Rattle.rpki_der.specs.Takes.{Takes, Enters, GoesOut};
ghost use Rattle.rpki_der.specs.Grammar.{primitive, any};
ghost use Rattle.rpki_der.specs.Ticks.{TakesCounted, counts, marks};
ghost use Rattle.rpki_der.specs.Stopping.{StopsAt};

use crate::error::DecodeError;
use crate::levels::Levels;
use crate::mode::Mode;
use crate::part::{Open, Part, take_part};
use crate::steps::Steps;
use crate::tag::{Tag, tag_is};
use crate::walk::{level_end, skip_value};
use std::alloc::Global;
use std::marker::{Brand, Model};
use std::sync::ledger::{Blank, Ledger};

/// A place in the values that octets spell. After each of its own calls that is refused it stands where it stood before; the
/// functions that take a cursor don't say where they leave it then.
pub struct Cursor<'a> {
    pub(crate) alloc: Global,
    pub(crate) mode: Mode,
    pub(crate) here: &'a [u8],
    opened: Levels<'a>,
}

impl Drop for Cursor<'_> {
    fn drop(self) {
        let Cursor {
            alloc,
            mode,
            here,
            opened,
        } = self;
    }
}

impl<'a> Model for Cursor<'a> {
    ghost use Rattle.rpki_der.specs.Levels.{HasRoom};
    ghost use Rattle.rpki_der.specs.Position.{Position};

    ghost Value = { Position };

    ghost view = { λ c. record { mode = c.mode; here = c.here.now; levels = c.opened } };

    ghost invariant = { λ c. HasRoom c.here.now c.opened };
}

impl<'a> Cursor<'a> {
    /// A cursor before the first value of `octets`, outside of any constructed value. It takes no memory here; later calls take it
    /// from `alloc`.
    pub fn new(alloc: Global, mode: Mode, octets: &'a [u8]) -> Cursor<'a>
        ensures { result ≡ record { mode = mode; here = octets.now; levels = [] } }
    {
        Cursor {
            alloc,
            mode,
            here: octets,
            opened: Levels::new(alloc),
        }
    }

    /// The rules that the octets are read by.
    pub fn mode(&self) -> Mode
        ensures { result ≡ self.now.mode }
    {
        self.mode
    }

    /// Goes behind the header of a constructed value with this tag that stands next, whose octets are all there if its length is
    /// definite; Malformed exactly where none stands. What is inside isn't looked at. It ticks once.
    #[tactic(auto, using(crate::proofs::Cursors::none_opens, crate::proofs::Cursors::none_opens_primitive, crate::proofs::Cursors::none_opens_other))]
    pub fn enter_counted<L: Ledger>(
        &mut self,
        tag: Tag,
        steps: &mut Steps<L>,
    ) -> Result<(), DecodeError>
        ensures place { Enters tag self.old self.new result }
        ensures err { OnErr result (self.new ≡ self.old) }
        ensures ticks { steps.new ≡ steps.old + 1 }
    {
        steps.tick();
        match take_part(self.mode, self.here) {
            Some(
                Part::Constructed {
                    identifier,
                    open,
                    inner,
                },
            ) if tag_is(identifier, tag) => {
                self.opened.push(open)?;
                self.here = inner;
                Ok(())
            }
            _ => Err(DecodeError::Malformed),
        }
    }

    fn enter_within<L: Ledger>(&mut self, tag: Tag, blank: Blank) -> Result<(), DecodeError>
        requires name { blank.name ≡ L.name }
        requires parts { blank.parts ≡ L.parts }
        requires some { 0 < blank.parts }
        ensures place { Enters tag self.old self.new result }
        ensures err { OnErr result (self.new ≡ self.old) }
    {
        let mut steps = Steps::<L>::new(blank);
        self.enter_counted(tag, &mut steps)
    }

    /// Goes behind the header of a constructed value with this tag that stands next, whose octets are all there if its length is
    /// definite; Malformed exactly where none stands. What is inside isn't looked at. Memory is taken only for a value of
    /// definite length.
    pub fn enter(&mut self, tag: Tag) -> Result<(), DecodeError>
        ensures place { Enters tag self.old self.new result }
        ensures err { OnErr result (self.new ≡ self.old) }
    {
        self.enter_within::<Brand>(tag, Blank::new(1))
    }

    /// Goes out of the innermost constructed value, behind it; Malformed exactly where that doesn't end here. The cursor has to be inside
    /// of one. It ticks once where it passes an end mark, and takes no memory.
    pub fn leave_counted<L: Ledger>(&mut self, steps: &mut Steps<L>) -> Result<(), DecodeError>
        requires inside { self.old.levels ≢ [] }
        ensures place { GoesOut self.old self.new result }
        ensures err { OnErr result (self.new ≡ self.old) }
        ensures ticks { OnOk result (steps.new ≡ steps.old + marks (top self.old.levels)) }
        ensures refused { OnErr result (steps.new ≡ steps.old) }
    {
        match self.level_end() {
            Some(rest) => {
                if self.is_marked() {
                    steps.tick();
                }
                self.opened.pop();
                self.here = rest;
                Ok(())
            }
            None => Err(DecodeError::Malformed),
        }
    }

    fn leave_within<L: Ledger>(&mut self, blank: Blank) -> Result<(), DecodeError>
        requires name { blank.name ≡ L.name }
        requires parts { blank.parts ≡ L.parts }
        requires some { 0 < blank.parts }
        requires inside { self.old.levels ≢ [] }
        ensures place { GoesOut self.old self.new result }
        ensures err { OnErr result (self.new ≡ self.old) }
    {
        let mut steps = Steps::<L>::new(blank);
        self.leave_counted(&mut steps)
    }

    /// Goes out of the innermost constructed value, behind it; Malformed exactly where that doesn't end here. The cursor has to be inside
    /// of one. It takes no memory.
    pub fn leave(&mut self) -> Result<(), DecodeError>
        requires inside { self.old.levels ≢ [] }
        ensures place { GoesOut self.old self.new result }
        ensures err { OnErr result (self.new ≡ self.old) }
    {
        self.leave_within::<Brand>(Blank::new(1))
    }

    // Whether 00 00 ends the level.
    fn is_marked(&self) -> bool
        ensures { IsTrue result ↔ (marks (top self.now.levels) ≡ 1) }
    {
        match self.opened.last() {
            Some(Open::Indefinite) => true,
            _ => false,
        }
    }

    /// How many constructed values the cursor is in: 0 before the first `enter`.
    pub fn depth(&self) -> usize
        ensures { result ≡ length self.now.levels }
    {
        self.opened.depth()
    }

    fn level_end(&self) -> Option<&'a [u8]>
        ensures found { IfSome result (λ r. EndsLevel (top self.now.levels) self.now.here r.now) }
        ensures none { IfNone result (AtEnd self.now → ⊥) }
    {
        match self.opened.last() {
            Some(open) => level_end(open, self.here),
            None => {
                if self.here.is_empty() {
                    Some(self.here)
                } else {
                    None
                }
            }
        }
    }

    /// Whether no value is left at this level: it ends here, at its end mark where its length is indefinite.
    pub fn end(&self) -> bool
        ensures { IsTrue result ↔ AtEnd self.now }
    {
        self.level_end().is_some()
    }

    /// The contents octets of the primitive value with this tag that stands next; Malformed exactly where none does. It ticks once.
    #[tactic(auto, using(crate::proofs::Cursors::takes_primitive, crate::proofs::Cursors::none_primitive, crate::proofs::Cursors::none_primitive_other, crate::proofs::Cursors::none_primitive_opens), unfolding(crate::specs::Takes::Refuses))]
    pub fn take_primitive_counted<L: Ledger>(
        &mut self,
        tag: Tag,
        steps: &mut Steps<L>,
    ) -> Result<&'a [u8], DecodeError>
        ensures value { TakesCounted 1 (primitive tag) (λ x. x.now) self.old self.new steps.old
            steps.new result }
        ensures err { OnErr result (self.new ≡ self.old) }
        ensures ticks { steps.new ≡ steps.old + 1 }
    {
        steps.tick();
        match take_part(self.mode, self.here) {
            Some(
                Part::Primitive {
                    identifier,
                    content,
                    rest,
                },
            ) if tag_is(identifier, tag) => {
                self.here = rest;
                Ok(content)
            }
            _ => Err(DecodeError::Malformed),
        }
    }

    fn take_primitive_within<L: Ledger>(
        &mut self,
        tag: Tag,
        blank: Blank,
    ) -> Result<&'a [u8], DecodeError>
        requires name { blank.name ≡ L.name }
        requires parts { blank.parts ≡ L.parts }
        requires some { 0 < blank.parts }
        ensures value { Takes (primitive tag) (λ x. x.now) self.old self.new result }
        ensures err { OnErr result (self.new ≡ self.old) }
    {
        let mut steps = Steps::<L>::new(blank);
        self.take_primitive_counted(tag, &mut steps)
    }

    /// The contents octets of the primitive value with this tag that stands next; Malformed exactly where none does.
    pub fn take_primitive(&mut self, tag: Tag) -> Result<&'a [u8], DecodeError>
        ensures value { Takes (primitive tag) (λ x. x.now) self.old self.new result }
        ensures err { OnErr result (self.new ≡ self.old) }
    {
        self.take_primitive_within::<Brand>(tag, Blank::new(1))
    }

    /// The octets of the value that stands next, of any tag, its header and its end mark among them; Malformed exactly where none
    /// does. It ticks once for each header and each end mark in it.
    #[tactic(auto, using(crate::proofs::Cursors::none_any), unfolding(crate::specs::Takes::Refuses))]
    pub fn capture_counted<L: Ledger>(
        &mut self,
        steps: &mut Steps<L>,
    ) -> Result<&'a [u8], DecodeError>
        ensures value { TakesCounted 1 any (λ x. x.now) self.old self.new steps.old steps.new
            result }
        ensures err { OnErr result (self.new ≡ self.old) }
        ensures ticks { OnOk result ((v : Value) × Begins self.old.mode self.old.here v
            self.new.here × (steps.new ≡ steps.old + counts v)) }
        ensures refused { OnErr result (steps.new ≤ steps.old + length self.old.here + 1) }
        ensures stopped { OnErr result (StopsAt self.old.mode self.old.here steps.old steps.new) }
    {
        let rest = skip_value(self.alloc, self.mode, self.here, steps)?;
        let value = &self.here[..self.here.len() - rest.len()];
        self.here = rest;
        Ok(value)
    }

    fn capture_within<L: Ledger>(&mut self, blank: Blank) -> Result<&'a [u8], DecodeError>
        requires name { blank.name ≡ L.name }
        requires parts { blank.parts ≡ L.parts }
        requires some { 0 < blank.parts }
        ensures value { Takes any (λ x. x.now) self.old self.new result }
        ensures err { OnErr result (self.new ≡ self.old) }
    {
        let mut steps = Steps::<L>::new(blank);
        self.capture_counted(&mut steps)
    }

    /// The octets of the value that stands next, of any tag, its header and its end mark among them; Malformed exactly where none
    /// does.
    pub fn capture(&mut self) -> Result<&'a [u8], DecodeError>
        ensures value { Takes any (λ x. x.now) self.old self.new result }
        ensures err { OnErr result (self.new ≡ self.old) }
    {
        self.capture_within::<Brand>(Blank::new(1))
    }
}
