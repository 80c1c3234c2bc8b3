//! Lines: an input cut into them, a line cut into words, and how a program ends that answers line by
//! line.

ghost use Rattle.std.specs.Prelude.{◌≡◌, ◌==◌, ◌<◌, ◌∷◌, [], IfErr, IfOk, IfSome, IsNone, None, OnOk, Some, length, position};
ghost use Rattle.std.specs.Result.{result_ok};
ghost use Rattle.hex.specs.Hex.{decode_of};
ghost use Rattle.rpki_ca.specs.Lines.{EndsStopped, lines_of, pieces_of, words_of};
ghost use Rattle.rpki_ca.specs.Seen.{seen};
ghost use Rattle.rpki_ca.specs.Words.{key_of_word};
ghost use Rattle.rpki_ca.specs.declared.refusals.Refusal.TheVariants as refusals;
ghost use Rattle.rpki_ca.specs.declared.lines.Stop.TheVariants as stops;

use crate::hexadecimal::octets_of;
use crate::refusals::Refusal;
use crate::running::{Status, refuse};
use rpki_base::PublicKey;
use rpki_common::OutOfMemory;
use rpki_der::{DecodeError, Mode};
use rpki_text::{Failed, Sink};
use std::alloc::Global;
use std::marker::Model;

/// The lines of an input, or those that are left of them. In a clause it is the list of their octets.
///
/// The input is cut at each line feed, octet 10. A last piece that is empty is no line, so the last
/// line may lack its line feed.
#[derive(Debug, Drop)]
pub struct Lines<'a> {
    rest: &'a [u8],
}

impl<'a> Model for Lines<'a> {
    ghost use Rattle.std.specs.Prelude.{List, ℕ};
    ghost use Rattle.rpki_ca.specs.Lines.{lines_of};

    ghost Value = { List (List ℕ) };

    ghost view = { λ lines. lines_of lines.rest.now };
}

impl<'a> Lines<'a> {
    /// The lines of the input.
    pub fn new(input: &'a [u8]) -> Lines<'a>
        ensures { result ≡ lines_of input.now }
    {
        Lines { rest: input }
    }
}

impl<'a> Iterator for Lines<'a> {
    ghost use Rattle.std.specs.Iterator.{YieldsFirstRef, item_count};

    type Item = &'a [u8];

    ghost next_gives = { YieldsFirstRef (λ lines. lines) };

    ghost remaining = { item_count (λ lines. lines) };

    fn next(&mut self) -> Option<&'a [u8]> {
        if self.rest.is_empty() {
            return None;
        }
        match split_at_first(self.rest, b'\n') {
            Some((line, behind)) => {
                self.rest = behind;
                Some(line)
            }
            None => {
                let line = self.rest;
                self.rest = &[];
                Some(line)
            }
        }
    }
}

/// The first word of a line, and the line behind the space that follows it; None exactly where there
/// is no space, and the line is one word. Words may be empty.
pub fn split_word(line: &[u8]) -> Option<(&[u8], &[u8])>
    ensures some { IfSome result (λ parts. words_of line.now ≡ parts.0.now ∷ words_of parts.1.now) }
    ensures none { IsNone result → words_of line.now ≡ line.now ∷ [] }
{
    split_at_first(line, b' ')
}

/// The octets that a word spells, two hexadecimal digits of either case an octet. None exactly where it
/// is no even number of digits.
pub fn spelled_octets(alloc: Global, word: &[u8]) -> Result<Option<Vec<u8>>, OutOfMemory>
    ensures some { IfOk result (λ o.
        IfSome o (λ v. result_ok (decode_of word.now) ≡ Some v.items)) }
    ensures none { IfOk result (λ o. IsNone o → result_ok (decode_of word.now) ≡ None) }
{
    octets_of(alloc, word)
}

/// The public key whose DER a word spells, two hexadecimal digits of either case an octet. None exactly
/// where the word spells no octets so, or its octets are no key, or one with something behind it.
pub fn spelled_key(alloc: Global, word: &[u8]) -> Result<Option<PublicKey>, OutOfMemory>
    ensures { IfOk result (λ key. key ≡ key_of_word word.now) }
{
    let Some(octets) = spelled_octets(alloc, word)? else {
        return Ok(None);
    };
    match PublicKey::take(alloc, Mode::Der, &octets) {
        Ok(key) => Ok(Some(key)),
        Err(DecodeError::Malformed) => Ok(None),
        Err(DecodeError::OutOfMemory) => Err(OutOfMemory),
    }
}

// The octets before the first separator, and those behind it.
fn split_at_first(octets: &[u8], separator: u8) -> Option<(&[u8], &[u8])>
    ensures some { IfSome result (λ parts.
        pieces_of separator octets.now ≡ parts.0.now ∷ pieces_of separator parts.1.now) }
    ensures none { IsNone result → pieces_of separator octets.now ≡ octets.now ∷ [] }
{
    match place_of(octets, separator) {
        Some(end) => Some((&octets[..end], &octets[end + 1..])),
        None => None,
    }
}

// Where the first separator stands.
fn place_of(octets: &[u8], separator: u8) -> Option<usize>
    ensures place { result ≡ position (λ octet. octet == separator) octets.now }
    ensures within { IfSome result (λ place. place < length octets.now) }
{
    octets.iter().position(|octet| *octet == separator)
}

/// Why a program that answers line by line stops before the last line is answered.
#[derive(Clone, Copy, Debug, PartialEq, Eq)]
pub enum Stop {
    /// The program refuses to go on. The refusal's line is still to be written.
    Refused(Refusal),
    /// The output failed, so nothing more is written.
    WriteFault,
}

impl From<Refusal> for Stop {
    ghost from_gives = { λ refusal stop. stop ≡ stops.Refused refusal };

    fn from(refusal: Refusal) -> Stop {
        Stop::Refused(refusal)
    }
}

impl From<OutOfMemory> for Stop {
    ghost from_gives = { λ _ stop. stop ≡ stops.Refused refusals.OutOfMemory };

    fn from(_: OutOfMemory) -> Stop {
        Stop::Refused(Refusal::OutOfMemory)
    }
}

impl From<Failed> for Stop {
    ghost from_gives = { λ _ stop. stop ≡ stops.WriteFault };

    fn from(_: Failed) -> Stop {
        Stop::WriteFault
    }
}

/// Ends a program that answered line by line, and gives the exit status: 0 where every line was
/// answered; that of the refusal, whose line is written, or 11 where that write failed; and 11 where
/// an earlier one did. It takes no memory.
pub fn finish_lines<O: Sink>(output: &mut O, answered: Result<(), Stop>) -> Status
    ensures done { OnOk answered ((result.0 ≡ 0) × (output.new ≡ output.old)) }
    ensures stopped { IfErr answered (λ stop.
        EndsStopped stop result.0 (seen O.written O.faults output.old output.new)) }
{
    match answered {
        Ok(()) => Status(0),
        Err(Stop::Refused(refusal)) => refuse(output, refusal),
        Err(Stop::WriteFault) => Status(11),
    }
}
