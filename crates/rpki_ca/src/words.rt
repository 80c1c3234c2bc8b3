//! The words of a command line.

ghost use Rattle.std.specs.Prelude.{◌≡◌, ◌++◌, ◌∷◌, [], ◌↔◌, ◌<◌, ℕ, ℤ, length, OnOk, OnErr, IfOk, IfSome, IsSome, IsNone, IsTrue, slice_get, Some, None};
ghost use Rattle.rpki_base.specs.PublicKey.{KeyFields};
ghost use Rattle.rpki_ca.specs.Words.{SpellsMoment, IsMomentAt, IsNumber, IsNumberAt, key_at};

use crate::lines::spelled_key;
use itoa::Buffer;
use rpki_base::{PublicKey, Time};
use rpki_common::OutOfMemory;
use std::alloc::Global;
use std::marker::Model;

/// The words of a command line, behind the program's name. In a clause it is the list of their
/// octets.
#[derive(Drop)]
pub struct Words {
    alloc: Global,
    words: Vec<String>,
}

impl Model for Words {
    ghost use Rattle.std.specs.Prelude.{List, ℕ, map, string_bytes};

    ghost Value = { List (List ℕ) };

    ghost view = { λ w. map string_bytes w.words.items };
}

impl Words {
    /// No words, which take no memory. Later growth takes it from `alloc`.
    pub fn new(alloc: Global) -> Words
        ensures { result ≡ [] }
    {
        Words {
            alloc,
            words: Vec::new(alloc),
        }
    }

    /// Adds a word behind the others. After a refusal the words are as before.
    pub fn push(&mut self, word: &str) -> Result<(), OutOfMemory>
        ensures ok { OnOk result (self.new ≡ self.old ++ word.now ∷ []) }
        ensures err { OnErr result (self.new ≡ self.old) }
    {
        let text = String::from_str(self.alloc, word)?;
        self.words.push(text)?;
        Ok(())
    }

    /// How many words there are.
    pub fn len(&self) -> usize
        ensures { result ≡ length self.now }
    {
        self.words.len()
    }

    /// Whether there is no word.
    pub fn is_empty(&self) -> bool
        ensures { IsTrue result ↔ (self.now ≡ []) }
    {
        self.words.is_empty()
    }

    /// The word at `index`, from 0; None exactly where `index` isn't below `len`.
    pub fn get(&self, index: usize) -> Option<&str>
        ensures some { IsSome result ↔ (index < length self.now) }
        ensures value { IfSome result (λ w. slice_get self.now index ≡ Some w.now) }
    {
        if index < self.words.len() {
            Some(self.words[index].as_str())
        } else {
            None
        }
    }
}

/// # Words of a form
impl Words {
    /// The moment that the word at `index` names by its seconds since 1970, in decimal digits
    /// without a leading zero, up to 253402300799, where the year 9999 ends. None exactly where no
    /// such word is there.
    pub fn moment(&self, index: usize) -> Option<Time>
        ensures some { IfSome result (λ when. IsMomentAt self.now index when) }
        ensures none { IsNone result → (when : ℤ) → IsMomentAt self.now index when → ⊥ }
    {
        moment_of(self.get(index)?)
    }

    /// The number that the word at `index` names in decimal digits without a leading zero, where it
    /// is at most `most`. None exactly where no such word is there.
    pub fn number(&self, index: usize, most: u32) -> Option<u32>
        ensures some { IfSome result (λ n. IsNumberAt self.now index most n) }
        ensures none { IsNone result → (n : ℕ) → IsNumberAt self.now index most n → ⊥ }
    {
        number_of(self.get(index)?, most)
    }

    /// The public key whose DER the word at `index` spells, two hexadecimal digits of either case
    /// an octet. None exactly where no such word is there: an even number of digits, whose octets
    /// are one key with nothing behind it.
    pub fn key(&self, alloc: Global, index: usize) -> Result<Option<PublicKey>, OutOfMemory>
        ensures { IfOk result (λ key. key ≡ key_at self.now index) }
    {
        match self.get(index) {
            Some(word) => spelled_key(alloc, word.as_bytes()),
            None => Ok(None),
        }
    }
}

// The moment that a word names.
fn moment_of(word: &str) -> Option<Time>
    ensures some { IfSome result (λ when. SpellsMoment word.now when) }
    ensures none { IsNone result → (when : ℤ) → SpellsMoment word.now when → ⊥ }
{
    let Ok(seconds) = word.parse::<i64>() else {
        return None;
    };
    if seconds < 0 {
        return None;
    }
    if Buffer::new().format(seconds) != word {
        return None;
    }
    Time::new(seconds)
}

// The number that a word names, where it is at most this.
fn number_of(word: &str, most: u32) -> Option<u32>
    ensures some { IfSome result (λ n. IsNumber word.now most n) }
    ensures none { IsNone result → (n : ℕ) → IsNumber word.now most n → ⊥ }
{
    let Ok(number) = word.parse::<u32>() else {
        return None;
    };
    if Buffer::new().format(number) != word {
        return None;
    }
    if number > most {
        return None;
    }
    Some(number)
}
