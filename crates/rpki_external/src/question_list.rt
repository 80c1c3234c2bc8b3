//! Questions, their text and their octets.

ghost use Rattle.std.specs.Prelude.{◌≡◌, ◌++◌, IfOk, OnOk, map};
ghost use Rattle.std.specs.Option.{option_copied};
ghost use Rattle.rpki_external.specs.Question as spec;
ghost use Rattle.rpki_external.specs.Records.{AreWritable, digest_of, questions_octets};
ghost use Rattle.rpki_external.specs.Spelling.{questions_text};

use crate::question::{Question, SignedPart};
use crate::question_text::question_text;
use crate::records::question_records;
use rpki_base::PublicKey;
use rpki_common::{OutOfMemory, Sequence};
use rpki_text::Hash;
use std::alloc::Global;
use std::marker::Model;

/// What is asked of a scheme: one question under a key that stands in what is verified, if there is such a one; and parts, each of
/// which is asked under each of the keys that were handed in. So each key, octets and signature are there once.
///
/// In a clause it is the record of the three.
#[derive(Drop)]
pub struct Questions {
    own: Option<Question>,
    parts: Sequence<SignedPart>,
    keys: Sequence<PublicKey>,
}

impl Model for Questions {
    ghost use Rattle.rpki_external.specs.Question.{QuestionsFields};

    ghost Value = { QuestionsFields };

    ghost view = { λ q. record {
      own = q.own;
      parts = q.parts;
      keys = q.keys;
    } };
}

// Appends the question of each part under a key.
fn push_under(
    alloc: Global,
    parts: &[SignedPart],
    key: &PublicKey,
    list: &mut Vec<Question>,
) -> Result<(), OutOfMemory>
    ensures { OnOk result
        (list.new.items ≡ list.old.items ++ map (spec.under key.now) parts.now) }
{
    for part in parts {
        list.push(part.under(alloc, key)?)?;
    }
    Ok(())
}

// Appends the questions of the parts under each key.
fn push_each(
    alloc: Global,
    parts: &[SignedPart],
    keys: &[PublicKey],
    list: &mut Vec<Question>,
) -> Result<(), OutOfMemory>
    ensures { OnOk result
        (list.new.items ≡ list.old.items ++ spec.under_each parts.now keys.now) }
{
    for key in keys {
        push_under(alloc, parts, key, list)?;
    }
    Ok(())
}

impl Questions {
    /// These questions. It takes no memory.
    pub(crate) fn new(
        own: Option<Question>,
        parts: Vec<SignedPart>,
        keys: Vec<PublicKey>,
    ) -> Questions
        ensures { result ≡ record { own = own; parts = parts.items; keys = keys.items } }
    {
        Questions {
            own,
            parts: Sequence::from_vec(parts),
            keys: Sequence::from_vec(keys),
        }
    }

    /// The question under a key that stands in what is verified.
    pub fn own(&self) -> Option<&Question>
        ensures { option_copied result ≡ self.now.own }
    {
        self.own.as_ref()
    }

    /// The parts that are asked under each of the keys.
    pub fn parts(&self) -> &[SignedPart]
        ensures { result.now ≡ self.now.parts }
    {
        self.parts.as_slice()
    }

    /// The keys that were handed in.
    pub fn keys(&self) -> &[PublicKey]
        ensures { result.now ≡ self.now.keys }
    {
        self.keys.as_slice()
    }

    // The question of its own, if there is one.
    fn own_list(&self, alloc: Global) -> Result<Vec<Question>, OutOfMemory>
        ensures { IfOk result (λ list. list.items ≡ spec.own_question self.now.own) }
    {
        let mut list = Vec::new(alloc);
        if let Some(question) = &self.own {
            list.push(question.clone(alloc)?)?;
        }
        Ok(list)
    }

    /// The questions one by one, in their order: that under its own key first, and then each part under one key after the other.
    /// Answers are in this order.
    pub fn list(&self, alloc: Global) -> Result<Vec<Question>, OutOfMemory>
        ensures { IfOk result (λ list. list.items ≡ spec.listed self.now) }
    {
        let mut list = self.own_list(alloc)?;
        push_each(alloc, self.parts(), self.keys(), &mut list)?;
        Ok(list)
    }

    /// The text of the questions. A line ends with a line feed; its words, between which one space stands, are a name and octets in
    /// hexadecimal digits of lower case.
    ///
    /// First the question under its own key, if there is one: its part's name, the key in DER, the octets and the signature. Then each
    /// part: its name, a hyphen, the octets and the signature. Then each key: the word `key`, and the key in DER.
    pub fn to_text(&self, alloc: Global) -> Result<Vec<u8>, OutOfMemory>
        ensures { IfOk result (λ text. text.items ≡ questions_text self.now) }
    {
        question_text(alloc, self)
    }

    /// The octets of the questions: records, one behind the other. A record is a tag octet, the number of octets behind it, in eight octets
    /// with the most significant first, and these.
    ///
    /// First the question under its own key, if there is one: 17, the key in DER; the tag of its part ([`crate::tag_of`]), the octets; and 16, the
    /// signature. Then each part: its tag, the octets; and 16, the signature. Then each key: 18, the key in DER.
    pub fn to_octets(&self, alloc: Global) -> Result<Vec<u8>, OutOfMemory>
        ensures octets { IfOk result (λ octets. octets.items ≡ questions_octets self.now) }
        ensures writable { OnOk result (AreWritable self.now) }
    {
        question_records(alloc, self)
    }

    /// The SHA-256 of the octets, to which answers are bound.
    pub fn digest(&self, alloc: Global) -> Result<Hash, OutOfMemory>
        ensures digest { IfOk result (λ digest. digest ≡ digest_of self.now) }
        ensures writable { OnOk result (AreWritable self.now) }
    {
        let octets = self.to_octets(alloc)?;
        Ok(Hash::from_data(&octets))
    }
}
