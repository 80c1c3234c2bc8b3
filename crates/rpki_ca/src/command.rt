//! What the words of a command line ask for.

ghost use Rattle.std.specs.Prelude.{◌≡◌, ◌≤◌, ◌+◌, Decides, IfOk, IfSome, IsNone, List, Some, drop, length};
ghost use Rattle.rpki_common.specs.Limits.{most_keys};
ghost use Rattle.rpki_base.specs.PublicKey.{KeyFields};
ghost use Rattle.rpki_ca.specs.declared.command.Verb.TheVariants as verbs;
ghost use Rattle.rpki_ca.specs.Command.{IsCommand, IsNoCommand, AreKeys, Ask, AskInVain};
ghost use Rattle.rpki_ca.specs.Command.{kind_of, kind_at, setup_kind_of, setup_kind_at};
ghost use Rattle.rpki_ca.specs.Command.{verb_of, verb_in};

use crate::receiving::Kind;
use crate::setup_message::SetupKind;
use crate::words::Words;
use rpki_base::{PublicKey, Time};
use rpki_common::{OutOfMemory, Sequence};
use std::alloc::Global;

// The most keys under which a message is received.
const MOST_KEYS: usize = 8;

// The most elements that `make` makes.
const MOST_ELEMENTS: u32 = 10_000;

/// What the words of a command line ask for.
#[derive(Debug, Drop)]
pub enum Command {
    /// The content of a signed message.
    Content,
    /// The message of this kind that a signed message is, under an issuer's key and at the moment.
    Receive {
        /// The protocol.
        kind: Kind,
        /// The moment at which it is validated.
        when: Time,
        /// The keys, one to eight, under one of which its certificate has to be issued.
        keys: Sequence<PublicKey>,
    },
    /// A signed message with the message of this kind that the input is, made at the moment.
    Create {
        /// The protocol.
        kind: Kind,
        /// The moment at which it is signed.
        when: Time,
    },
    /// The setup message that the input is, whose certificate is accepted as a trust anchor's
    /// certificate at the moment.
    Setup {
        /// Which of the four.
        kind: SetupKind,
        /// The moment at which its certificate is validated.
        when: Time,
    },
    /// A signed message that is made of two numbers and received, in a summary.
    Make {
        /// How many elements it has, at most 10000.
        count: u32,
        /// What the octets of its objects are made of.
        seed: u32,
    },
}

// What the first word says to do.
#[derive(Clone, Copy)]
enum Verb {
    Content,
    Receive,
    Create,
    Setup,
    Make,
}

fn verb_of(word: &str) -> Option<Verb>
    ensures { result ≡ verb_of word.now }
{
    match word {
        "content" => Some(Verb::Content),
        "receive" => Some(Verb::Receive),
        "create" => Some(Verb::Create),
        "setup" => Some(Verb::Setup),
        "make" => Some(Verb::Make),
        _ => None,
    }
}

fn kind_of(word: &str) -> Option<Kind>
    ensures { result ≡ kind_of word.now }
{
    match word {
        "publication" => Some(Kind::Publication),
        "provisioning" => Some(Kind::Provisioning),
        _ => None,
    }
}

fn setup_kind_of(word: &str) -> Option<SetupKind>
    ensures { result ≡ setup_kind_of word.now }
{
    match word {
        "child_request" => Some(SetupKind::ChildRequest),
        "parent_response" => Some(SetupKind::ParentResponse),
        "publisher_request" => Some(SetupKind::PublisherRequest),
        "repository_response" => Some(SetupKind::RepositoryResponse),
        _ => None,
    }
}

impl Words {
    /// The command that the words are; None exactly where they are none.
    pub fn command(&self, alloc: Global) -> Result<Option<Command>, OutOfMemory>
        ensures command { IfOk result (λ c. IfSome c (IsCommand self.now)) }
        ensures none { IfOk result (λ c. IsNone c → IsNoCommand self.now) }
    {
        match self.verb() {
            None => Ok(None),
            Some(Verb::Content) => Ok(self.content()),
            Some(Verb::Receive) => self.receive(alloc),
            Some(Verb::Create) => Ok(self.create()),
            Some(Verb::Setup) => Ok(self.setup()),
            Some(Verb::Make) => Ok(self.make()),
        }
    }

    // What the first word says to do.
    fn verb(&self) -> Option<Verb>
        ensures { result ≡ verb_in self.now }
    {
        match self.get(0) {
            Some(word) => verb_of(word),
            None => None,
        }
    }

    /// The protocol that the word at `index` names, `publication` or `provisioning`. None exactly where
    /// no such word is there.
    pub fn kind(&self, index: usize) -> Option<Kind>
        ensures { result ≡ kind_at self.now index }
    {
        match self.get(index) {
            Some(word) => kind_of(word),
            None => None,
        }
    }

    /// The setup message that the word at `index` names, such as `child_request`. None exactly where no
    /// such word is there.
    pub fn setup_kind(&self, index: usize) -> Option<SetupKind>
        ensures { result ≡ setup_kind_at self.now index }
    {
        match self.get(index) {
            Some(word) => setup_kind_of(word),
            None => None,
        }
    }

    // The command `content`, if there is no other word.
    fn content(&self) -> Option<Command>
        requires { verb_in self.now ≡ Some verbs.Content }
        ensures command { IfSome result (Ask verbs.Content self.now) }
        ensures none { IsNone result → AskInVain verbs.Content self.now }
    {
        if self.len() == 1 {
            Some(Command::Content)
        } else {
            None
        }
    }

    // Whether one to eight words stand behind the first three.
    fn has_few_keys(&self) -> bool
        ensures { Decides result ((4 ≤ length self.now) × (length self.now ≤ 3 + most_keys)) }
    {
        self.len() >= 4 && self.len() <= 3 + MOST_KEYS
    }

    /// The public keys that the words from `index` on spell, each as [`Words::key`] has it. None exactly
    /// where one of them spells none.
    pub fn keys_from(
        &self,
        alloc: Global,
        index: usize,
    ) -> Result<Option<Vec<PublicKey>>, OutOfMemory>
        ensures some { IfOk result (λ o.
            IfSome o (λ keys. AreKeys (drop index self.now) keys.items)) }
        ensures none { IfOk result (λ o. IsNone o →
            (keys : List KeyFields) → AreKeys (drop index self.now) keys → ⊥) }
    {
        let mut keys = Vec::new(alloc);
        for place in index..self.len() {
            match self.key(alloc, place)? {
                Some(key) => keys.push(key)?,
                None => return Ok(None),
            }
        }
        Ok(Some(keys))
    }

    // The command `receive`, if the words behind the first are of its form.
    fn receive(&self, alloc: Global) -> Result<Option<Command>, OutOfMemory>
        requires { verb_in self.now ≡ Some verbs.Receive }
        ensures command { IfOk result (λ c. IfSome c (Ask verbs.Receive self.now)) }
        ensures none { IfOk result (λ c. IsNone c → AskInVain verbs.Receive self.now) }
    {
        if !self.has_few_keys() {
            return Ok(None);
        }
        let Some(kind) = self.kind(1) else {
            return Ok(None);
        };
        let Some(when) = self.moment(2) else {
            return Ok(None);
        };
        match self.keys_from(alloc, 3)? {
            Some(keys) => Ok(Some(Command::Receive {
                kind,
                when,
                keys: Sequence::from_vec(keys),
            })),
            None => Ok(None),
        }
    }

    // The command `create`, if the two words behind the first are of its form.
    fn create(&self) -> Option<Command>
        requires { verb_in self.now ≡ Some verbs.Create }
        ensures command { IfSome result (Ask verbs.Create self.now) }
        ensures none { IsNone result → AskInVain verbs.Create self.now }
    {
        if self.len() != 3 {
            return None;
        }
        let Some(kind) = self.kind(1) else {
            return None;
        };
        match self.moment(2) {
            Some(when) => Some(Command::Create { kind, when }),
            None => None,
        }
    }

    // The command `setup`, if the two words behind the first are of its form.
    fn setup(&self) -> Option<Command>
        requires { verb_in self.now ≡ Some verbs.Setup }
        ensures command { IfSome result (Ask verbs.Setup self.now) }
        ensures none { IsNone result → AskInVain verbs.Setup self.now }
    {
        if self.len() != 3 {
            return None;
        }
        let Some(kind) = self.setup_kind(1) else {
            return None;
        };
        match self.moment(2) {
            Some(when) => Some(Command::Setup { kind, when }),
            None => None,
        }
    }

    // The command `make`, if the two words behind the first are of its form.
    fn make(&self) -> Option<Command>
        requires { verb_in self.now ≡ Some verbs.Make }
        ensures command { IfSome result (Ask verbs.Make self.now) }
        ensures none { IsNone result → AskInVain verbs.Make self.now }
    {
        if self.len() != 3 {
            return None;
        }
        let Some(count) = self.number(1, MOST_ELEMENTS) else {
            return None;
        };
        match self.number(2, u32::MAX) {
            Some(seed) => Some(Command::Make { count, seed }),
            None => None,
        }
    }
}
