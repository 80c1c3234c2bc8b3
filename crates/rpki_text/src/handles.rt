//! The names of parties.

ghost use Rattle.std.specs.Prelude.{◌≡◌, ◌↔◌, Some, None, IfOk, OnOk, IsErrOf, IsTrue, nat_eq, string_bytes, true};
ghost use Rattle.std.specs.Rc.{rc_str_bytes};
ghost use Rattle.std.specs.Hash as fed;
ghost use Rattle.std.specs.Cmp.Lexicographic.{pointwise, nat_list_eq_equiv};
ghost use Rattle.std.specs.Cmp.{partial_equiv_from_equiv};
ghost use Rattle.std.specs.Cmp.Rules.{hashing};
ghost use Rattle.std.proofs.Common.{rules};
ghost use Rattle.serde_json.specs.Data.{string};
ghost use Rattle.serde_json.specs.Written.{compact_text};
ghost use Rattle.rpki_text.specs.Handle.{is_handle_octet as tells_octet, IsHandle, handle_of_json};
ghost use Rattle.rpki_text.specs.declared.handles.InvalidHandle.TheVariants as variant;
ghost use Rattle.rpki_text.specs.declared.handles.Myself.{Myself};
ghost use Rattle.rpki_text.specs.declared.handles.Parent.{Parent};
ghost use Rattle.rpki_text.specs.declared.handles.Child.{Child};
ghost use Rattle.rpki_text.specs.declared.handles.Publisher.{Publisher};
ghost use Rattle.rpki_text.specs.declared.handles.Repository.{Repository};
ghost use Rattle.rpki_text.specs.declared.handles.Sender.{Sender};
ghost use Rattle.rpki_text.specs.declared.handles.Recipient.{Recipient};

use crate::json::{JsonError, read_string, write_string};
use rpki_common::{OutOfMemory, Text};
use std::alloc::{AllocError, Global};
use std::error::Error;
use std::fmt;
use std::hash::{Hash, Hasher};
use std::marker::{Model, PhantomData};
use std::rc::RcStr;

/// The marker of the party that speaks of itself.
#[derive(Clone, Copy, Debug, PartialEq, Eq, Hash)]
pub struct Myself;

/// The marker of a parent.
#[derive(Clone, Copy, Debug, PartialEq, Eq, Hash)]
pub struct Parent;

/// The marker of a child.
#[derive(Clone, Copy, Debug, PartialEq, Eq, Hash)]
pub struct Child;

/// The marker of a publisher.
#[derive(Clone, Copy, Debug, PartialEq, Eq, Hash)]
pub struct Publisher;

/// The marker of a repository.
#[derive(Clone, Copy, Debug, PartialEq, Eq, Hash)]
pub struct Repository;

/// The marker of the sender of a provisioning message.
#[derive(Clone, Copy, Debug, PartialEq, Eq, Hash)]
pub struct Sender;

/// The marker of the recipient of a provisioning message.
#[derive(Clone, Copy, Debug, PartialEq, Eq, Hash)]
pub struct Recipient;

/// `==` holds exactly between markers that are the same: all of one kind are.
pub fn equal_markers_are_the_same()
    ensures myself { (a b : Myself) → (⟦<Myself as PartialEq>⟧.eq a b ≡ true) ↔ (a ≡ b) }
    ensures parent { (a b : Parent) → (⟦<Parent as PartialEq>⟧.eq a b ≡ true) ↔ (a ≡ b) }
    ensures child { (a b : Child) → (⟦<Child as PartialEq>⟧.eq a b ≡ true) ↔ (a ≡ b) }
    ensures publisher { (a b : Publisher) → (⟦<Publisher as PartialEq>⟧.eq a b ≡ true) ↔ (a ≡ b) }
    ensures repository { (a b : Repository)
        → (⟦<Repository as PartialEq>⟧.eq a b ≡ true) ↔ (a ≡ b) }
    ensures sender { (a b : Sender) → (⟦<Sender as PartialEq>⟧.eq a b ≡ true) ↔ (a ≡ b) }
    ensures recipient { (a b : Recipient) → (⟦<Recipient as PartialEq>⟧.eq a b ≡ true) ↔ (a ≡ b) }
{}

/// The handle of this party.
pub type MyHandle = Handle<Myself>;

/// The handle of this party, which is a certification authority.
pub type CaHandle = Handle<Myself>;

/// The handle of a parent.
pub type ParentHandle = Handle<Parent>;

/// The handle of a child.
pub type ChildHandle = Handle<Child>;

/// The handle of a publisher.
pub type PublisherHandle = Handle<Publisher>;

/// The handle of a repository.
pub type RepositoryHandle = Handle<Repository>;

/// The handle of the sender of a provisioning message.
pub type SenderHandle = Handle<Sender>;

/// The handle of the recipient of a provisioning message.
pub type RecipientHandle = Handle<Recipient>;

/// Why a text is no handle.
#[derive(Clone, Copy, Debug, PartialEq, Eq)]
pub enum InvalidHandle {
    /// The text isn't 1 to 255 letters, digits, `-`, `_` and `/`.
    Pattern,
    /// Memory ran out.
    OutOfMemory,
}

impl fmt::Display for InvalidHandle {
    ghost use Rattle.rpki_text.specs.Shown.{shown_invalid_handle};

    ghost output = { λ e. Some (shown_invalid_handle e) };

    fn fmt<W: fmt::Write>(&self, f: &mut fmt::Formatter<W>) -> fmt::Result {
        match self {
            InvalidHandle::Pattern => {
                f.write_str("Handle MUST have pattern: [-_A-Za-z0-9/]{1,255}")
            }
            InvalidHandle::OutOfMemory => f.write_str("out of memory"),
        }
    }
}

impl Error for InvalidHandle {}

impl From<OutOfMemory> for InvalidHandle {
    ghost from_gives = { λ _ e. e ≡ variant.OutOfMemory };

    fn from(_: OutOfMemory) -> InvalidHandle {
        InvalidHandle::OutOfMemory
    }
}

/// The name of a party. The marker `T` says in which part it is named, and takes no place. In a
/// clause a handle is the list of its octets.
#[derive(Debug)]
pub struct Handle<T> {
    name: Text,
    marker: PhantomData<T>,
}

impl<T> Drop for Handle<T> {
    fn drop(self) {
        let Handle { name, marker: _ } = self;
    }
}

impl<T> Model for Handle<T> {
    ghost use Rattle.std.specs.Prelude.{ℕ, List};

    ghost Value = { List ℕ };

    ghost view = { λ h. h.name };
}

impl<T> Handle<T> {
    /// The handle of any text, which need not have the pattern of a handle. It takes no memory.
    pub fn new(name: RcStr) -> Handle<T>
        ensures { result ≡ rc_str_bytes name }
    {
        Handle {
            name: Text::new(name),
            marker: PhantomData,
        }
    }

    /// The handle that `text` is: 1 to 255 octets, each a letter, a digit, `-`, `_` or `/` (RFC 8183,
    /// appendix A, which has the empty text too). Pattern exactly where it is none, and then no memory is
    /// taken.
    pub fn from_str(alloc: Global, text: &str) -> Result<Handle<T>, InvalidHandle>
        ensures name { IfOk result (λ h. h ≡ text.now) }
        ensures accepted { OnOk result (IsHandle text.now) }
        ensures pattern { IsErrOf result InvalidHandle.Pattern → ¬ (IsHandle text.now) }
        ensures memory { IsErrOf result InvalidHandle.OutOfMemory → IsHandle text.now }
    {
        if !is_handle(text) {
            return Err(InvalidHandle::Pattern);
        }
        Ok(Handle {
            name: Text::from_str(alloc, text)?,
            marker: PhantomData,
        })
    }

    /// The handle that the one string of a JSON text is, read as [`Handle::from_str`] does. Malformed
    /// exactly where the text is no JSON or no string, or where the string is no handle.
    pub fn from_json(alloc: Global, text: &str) -> Result<Handle<T>, JsonError>
        ensures name { IfOk result (λ h. handle_of_json text.now ≡ Some h) }
        ensures malformed { IsErrOf result JsonError.Malformed → handle_of_json text.now ≡ None }
    {
        let name = read_string(alloc, text)?;
        match Handle::from_str(alloc, name.as_str()) {
            Ok(handle) => Ok(handle),
            Err(InvalidHandle::Pattern) => Err(JsonError::Malformed),
            Err(InvalidHandle::OutOfMemory) => Err(JsonError::OutOfMemory),
        }
    }

    /// The handle as a JSON text, which is one string.
    pub fn to_json(&self, alloc: Global) -> Result<String, OutOfMemory>
        ensures text { IfOk result (λ s. string_bytes s ≡ compact_text (string self.now)) }
        ensures again { IfOk result (λ s. IsHandle self.now
            → handle_of_json (string_bytes s) ≡ Some self.now) }
    {
        write_string(alloc, self.as_str())
    }

    /// Whether the text has the pattern of a handle, as [`Handle::from_str`] asks.
    pub fn has_pattern(&self) -> bool
        ensures { IsTrue result ↔ IsHandle self.now }
    {
        is_handle(self.as_str())
    }

    /// The shared text, lent.
    pub fn name(&self) -> &RcStr
        ensures { rc_str_bytes result.now ≡ self.now }
    {
        self.name.as_rc_str()
    }

    /// The shared text, handed out.
    pub fn into_name(self) -> RcStr
        ensures { rc_str_bytes result ≡ self }
    {
        let Handle { name, marker: _ } = self;
        name.into_rc_str()
    }

    /// The text, lent.
    pub fn as_str(&self) -> &str
        ensures { result.now ≡ self.now }
    {
        self.name.as_str()
    }

    /// The octets of the text, lent.
    pub fn as_bytes(&self) -> &[u8]
        ensures { result.now ≡ self.now }
    {
        self.as_str().as_bytes()
    }

    /// This name in another part. The two share the text.
    pub fn convert<Y>(&self) -> Result<Handle<Y>, OutOfMemory>
        ensures { IfOk result (λ h. h ≡ self.now) }
    {
        Ok(Handle {
            name: Text::new(self.name.as_rc_str().clone()?),
            marker: PhantomData,
        })
    }

    /// This name in another part. It takes no memory.
    pub fn into_converted<Y>(self) -> Handle<Y>
        ensures { result ≡ self }
    {
        let Handle { name, marker: _ } = self;
        Handle {
            name,
            marker: PhantomData,
        }
    }

    /// An equal handle that shares the text with this one.
    pub fn clone(&self, alloc: Global) -> Result<Handle<T>, OutOfMemory>
        ensures { IfOk result (λ h. h ≡ self.now) }
    {
        Ok(Handle {
            name: self.name.clone(alloc)?,
            marker: PhantomData,
        })
    }
}

/// Whether an octet may stand in a handle.
fn is_handle_octet(octet: u8) -> bool
    ensures { result ≡ tells_octet octet }
{
    octet.is_ascii_alphanumeric() || octet == b'-' || octet == b'_' || octet == b'/'
}

/// Whether a text has the pattern of a handle.
fn is_handle(text: &str) -> bool
    ensures { IsTrue result ↔ IsHandle text.now }
{
    let octets = text.as_bytes();
    !octets.is_empty() && octets.len() <= 255 && octets.iter().all(|octet| is_handle_octet(*octet))
}

impl<T> PartialEq for Handle<T> {
    ghost eq = { pointwise nat_eq };

    ghost laws = { partial_equiv_from_equiv nat_list_eq_equiv };

    fn eq(&self, other: &Self) -> bool
        ensures value { result ≡ pointwise nat_eq self.now other.now }
        ensures same { IsTrue result ↔ (self.now ≡ other.now) }
    {
        self.as_str() == other.as_str()
    }
}

impl<T> Eq for Handle<T> {
    ghost laws = { nat_list_eq_equiv };
}

impl<T> Hash for Handle<T> {
    ghost hash_input = { fed.str };

    ghost respects_eq = { Prim.search (hashing, rules) };

    fn hash<H: Hasher>(&self, state: &mut H) {
        self.as_str().hash(state);
    }
}

impl<T> fmt::Display for Handle<T> {
    ghost output = { λ h. Some h };

    fn fmt<W: fmt::Write>(&self, f: &mut fmt::Formatter<W>) -> fmt::Result {
        f.write_str(self.as_str())
    }
}
