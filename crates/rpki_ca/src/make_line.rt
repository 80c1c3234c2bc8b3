//! The command `make`.

ghost use Rattle.std.specs.Prelude.{count_by, ◌≡◌, ◌≢◌, ◌≤◌, ◌++◌, ◌∷◌, [], None, Ok, Err, OnOk, IfOk, IfErr};
ghost use Rattle.std.specs.Fmt.{decimal};
ghost use Rattle.sha2.specs.Sha256.{sha256};
ghost use Rattle.rpki_common.specs.Limits.{most_elements};
ghost use Rattle.rpki_signer.specs.Limits.{Keeps};
ghost use Rattle.rpki_text.specs.Uri.{rsync, fault_of};
ghost use Rattle.rpki_ca.specs.Acceptance.{IsWritable};
ghost use Rattle.rpki_ca.specs.Answer.{IsLineOf};
ghost use Rattle.rpki_ca.specs.Creation.{refusal_of_key};
ghost use Rattle.rpki_ca.specs.Seen.{seen_signer};
ghost use Rattle.rpki_ca.specs.Summary.{object_at, uri_at, publish_at, update_at, withdraw_at, change_at};
ghost use Rattle.rpki_ca.specs.Summary.{made_message, made_at, changes_in, does, numbers, summary, IsMakeAnswer};

use crate::create_line::signed_octets;
use crate::receiving::{Kind, Received, receive};
use crate::refusals::Refusal;
use itoa::Buffer;
use rpki_base::{Scheme, Time, Verifier};
use rpki_common::OutOfMemory;
use rpki_publication::{
    Message, Publish, PublishDelta, PublishDeltaElement, Query, Update, Withdraw,
};
use rpki_signer::{KeyError, Signer};
use rpki_text::{Base64, Hash, uri};
use std::alloc::Global;

// The moment at which the message is made, and at which it is received.
fn made_at() -> Time
    ensures { result ≡ made_at }
{
    Time::new(1_700_000_000).unwrap()
}

// The octets of the object at a place.
fn object_at(alloc: Global, seed: u32, place: u32) -> Result<Vec<u8>, OutOfMemory>
    ensures { IfOk result (λ octets. octets.items ≡ object_at seed place) }
{
    let mut octets = u64::from(seed).to_be_bytes().to_vec(alloc)?;
    octets.extend_from_slice(&u64::from(place).to_be_bytes())?;
    Ok(octets)
}

// Where it is published. The text is a lawful URI.
fn uri_at(alloc: Global, place: u32) -> Result<uri::Rsync, OutOfMemory>
    ensures uri { IfOk result (λ u. u ≡ uri_at place) }
    ensures lawful { IfOk result (λ u. fault_of rsync u ≡ None) }
{
    let text = format!(in alloc; "rsync://localhost/ca/f{place}.txt")?;
    match uri::Rsync::from_str(alloc, text.as_str()) {
        Ok(uri) => Ok(uri),
        Err(uri::Error::OutOfMemory) => Err(OutOfMemory),
        Err(_) => unreachable!(),
    }
}

// The digest of the object that the one at a place replaces.
fn old_hash_at(alloc: Global, seed: u32, place: u32) -> Result<Hash, OutOfMemory>
    ensures { IfOk result (λ h. h ≡ sha256 (object_at seed place ++ 0 ∷ [])) }
{
    let mut octets = object_at(alloc, seed, place)?;
    octets.push(0)?;
    Ok(Hash::from_data(&octets))
}

// The three kinds of changes.
fn publish_at(alloc: Global, seed: u32, place: u32) -> Result<Publish, OutOfMemory>
    ensures publish { IfOk result (λ p. p ≡ publish_at seed place) }
    ensures lawful { OnOk result (fault_of rsync (uri_at place) ≡ None) }
{
    let uri = uri_at(alloc, place)?;
    let content = Base64::from_content(alloc, &object_at(alloc, seed, place)?)?;
    Publish::with_hash_tag(alloc, uri, content)
}

fn update_at(alloc: Global, seed: u32, place: u32) -> Result<Update, OutOfMemory>
    ensures update { IfOk result (λ u. u ≡ update_at seed place) }
    ensures lawful { OnOk result (fault_of rsync (uri_at place) ≡ None) }
{
    let uri = uri_at(alloc, place)?;
    let content = Base64::from_content(alloc, &object_at(alloc, seed, place)?)?;
    Update::with_hash_tag(alloc, uri, content, old_hash_at(alloc, seed, place)?)
}

fn withdraw_at(alloc: Global, seed: u32, place: u32) -> Result<Withdraw, OutOfMemory>
    ensures withdraw { IfOk result (λ w. w ≡ withdraw_at seed place) }
    ensures lawful { OnOk result (fault_of rsync (uri_at place) ≡ None) }
{
    let uri = uri_at(alloc, place)?;
    let octets = object_at(alloc, seed, place)?;
    Withdraw::with_hash_tag(alloc, uri, Hash::from_data(&octets))
}

// Where a change wasn't added, memory is wanting.
fn added<T: Drop>(answer: Result<(), T>) -> Result<(), OutOfMemory>
    ensures { OnOk result (answer ≡ Ok tt) }
{
    match answer {
        Ok(()) => Ok(()),
        Err(_) => Err(OutOfMemory),
    }
}

// Adds the change at a place.
fn add_change(
    alloc: Global,
    delta: &mut PublishDelta,
    seed: u32,
    place: u32,
) -> Result<(), OutOfMemory>
    ensures ok { OnOk result (delta.new ≡ delta.old ++ change_at seed place ∷ []) }
    ensures lawful { OnOk result (fault_of rsync (uri_at place) ≡ None) }
{
    match place % 3 {
        0 => added(delta.add_publish(publish_at(alloc, seed, place)?)),
        1 => added(delta.add_update(update_at(alloc, seed, place)?)),
        _ => added(delta.add_withdraw(withdraw_at(alloc, seed, place)?)),
    }
}

// The query with so many changes.
fn made_message(alloc: Global, count: u32, seed: u32) -> Result<Received, OutOfMemory>
    ensures message { IfOk result (λ m. m ≡ made_message seed count) }
    ensures writable { IfOk result IsWritable }
{
    let mut delta = PublishDelta::empty(alloc);
    for place in 0..count {
        add_change(alloc, &mut delta, seed, place)?;
    }
    Ok(Received::Publication(Message::delta(delta)))
}

// The changes of a query; none of another message.
fn changes_in(message: &Received) -> &[PublishDeltaElement]
    ensures { result.now ≡ changes_in message.now }
{
    match message {
        Received::Publication(Message::Query(Query::Delta(delta))) => delta.elements(),
        _ => &[],
    }
}

// What a change does.
#[derive(Clone, Copy)]
enum Action {
    Publish,
    Update,
    Withdraw,
}

// Whether a change does this.
fn does(action: Action, change: &PublishDeltaElement) -> bool
    ensures { result ≡ does action change.now }
{
    match (action, change) {
        (Action::Publish, PublishDeltaElement::Publish(_)) => true,
        (Action::Update, PublishDeltaElement::Update(_)) => true,
        (Action::Withdraw, PublishDeltaElement::Withdraw(_)) => true,
        _ => false,
    }
}

// How many of the changes do this.
fn number(action: Action, changes: &[PublishDeltaElement]) -> usize
    ensures { result ≡ count_by (does action) changes.now }
{
    let mut number = 0;
    for change in changes {
        if does(action, change) {
            number += 1;
        }
    }
    number
}

// Appends a name and a number.
fn append_number(line: &mut Vec<u8>, name: &str, number: usize) -> Result<(), OutOfMemory>
    ensures { OnOk result (line.new.items ≡ line.old.items ++ name.now ++ decimal number) }
{
    line.extend_from_slice(name.as_bytes())?;
    line.extend_from_slice(Buffer::new().format(number).as_bytes())?;
    Ok(())
}

// The numbers of a summary.
fn numbers_line(alloc: Global, changes: &[PublishDeltaElement]) -> Result<Vec<u8>, OutOfMemory>
    ensures { IfOk result (λ line. line.items ≡ numbers changes.now) }
{
    let mut line = Vec::new(alloc);
    append_number(&mut line, "elements ", changes.len())?;
    append_number(&mut line, " publish ", number(Action::Publish, changes))?;
    append_number(&mut line, " update ", number(Action::Update, changes))?;
    append_number(&mut line, " withdraw ", number(Action::Withdraw, changes))?;
    Ok(line)
}

// The summary of these changes and the octets of a signed message, and a line feed.
fn summary_line(
    alloc: Global,
    changes: &[PublishDeltaElement],
    octets: &[u8],
) -> Result<Vec<u8>, OutOfMemory>
    ensures { IfOk result (λ line. line.items ≡ summary changes.now octets.now ++ 10 ∷ []) }
{
    let mut line = numbers_line(alloc, changes)?;
    line.extend_from_slice(b" envelope ")?;
    let digest = Hash::from_data(octets);
    line.extend_from_slice(hex::encode(alloc, digest.as_slice())?.as_bytes())?;
    line.push(b'\n')?;
    Ok(line)
}

impl<E: Drop> From<KeyError<E>> for Refusal {
    ghost from_gives = { λ error e. e ≡ refusal_of_key error };

    fn from(error: KeyError<E>) -> Refusal {
        match error {
            KeyError::KeyNotFound => Refusal::KeyNotFound,
            KeyError::Signer(_) => Refusal::Signer,
            KeyError::OutOfMemory => Refusal::OutOfMemory,
        }
    }
}

/// The summary of a signed message that is made of so many changes and received under the issuing
/// key, and a line feed.
pub(crate) fn make_line<P: Scheme, V: Verifier<P>, S: Signer<P>>(
    alloc: Global,
    count: u32,
    seed: u32,
    verifier: &V,
    key: &S::KeyId,
    signer: &mut S,
) -> Result<Vec<u8>, Refusal>
    requires { count ≤ most_elements }
    ensures ok { IfOk result (λ line. IsLineOf (IsMakeAnswer P.checks count seed
        (seen_signer key.now (S.state signer.old) (S.state signer.new))) line.items) }
    ensures err { IfErr result (λ e. e ≢ Refusal.OutOfMemory
        → IsMakeAnswer P.checks count seed
        (seen_signer key.now (S.state signer.old) (S.state signer.new)) (Err e)) }
    ensures keeps { Keeps (S.state signer.old) (S.state signer.new) }
{
    let message = made_message(alloc, count, seed)?;
    let octets = signed_octets(alloc, message, made_at(), key, signer)?;
    let issuing = signer.get_key_info(alloc, key)?;
    let received = receive(
        alloc,
        Kind::Publication,
        octets.as_slice(),
        &issuing,
        made_at(),
        verifier,
    )?;
    Ok(summary_line(alloc, changes_in(&received), octets.as_slice())?)
}
