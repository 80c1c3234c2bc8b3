//! The calls of shared texts, of sequences, and of handles that are converted.

use crate::calls::{Answer, given, out_of_memory, refused, told};
use rpki_common::{OutOfMemory, Sequence, Text};
use rpki_text::{ChildHandle, ParentHandle, SenderHandle};
use std::alloc::Global;
use std::io;
use std::rc::RcStr;

// What a copy of the text prints, whose shared text is handed out and taken back, and says the same.
fn text(alloc: Global, text: &str) -> io::Result<Answer> {
    let Ok(copy) = Text::new(RcStr::from_str(alloc, text)?).clone(alloc) else {
        return out_of_memory();
    };
    if copy.as_str() != text || copy.as_rc_str().as_str() != text {
        return refused("Differ");
    }
    let again = Text::new(copy.into_rc_str());
    given(alloc, again.to_string(alloc)?.as_str().as_bytes())
}

// Whether two texts are equal, or the first comes before the second.
fn texts(alloc: Global, call: &str, first: &str, second: &str) -> io::Result<Answer> {
    let (Ok(first), Ok(second)) = (Text::from_str(alloc, first), Text::from_str(alloc, second))
    else {
        return out_of_memory();
    };
    match call {
        "text_same" => told(alloc, first == second),
        _ => told(alloc, first < second),
    }
}

fn pushed(alloc: Global, octets: &[u8]) -> Result<Sequence<u8>, OutOfMemory> {
    let mut held = Sequence::new(alloc);
    for octet in octets {
        held.push(*octet)?;
    }
    Ok(held)
}

// What a sequence holds to which the octets were added in turn; the second are those of one that is made at once.
fn sequence(alloc: Global, call: &str, first: &[u8], second: &[u8]) -> io::Result<Answer> {
    let Ok(held) = pushed(alloc, first) else {
        return out_of_memory();
    };
    match call {
        "sequence_same" => {
            let made = Sequence::from_vec(second.to_vec(alloc)?);
            told(alloc, held == made)
        }
        "sequence_empty" => told(alloc, held.is_empty()),
        _ if held.len() != held.as_slice().len() => refused("Differ"),
        _ => Ok(Answer::Given(held.into_vec())),
    }
}

// The name of a handle that is converted, which has to be this.
fn into_name(alloc: Global, sender: SenderHandle, name: &[u8]) -> io::Result<Answer> {
    let parent: ParentHandle = sender.into_converted();
    if parent.name().as_str().as_bytes() != name {
        return refused("Differ");
    }
    given(alloc, parent.into_name().as_str().as_bytes())
}

// The name of a handle that is converted twice.
fn converted(alloc: Global, text: &str) -> io::Result<Answer> {
    let child: ChildHandle = ChildHandle::new(RcStr::from_str(alloc, text)?);
    let Ok(sender) = child.convert() else {
        return out_of_memory();
    };
    let sender: SenderHandle = sender;
    let octets = sender.as_bytes().to_vec(alloc)?;
    into_name(alloc, sender, &octets)
}

/// What a call answers to one or two texts.
pub fn answer_to(alloc: Global, call: &str, first: &str, second: &str) -> io::Result<Answer> {
    match call {
        "text" => text(alloc, first),
        "text_same" | "text_less" => texts(alloc, call, first, second),
        "sequence" | "sequence_same" | "sequence_empty" => {
            sequence(alloc, call, first.as_bytes(), second.as_bytes())
        }
        "handle_converted" => converted(alloc, first),
        _ => Ok(Answer::Unknown),
    }
}
