//! The queries of a case, answered by the calls of a server one by one.

use crate::up::{out_of_memory, push};
use crate::{Case, signer_of};
use rpki_base::{PublicKey, Time};
use rpki_ca::{Lines, hexadecimal_line, messages_in, spelled_octets};
use rpki_publication::{ListElement, PublicationCms};
use rpki_pubserver::Server;
use rpki_signer::{ToySigner, ToyVerifier};
use rpki_text::uri;
use std::alloc::Global;
use std::io;
use test_stored::invalid;

fn base_of(alloc: Global, case: &Case) -> io::Result<uri::Rsync> {
    let Some(base) = case.words.get(1) else {
        return Err(invalid());
    };
    uri::Rsync::from_str(alloc, base).map_err(|_| invalid())
}

fn publisher_of(alloc: Global, case: &Case) -> io::Result<PublicKey> {
    match case.words.key(alloc, 2) {
        Ok(Some(publisher)) => Ok(publisher),
        _ => Err(invalid()),
    }
}

// The server that the words name.
fn server_of(alloc: Global, case: &Case) -> io::Result<Server> {
    let base = base_of(alloc, case)?;
    let publisher = publisher_of(alloc, case)?;
    match Server::new(alloc, base, publisher) {
        Some(server) => Ok(server),
        None => Err(invalid()),
    }
}

// The moment of the replies, which the words name.
fn moment_of(case: &Case) -> io::Result<Time> {
    match case.words.moment(0) {
        Some(when) => Ok(when),
        None => Err(invalid()),
    }
}

// The octets that a line spells.
fn octets_of(alloc: Global, line: &[u8]) -> io::Result<Vec<u8>> {
    match spelled_octets(alloc, line) {
        Ok(Some(octets)) => Ok(octets),
        _ => Err(invalid()),
    }
}

// The line of a reply.
fn line_of(alloc: Global, reply: &PublicationCms) -> io::Result<Vec<u8>> {
    let Ok(octets) = reply.to_bytes(alloc) else {
        return Err(out_of_memory());
    };
    hexadecimal_line(alloc, octets.as_slice()).map_err(|_| out_of_memory())
}

// The line with the reply to a line.
fn reply_to(
    alloc: Global,
    server: &mut Server,
    case: &Case,
    line: &[u8],
    signer: &mut ToySigner,
    key: &u64,
) -> io::Result<Vec<u8>> {
    let when = moment_of(case)?;
    let octets = octets_of(alloc, line)?;
    match server.answer(&octets, when, &ToyVerifier::new(), signer, key) {
        Ok(reply) => line_of(alloc, &reply),
        Err(_) => Err(invalid()),
    }
}

// Whether the server holds this object, with the digest that is listed.
fn holds(alloc: Global, server: &Server, element: &ListElement) -> io::Result<bool> {
    let Some(content) = server.get(element.uri()) else {
        return Ok(false);
    };
    match content.to_hash(alloc) {
        Ok(hash) => Ok(hash == *element.hash()),
        Err(_) => Err(out_of_memory()),
    }
}

fn holds_all(alloc: Global, server: &Server, elements: &[ListElement]) -> io::Result<bool> {
    if elements.len() != server.len() {
        return Ok(false);
    }
    for element in elements {
        if !holds(alloc, server, element)? {
            return Ok(false);
        }
    }
    Ok(true)
}

// Whether the server holds as many objects as it lists, each with the digest that is listed.
fn holds_what_it_lists(alloc: Global, server: &Server) -> io::Result<bool> {
    match server.list_reply(alloc) {
        Ok(list) => holds_all(alloc, server, list.elements()),
        Err(_) => Err(out_of_memory()),
    }
}

// The octets of each line.
fn octets_of_each(alloc: Global, case: &Case) -> io::Result<Vec<Vec<u8>>> {
    let mut each = Vec::new(alloc);
    for line in Lines::new(&case.input) {
        push(&mut each, octets_of(alloc, line)?)?;
    }
    Ok(each)
}

// Whether the messages of all lines are the octets of each, one behind the other.
fn has_same_messages(alloc: Global, case: &Case) -> io::Result<bool> {
    let each = octets_of_each(alloc, case)?;
    match messages_in(alloc, Lines::new(&case.input)) {
        Ok(Some(messages)) => Ok(messages == each),
        Ok(None) => Ok(false),
        Err(_) => Err(out_of_memory()),
    }
}

// Adds the line with the reply to a line; and whether the server holds then what it lists.
fn adds_reply(
    alloc: Global,
    server: &mut Server,
    case: &Case,
    line: &[u8],
    signer: &mut ToySigner,
    key: &u64,
    written: &mut Vec<u8>,
) -> io::Result<bool> {
    let reply = reply_to(alloc, server, case, line, signer, key)?;
    if written.extend_from_slice(&reply).is_err() {
        return Err(out_of_memory());
    }
    holds_what_it_lists(alloc, server)
}

// Whether this server gives the lines that the case expects, and holds behind each what it lists.
fn answers_all(alloc: Global, server: &mut Server, case: &Case) -> io::Result<bool> {
    let (mut signer, key) = signer_of(alloc, &[])?;
    let mut written = Vec::new(alloc);
    for line in Lines::new(&case.input) {
        if !adds_reply(alloc, server, case, line, &mut signer, &key, &mut written)? {
            return Ok(false);
        }
    }
    Ok(written.as_slice() == case.output.as_slice())
}

/// Whether a server that is called for each line gives what the case expects, and holds behind each line
/// what it lists; and the lines have the messages that they have one by one.
pub fn answers_alike(alloc: Global, case: &Case) -> io::Result<bool> {
    if !has_same_messages(alloc, case)? {
        return Ok(false);
    }
    let mut server = server_of(alloc, case)?;
    answers_all(alloc, &mut server, case)
}
