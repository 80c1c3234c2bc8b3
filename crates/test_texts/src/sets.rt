//! The calls over sets of AS numbers and of IP addresses, and what they answer.

use crate::calls::{Answer, counted, given, out_of_memory, refused, told};
use rpki_common::OutOfMemory;
use rpki_sets::{
    AsBlocks, AsNumbers, Blocks, BlocksError, Ipv4Addresses, Ipv4Blocks, Ipv6Addresses, Ipv6Blocks,
    Numbers, ResourceSet,
};
use std::alloc::Global;
use std::io;

fn blocks_refused(error: BlocksError) -> io::Result<Answer> {
    match error {
        BlocksError::Malformed => refused("Malformed"),
        BlocksError::OutOfMemory => out_of_memory(),
    }
}

// What a copy of the set prints.
fn printed<N: Numbers>(alloc: Global, set: &Blocks<N>) -> io::Result<Answer> {
    match set.clone(alloc) {
        Ok(copy) => given(alloc, copy.to_string(alloc)?.as_str().as_bytes()),
        Err(OutOfMemory) => out_of_memory(),
    }
}

// What is told of two sets.
fn of_sets<N: Numbers>(
    alloc: Global,
    call: &str,
    first: &Blocks<N>,
    second: &Blocks<N>,
) -> io::Result<Answer> {
    match call {
        "" => printed(alloc, first),
        "same" => told(alloc, *first == *second),
        "contains" => told(alloc, first.contains(second)),
        "in_none" => told(alloc, Blocks::<N>::empty(alloc).contains(first)),
        "runs" => counted(alloc, first.runs().len()),
        _ => Ok(Answer::Unknown),
    }
}

// What is told of the two sets that texts stand for.
fn of_texts<N: Numbers>(
    alloc: Global,
    call: &str,
    first: &str,
    second: &str,
) -> io::Result<Answer> {
    match (
        Blocks::<N>::from_str(alloc, first),
        Blocks::<N>::from_str(alloc, second),
    ) {
        (Ok(first), Ok(second)) => of_sets(alloc, call, &first, &second),
        (Err(error), _) | (_, Err(error)) => blocks_refused(error),
    }
}

// The three sets of a text `ASN;IPV4;IPV6`.
fn resources(alloc: Global, text: &str) -> Result<ResourceSet, BlocksError> {
    let mut texts = text.split(';');
    let (Some(asn), Some(ipv4), Some(ipv6)) = (texts.next(), texts.next(), texts.next()) else {
        return Err(BlocksError::Malformed);
    };
    Ok(ResourceSet::new(
        AsBlocks::from_str(alloc, asn)?,
        Ipv4Blocks::from_str(alloc, ipv4)?,
        Ipv6Blocks::from_str(alloc, ipv6)?,
    ))
}

// Three empty sets, each changed to that of `set`.
fn changed(alloc: Global, set: &ResourceSet) -> Result<ResourceSet, BlocksError> {
    let mut made = ResourceSet::default(alloc);
    made.set_asn(set.asn().clone(alloc)?);
    made.set_ipv4(set.ipv4().clone(alloc)?);
    made.set_ipv6(set.ipv6().clone(alloc)?);
    Ok(made)
}

fn resources_printed(alloc: Global, set: Result<ResourceSet, BlocksError>) -> io::Result<Answer> {
    match set {
        Ok(set) => given(alloc, set.to_string(alloc)?.as_str().as_bytes()),
        Err(error) => blocks_refused(error),
    }
}

fn resources_changed(alloc: Global, text: &str) -> Result<ResourceSet, BlocksError> {
    changed(alloc, &resources(alloc, text)?)
}

// Whether the sets of two texts are equal, of which the first is copied.
fn are_same(alloc: Global, first: &str, second: &str) -> Result<bool, BlocksError> {
    let first = resources(alloc, first)?.clone(alloc)?;
    Ok(first == resources_changed(alloc, second)?)
}

fn resources_same(alloc: Global, first: &str, second: &str) -> io::Result<Answer> {
    match are_same(alloc, first, second) {
        Ok(holds) => told(alloc, holds),
        Err(error) => blocks_refused(error),
    }
}

fn of_resources(alloc: Global, call: &str, first: &str, second: &str) -> io::Result<Answer> {
    match call {
        "" => resources_printed(alloc, resources(alloc, first)),
        "changed" => resources_printed(alloc, resources_changed(alloc, first)),
        "default" => resources_printed(alloc, Ok(ResourceSet::default(alloc))),
        "same" => resources_same(alloc, first, second),
        _ => Ok(Answer::Unknown),
    }
}

/// What a call answers to one or two texts.
pub fn answer_to(alloc: Global, call: &str, first: &str, second: &str) -> io::Result<Answer> {
    let (kind, call) = call.split_once('_').unwrap_or((call, ""));
    match kind {
        "as" => of_texts::<AsNumbers>(alloc, call, first, second),
        "ipv4" => of_texts::<Ipv4Addresses>(alloc, call, first, second),
        "ipv6" => of_texts::<Ipv6Addresses>(alloc, call, first, second),
        "resources" => of_resources(alloc, call, first, second),
        _ => Ok(Answer::Unknown),
    }
}
