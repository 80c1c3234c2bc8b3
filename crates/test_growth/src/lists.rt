//! The three lists: what is added, and stays outside where memory is refused.

use crate::delta::{publish, three, update, withdraw};
use crate::ended::{Ended, added, given_back};
use rpki_common::OutOfMemory;
use rpki_publication::{
    ErrorReply, ListElement, ListReply, Publish, PublishDelta, ReportError, ReportErrorCode,
    Update, Withdraw,
};
use rpki_text::{Hash, uri};
use std::alloc::Global;

// How often each list grows.
const ROUNDS: u64 = 6;

// ---- changes

// One and its copy, so that what comes back can be compared.
fn two<T: Drop>(one: T, copy: Result<T, OutOfMemory>) -> Result<(T, T), Ended> {
    match copy {
        Ok(copy) => Ok((one, copy)),
        Err(_) => Err(Ended::OutOfMemory),
    }
}

fn two_publishes(alloc: Global) -> Result<(Publish, Publish), Ended> {
    let publish = publish(alloc)?;
    let copy = publish.clone(alloc);
    two(publish, copy)
}

fn two_updates(alloc: Global) -> Result<(Update, Update), Ended> {
    let update = update(alloc)?;
    let copy = update.clone(alloc);
    two(update, copy)
}

fn two_withdraws(alloc: Global) -> Result<(Withdraw, Withdraw), Ended> {
    let withdraw = withdraw(alloc)?;
    let copy = withdraw.clone(alloc);
    two(withdraw, copy)
}

fn add_publish(alloc: Global, delta: &mut PublishDelta) -> Result<(), Ended> {
    let before = delta.clone(alloc)?;
    let (publish, copy) = two_publishes(alloc)?;
    added(delta.add_publish(publish), copy, delta, before)
}

fn add_update(alloc: Global, delta: &mut PublishDelta) -> Result<(), Ended> {
    let before = delta.clone(alloc)?;
    let (update, copy) = two_updates(alloc)?;
    added(delta.add_update(update), copy, delta, before)
}

fn add_withdraw(alloc: Global, delta: &mut PublishDelta) -> Result<(), Ended> {
    let before = delta.clone(alloc)?;
    let (withdraw, copy) = two_withdraws(alloc)?;
    added(delta.add_withdraw(withdraw), copy, delta, before)
}

fn add_each(alloc: Global, delta: &mut PublishDelta) -> Result<(), Ended> {
    add_publish(alloc, delta)?;
    add_update(alloc, delta)?;
    add_withdraw(alloc, delta)
}

fn copies(
    alloc: Global,
    first: &PublishDelta,
    second: &PublishDelta,
) -> Result<(PublishDelta, PublishDelta), Ended> {
    let first = first.clone(alloc)?;
    let second = second.clone(alloc)?;
    Ok((first, second))
}

// Both, one behind the other.
fn joined(alloc: Global, first: PublishDelta) -> Result<PublishDelta, Ended> {
    let second = three(alloc)?;
    let copies = copies(alloc, &first, &second)?;
    given_back(first.add(second), copies)
}

/// Fills changes by each call that adds.
pub fn changed(alloc: Global) -> Result<(), Ended> {
    let mut delta = PublishDelta::empty(alloc);
    for _ in 0..ROUNDS {
        add_each(alloc, &mut delta)?;
    }
    if joined(alloc, delta)?.len() == 21 {
        return Ok(());
    }
    Err(Ended::Wrong)
}

// ---- objects

fn element(alloc: Global) -> Result<ListElement, Ended> {
    let uri = uri::Rsync::from_str(alloc, "rsync://localhost/ca/f.txt")?;
    Ok(ListElement::new(uri, Hash::from_data(b"a")))
}

fn two_elements(alloc: Global) -> Result<(ListElement, ListElement), Ended> {
    let element = element(alloc)?;
    let copy = element.clone(alloc);
    two(element, copy)
}

fn add_element(alloc: Global, list: &mut ListReply) -> Result<(), Ended> {
    let before = list.clone(alloc)?;
    let (element, copy) = two_elements(alloc)?;
    added(list.add_element(element), copy, list, before)
}

fn withdrawn(alloc: Global, list: ListReply) -> Result<PublishDelta, Ended> {
    let copy = list.clone(alloc)?;
    given_back(list.into_withdraw_delta(alloc), copy)
}

/// Fills a list of objects, and makes of it the changes that withdraw them.
pub fn listed(alloc: Global) -> Result<(), Ended> {
    let mut list = ListReply::empty(alloc);
    for _ in 0..ROUNDS {
        add_element(alloc, &mut list)?;
    }
    if withdrawn(alloc, list)?.len() == 6 {
        return Ok(());
    }
    Err(Ended::Wrong)
}

// ---- errors

fn report(alloc: Global) -> Result<ReportError, Ended> {
    Ok(ReportError::with_code(alloc, ReportErrorCode::PermissionFailure)?)
}

fn two_reports(alloc: Global) -> Result<(ReportError, ReportError), Ended> {
    let error = report(alloc)?;
    let copy = error.clone(alloc);
    two(error, copy)
}

fn reply_of_one(alloc: Global) -> Result<ErrorReply, Ended> {
    let (error, copy) = two_reports(alloc)?;
    given_back(ErrorReply::for_error(alloc, error), copy)
}

fn add_error(alloc: Global, reply: &mut ErrorReply) -> Result<(), Ended> {
    let before = reply.clone(alloc)?;
    let (error, copy) = two_reports(alloc)?;
    added(reply.add_error(error), copy, reply, before)
}

/// Fills a reply with errors.
pub fn reported(alloc: Global) -> Result<(), Ended> {
    let mut reply = reply_of_one(alloc)?;
    for _ in 0..ROUNDS {
        add_error(alloc, &mut reply)?;
    }
    if reply.errors().len() == 7 {
        return Ok(());
    }
    Err(Ended::Wrong)
}
