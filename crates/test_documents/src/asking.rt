//! What is asked of an element that is read, step by step.

use crate::texts::{of_part, of_text};
use rpki_common::OutOfMemory;
use rpki_der::DecodeError;
use rpki_xml::{Children, Element, ElementRef, ElementWriter, Mismatch};
use std::alloc::Global;
use std::io;
use test_stored::{Fields, Step, invalid, is_answered, step_of};

/// Where the steps stand: an element, and how many of its children are passed.
#[derive(Drop)]
struct Place<'a> {
    element: ElementRef<'a>,
    passed: usize,
}

type Answer = Result<Fields, DecodeError>;

// A text, as a field; no field where there is none.
fn text_shown(alloc: Global, text: Option<&str>) -> Answer {
    match text {
        Some(text) => Ok(Fields::one(alloc, text.as_bytes())?),
        None => Ok(Fields::new(alloc)),
    }
}

fn asked(alloc: Global, answer: Result<Option<&str>, Mismatch>) -> Answer {
    match answer {
        Ok(text) => text_shown(alloc, text),
        Err(Mismatch) => Err(DecodeError::Malformed),
    }
}

fn required(alloc: Global, answer: Result<&str, Mismatch>) -> Answer {
    match answer {
        Ok(text) => text_shown(alloc, Some(text)),
        Err(Mismatch) => Err(DecodeError::Malformed),
    }
}

fn agreed(alloc: Global, answer: Result<(), Mismatch>) -> Answer {
    match answer {
        Ok(()) => Ok(Fields::done(alloc)?),
        Err(Mismatch) => Err(DecodeError::Malformed),
    }
}

fn truth(alloc: Global, holds: bool) -> Answer {
    Ok(Fields::truth(alloc, holds)?)
}

// The attributes' names and values.
fn attributes(alloc: Global, element: &ElementRef<'_>) -> Answer {
    let mut fields = Fields::new(alloc);
    for attribute in element.attributes() {
        fields.octets(attribute.name.as_bytes())?;
        fields.octets(attribute.value.as_bytes())?;
    }
    Ok(fields)
}

// The attribute's number below 256.
fn number(alloc: Global, element: &ElementRef<'_>, local: &str) -> Answer {
    match element.optional_by(local, |text| text.parse::<u8>().ok()) {
        Ok(Some(number)) => Ok(Fields::number(alloc, u64::from(number))?),
        Ok(None) => Ok(Fields::new(alloc)),
        Err(Mismatch) => Err(DecodeError::Malformed),
    }
}

// Whether all attributes are among those before and behind a `/`.
fn only(alloc: Global, element: &ElementRef<'_>, names: &str) -> Answer {
    match names.split_once('/') {
        Some((one, other)) => agreed(alloc, element.only(&[one, other])),
        None => agreed(alloc, element.only(&[names])),
    }
}

// Whether the attribute before a `/` has the value behind it, or is absent.
fn given(alloc: Global, element: &ElementRef<'_>, asked: &str) -> Answer {
    match asked.split_once('/') {
        Some((name, value)) => agreed(alloc, element.given_or_absent(name, value)),
        None => Err(DecodeError::Malformed),
    }
}

// What is written of an element with the attribute before a `/`, whose value is behind it, and without another.
fn with_attribute(alloc: Global, asked: &str) -> Result<Vec<u8>, OutOfMemory> {
    let (name, value) = asked.split_once('/').unwrap_or((asked, ""));
    let mut writer = ElementWriter::new(alloc);
    writer.element("a")?;
    writer.attr_opt("absent", None)?;
    writer.attr_opt(name, Some(value))?;
    writer.close()?;
    Ok(Vec::from_slice(alloc, writer.done()?.as_slice())?)
}

fn written(alloc: Global, asked: &str) -> Answer {
    match with_attribute(alloc, asked) {
        Ok(octets) => Ok(Fields::one(alloc, &octets)?),
        Err(OutOfMemory) => Err(DecodeError::OutOfMemory),
    }
}

// What is answered of attributes; None where the step is none of these.
fn of_attributes(
    alloc: Global,
    element: &ElementRef<'_>,
    call: &str,
    asked_for: &str,
) -> Option<Answer> {
    match call {
        "attributes" => Some(attributes(alloc, element)),
        "required" => Some(required(alloc, element.required(asked_for))),
        "optional" => Some(asked(alloc, element.optional(asked_for))),
        "number" => Some(number(alloc, element, asked_for)),
        "only" => Some(only(alloc, element, asked_for)),
        "given" => Some(given(alloc, element, asked_for)),
        "with_attribute" => Some(written(alloc, asked_for)),
        _ => None,
    }
}

// What is answered of the element by itself; None where the step is none of these.
fn of_element(
    alloc: Global,
    element: &ElementRef<'_>,
    call: &str,
    asked_for: &str,
) -> Option<Answer> {
    match call {
        "name" => Some(text_shown(alloc, Some(element.name()))),
        "local" => Some(text_shown(alloc, Some(element.local()))),
        "namespace" => Some(text_shown(alloc, element.namespace())),
        "text" => Some(text_shown(alloc, Some(element.text()))),
        "named" => Some(truth(alloc, element.is_named(asked_for))),
        "empty" => Some(truth(alloc, element.is_empty())),
        "childless" => Some(truth(alloc, element.is_childless())),
        "textless" => Some(truth(alloc, element.is_textless())),
        _ => None,
    }
}

// The children that are not passed.
fn left<'a>(place: &Place<'a>) -> Children<'a> {
    let mut children = place.element.children();
    for _ in 0..place.passed {
        children.next();
    }
    children
}

// The texts of the children that are not passed.
fn texts(alloc: Global, place: &Place<'_>) -> Answer {
    let mut fields = Fields::new(alloc);
    for child in left(place) {
        fields.octets(child.text().as_bytes())?;
    }
    Ok(fields)
}

fn the_one(alloc: Global, place: &Place<'_>) -> Answer {
    match left(place).the_one() {
        Ok(child) => text_shown(alloc, Some(child.name())),
        Err(Mismatch) => Err(DecodeError::Malformed),
    }
}

fn at_most_one(alloc: Global, place: &Place<'_>) -> Answer {
    match left(place).at_most_one() {
        Ok(Some(child)) => text_shown(alloc, Some(child.name())),
        Ok(None) => Ok(Fields::new(alloc)),
        Err(Mismatch) => Err(DecodeError::Malformed),
    }
}

// Passes a child: its name.
fn pass(alloc: Global, place: &mut Place<'_>) -> Answer {
    let Some(child) = left(place).next() else {
        return Ok(Fields::new(alloc));
    };
    place.passed = place.passed.saturating_add(1);
    text_shown(alloc, Some(child.name()))
}

// Goes into the child that comes next: its name.
fn enter(alloc: Global, place: &mut Place<'_>) -> Answer {
    let Some(child) = left(place).next() else {
        return Err(DecodeError::Malformed);
    };
    let name = child.name();
    place.element = child;
    place.passed = 0;
    text_shown(alloc, Some(name))
}

// What is answered of the children that are not passed; None where the step is none of these.
fn of_children(
    alloc: Global,
    place: &mut Place<'_>,
    call: &str,
    asked_for: &str,
) -> Option<Answer> {
    match call {
        "texts" => Some(texts(alloc, place)),
        "the_one" => Some(the_one(alloc, place)),
        "at_most_one" => Some(at_most_one(alloc, place)),
        "no_more" => Some(agreed(alloc, left(place).no_more())),
        "none_left" => Some(truth(alloc, left(place).is_empty())),
        "first_named" => Some(truth(alloc, left(place).is_first_named(asked_for))),
        "pass" => Some(pass(alloc, place)),
        "enter" => Some(enter(alloc, place)),
        _ => None,
    }
}

// What a step answers; None where there is none of its name.
fn answer(alloc: Global, place: &mut Place<'_>, step: &Step<'_>) -> Option<Answer> {
    let asked_for = std::str::from_utf8(&step.argument).ok()?;
    if let Some(answer) = of_element(alloc, &place.element, step.call, asked_for) {
        return Some(answer);
    }
    if let Some(answer) = of_attributes(alloc, &place.element, step.call, asked_for) {
        return Some(answer);
    }
    if let Some(answer) = of_text(alloc, &place.element, step.call, asked_for) {
        return Some(answer);
    }
    if let Some(answer) = of_part(alloc, step.call, asked_for) {
        return Some(answer);
    }
    of_children(alloc, place, step.call, asked_for)
}

// Appends the names of the attributes and of the children of the document's element.
fn append_names(fields: &mut Fields, element: &Element<'_>) -> Result<(), DecodeError> {
    for attribute in element.attributes() {
        fields.octets(attribute.name.as_bytes())?;
    }
    for child in element.children() {
        fields.octets(child.name().as_bytes())?;
    }
    Ok(())
}

// What the document's element shows by its own calls: names, namespace, text, and these names.
fn root(alloc: Global, element: &Element<'_>) -> Answer {
    let mut fields = Fields::one(alloc, element.name().as_bytes())?;
    fields.octets(element.local().as_bytes())?;
    fields.octets(element.namespace().unwrap_or("none").as_bytes())?;
    fields.octets(element.text().as_bytes())?;
    append_names(&mut fields, element)?;
    Ok(fields)
}

// Whether a step is answered as expected.
fn is_met(
    alloc: Global,
    element: &Element<'_>,
    place: &mut Place<'_>,
    step: &Step<'_>,
) -> io::Result<bool> {
    if step.call == "root" {
        return is_answered(alloc, root(alloc, element), step.answer);
    }
    match answer(alloc, place, step) {
        Some(answer) => is_answered(alloc, answer, step.answer),
        None => Err(invalid()),
    }
}

/// Whether the steps of a line are answered as expected, from the element on.
pub fn are_met(alloc: Global, element: &Element<'_>, steps: &str) -> io::Result<bool> {
    let mut place = Place {
        element: element.as_ref(),
        passed: 0,
    };
    for word in steps.split_whitespace() {
        let step = step_of(alloc, word)?;
        if !is_met(alloc, element, &mut place, &step)? {
            return Ok(false);
        }
    }
    Ok(true)
}
