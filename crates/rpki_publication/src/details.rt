//! What stands in the report of an error is read, by the table of specs/ReportError.antt.

ghost use Rattle.std.specs.Prelude.{◌≡◌, Some};
ghost use Rattle.rpki_publication.specs.Details.{details_step};
ghost use Rattle.rpki_publication.specs.ReportError.{error_text_in, failed_pdu_in, is_failed_pdu, details_in};
ghost use Rattle.rpki_xml.specs.Answers.{Gives};

use crate::empty_values::EmptyValues;
use crate::query_pdu::QueryPdu;
use crate::reading::query_pdu_in;
use rpki_common::Text;
use rpki_xml::{Children, ElementRef, XmlError, require};
use std::alloc::Global;
use std::marker::Model;

/// The text of an error, and the element of the query that failed.
#[derive(Drop)]
pub(crate) struct ErrorDetails {
    pub(crate) error_text: Option<Text>,
    pub(crate) failed_pdu: Option<QueryPdu>,
}

impl Model for ErrorDetails {
    ghost use Rattle.rpki_publication.specs.ReportError.{ErrorDetails as Details};

    ghost Value = { Details };

    ghost view = { λ d. record { error_text = d.error_text; failed_pdu = d.failed_pdu } };
}

fn error_text_in(
    alloc: Global,
    empty: &EmptyValues,
    e: &ElementRef<'_>,
) -> Result<Option<Text>, XmlError>
    ensures { Gives (error_text_in e.now) (λ t. t) result }
{
    require(e.is_childless())?;
    Ok(Some(empty.text_of(alloc, e.text())?))
}

fn failed_pdu_in(
    alloc: Global,
    empty: &EmptyValues,
    e: &ElementRef<'_>,
) -> Result<Option<QueryPdu>, XmlError>
    ensures { Gives (failed_pdu_in e.now) (λ pdu. pdu) result }
{
    require(e.is_textless())?;
    match e.children().at_most_one()? {
        None => Ok(None),
        Some(e) => Ok(Some(query_pdu_in(alloc, empty, &e)?)),
    }
}

// What was found once one more element is looked at.
fn with_element(
    alloc: Global,
    empty: &EmptyValues,
    found: ErrorDetails,
    e: &ElementRef<'_>,
) -> Result<ErrorDetails, XmlError>
    ensures { Gives (details_step found e.now) (λ d. d) result }
{
    if e.is_named("error_text") {
        return Ok(ErrorDetails {
            error_text: error_text_in(alloc, empty, e)?,
            failed_pdu: found.failed_pdu,
        });
    }
    require(e.is_named("failed_pdu"))?;
    Ok(ErrorDetails {
        error_text: found.error_text,
        failed_pdu: failed_pdu_in(alloc, empty, e)?,
    })
}

/// What stands in the report of an error.
pub(crate) fn details_in(
    alloc: Global,
    empty: &EmptyValues,
    children: Children<'_>,
) -> Result<ErrorDetails, XmlError>
    ensures { Gives (details_in children.entry) (λ d. d) result }
{
    let mut children = children;
    let mut found = ErrorDetails {
        error_text: None,
        failed_pdu: None,
    };
    'elements: while let Some(e) = children.next() {
        found = with_element(alloc, empty, found, &e)?;
    }
    Ok(found)
}
