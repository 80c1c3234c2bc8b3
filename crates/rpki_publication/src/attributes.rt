//! The attributes of the elements inside a message are read, by the tables of specs/Pdu.antt.

ghost use Rattle.std.specs.Prelude.{◌≡◌, codes};
ghost use Rattle.rpki_xmltext.specs.UriText.{uri_of_text};
ghost use Rattle.rpki_publication.specs.Pdu.{query_attributes_in, reply_attributes_in};
ghost use Rattle.rpki_publication.specs.ReportErrorCode.{code_of_text};
ghost use Rattle.rpki_text.specs.Hash.{digest_of_text};
ghost use Rattle.rpki_text.specs.Uri.{rsync};
ghost use Rattle.rpki_xml.specs.Answers.{Gives, Matches};
ghost use Rattle.rpki_xml.specs.Tables.{optional, optional_by};

use crate::empty_values::EmptyValues;
use crate::report_error_code::{ReportErrorCode, code_of};
use rpki_common::Text;
use rpki_text::{Hash, uri};
use rpki_xml::{ElementRef, Mismatch, XmlError};
use rpki_xmltext::uri_of;
use std::alloc::Global;
use std::marker::Model;

/// The attributes of an element in a query.
#[derive(Drop)]
pub(crate) struct QueryAttributes {
    pub(crate) tag: Option<Text>,
    pub(crate) uri: Option<uri::Rsync>,
    pub(crate) hash: Option<Hash>,
}

impl Model for QueryAttributes {
    ghost use Rattle.rpki_publication.specs.Pdu.{QueryAttributes as Attributes};

    ghost Value = { Attributes };

    ghost view = { λ a. record { tag = a.tag; uri = a.uri; hash = a.hash } };
}

/// The attributes of an element in a reply.
#[derive(Drop)]
pub(crate) struct ReplyAttributes {
    pub(crate) hash: Option<Hash>,
    pub(crate) uri: Option<uri::Rsync>,
    pub(crate) tag: Option<Text>,
    pub(crate) error_code: Option<ReportErrorCode>,
}

impl Model for ReplyAttributes {
    ghost use Rattle.rpki_publication.specs.Pdu.{ReplyAttributes as Attributes};

    ghost Value = { Attributes };

    ghost view = { λ a. record {
      hash = a.hash;
      uri = a.uri;
      tag = a.tag;
      error_code = a.error_code;
    } };
}

// The tag of an element, where it has one.
fn tag_in(alloc: Global, empty: &EmptyValues, e: &ElementRef<'_>) -> Result<Option<Text>, XmlError>
    ensures { Gives (optional (codes "tag") e.now.head) (λ tag. tag) result }
{
    match e.optional("tag")? {
        None => Ok(None),
        Some(tag) => Ok(Some(empty.text_of(alloc, tag)?)),
    }
}

// The rsync URI of an element, where it has one.
fn uri_in(alloc: Global, e: &ElementRef<'_>) -> Result<Option<uri::Rsync>, XmlError>
    ensures { Gives (optional_by (uri_of_text rsync) (codes "uri") e.now.head) (λ u. u) result }
{
    match e.optional("uri")? {
        None => Ok(None),
        Some(text) => Ok(Some(uri_of(alloc, text)?)),
    }
}

// The digest of an element, where it has one.
fn hash_in(e: &ElementRef<'_>) -> Result<Option<Hash>, Mismatch>
    ensures { Matches (optional_by digest_of_text (codes "hash") e.now.head) (λ h. h) result }
{
    let Some(text) = e.optional("hash")? else {
        return Ok(None);
    };
    match Hash::from_str(text) {
        None => Err(Mismatch),
        Some(hash) => Ok(Some(hash)),
    }
}

// The code of an element, where it has one.
fn code_in(e: &ElementRef<'_>) -> Result<Option<ReportErrorCode>, Mismatch>
    ensures { Matches (optional_by code_of_text (codes "error_code") e.now.head) (λ c. c) result }
{
    let Some(text) = e.optional("error_code")? else {
        return Ok(None);
    };
    match code_of(text) {
        None => Err(Mismatch),
        Some(code) => Ok(Some(code)),
    }
}

/// The attributes of an element in a query.
pub(crate) fn query_attributes_in(
    alloc: Global,
    empty: &EmptyValues,
    e: &ElementRef<'_>,
) -> Result<QueryAttributes, XmlError>
    ensures { Gives (query_attributes_in e.now.head) (λ a. a) result }
{
    e.only(&["tag", "uri", "hash"])?;
    let tag = tag_in(alloc, empty, e)?;
    let uri = uri_in(alloc, e)?;
    let hash = hash_in(e)?;
    Ok(QueryAttributes { tag, uri, hash })
}

/// The attributes of an element in a reply.
pub(crate) fn reply_attributes_in(
    alloc: Global,
    empty: &EmptyValues,
    e: &ElementRef<'_>,
) -> Result<ReplyAttributes, XmlError>
    ensures { Gives (reply_attributes_in e.now.head) (λ a. a) result }
{
    e.only(&["hash", "uri", "tag", "error_code"])?;
    let hash = hash_in(e)?;
    let uri = uri_in(alloc, e)?;
    let tag = tag_in(alloc, empty, e)?;
    let error_code = code_in(e)?;
    Ok(ReplyAttributes {
        hash,
        uri,
        tag,
        error_code,
    })
}
