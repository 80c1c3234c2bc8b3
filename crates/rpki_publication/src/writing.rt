//! Messages are printed as their texts, by the tables of specs/: the one spelling of an element, in pieces and without memory.

ghost use Rattle.std.specs.Prelude.{◌≡◌, codes};
ghost use Rattle.std.specs.Fmt.{WritesOnOk};
ghost use Rattle.std.specs.Option.{option_map};
ghost use Rattle.hex.specs.Hex.{encode_lower};
ghost use Rattle.rpki_xml.specs.Element.{elements_of};
ghost use Rattle.rpki_xml.specs.Spelling.{spelled, spelled_all, spelled_attribute};
ghost use Rattle.rpki_publication.specs.Change.{publish_element, update_element, withdraw_element, change_element, query_pdu_element};
ghost use Rattle.rpki_publication.specs.ListReply.{list_element};
ghost use Rattle.rpki_publication.specs.Message.{query_elements, reply_elements, text_of};
ghost use Rattle.rpki_publication.specs.ReportError.{report_error_element, failed_pdu_elements};
ghost use Rattle.rpki_publication.specs.Writing.{start_text};
ghost use Rattle.rpki_publication.specs.declared.message.Message.TheVariants as message;

use crate::list_element::ListElement;
use crate::message::Message;
use crate::publish::Publish;
use crate::publish_delta_element::PublishDeltaElement;
use crate::query::Query;
use crate::query_pdu::QueryPdu;
use crate::reply::Reply;
use crate::report_error::ReportError;
use crate::update::Update;
use crate::withdraw::Withdraw;
use rpki_text::Hash;
use rpki_xmltext::{lent, write_attribute, write_base64, write_end, write_inside, write_optional};
use std::fmt;
use std::fmt::Display;

// A digest as the attribute `hash`.
fn write_hash<W: fmt::Write>(f: &mut fmt::Formatter<W>, hash: &Hash) -> fmt::Result
    ensures { WritesOnOk W.write_str_gives f.old result
        (spelled_attribute (codes "hash") (encode_lower hash.now)) f.new }
{
    f.write_str(" hash=\"")?;
    hash.fmt(f)?;
    f.write_str("\"")
}

// ---- elements of a query

fn write_publish<W: fmt::Write>(f: &mut fmt::Formatter<W>, publish: &Publish) -> fmt::Result
    ensures { WritesOnOk W.write_str_gives f.old result
        (spelled (publish_element publish.now)) f.new }
{
    f.write_str("<publish")?;
    write_attribute(f, "tag", publish.tag_text())?;
    write_attribute(f, "uri", publish.uri().as_str())?;
    write_base64(f, "publish", publish.content())
}

fn write_update<W: fmt::Write>(f: &mut fmt::Formatter<W>, update: &Update) -> fmt::Result
    ensures { WritesOnOk W.write_str_gives f.old result
        (spelled (update_element update.now)) f.new }
{
    f.write_str("<publish")?;
    write_attribute(f, "tag", update.tag_text())?;
    write_attribute(f, "uri", update.uri().as_str())?;
    write_hash(f, update.hash())?;
    write_base64(f, "publish", update.content())
}

fn write_withdraw<W: fmt::Write>(f: &mut fmt::Formatter<W>, withdraw: &Withdraw) -> fmt::Result
    ensures { WritesOnOk W.write_str_gives f.old result
        (spelled (withdraw_element withdraw.now)) f.new }
{
    f.write_str("<withdraw")?;
    write_attribute(f, "tag", withdraw.tag_text())?;
    write_attribute(f, "uri", withdraw.uri().as_str())?;
    write_hash(f, withdraw.hash())?;
    f.write_str("/>")
}

fn write_change<W: fmt::Write>(
    f: &mut fmt::Formatter<W>,
    change: &PublishDeltaElement,
) -> fmt::Result
    ensures { WritesOnOk W.write_str_gives f.old result
        (spelled (change_element change.now)) f.new }
{
    match change {
        PublishDeltaElement::Publish(publish) => write_publish(f, publish),
        PublishDeltaElement::Update(update) => write_update(f, update),
        PublishDeltaElement::Withdraw(withdraw) => write_withdraw(f, withdraw),
    }
}

fn write_changes<W: fmt::Write>(
    f: &mut fmt::Formatter<W>,
    changes: &[PublishDeltaElement],
) -> fmt::Result
    ensures { WritesOnOk W.write_str_gives f.old result
        (spelled_all (elements_of change_element changes.now)) f.new }
{
    let mut left = changes;
    'items: while let Some((item, more)) = left.split_first() {
        write_change(f, item)?;
        left = more;
    }
    Ok(())
}

fn write_query_pdu<W: fmt::Write>(f: &mut fmt::Formatter<W>, pdu: &QueryPdu) -> fmt::Result
    ensures { WritesOnOk W.write_str_gives f.old result
        (spelled (query_pdu_element pdu.now)) f.new }
{
    match pdu {
        QueryPdu::List => f.write_str("<list/>"),
        QueryPdu::PublishDeltaElement(change) => write_change(f, change),
    }
}

fn write_query<W: fmt::Write>(f: &mut fmt::Formatter<W>, query: &Query) -> fmt::Result
    ensures { WritesOnOk W.write_str_gives f.old result
        (spelled_all (query_elements query.now)) f.new }
{
    match query {
        Query::List => f.write_str("<list/>"),
        Query::Delta(delta) => write_changes(f, delta.elements()),
    }
}

// ---- elements of a reply

fn write_object<W: fmt::Write>(f: &mut fmt::Formatter<W>, object: &ListElement) -> fmt::Result
    ensures { WritesOnOk W.write_str_gives f.old result
        (spelled (list_element object.now)) f.new }
{
    f.write_str("<list")?;
    write_attribute(f, "uri", object.uri().as_str())?;
    write_hash(f, object.hash())?;
    f.write_str("/>")
}

fn write_objects<W: fmt::Write>(f: &mut fmt::Formatter<W>, objects: &[ListElement]) -> fmt::Result
    ensures { WritesOnOk W.write_str_gives f.old result
        (spelled_all (elements_of list_element objects.now)) f.new }
{
    let mut left = objects;
    'items: while let Some((item, more)) = left.split_first() {
        write_object(f, item)?;
        left = more;
    }
    Ok(())
}

// The element of the query that failed, where it is known.
fn write_failed<W: fmt::Write>(f: &mut fmt::Formatter<W>, pdu: Option<&QueryPdu>) -> fmt::Result
    ensures { WritesOnOk W.write_str_gives f.old result
        (spelled_all (failed_pdu_elements (option_map (λ p. p.now) pdu.entry))) f.new }
{
    match pdu {
        None => Ok(()),
        Some(pdu) => {
            f.write_str("<failed_pdu>")?;
            write_query_pdu(f, pdu)?;
            f.write_str("</failed_pdu>")
        }
    }
}

fn write_error<W: fmt::Write>(f: &mut fmt::Formatter<W>, error: &ReportError) -> fmt::Result
    ensures { WritesOnOk W.write_str_gives f.old result
        (spelled (report_error_element error.now)) f.new }
{
    f.write_str("<report_error")?;
    write_attribute(f, "error_code", error.error_code().as_str())?;
    write_optional(f, "tag", lent(error.tag_text()))?;
    f.write_str("><error_text")?;
    write_inside(f, "error_text", error.shown_text())?;
    write_failed(f, error.failed_pdu())?;
    write_end(f, "report_error")
}

fn write_errors<W: fmt::Write>(f: &mut fmt::Formatter<W>, errors: &[ReportError]) -> fmt::Result
    ensures { WritesOnOk W.write_str_gives f.old result
        (spelled_all (elements_of report_error_element errors.now)) f.new }
{
    let mut left = errors;
    'items: while let Some((item, more)) = left.split_first() {
        write_error(f, item)?;
        left = more;
    }
    Ok(())
}

fn write_reply<W: fmt::Write>(f: &mut fmt::Formatter<W>, reply: &Reply) -> fmt::Result
    ensures { WritesOnOk W.write_str_gives f.old result
        (spelled_all (reply_elements reply.now)) f.new }
{
    match reply {
        Reply::List(list) => write_objects(f, list.elements()),
        Reply::Success => f.write_str("<success/>"),
        Reply::ErrorReply(errors) => write_errors(f, errors.errors()),
    }
}

// ---- messages

// The start of a root of this type.
fn write_start<W: fmt::Write>(f: &mut fmt::Formatter<W>, kind: &str) -> fmt::Result
    ensures { WritesOnOk W.write_str_gives f.old result (start_text kind.now) f.new }
{
    f.write_str("<msg xmlns=\"http://www.hactrn.net/uris/rpki/publication-spec/\" version=\"4\"")?;
    write_attribute(f, "type", kind)
}

fn write_whole_query<W: fmt::Write>(f: &mut fmt::Formatter<W>, query: &Query) -> fmt::Result
    ensures { WritesOnOk W.write_str_gives f.old result (text_of (message.Query query.now)) f.new }
{
    write_start(f, "query")?;
    if query.has_no_element() {
        return f.write_str("/>");
    }
    f.write_str(">")?;
    write_query(f, query)?;
    f.write_str("</msg>")
}

fn write_whole_reply<W: fmt::Write>(f: &mut fmt::Formatter<W>, reply: &Reply) -> fmt::Result
    ensures { WritesOnOk W.write_str_gives f.old result (text_of (message.Reply reply.now)) f.new }
{
    write_start(f, "reply")?;
    if reply.has_no_element() {
        return f.write_str("/>");
    }
    f.write_str(">")?;
    write_reply(f, reply)?;
    f.write_str("</msg>")
}

/// A message.
pub(crate) fn write_message<W: fmt::Write>(
    f: &mut fmt::Formatter<W>,
    message: &Message,
) -> fmt::Result
    ensures { WritesOnOk W.write_str_gives f.old result (text_of message.now) f.new }
{
    match message {
        Message::Query(query) => write_whole_query(f, query),
        Message::Reply(reply) => write_whole_reply(f, reply),
    }
}
