//! Elements are read as shapes of messages, by the table of specs/Message.antt.

ghost use Rattle.std.specs.Prelude.{◌≡◌, Some};
ghost use Rattle.rpki_provisioning.specs.Class.{class_in};
ghost use Rattle.rpki_provisioning.specs.Message.{payload_in, message_root_in, shape_in};
ghost use Rattle.rpki_xml.specs.Answers.{Gives};
ghost use Rattle.rpki_xml.specs.Tables.{each_of};

use crate::attributes::{handle_in, payload_type_in};
use crate::parts::{class_in, issuance_in, key_in, not_performed_in, request_in};
use crate::shape::{ClassShape, MessageShape, PayloadShape};
use rpki_common::Sequence;
use rpki_text::{RecipientHandle, SenderHandle};
use rpki_updown::{KeyElement, PayloadType, RevocationRequest, RevocationResponse};
use rpki_xml::{Children, ElementRef, XmlError, require};
use std::alloc::Global;
use std::marker::Model;

fn classes_in(alloc: Global, children: Children<'_>) -> Result<Sequence<ClassShape>, XmlError>
    ensures { Gives (each_of class_in children.entry) (λ classes. classes) result }
{
    let mut children = children;
    let mut classes = Vec::new(alloc);
    'elements: while let Some(e) = children.next() {
        let class = class_in(alloc, &e)?;
        classes.push(class)?;
    }
    Ok(Sequence::from_vec(classes))
}

// The key that is to be revoked.
fn revocation_in(alloc: Global, children: Children<'_>) -> Result<PayloadShape, XmlError>
    ensures { Gives (payload_in PayloadType.Revoke children.entry) (λ p. p) result }
{
    let e = children.the_one()?;
    let key = key_in(alloc, &e)?;
    Ok(PayloadShape::Revoke(RevocationRequest::new(key.0, key.1)))
}

// The key that was revoked.
fn revoked_in(alloc: Global, children: Children<'_>) -> Result<PayloadShape, XmlError>
    ensures { Gives (payload_in PayloadType.RevokeResponse children.entry) (λ p. p) result }
{
    let e = children.the_one()?;
    let key = key_in(alloc, &e)?;
    let element = KeyElement::new(key.0, key.1);
    Ok(PayloadShape::RevokeResponse(RevocationResponse::new(element)))
}

fn payload_in(
    alloc: Global,
    kind: PayloadType,
    children: Children<'_>,
) -> Result<PayloadShape, XmlError>
    ensures { Gives (payload_in kind children.entry) (λ p. p) result }
{
    match kind {
        PayloadType::List => {
            children.no_more()?;
            Ok(PayloadShape::List)
        }
        PayloadType::ListResponse => Ok(PayloadShape::ListResponse(classes_in(alloc, children)?)),
        PayloadType::Issue => {
            let e = children.the_one()?;
            Ok(PayloadShape::Issue(request_in(alloc, &e)?))
        }
        PayloadType::IssueResponse => {
            let e = children.the_one()?;
            Ok(PayloadShape::IssueResponse(issuance_in(alloc, &e)?))
        }
        PayloadType::Revoke => revocation_in(alloc, children),
        PayloadType::RevokeResponse => revoked_in(alloc, children),
        PayloadType::ErrorResponse => {
            Ok(PayloadShape::ErrorResponse(not_performed_in(alloc, children)?))
        }
    }
}

// What a root gives.
#[derive(Drop)]
struct Root {
    sender: SenderHandle,
    recipient: RecipientHandle,
    kind: PayloadType,
}

impl Model for Root {
    ghost use Rattle.rpki_provisioning.specs.Shape.{MessageOf};
    ghost use Rattle.rpki_updown.specs.declared.payload_type.PayloadType.{PayloadType as Kind};

    ghost Value = { MessageOf Kind };

    ghost view = { λ r. record { sender = r.sender; recipient = r.recipient; payload = r.kind } };
}

fn root_in(alloc: Global, root: &ElementRef<'_>) -> Result<Root, XmlError>
    ensures { Gives (message_root_in root.now) (λ r. r) result }
{
    require(root.is_named("message"))?;
    require(root.is_textless())?;
    root.only(&["version", "sender", "recipient", "type"])?;
    root.given_or_absent("version", "1")?;
    let sender = handle_in(alloc, root, "sender")?;
    let recipient = handle_in(alloc, root, "recipient")?;
    let kind = payload_type_in(alloc, root)?;
    Ok(Root {
        sender,
        recipient,
        kind,
    })
}

/// The shape that an element is read as.
pub(crate) fn shape_in(alloc: Global, e: &ElementRef<'_>) -> Result<MessageShape, XmlError>
    ensures { Gives (shape_in e.now) (λ s. s) result }
{
    let root = root_in(alloc, e)?;
    let payload = payload_in(alloc, root.kind, e.children())?;
    Ok(MessageShape {
        sender: root.sender,
        recipient: root.recipient,
        payload,
    })
}
