//! A parent.

ghost use Rattle.std.specs.Prelude.{◌≡◌, ◌≢◌, ◌↔◌, ◌<◌, ◌∷◌, [], length, map, slice_get, IfErr, IfOk, IfSome, IsErrOf, IsSome, IsTrue, OnErr, OnOk, Some};
ghost use Rattle.rpki_signer.specs.Limits.{Keeps};
ghost use Rattle.rpki_sigmsg.specs.declared.create_error.CreateError.TheVariants as create;
ghost use Rattle.rpki_provisioning.specs.Writable.{IsWritable, IsWritableKey, IsWritableRequest};
ghost use Rattle.rpki_provisioning.specs.declared.payload.Payload.{Payload as Said};
ghost use Rattle.rpki_provisioning.specs.declared.payload.Payload.TheVariants as payloads;
ghost use Rattle.rpki_ca.specs.Acceptance.{Accepted, RefusesReceipt};
ghost use Rattle.rpki_ca.specs.Seen.{seen_signer};
ghost use Rattle.rpki_ca.specs.Sending.{FailsToSign};
ghost use Rattle.rpki_ca.specs.declared.receiving.Kind.TheVariants as kinds;
ghost use Rattle.rpki_ca.specs.declared.receiving.Received.TheVariants as received;
ghost use Rattle.rpki_ca.specs.declared.receiving.ReceiveError.TheVariants as receipt;
ghost use Rattle.rpki_upserver.specs.Answering.{IsRequestAnswered, AreOctetsRefused, IsSignedResponse, SendsNothing, refused, reply, with_issuer};
ghost use Rattle.rpki_upserver.specs.Decision.{CanBeSaid, IsDecidedBy, IsFirstReason, IsPayloadOf};
ghost use Rattle.rpki_upserver.specs.Response.{IsFromChild, IsPayloadAnswer, IsResponse};
ghost use Rattle.rpki_upserver.specs.Table.{AreWritable, ClassState, IsParent, entitled, new_parent};
ghost use Rattle.rpki_upserver.specs.declared.parent.AnswerError.TheVariants as answers;

use crate::class::Class;
use crate::decision::{Decision, Reason};
use crate::issuer::{Issuer, IssuerError};
use crate::limits::limited;
use crate::signing::signed;
use crate::table::{are_distinct, are_writable, is_used, place_named};
use crate::writable::is_handle;
use rpki_base::{PublicKey, Scheme, Time, Verifier};
use rpki_ca::{Kind, ReceiveError, Received, receive};
use rpki_common::OutOfMemory;
use rpki_provisioning::{Message, Payload, ProvisioningCms, read_is_writable};
use rpki_sigmsg::CreateError;
use rpki_signer::Signer;
use rpki_text::{RecipientHandle, SenderHandle};
use rpki_updown::{
    Error, IssuanceRequest, ResourceClassEntitlements, ResourceClassListResponse,
    RevocationRequest, RevocationResponse,
};
use rpki_xml::XmlError;
use std::alloc::Global;
use std::marker::Model;

/// Why a parent sends nothing.
#[derive(Debug, PartialEq, Eq, Drop)]
pub enum AnswerError<E> {
    /// The octets are no message of the child. What is inside is never `OutOfMemory`.
    Refused(Error),
    /// The reply was decided, and what it says is done; but it couldn't be made.
    Unsent(CreateError<E>),
    /// Memory ran out before anything was done.
    OutOfMemory,
}

impl<E> From<OutOfMemory> for AnswerError<E> {
    ghost from_gives = { λ _ e. e ≡ answers.OutOfMemory };

    fn from(_: OutOfMemory) -> AnswerError<E> {
        AnswerError::OutOfMemory
    }
}

impl<E> From<CreateError<E>> for AnswerError<E> {
    ghost from_gives = { λ error e. e ≡ answers.Unsent error };

    fn from(error: CreateError<E>) -> AnswerError<E> {
        AnswerError::Unsent(error)
    }
}

/// A parent of one child, to which it issues certificates in resource classes (RFC 6492). In a clause it is the record of both handles,
/// the child's key and the table of the classes.
pub struct Parent {
    alloc: Global,
    me: RecipientHandle,
    child: SenderHandle,
    child_key: PublicKey,
    classes: Vec<Class>,
}

impl Drop for Parent {
    fn drop(self) {
        let Parent {
            alloc,
            me,
            child,
            child_key,
            classes,
        } = self;
    }
}

impl Model for Parent {
    ghost use Rattle.rpki_upserver.specs.Table.{AreWritable, IsParent, ParentState};

    ghost Value = { ParentState };

    ghost view = { λ p. record {
      me = p.me;
      child = p.child;
      child_key = p.child_key;
      table = p.classes.items;
    } };

    ghost invariant = { λ p. IsParent p.me p.child p.classes.items
        × AreWritable p.classes.items };
}

/// # Making
impl Parent {
    /// A parent that calls itself `me`, and whose child calls itself `child` and has this key. None exactly where two classes have one
    /// name, or a handle or the name of a class can't be written so that it is read again. It takes no memory; later growth takes it from
    /// `alloc`.
    pub fn new(
        alloc: Global,
        me: RecipientHandle,
        child: SenderHandle,
        child_key: PublicKey,
        classes: Vec<Class>,
    ) -> Option<Parent>
        ensures some { IsSome result ↔ IsParent me child classes.items }
        ensures value { IfSome result (λ p. p ≡ new_parent me child child_key classes.items) }
    {
        if !is_handle(me.as_str()) || !is_handle(child.as_str()) {
            return None;
        }
        if !are_distinct(&classes) || !are_writable(&classes) {
            return None;
        }
        Some(Parent {
            alloc,
            me,
            child,
            child_key,
            classes,
        })
    }

    /// The classes, in their order.
    pub fn classes(&self) -> &[Class]
        ensures table { result.now ≡ self.now.table }
        ensures writable { AreWritable self.now.table }
    {
        &self.classes
    }
}

// Of an error of receipt: want of memory, or a refusal, as the calls for signed messages of the
// protocol say it.
fn refused<E>(error: ReceiveError) -> AnswerError<E>
    ensures { result ≡ refused error }
{
    match error {
        ReceiveError::CmsDecode => AnswerError::Refused(Error::CmsDecode),
        ReceiveError::XmlError => AnswerError::Refused(Error::XmlError(XmlError::Malformed)),
        ReceiveError::CertSyntax => AnswerError::Refused(Error::CertSyntax),
        ReceiveError::InvalidCsrSyntax => AnswerError::Refused(Error::InvalidCsrSyntax),
        ReceiveError::Validation(error) => AnswerError::Refused(Error::Validation(error)),
        ReceiveError::OutOfMemory => AnswerError::OutOfMemory,
    }
}

/// # What is decided
impl Parent {
    // The message of the child that the octets are.
    fn received<P: Scheme, V: Verifier<P>>(
        &self,
        octets: &[u8],
        when: Time,
        verifier: &V,
    ) -> Result<Message, ReceiveError>
        ensures ok { IfOk result (λ m. Accepted P.checks kinds.Provisioning octets.now
            (self.now.child_key ∷ []) when (received.Provisioning m)) }
        ensures writable { IfOk result IsWritable }
        ensures err { IfErr result (λ e. e ≢ receipt.OutOfMemory
            → RefusesReceipt P.checks kinds.Provisioning octets.now (self.now.child_key ∷ [])
            when e) }
    {
        // For the proof: a message that was read is writable.
        read_is_writable();
        let kind = Kind::Provisioning;
        match receive(self.alloc, kind, octets, &self.child_key, when, verifier) {
            Ok(Received::Provisioning(message)) => Ok(message),
            // A message of the other protocol isn't received.
            Ok(Received::Publication(_)) => unreachable!(),
            Err(error) => Err(error),
        }
    }

    // Whether the child sends the message to this parent.
    fn is_from_child(&self, message: &Message) -> bool
        ensures { IsTrue result ↔ IsFromChild self.now message.now }
    {
        *message.sender() == self.child && *message.recipient() == self.me
    }

    // Why no certificate is issued on a request for the class at this place, of which the limit
    // isn't looked at.
    fn refusal<P: Scheme, V: Verifier<P>>(
        &self,
        place: usize,
        request: &IssuanceRequest,
        verifier: &V,
    ) -> Option<Reason>
        requires { place < length self.now.table }
        ensures { (c : ClassState) → slice_get self.now.table place ≡ Some c
            → IsFirstReason P.checks self.now.table request.now c result }
    {
        let class = &self.classes[place];
        let key = request.csr().public_key().key_identifier();
        if class.is_empty() {
            return Some(Reason::NoResources);
        }
        if request.csr().verify_signature::<P, V>(verifier).is_err() {
            return Some(Reason::BadRequest);
        }
        if is_used(&self.classes, request.class_name(), key) {
            return Some(Reason::UsedKey);
        }
        None
    }

    // What comes of a request for a certificate.
    fn issue<P: Scheme, V: Verifier<P>, N: Issuer>(
        &mut self,
        request: &IssuanceRequest,
        verifier: &V,
        issuer: &mut N,
    ) -> Result<Decision, OutOfMemory>
        requires { IsWritableRequest request.now }
        ensures ok { IfOk result (IsDecidedBy
            (IsPayloadAnswer P.checks self.old.table (payloads.Issue request.now))
            (with_issuer self.old (N.state issuer.old))
            (with_issuer self.new (N.state issuer.new))) }
        ensures err { OnErr result ((self.new ≡ self.old)
            × (N.state issuer.new ≡ N.state issuer.old)) }
    {
        let Some(place) = place_named(&self.classes, request.class_name()) else {
            return Ok(Decision::NotPerformed(Reason::NoClass));
        };
        if let Some(reason) = self.refusal(place, request, verifier) {
            return Ok(Decision::NotPerformed(reason));
        }
        let class = &mut self.classes[place];
        let Some(set) = limited(self.alloc, request.limit(), class.resource_set())? else {
            return Ok(Decision::NotPerformed(Reason::NoResources));
        };
        match class.issue(self.alloc, request, &set, issuer) {
            Ok(at) => Ok(Decision::Issued {
                class: place,
                place: at,
            }),
            Err(IssuerError::Failed) => Ok(Decision::NotPerformed(Reason::ServerError)),
            Err(IssuerError::OutOfMemory) => Err(OutOfMemory),
        }
    }

    // What comes of a request to revoke the certificates of a key.
    fn revoke<P: Scheme, N: Issuer>(
        &mut self,
        request: &RevocationRequest,
        issuer: &mut N,
    ) -> Result<Decision, OutOfMemory>
        requires { IsWritableKey request.now }
        ensures ok { IfOk result (IsDecidedBy
            (IsPayloadAnswer P.checks self.old.table (payloads.Revoke request.now))
            (with_issuer self.old (N.state issuer.old))
            (with_issuer self.new (N.state issuer.new))) }
        ensures err { OnErr result ((self.new ≡ self.old)
            × (N.state issuer.new ≡ N.state issuer.old)) }
    {
        let Some(place) = place_named(&self.classes, request.class_name()) else {
            return Ok(Decision::NotPerformed(Reason::NoClassToRevoke));
        };
        let class = &mut self.classes[place];
        let Some(at) = class.place_of(request.key()) else {
            return Ok(Decision::NotPerformed(Reason::NoKeyToRevoke));
        };
        let revoked = request.clone(self.alloc)?;
        match class.revoke(self.alloc, at, request.key(), issuer) {
            Ok(()) => Ok(Decision::Revoked(revoked)),
            Err(IssuerError::Failed) => Ok(Decision::NotPerformed(Reason::ServerError)),
            Err(IssuerError::OutOfMemory) => Err(OutOfMemory),
        }
    }

    // What comes of a message.
    fn decide<P: Scheme, V: Verifier<P>, N: Issuer>(
        &mut self,
        message: &Message,
        verifier: &V,
        issuer: &mut N,
    ) -> Result<Decision, OutOfMemory>
        requires { IsWritable message.now }
        ensures ok { IfOk result (IsDecidedBy (IsResponse P.checks self.old message.now)
            (with_issuer self.old (N.state issuer.old))
            (with_issuer self.new (N.state issuer.new))) }
        ensures err { OnErr result ((self.new ≡ self.old)
            × (N.state issuer.new ≡ N.state issuer.old)) }
    {
        if !self.is_from_child(message) {
            return Ok(Decision::NotPerformed(Reason::ServerError));
        }
        match message.payload() {
            Payload::List => {
                // For the proof: what stands in the table can be written.
                let _classes = self.classes();
                Ok(Decision::Listed)
            }
            Payload::Issue(request) => self.issue(request, verifier, issuer),
            Payload::Revoke(request) => self.revoke::<P, N>(request, issuer),
            _ => Ok(Decision::NotPerformed(Reason::UnknownType)),
        }
    }
}

/// # What is said
impl Parent {
    // What the child is told of all classes.
    fn entitlements(&self) -> Result<Vec<ResourceClassEntitlements>, OutOfMemory>
        ensures { IfOk result (λ told. told.items ≡ map entitled self.now.table) }
    {
        let mut told = Vec::with_capacity(self.alloc, self.classes.len())?;
        for class in &self.classes {
            told.push(class.entitlements(self.alloc)?)?;
        }
        Ok(told)
    }

    // The reply in which a decision is said.
    fn reply(&self, decision: &Decision) -> Result<Message, OutOfMemory>
        requires { CanBeSaid self.now.table decision.now }
        ensures message { IfOk result (λ m. (payload : Said)
            → IsPayloadOf self.now.table decision.now payload → m ≡ reply self.now payload) }
        ensures writable { IfOk result IsWritable }
    {
        let alloc = self.alloc;
        let me = self.me.convert()?;
        let child = self.child.convert()?;
        match decision {
            Decision::NotPerformed(reason) => {
                let response = reason.response(alloc)?;
                Ok(Message::not_performed_response(me, child, response))
            }
            Decision::Listed => {
                let response = ResourceClassListResponse::new(self.entitlements()?);
                Ok(Message::list_response(me, child, response))
            }
            Decision::Issued { class, place } => {
                let response = self.classes[*class].issuance(alloc, *place)?;
                Ok(Message::issue_response(me, child, response))
            }
            Decision::Revoked(request) => {
                let response = RevocationResponse::from_request(alloc, request)?;
                Ok(Message::revoke_response(me, child, response))
            }
        }
    }

    // The signed reply in which a decision is said.
    fn send<P: Scheme, S: Signer<P>>(
        &self,
        decision: &Decision,
        when: Time,
        signer: &mut S,
        key: &S::KeyId,
    ) -> Result<ProvisioningCms, CreateError<S::Error>>
        requires { CanBeSaid self.now.table decision.now }
        ensures ok { IfOk result (λ c. (payload : Said)
            → IsPayloadOf self.now.table decision.now payload → IsSignedResponse P.checks when
            (seen_signer key.now (S.state signer.old) (S.state signer.new))
            (reply self.now payload) c) }
        ensures err { IfErr result (λ e. e ≢ create.OutOfMemory → (payload : Said)
            → IsPayloadOf self.now.table decision.now payload → FailsToSign P.checks when
            (seen_signer key.now (S.state signer.old) (S.state signer.new))
            (received.Provisioning (reply self.now payload)) e) }
        ensures keeps { Keeps (S.state signer.old) (S.state signer.new) }
        ensures kept { OnOk result
            ((S.state signer.new).faults ≡ (S.state signer.old).faults) }
    {
        let reply = self.reply(decision)?;
        signed(self.alloc, reply, when, key, signer)
    }
}

impl Parent {
    /// Answers octets of the child: a signed message in BER in which it lists its classes, asks for a certificate or asks to revoke one
    /// (RFC 6492, 3.3 to 3.5), which is believed under the child's key at the moment. The issuer does what the table allows; the answer
    /// is a signed message to the child that says what was done, or why nothing was (3.6), signed as [`ProvisioningCms::create`] does
    /// it, under the issuing key with the identifier `key`.
    ///
    /// Any other message of the protocol that is believed is answered too: with error 1103 where it asks for nothing that a parent does,
    /// and with 2001 where sender or recipient is another.
    ///
    /// `Refused` where the octets are no message of the protocol that is believed under the child's key: then issuer, signer and table
    /// are as before. `OutOfMemory` before anything was issued or revoked: then the table is as before. `Unsent` where the reply was
    /// decided and couldn't be made: what it was to say is done.
    pub fn answer<P: Scheme, V: Verifier<P>, N: Issuer, S: Signer<P>>(
        &mut self,
        octets: &[u8],
        when: Time,
        verifier: &V,
        issuer: &mut N,
        signer: &mut S,
        key: &S::KeyId,
    ) -> Result<ProvisioningCms, AnswerError<S::Error>>
        // The reply says what comes of the message by the table's rows, and is received over its
        // window.
        ensures answered { IfOk result (IsRequestAnswered P.checks octets.now when
            (with_issuer self.old (N.state issuer.old)) (with_issuer self.new (N.state issuer.new))
            (seen_signer key.now (S.state signer.old) (S.state signer.new))) }

        // Where nothing is sent, there is a cause, and it says what was done.
        ensures unanswered { IfErr result (SendsNothing P.checks octets.now when
            (with_issuer self.old (N.state issuer.old)) (with_issuer self.new (N.state issuer.new))
            (seen_signer key.now (S.state signer.old) (S.state signer.new))) }

        // Octets that are refused leave all as it was, and nothing is signed before a reply is
        // decided.
        ensures refused { IfErr result (λ e. AreOctetsRefused e → (issuer.new ≡ issuer.old)
            × (signer.new ≡ signer.old)) }
        ensures unsigned { IsErrOf result answers.OutOfMemory → signer.new ≡ signer.old }

        // The signer holds the same keys, whatever the answer, and where there is a reply, it didn't fail.
        ensures keeps { Keeps (S.state signer.old) (S.state signer.new) }
        ensures kept { OnOk result
            ((S.state signer.new).faults ≡ (S.state signer.old).faults) }
    {
        let message = match self.received(octets, when, verifier) {
            Ok(message) => message,
            Err(error) => return Err(refused(error)),
        };
        let decision = self.decide(&message, verifier, issuer)?;
        Ok(self.send(&decision, when, signer, key)?)
    }
}
