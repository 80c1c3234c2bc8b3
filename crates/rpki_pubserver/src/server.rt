//! The server.

ghost use Rattle.std.specs.Prelude.{◌≡◌, ◌≢◌, ◌↔◌, IfErr, IfOk, IfSome, IsSome, OnErr, OnOk, length, true};
ghost use Rattle.std.specs.List.{AllByRecursion};
ghost use Rattle.std.specs.Option.{option_map};
ghost use Rattle.rpki_text.specs.Uri.{names_directory, path_of, rsync};
ghost use Rattle.rpki_signer.specs.Limits.{Keeps};
ghost use Rattle.rpki_publication.specs.Change.{IsWritableChange};
ghost use Rattle.rpki_publication.specs.ListReply.{IsWritableListElement};
ghost use Rattle.rpki_sigmsg.specs.declared.create_error.CreateError.TheVariants as create;
ghost use Rattle.rpki_ca.specs.declared.receiving.Received.TheVariants as received;
ghost use Rattle.rpki_ca.specs.Seen.{seen_signer};
ghost use Rattle.rpki_ca.specs.Sending.{FailsToSign};
ghost use Rattle.rpki_pubserver.specs.Places.{IsSameElsewhere, live};
ghost use Rattle.rpki_pubserver.specs.Replies.{reply_to_delta};
ghost use Rattle.rpki_pubserver.specs.Running.{new_server};
ghost use Rattle.rpki_pubserver.specs.Server.{FailsReply, IsQueryAnswered, IsSignedReply, with_store};
ghost use Rattle.rpki_pubserver.specs.Store.{IsStore, LieUnder, listed_store, octets_at};

use crate::asking::{Asked, asked_by};
use crate::changes::{drop_places, make_all, prepare};
use crate::deciding::decision_of;
use crate::objects::Objects;
use crate::replies::error_reply;
use crate::signing::signed;
use rpki_base::{PublicKey, Scheme, Time, Verifier};
use rpki_ca::{Kind, receive};
use rpki_common::OutOfMemory;
use rpki_publication::{ListReply, Message, PublicationCms, PublishDelta};
use rpki_sigmsg::CreateError;
use rpki_signer::Signer;
use rpki_text::{Base64, uri};
use std::alloc::Global;
use std::marker::Model;

/// A publication server for one publisher: the objects that it published under one base URI (RFC 8181, 1).
///
/// In a clause it is the record of the base's text, the publisher's key, and the objects: pairs of a URI's
/// text and the octets there, ascending by the texts' octets.
pub struct Server {
    alloc: Global,
    base: uri::Rsync,
    publisher: PublicKey,
    objects: Objects,
}

impl Drop for Server {
    fn drop(self) {
        let Server {
            alloc,
            base,
            publisher,
            objects,
        } = self;
    }
}

impl Model for Server {
    ghost use Rattle.rpki_pubserver.specs.Places.{NoneIsEmpty, live};
    ghost use Rattle.rpki_pubserver.specs.Server.{ServerFields};
    ghost use Rattle.rpki_pubserver.specs.Store.{LieUnder};

    ghost Value = { ServerFields };

    ghost view = { λ s. record {
      base = s.base;
      publisher = s.publisher;
      store = live s.objects;
    } };

    ghost invariant = { λ s. LieUnder s.base (live s.objects) × NoneIsEmpty s.objects };
}

impl Server {
    /// A server without objects, for the publisher whose queries are believed under this key, and who may
    /// publish under this base. None exactly where the base is no directory: its path is there and doesn't end
    /// with a slash. It takes no memory; later growth takes it from `alloc`.
    pub fn new(alloc: Global, base: uri::Rsync, publisher_key: PublicKey) -> Option<Server>
        ensures some { IsSome result ↔ (names_directory (path_of rsync base) ≡ true) }
        ensures server { IfSome result (λ server. server ≡ new_server base publisher_key) }
    {
        if !base.path_is_dir() {
            return None;
        }
        Some(Server {
            alloc,
            base,
            publisher: publisher_key,
            objects: Objects::new(alloc),
        })
    }

    /// The octets of the object at a URI; None exactly where there is none.
    pub fn get(&self, uri: &uri::Rsync) -> Option<&Base64>
        ensures { option_map (λ content. content.now) result ≡ octets_at self.now.store uri.now }
    {
        match self.objects.get(uri.as_str()) {
            Some(object) => Some(object.content()),
            None => None,
        }
    }

    /// How many objects there are.
    pub fn len(&self) -> usize
        ensures number { result ≡ length self.now.store }

        // Whatever was done before, the objects stand in the order of their URIs, one at each, and
        // all lie under the base.
        ensures ordered { IsStore self.now.store }
        ensures under { LieUnder self.now.base self.now.store }
    {
        self.objects.len()
    }

    /// The list of all objects: their URIs, in the order of these, and digests (RFC 8181, 2.3).
    pub fn list_reply(&self, alloc: Global) -> Result<ListReply, OutOfMemory>
        ensures list { IfOk result (λ reply. reply ≡ listed_store self.now.store) }
        ensures writable { IfOk result (AllByRecursion IsWritableListElement) }
    {
        self.objects.list(alloc)
    }

    /// The signed reply to the octets of a received query, at a moment (RFC 8181, 2).
    ///
    /// Where there is no signed message, the reply is the error `bad_cms_signature`; where its content is no
    /// message of the protocol, `xml_error`, whatever the checks say. A message is believed under the
    /// publisher's key if all fourteen checks hold at the moment: where one fails, the reply is
    /// `bad_cms_signature`, and where the message is a reply, `xml_error`.
    ///
    /// To the query for the list the reply is [`Server::list_reply`]. Of changes all
    /// are made, one behind the other, and the reply is `success`; or none is, and the reply is the error of
    /// the first that can't be made: `permission_failure` where its URI doesn't begin with the base,
    /// `object_already_present` for a new object where there is one, `no_object_present` and
    /// `no_object_matching_hash` where an object is to be replaced or withdrawn and there is none, or one with
    /// another digest.
    ///
    /// The reply is signed as [`PublicationCms::create`] does it, under the issuing key with the identifier
    /// `key`, and refused as it refuses. After a refusal the server is as it was.
    pub fn answer<P: Scheme, V: Verifier<P>, S: Signer<P>>(
        &mut self,
        octets: &[u8],
        when: Time,
        verifier: &V,
        signer: &mut S,
        key: &S::KeyId,
    ) -> Result<PublicationCms, CreateError<S::Error>>
        // The reply is signed, and the objects are those behind it.
        ensures answered { IfOk result (λ c. IsQueryAnswered P.checks self.old octets.now when
            (seen_signer key.now (S.state signer.old) (S.state signer.new)) c self.new) }

        // Each refusal by its cause; it leaves the server.
        ensures refused { IfErr result (λ e. e ≢ create.OutOfMemory → FailsReply P.checks self.old
            octets.now when (seen_signer key.now (S.state signer.old) (S.state signer.new)) e) }
        ensures unchanged { OnErr result (self.new ≡ self.old) }

        // The signer holds the same keys, whatever the answer.
        ensures keeps { Keeps (S.state signer.old) (S.state signer.new) }
    {
        let received = receive(
            self.alloc,
            Kind::Publication,
            octets,
            &self.publisher,
            when,
            verifier,
        );
        match asked_by(received)? {
            Asked::Changes(delta) => self.answer_delta(&delta, when, signer, key),
            Asked::List => {
                let list = self.list_reply(self.alloc)?;
                signed(self.alloc, Message::list_reply(list), when, key, signer)
            }
            Asked::Nothing(code) => {
                let reply = error_reply(self.alloc, code)?;
                signed(self.alloc, reply, when, key, signer)
            }
        }
    }

    // The signed reply to changes.
    fn answer_delta<P: Scheme, S: Signer<P>>(
        &mut self,
        delta: &PublishDelta,
        when: Time,
        signer: &mut S,
        key: &S::KeyId,
    ) -> Result<PublicationCms, CreateError<S::Error>>
        requires { AllByRecursion IsWritableChange delta.now }
        ensures signed { IfOk result (IsSignedReply P.checks when
            (seen_signer key.now (S.state signer.old) (S.state signer.new))
            (reply_to_delta self.old.base self.old.store delta.now).message) }
        ensures fails { IfErr result (λ e. e ≢ create.OutOfMemory → FailsToSign P.checks when
            (seen_signer key.now (S.state signer.old) (S.state signer.new))
            (received.Publication
            (reply_to_delta self.old.base self.old.store delta.now).message) e) }
        ensures changed { OnOk result (self.new ≡ with_store self.old
            (reply_to_delta self.old.base self.old.store delta.now).next) }
        ensures unchanged { OnErr result (self.new ≡ self.old) }
        ensures keeps { Keeps (S.state signer.old) (S.state signer.new) }
    {
        let answer = answer_changes(
            self.alloc,
            &self.base,
            &mut self.objects,
            delta,
            when,
            signer,
            key,
        );
        drop_places(&mut self.objects, delta.elements());
        answer
    }
}

// The signed reply to changes, behind which places may be left where no object is, at their URIs alone.
fn answer_changes<P: Scheme, S: Signer<P>>(
    alloc: Global,
    base: &uri::Rsync,
    objects: &mut Objects,
    delta: &PublishDelta,
    when: Time,
    signer: &mut S,
    key: &S::KeyId,
) -> Result<PublicationCms, CreateError<S::Error>>
    requires { AllByRecursion IsWritableChange delta.now }
    ensures signed { IfOk result (IsSignedReply P.checks when
        (seen_signer key.now (S.state signer.old) (S.state signer.new))
        (reply_to_delta base.now (live objects.old) delta.now).message) }
    ensures fails { IfErr result (λ e. e ≢ create.OutOfMemory → FailsToSign P.checks when
        (seen_signer key.now (S.state signer.old) (S.state signer.new))
        (received.Publication (reply_to_delta base.now (live objects.old) delta.now).message) e) }
    ensures changed { OnOk result (live objects.new
        ≡ (reply_to_delta base.now (live objects.old) delta.now).next) }
    ensures unchanged { OnErr result (live objects.new ≡ live objects.old) }
    ensures elsewhere { IsSameElsewhere delta.now objects.old objects.new }
    ensures keeps { Keeps (S.state signer.old) (S.state signer.new) }
{
    let changes = delta.elements();
    let mut told = objects.told(alloc, changes)?;
    let decision = decision_of(alloc, base, &mut told, changes)?;
    if !decision.made {
        return signed(alloc, decision.reply, when, key, signer);
    }
    let mut next = prepare(alloc, objects, changes)?;
    let answer = signed(alloc, decision.reply, when, key, signer)?;
    make_all(objects, changes, &mut next);
    Ok(answer)
}
