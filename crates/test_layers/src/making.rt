use rpki_base::{PublicKey, PublicKeyFormat, SigningAlgorithm, Time, Verifier};
use rpki_ca::{Status, Words, run};
use rpki_publication::{Message, PublicationCms, Publish, PublishDelta, Update, Withdraw};
use rpki_signer::{Signer, ToyScheme, ToySigner, ToyVerifier};
use rpki_text::{Base64, Hash, MemorySink, MemorySource, uri};
use std::alloc::Global;
use std::cell::Cell;
use std::test::Fail;

// Passes each question on, and counts them.
#[derive(Drop)]
struct Counting {
    verifier: ToyVerifier,
    asked: Cell<u32>,
}

impl Verifier<ToyScheme> for Counting {
    fn verify(
        &self,
        kind: SigningAlgorithm,
        key: &PublicKey,
        message: &[u8],
        signature: &[u8],
    ) -> bool {
        self.asked.set(self.asked.get().wrapping_add(1));
        Verifier::<ToyScheme>::verify(&self.verifier, kind, key, message, signature)
    }
}

// A signer of seed 1, and the identifier of its key.
fn signer_of(alloc: Global) -> Result<(ToySigner, u64), Fail> {
    let mut signer = ToySigner::new(alloc, 1, &[])?;
    let key = Signer::<ToyScheme>::create_key(&mut signer, alloc, PublicKeyFormat::Rsa)?;
    Ok((signer, key))
}

// What `make 10 7` writes.
fn made<V: Verifier<ToyScheme>>(alloc: Global, verifier: &V) -> Result<Vec<u8>, Fail> {
    let mut words = Words::new(alloc);
    for word in ["make", "10", "7"] {
        words.push(word)?;
    }
    let (mut signer, key) = signer_of(alloc)?;
    let mut source = MemorySource::new(alloc, b"", 1, &[])?;
    let mut sink = MemorySink::new(alloc, 1000, 1000, &[])?;
    let status = run(
        alloc,
        &words,
        &mut source,
        &mut sink,
        verifier,
        &mut signer,
        &key,
    );
    if status != Status(0) {
        return Err(Fail::new("another status than 0"));
    }
    Ok(sink.written().to_vec(alloc)?)
}

#[test]
fn make_asks_three_questions(rt: HostRuntime) -> Result<(), Fail> {
    let counting = Counting {
        verifier: ToyVerifier::new(),
        asked: Cell::new(0),
    };
    let line = made(rt.alloc(), &counting)?;
    assert!(rt; line.starts_with(b"elements 10 publish 4 update 3 withdraw 3 envelope 4596f0fb"));
    assert_eq!(rt; counting.asked.get(), 3);
    Ok(())
}

// The octets of the object at a place, and those of the one that it may replace.
fn object_at(place: u8) -> [u8; 16] {
    let mut octets = [0u8; 16];
    octets[7] = 7;
    octets[15] = place;
    octets
}

fn old_object_at(place: u8) -> [u8; 17] {
    let mut octets = [0u8; 17];
    octets[7] = 7;
    octets[15] = place;
    octets
}

// Adds the change at a place.
fn add_change(alloc: Global, delta: &mut PublishDelta, place: u8) -> Result<(), Fail> {
    let octets = object_at(place);
    let old = Hash::from_data(&old_object_at(place));
    let text = format!(in alloc; "rsync://localhost/ca/f{place}.txt")?;
    let uri = uri::Rsync::from_str(alloc, text.as_str())?;
    let content = Base64::from_content(alloc, &octets)?;
    let added = match place % 3 {
        0 => delta
            .add_publish(Publish::with_hash_tag(alloc, uri, content)?)
            .is_ok(),
        1 => delta
            .add_update(Update::with_hash_tag(alloc, uri, content, old)?)
            .is_ok(),
        _ => {
            let hash = Hash::from_data(&octets);
            delta
                .add_withdraw(Withdraw::with_hash_tag(alloc, uri, hash)?)
                .is_ok()
        }
    };
    if added {
        Ok(())
    } else {
        Err(Fail::new("out of memory"))
    }
}

// The query with ten changes, as a signer of seed 1 signs it.
fn signed(alloc: Global) -> Result<Hash, Fail> {
    let mut delta = PublishDelta::empty(alloc);
    for place in 0..10u8 {
        add_change(alloc, &mut delta, place)?;
    }
    let (mut signer, key) = signer_of(alloc)?;
    let Some(now) = Time::new(1_700_000_000) else {
        return Err(Fail::new("no moment"));
    };
    let message = Message::delta(delta);
    let cms = PublicationCms::create::<ToyScheme, ToySigner>(
        alloc,
        message,
        now,
        &key,
        &mut signer,
    )?;
    Ok(Hash::from_data(cms.to_bytes(alloc)?.as_slice()))
}

#[test]
fn make_writes_the_digest_of_what_is_created(rt: HostRuntime) -> Result<(), Fail> {
    let alloc = rt.alloc();
    let line = made(alloc, &ToyVerifier::new())?;
    let digest = format!(in alloc; "{}\n", signed(alloc)?)?;
    assert!(rt; line.ends_with(digest.as_bytes()));
    Ok(())
}
