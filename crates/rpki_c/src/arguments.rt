//! What the numbers and octets of a call are read as. What is read as nothing is refused with Usage.

ghost use Rattle.std.specs.Prelude.{◌≡◌, ◌≢◌, ◌≤◌, Bool, List, IfErr, IfOk, IfSome, IsNone, IsSome, length, map, string_bytes};
ghost use Rattle.hex.specs.Hex.{IsBytes, encode_lower};
ghost use Rattle.rpki_base.specs.PublicKey.{public_key};
ghost use Rattle.rpki_der.specs.Takes.{NoneStands, TakesOne};
ghost use Rattle.rpki_text.specs.declared.uri.Error.TheVariants as uri_error;
ghost use Rattle.rpki_c.specs.Arguments as spec;
ghost use Rattle.rpki_c.specs.Calls.{signatures_of};
ghost use Rattle.rpki_c.specs.HandingOver.{out_of_memory};

use bytes::Bytes;
use rpki_base::{PublicKey, Serial, Time, Validity};
use rpki_ca::{Kind, Refusal, SetupKind};
use rpki_common::OutOfMemory;
use rpki_der::{Cursor, DecodeError, Mode};
use rpki_external::{Answers, KeysRefusal, Plan, RequestPlan, Signatures};
use rpki_text::uri::{self, Https, Rsync};
use rpki_text::{Hash, printed_hash_is_read};
use std::alloc::Global;

// The most keys of a call.
const MOST_KEYS: usize = 8;

// Arguments that are read as nothing.
pub(crate) const USAGE: KeysRefusal = KeysRefusal::General(Refusal::Usage);

// ---- numbers

// The protocol of this number.
pub(crate) fn kind_in(number: i32) -> Result<Kind, KeysRefusal>
    ensures ok { IfOk result (spec.IsKindIn number) }
    ensures err { IfErr result (λ e. (e ≡ spec.usage) × spec.IsUnread (spec.IsKindIn number)) }
{
    match number {
        1 => Ok(Kind::Publication),
        2 => Ok(Kind::Provisioning),
        _ => Err(USAGE),
    }
}

// The kind of setup message of this number.
pub(crate) fn setup_kind_in(number: i32) -> Result<SetupKind, KeysRefusal>
    ensures ok { IfOk result (spec.IsSetupKindIn number) }
    ensures err { IfErr result (λ e. (e ≡ spec.usage)
        × spec.IsUnread (spec.IsSetupKindIn number)) }
{
    match number {
        1 => Ok(SetupKind::ChildRequest),
        2 => Ok(SetupKind::ParentResponse),
        3 => Ok(SetupKind::PublisherRequest),
        4 => Ok(SetupKind::RepositoryResponse),
        _ => Err(USAGE),
    }
}

// The moment of these seconds since 1970.
pub(crate) fn moment_in(seconds: i64) -> Result<Time, KeysRefusal>
    ensures ok { IfOk result (spec.IsMomentIn seconds) }
    ensures err { IfErr result (λ e. (e ≡ spec.usage) × spec.IsUnread (spec.IsMomentIn seconds)) }
{
    match Time::new(seconds) {
        Some(time) => Ok(time),
        None => Err(USAGE),
    }
}

// The last time, or none.
pub(crate) fn last_in(has_last: i32, last: i64) -> Result<Option<Time>, KeysRefusal>
    ensures ok { IfOk result (spec.IsLastIn has_last last) }
    ensures err { IfErr result (λ e. (e ≡ spec.usage)
        × spec.IsUnread (spec.IsLastIn has_last last)) }
{
    match has_last {
        0 => Ok(None),
        1 => Ok(Some(moment_in(last)?)),
        _ => Err(USAGE),
    }
}

// The validity from the first of these seconds to the second.
pub(crate) fn validity_in(not_before: i64, not_after: i64) -> Result<Validity, KeysRefusal>
    ensures ok { IfOk result (spec.IsValidityIn not_before not_after) }
    ensures err { IfErr result (λ e. (e ≡ spec.usage)
        × spec.IsUnread (spec.IsValidityIn not_before not_after)) }
{
    let not_before = moment_in(not_before)?;
    let not_after = moment_in(not_after)?;
    Ok(Validity::new(not_before, not_after))
}

// ---- keys

// The key that the octets are.
pub(crate) fn key_in(alloc: Global, octets: &[u8]) -> Result<PublicKey, KeysRefusal>
    ensures ok { IfOk result (spec.IsKeyIn octets.now) }
    ensures err { IfErr result (λ e. e ≢ out_of_memory
        → (e ≡ spec.usage) × spec.IsUnread (spec.IsKeyIn octets.now)) }
{
    match PublicKey::take(alloc, Mode::Der, octets) {
        Ok(key) => Ok(key),
        Err(DecodeError::Malformed) => Err(USAGE),
        Err(DecodeError::OutOfMemory) => Err(KeysRefusal::from(OutOfMemory)),
    }
}

// The next key, where one stands there.
fn next_key(alloc: Global, cursor: &mut Cursor<'_>) -> Result<Option<PublicKey>, OutOfMemory>
    ensures some { IfOk result (λ o. IfSome o (TakesOne public_key cursor.old cursor.new)) }
    ensures none { IfOk result (λ o. IsNone o → NoneStands public_key cursor.old) }
{
    match PublicKey::take_from(alloc, cursor) {
        Ok(key) => Ok(Some(key)),
        Err(DecodeError::Malformed) => Ok(None),
        Err(DecodeError::OutOfMemory) => Err(OutOfMemory),
    }
}

// The keys that the octets are, one behind the other, where they are one to eight.
fn few_keys_in(alloc: Global, octets: &[u8]) -> Result<Option<Vec<PublicKey>>, OutOfMemory>
    ensures some { IfOk result (λ o. IfSome o (λ list. spec.AreFewKeysIn octets.now list.items)) }
    ensures none { IfOk result (λ o. IsNone o → spec.IsUnread (spec.AreFewKeysIn octets.now)) }
{
    let mut list = Vec::new(alloc);
    let mut cursor = Cursor::new(alloc, Mode::Der, octets);
    for _ in 0..MOST_KEYS {
        match next_key(alloc, &mut cursor)? {
            Some(key) => list.push(key)?,
            None => return Ok(None),
        }
        if cursor.end() {
            return Ok(Some(list));
        }
    }
    Ok(None)
}

// The one to eight keys that the octets are, one behind the other.
pub(crate) fn keys_in(alloc: Global, octets: &[u8]) -> Result<Vec<PublicKey>, KeysRefusal>
    ensures ok { IfOk result (λ list. spec.AreFewKeysIn octets.now list.items) }
    ensures err { IfErr result (λ e. e ≢ out_of_memory
        → (e ≡ spec.usage) × spec.IsUnread (spec.AreFewKeysIn octets.now)) }
{
    match few_keys_in(alloc, octets)? {
        Some(list) => Ok(list),
        None => Err(USAGE),
    }
}

// ---- answers

// The octets in hexadecimal digits of lower case.
fn digits_of(alloc: Global, octets: &[u8]) -> Result<String, OutOfMemory>
    ensures text { IfOk result (λ text. string_bytes text ≡ encode_lower octets.now) }
    ensures octets { IsBytes octets.now }
{
    Ok(hex::encode(alloc, octets)?)
}

// The digest that the octets are.
pub(crate) fn digest_in(alloc: Global, octets: &[u8]) -> Result<Option<Hash>, OutOfMemory>
    ensures some { IfOk result (λ o. IfSome o (λ digest. digest ≡ octets.now)) }
    ensures whole { IfOk result (λ o. IsSome o → length octets.now ≡ 32) }
    ensures none { IfOk result (λ o. IsNone o → length octets.now ≢ 32) }
{
    if octets.len() != 32 {
        return Ok(None);
    }
    let digits = digits_of(alloc, octets)?;
    // For the proof: the digits of a digest are read as that digest.
    printed_hash_is_read();
    let Some(digest) = Hash::from_str(digits.as_str()) else {
        unreachable!()
    };
    Ok(Some(digest))
}

// The answer that an octet is.
fn answer_in(octet: u8) -> Option<bool>
    ensures some { IfSome result (λ answer. octet ≡ spec.octet_of answer) }
    ensures none { IsNone result → 2 ≤ octet }
{
    match octet {
        0 => Some(false),
        1 => Some(true),
        _ => None,
    }
}

// The answers that the octets are, one each.
fn values_in(alloc: Global, octets: &[u8]) -> Result<Option<Vec<bool>>, OutOfMemory>
    ensures some { IfOk result (λ o. IfSome o (λ values.
        octets.now ≡ map spec.octet_of values.items)) }
    ensures none { IfOk result (λ o. IsNone o → (values : List Bool)
        → octets.now ≡ map spec.octet_of values → ⊥) }
{
    let mut values = Vec::new(alloc);
    for octet in octets {
        match answer_in(*octet) {
            Some(answer) => values.push(answer)?,
            None => return Ok(None),
        }
    }
    Ok(Some(values))
}

// The answers to the questions with this digest, an octet each.
pub(crate) fn answers_in(
    alloc: Global,
    digest: &[u8],
    octets: &[u8],
) -> Result<Answers, KeysRefusal>
    ensures ok { IfOk result (spec.AreAnswersIn digest.now octets.now) }
    ensures err { IfErr result (λ e. e ≢ out_of_memory → (e ≡ spec.usage)
        × spec.IsUnread (spec.AreAnswersIn digest.now octets.now)) }
{
    let Some(digest) = digest_in(alloc, digest)? else {
        return Err(USAGE);
    };
    match values_in(alloc, octets)? {
        Some(values) => Ok(Answers::new(digest, values)),
        None => Err(USAGE),
    }
}

// ---- what is made

// The serial number that the octets are.
fn serial_in(octets: &[u8]) -> Result<Serial, KeysRefusal>
    ensures ok { IfOk result (spec.IsSerialIn octets.now) }
    ensures err { IfErr result (λ e. (e ≡ spec.usage)
        × spec.IsUnread (spec.IsSerialIn octets.now)) }
{
    if octets.len() != 20 || octets[0] >= 0x80 {
        return Err(USAGE);
    }
    let mut held = [0u8; 20];
    held.copy_from_slice(octets);
    Ok(Serial::from(held))
}

// The plan of a message.
pub(crate) fn plan_in(
    alloc: Global,
    when: i64,
    serial: &[u8],
    issuing_key: &[u8],
    one_off_key: &[u8],
) -> Result<Plan, KeysRefusal>
    ensures ok { IfOk result
        (spec.IsPlanIn when serial.now issuing_key.now one_off_key.now) }
    ensures err { IfErr result (λ e. e ≢ out_of_memory → (e ≡ spec.usage)
        × spec.IsUnread (spec.IsPlanIn when serial.now issuing_key.now one_off_key.now)) }
{
    let when = moment_in(when)?;
    let serial = serial_in(serial)?;
    let issuing_key = key_in(alloc, issuing_key)?;
    let key = key_in(alloc, one_off_key)?;
    Ok(Plan {
        when,
        serial,
        issuing_key,
        key,
    })
}

// The octets, to be shared.
pub(crate) fn shared(alloc: Global, octets: &[u8]) -> Result<Bytes, OutOfMemory>
    ensures { IfOk result (λ b. b ≡ octets.now) }
{
    Ok(Bytes::copy_from_slice(alloc, octets)?)
}

// The three signatures of a message.
pub(crate) fn signatures_in(
    alloc: Global,
    attributes: &[u8],
    crl: &[u8],
    certificate: &[u8],
) -> Result<Signatures, OutOfMemory>
    ensures { IfOk result (λ s. s ≡ signatures_of attributes.now crl.now certificate.now) }
{
    Ok(Signatures {
        attributes: shared(alloc, attributes)?,
        crl: shared(alloc, crl)?,
        certificate: shared(alloc, certificate)?,
    })
}

// How it is answered that a text is no URI of the kind.
fn no_uri(error: uri::Error) -> KeysRefusal
    ensures memory { error ≡ uri_error.OutOfMemory → result ≡ out_of_memory }
    ensures other { error ≢ uri_error.OutOfMemory → result ≡ spec.usage }
{
    match error {
        uri::Error::OutOfMemory => KeysRefusal::from(OutOfMemory),
        _ => USAGE,
    }
}

// The rsync URI that the octets are, if they are one.
pub(crate) fn rsync_uri(alloc: Global, octets: &[u8]) -> Result<Option<Rsync>, OutOfMemory>
    ensures some { IfOk result (λ o. IfSome o (spec.IsRsyncIn octets.now)) }
    ensures none { IfOk result (λ o. IsNone o → spec.IsUnread (spec.IsRsyncIn octets.now)) }
{
    let Ok(text) = str::from_utf8(octets) else {
        return Ok(None);
    };
    match Rsync::from_str(alloc, text) {
        Ok(uri) => Ok(Some(uri)),
        Err(uri::Error::OutOfMemory) => Err(OutOfMemory),
        Err(_) => Ok(None),
    }
}

// The rsync URI that the octets are.
pub(crate) fn rsync_in(alloc: Global, octets: &[u8]) -> Result<Rsync, KeysRefusal>
    ensures ok { IfOk result (spec.IsRsyncIn octets.now) }
    ensures err { IfErr result (λ e. e ≢ out_of_memory
        → (e ≡ spec.usage) × spec.IsUnread (spec.IsRsyncIn octets.now)) }
{
    match rsync_uri(alloc, octets)? {
        Some(uri) => Ok(uri),
        None => Err(USAGE),
    }
}

// The https URI that the octets are.
fn https_in(alloc: Global, octets: &[u8]) -> Result<Https, KeysRefusal>
    ensures ok { IfOk result (spec.IsHttpsIn octets.now) }
    ensures err { IfErr result (λ e. e ≢ out_of_memory
        → (e ≡ spec.usage) × spec.IsUnread (spec.IsHttpsIn octets.now)) }
{
    let Ok(text) = str::from_utf8(octets) else {
        return Err(USAGE);
    };
    match Https::from_str(alloc, text) {
        Ok(uri) => Ok(uri),
        Err(error) => Err(no_uri(error)),
    }
}

// The https URI that the octets are, or none where there are none.
fn notify_in(alloc: Global, octets: &[u8]) -> Result<Option<Https>, KeysRefusal>
    ensures ok { IfOk result (spec.IsNotifyIn octets.now) }
    ensures err { IfErr result (λ e. e ≢ out_of_memory
        → (e ≡ spec.usage) × spec.IsUnread (spec.IsNotifyIn octets.now)) }
{
    if octets.is_empty() {
        return Ok(None);
    }
    Ok(Some(https_in(alloc, octets)?))
}

// The plan of a certificate request.
pub(crate) fn request_plan_in(
    alloc: Global,
    key: &[u8],
    repository: &[u8],
    manifest: &[u8],
    notify: &[u8],
) -> Result<RequestPlan, KeysRefusal>
    ensures ok { IfOk result
        (spec.IsRequestPlanIn key.now repository.now manifest.now notify.now) }
    ensures err { IfErr result (λ e. e ≢ out_of_memory → (e ≡ spec.usage)
        × spec.IsUnread (spec.IsRequestPlanIn key.now repository.now manifest.now notify.now)) }
{
    let key = key_in(alloc, key)?;
    let ca_repository = rsync_in(alloc, repository)?;
    let rpki_manifest = rsync_in(alloc, manifest)?;
    let rpki_notify = notify_in(alloc, notify)?;
    Ok(RequestPlan {
        key,
        ca_repository,
        rpki_manifest,
        rpki_notify,
    })
}
