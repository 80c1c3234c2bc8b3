//! What the program begins with: what its words ask for, and its parent.

ghost use Rattle.std.specs.Prelude.{◌≡◌, IfOk, IfSome, IsNone};
ghost use Rattle.rpki_sets.specs.Kinds.{blocks_of};
ghost use Rattle.rpki_upserver.specs.Running.{AreNoParentWords, AreParentWords, IsFirstClass, IsFirstParent, IsFirstSet};

use crate::class::Class;
use crate::lawful::{handle, rsync_uri};
use crate::parent::Parent;
use rpki_base::{PublicKey, Time};
use rpki_ca::Words;
use rpki_common::OutOfMemory;
use rpki_sets::{AsBlocks, Blocks, BlocksError, Ipv4Blocks, Ipv6Blocks, Numbers, ResourceSet};
use rpki_text::{RecipientHandle, SenderHandle};
use rpki_updown::{ResourceClassName, SigningCert};
use std::alloc::Global;

/// The moment and the child's key.
pub(crate) struct Terms {
    pub(crate) when: Time,
    pub(crate) child: PublicKey,
}

/// What the two words ask for; None exactly where they aren't of the form.
pub(crate) fn terms_of(alloc: Global, words: &Words) -> Result<Option<Terms>, OutOfMemory>
    ensures some { IfOk result (λ o. IfSome o (λ terms.
        AreParentWords words.now terms.when terms.child)) }
    ensures none { IfOk result (λ o. IsNone o → AreNoParentWords words.now) }
{
    if words.len() != 2 {
        return Ok(None);
    }
    let Some(when) = words.moment(0) else {
        return Ok(None);
    };
    let Some(child) = words.key(alloc, 1)? else {
        return Ok(None);
    };
    Ok(Some(Terms { when, child }))
}

// The set that a text means, if it means one.
fn blocks<N: Numbers>(alloc: Global, text: &str) -> Result<Option<Blocks<N>>, OutOfMemory>
    ensures { IfOk result (λ o. o ≡ blocks_of N.kind text.now) }
{
    match Blocks::from_str(alloc, text) {
        Ok(blocks) => Ok(Some(blocks)),
        Err(BlocksError::OutOfMemory) => Err(OutOfMemory),
        Err(BlocksError::Malformed) => Ok(None),
    }
}

// The child's resources.
fn resources(alloc: Global) -> Result<ResourceSet, OutOfMemory>
    ensures { IfOk result IsFirstSet }
{
    let asn: AsBlocks = blocks(alloc, "1-10")?.unwrap();
    let ipv4: Ipv4Blocks = blocks(alloc, "10.0.0.0/8")?.unwrap();
    let ipv6: Ipv6Blocks = blocks(alloc, "2001:db8::/32")?.unwrap();
    Ok(ResourceSet::new(asn, ipv4, ipv6))
}

// The one class.
fn class(alloc: Global, signing: &SigningCert) -> Result<Class, OutOfMemory>
    ensures { IfOk result (IsFirstClass signing.now) }
{
    let name = ResourceClassName::default_name(alloc)?;
    let set = resources(alloc)?;
    let signing = signing.clone(alloc)?;
    let base = rsync_uri(alloc, "rsync://localhost/repo/")?;
    let until = Time::new(2_524_607_999).unwrap();
    Ok(Class::new(name, set, until, base, signing).unwrap())
}

/// The program's parent: it calls itself `Bob`, its child is `Carol` with this key, and it has one class, `0`, in which nothing was
/// issued.
pub(crate) fn first_parent(
    alloc: Global,
    child_key: PublicKey,
    signing: &SigningCert,
) -> Result<Parent, OutOfMemory>
    ensures { IfOk result (IsFirstParent child_key signing.now) }
{
    let class = class(alloc, signing)?;
    let mut classes = Vec::with_capacity(alloc, 1)?;
    classes.push(class)?;
    let me: RecipientHandle = handle(alloc, "Bob")?;
    let child: SenderHandle = handle(alloc, "Carol")?;
    Ok(Parent::new(alloc, me, child, child_key, classes).unwrap())
}
