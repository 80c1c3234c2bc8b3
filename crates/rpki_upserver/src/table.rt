//! The classes of a parent.

ghost use Rattle.std.specs.Prelude.{◌≡◌, ◌↔◌, ◌<◌, ◌||◌, length, position, IfSome, IsTrue};
ghost use Rattle.std.specs.List.{AllByRecursion};
ghost use Rattle.rpki_xml.specs.Lettered.{AreOctets};
ghost use Rattle.rpki_upserver.specs.Table as definitions;
ghost use Rattle.rpki_upserver.specs.Table.{AreDistinctClasses, AreWritable, is_named};

use crate::class::Class;
use rpki_base::KeyIdentifier;
use rpki_updown::ResourceClassName;

/// The place of the first class of this name.
pub(crate) fn place_named(classes: &[Class], name: &ResourceClassName) -> Option<usize>
    ensures place { result ≡ position (is_named name.now) classes.now }
    ensures within { IfSome result (λ place. place < length classes.now) }
{
    classes.iter().position(|class| class.name() == name)
}

/// Whether no two classes have one name.
pub(crate) fn are_distinct(classes: &[Class]) -> bool
    ensures { IsTrue result ↔ AreDistinctClasses classes.now }
{
    let mut rest = classes;
    while let [class, more @ ..] = rest {
        if place_named(more, class.name()).is_some() {
            return false;
        }
        rest = more;
    }
    true
}

/// Whether each class can be told so that it is read again.
pub(crate) fn are_writable(classes: &[Class]) -> bool
    ensures names { IsTrue result
        ↔ AllByRecursion (λ c. AreOctets c.class_name) classes.now }
    ensures classes { IsTrue result → AreWritable classes.now }
{
    for class in classes {
        if !class.is_writable() {
            return false;
        }
    }
    true
}

// Whether the key with this identifier was revoked in any class.
fn is_revoked(classes: &[Class], key: KeyIdentifier) -> bool
    ensures { result ≡ definitions.is_revoked key classes.now }
{
    classes.iter().any(|class| class.has_revoked(key))
}

// Whether a certificate of the key was issued in a class of another name.
fn is_issued_elsewhere(classes: &[Class], name: &ResourceClassName, key: KeyIdentifier) -> bool
    ensures { result ≡ definitions.is_issued_elsewhere name.now key classes.now }
{
    classes
        .iter()
        .any(|class| class.name() != name && class.has_issued(key))
}

/// Whether no certificate may be issued for the key in the class of this name: it was revoked in any class, or is certified in another
/// one.
pub(crate) fn is_used(classes: &[Class], name: &ResourceClassName, key: KeyIdentifier) -> bool
    ensures { result ≡ definitions.is_revoked key classes.now
        || definitions.is_issued_elsewhere name.now key classes.now }
{
    is_revoked(classes, key) || is_issued_elsewhere(classes, name, key)
}
