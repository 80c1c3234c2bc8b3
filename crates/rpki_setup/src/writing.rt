//! The parts of messages are written, by the tables of specs/: the one spelling of an element, in pieces and without memory.

ghost use Rattle.std.specs.Prelude.{◌≡◌};
ghost use Rattle.std.specs.Fmt.{WritesOnOk};
ghost use Rattle.std.specs.Option.{option_copied};
ghost use Rattle.rpki_xml.specs.Spelling.{spelled, spelled_attributes};
ghost use Rattle.rpki_setup.specs.RepoInfo.{repo_info_attributes};
ghost use Rattle.rpki_setup.specs.Root.{certificate_element};
ghost use Rattle.rpki_setup.specs.Writing.{start_text, inside_text};

use crate::repo_info::RepoInfo;
use rpki_text::Base64;
use rpki_xmltext::{write_attribute, write_base64, write_end, write_optional};
use std::fmt;

// An element that holds a certificate.
fn write_certificate<W: fmt::Write>(
    f: &mut fmt::Formatter<W>,
    name: &str,
    certificate: &Base64,
) -> fmt::Result
    ensures { WritesOnOk W.write_str_gives f.old result
        (spelled (certificate_element name.now certificate.now)) f.new }
{
    f.write_str("<")?;
    f.write_str(name)?;
    write_base64(f, name, certificate)
}

/// The start of a root of this name, before its further attributes.
pub(crate) fn write_start<W: fmt::Write>(f: &mut fmt::Formatter<W>, name: &str) -> fmt::Result
    ensures { WritesOnOk W.write_str_gives f.old result (start_text name.now) f.new }
{
    f.write_str("<")?;
    f.write_str(name)?;
    f.write_str(" xmlns=\"http://www.hactrn.net/uris/rpki/rpki-setup/\" version=\"1\"")
}

/// What stands in a root of this name, behind its attributes, and its end.
pub(crate) fn write_inside<W: fmt::Write>(
    f: &mut fmt::Formatter<W>,
    name: &str,
    child: &str,
    certificate: &Base64,
) -> fmt::Result
    ensures { WritesOnOk W.write_str_gives f.old result
        (inside_text name.now child.now certificate.now) f.new }
{
    f.write_str(">")?;
    write_certificate(f, child, certificate)?;
    write_end(f, name)
}

// The text of the URI where changes are notified, if they are.
fn notification_of(info: &RepoInfo) -> Option<&str>
    ensures { option_copied result ≡ info.now.rrdp_notification_uri }
{
    match info.rpki_notify() {
        None => None,
        Some(uri) => Some(uri.as_str()),
    }
}

/// The attributes that say where objects are found.
pub(crate) fn write_repo_info<W: fmt::Write>(
    f: &mut fmt::Formatter<W>,
    info: &RepoInfo,
) -> fmt::Result
    ensures { WritesOnOk W.write_str_gives f.old result
        (spelled_attributes (repo_info_attributes info.now)) f.new }
{
    write_attribute(f, "sia_base", info.base_uri().as_str())?;
    write_optional(f, "rrdp_notification_uri", notification_of(info))
}
