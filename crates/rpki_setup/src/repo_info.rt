//! Where a repository's objects are found.

ghost use Rattle.std.specs.Prelude.{◌≡◌, ◌≢◌, ◌++◌, Some, None, IfOk, IfErr, OnOk, codes};
ghost use Rattle.std.specs.Option.{option_map};
ghost use Rattle.rpki_text.specs.Uri.{rsync, fault_of, without_slash};
ghost use Rattle.rpki_text.specs.declared.uri.Error.TheVariants as fault;
ghost use Rattle.rpki_setup.specs.RepoInfo.{ca_repository_text, resolved_text, IsWritableRepoInfo};

use rpki_common::OutOfMemory;
use rpki_text::uri;
use std::alloc::{AllocError, Global};
use std::marker::Model;

/// Where a repository's objects are found (RFC 8183, 5.2.4). In a clause it is the record of its fields.
#[derive(Debug, PartialEq, Eq)]
pub struct RepoInfo {
    sia_base: uri::Rsync,
    rrdp_notification_uri: Option<uri::Https>,
}

impl Drop for RepoInfo {
    fn drop(self) {
        let RepoInfo {
            sia_base,
            rrdp_notification_uri,
        } = self;
    }
}

impl Model for RepoInfo {
    ghost use Rattle.rpki_setup.specs.RepoInfo.{RepoInfoFields};

    ghost Value = { RepoInfoFields };

    ghost view = { λ r. record {
      sia_base = r.sia_base;
      rrdp_notification_uri = r.rrdp_notification_uri;
    } };

    ghost inverse = { λ r. record {
      sia_base = r.sia_base;
      rrdp_notification_uri = r.rrdp_notification_uri;
    } };
}

impl RepoInfo {
    /// A repository whose objects stand below this base, and whose changes are notified here (RFC 8182), if they are.
    pub fn new(sia_base: uri::Rsync, rrdp_notification_uri: Option<uri::Https>) -> RepoInfo
        ensures { result ≡ record {
          sia_base = sia_base;
          rrdp_notification_uri = rrdp_notification_uri;
        } }
    {
        RepoInfo {
            sia_base,
            rrdp_notification_uri,
        }
    }

    /// The base, below which all objects stand. Each repository can be written so that it is read again.
    pub fn base_uri(&self) -> &uri::Rsync
        ensures base { result.now ≡ self.now.sia_base }
        ensures writable { IsWritableRepoInfo self.now }
    {
        // For the proof: the URIs are lawful.
        let _base = self.sia_base.as_str();
        if let Some(uri) = &self.rrdp_notification_uri {
            let _uri = uri.as_str();
        }
        &self.sia_base
    }

    /// Where changes are notified (RFC 8182), if they are.
    pub fn rpki_notify(&self) -> Option<&uri::Https>
        ensures { option_map (λ u. u.now) result ≡ self.now.rrdp_notification_uri }
    {
        self.rrdp_notification_uri.as_ref()
    }

    /// The repository of the CA with this name space: the base where it is empty, else the directory of that name below the base;
    /// or the first rule that this text breaks.
    pub fn ca_repository(&self, alloc: Global, name_space: &str) -> Result<uri::Rsync, uri::Error>
        ensures text { IfOk result (λ u. u ≡ ca_repository_text self.now name_space.now) }
        ensures accepted { OnOk result
            (fault_of rsync (ca_repository_text self.now name_space.now) ≡ None) }
        ensures fault { IfErr result (λ e. e ≢ fault.OutOfMemory
            → fault_of rsync (ca_repository_text self.now name_space.now) ≡ Some e) }
    {
        if name_space.is_empty() {
            return Ok(self.sia_base.clone(alloc)?);
        }
        let path = path_of(alloc, name_space.as_bytes(), b"")?;
        self.sia_base.join(alloc, &path)
    }

    /// The file of this name in the repository of the CA with this name space, or the first rule that this text breaks.
    pub fn resolve(
        &self,
        alloc: Global,
        name_space: &str,
        file_name: &str,
    ) -> Result<uri::Rsync, uri::Error>
        ensures text { IfOk result (λ u.
            u ≡ resolved_text self.now name_space.now file_name.now) }
        ensures accepted { OnOk result
            (fault_of rsync (resolved_text self.now name_space.now file_name.now) ≡ None) }
        ensures fault { IfErr result (λ e. e ≢ fault.OutOfMemory
            → fault_of rsync (resolved_text self.now name_space.now file_name.now) ≡ Some e) }
    {
        if name_space.is_empty() {
            return self.sia_base.join(alloc, file_name.as_bytes());
        }
        let path = path_of(
            alloc,
            name_space.as_bytes(),
            without_slash(file_name.as_bytes()),
        )?;
        self.sia_base.join(alloc, &path)
    }

    /// An equal value, whose texts are shared with this one.
    pub fn clone(&self, alloc: Global) -> Result<RepoInfo, OutOfMemory>
        ensures { IfOk result (λ r. r ≡ self.now) }
    {
        let sia_base = self.sia_base.clone(alloc)?;
        let rrdp_notification_uri = match &self.rrdp_notification_uri {
            None => None,
            Some(uri) => Some(uri.clone(alloc)?),
        };
        Ok(RepoInfo {
            sia_base,
            rrdp_notification_uri,
        })
    }
}

/// The name of a directory, a slash, and what stands in it.
fn path_of(alloc: Global, directory: &[u8], inside: &[u8]) -> Result<Vec<u8>, AllocError>
    ensures { IfOk result (λ v. v.items ≡ (directory.now ++ codes "/") ++ inside.now) }
{
    let mut path = directory.to_vec(alloc)?;
    path.push(b'/')?;
    path.extend_from_slice(inside)?;
    Ok(path)
}

/// A path without its first slash, if it begins with one.
fn without_slash(path: &[u8]) -> &[u8]
    ensures { result.now ≡ without_slash path.now }
{
    match path {
        [b'/', rest @ ..] => rest,
        _ => path,
    }
}
