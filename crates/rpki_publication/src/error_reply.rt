//! Replies that report errors.

ghost use Rattle.std.specs.Prelude.{◌≡◌, ◌≢◌, ◌↔◌, ◌++◌, ◌∷◌, [], Some, codes, IfOk, IfErr, IsTrue, OnOk, OnErr};
ghost use Rattle.std.specs.List.{AllByRecursion};
ghost use Rattle.std.specs.Fmt.{WritesOnOk};
ghost use Rattle.rpki_publication.specs.ErrorReply.{shown_reply, shown_one, shown_errors};
ghost use Rattle.rpki_publication.specs.ReportError.{IsWritableError};

use crate::report_error::ReportError;
use rpki_common::{OutOfMemory, Sequence};
use std::alloc::Global;
use std::fmt;
use std::marker::Model;

/// Errors that a server reports (RFC 8181, 2.4). In a clause it is the list of them.
#[derive(Debug, Drop, PartialEq, Eq)]
pub struct ErrorReply {
    errors: Sequence<ReportError>,
}

impl Model for ErrorReply {
    ghost use Rattle.std.specs.Prelude.{List};
    ghost use Rattle.rpki_publication.specs.ReportError.{ReportErrorFields};

    ghost Value = { List ReportErrorFields };

    ghost view = { λ r. r.errors };

    ghost inverse = { λ list. record { errors = list } };
}

impl ErrorReply {
    /// No error yet; a message with none is read as an empty list. It takes no memory; later growth takes it from `alloc`.
    pub fn empty(alloc: Global) -> ErrorReply
        ensures { result ≡ [] }
    {
        ErrorReply {
            errors: Sequence::new(alloc),
        }
    }

    /// The errors of a list.
    pub(crate) fn of(errors: Vec<ReportError>) -> ErrorReply
        ensures { result ≡ errors.items }
    {
        ErrorReply {
            errors: Sequence::from_vec(errors),
        }
    }

    /// The reply with one error. On want of memory the error comes back.
    pub fn for_error(alloc: Global, error: ReportError) -> Result<ErrorReply, ReportError>
        ensures value { IfOk result (λ r. r ≡ error ∷ []) }
        ensures back { IfErr result (λ e. e ≡ error) }
    {
        let mut reply = ErrorReply::empty(alloc);
        match reply.add_error(error) {
            Ok(()) => Ok(reply),
            Err(error) => Err(error),
        }
    }

    /// Adds an error behind the others. On want of memory the reply is as before, and it comes back.
    pub fn add_error(&mut self, error: ReportError) -> Result<(), ReportError>
        ensures ok { OnOk result (self.new ≡ self.old ++ error ∷ []) }
        ensures err { OnErr result (self.new ≡ self.old) }
        ensures back { IfErr result (λ e. e ≡ error) }
    {
        match self.errors.push(error) {
            Ok(()) => Ok(()),
            Err(failed) => Err(failed.value),
        }
    }

    /// The errors, lent in their order.
    pub fn errors(&self) -> &[ReportError]
        ensures { result.now ≡ self.now }
    {
        self.errors.as_slice()
    }

    /// Whether it can be written so that it is read again: there is an error, and each can. It takes no memory.
    pub fn is_writable(&self) -> bool
        ensures { IsTrue result ↔ ((self.now ≢ []) × AllByRecursion IsWritableError self.now) }
    {
        !self.errors().is_empty() && are_writable(self.errors())
    }

    /// An equal reply, whose texts are shared with this one.
    pub fn clone(&self, alloc: Global) -> Result<ErrorReply, OutOfMemory>
        ensures { IfOk result (λ r. r ≡ self.now) }
    {
        Ok(ErrorReply::of(copied(alloc, self.errors())?))
    }
}

// Whether each error can be written so that it is read again.
fn are_writable(errors: &[ReportError]) -> bool
    ensures { IsTrue result ↔ AllByRecursion IsWritableError errors.now }
{
    for error in errors {
        if !error.is_writable() {
            return false;
        }
    }
    true
}

// Equal errors.
fn copied(alloc: Global, errors: &[ReportError]) -> Result<Vec<ReportError>, OutOfMemory>
    ensures { IfOk result (λ v. v.items ≡ errors.now) }
{
    let mut copies = Vec::with_capacity(alloc, errors.len())?;
    for e in errors {
        copies.push(e.clone(alloc)?)?;
    }
    Ok(copies)
}

// An error, as it is printed among others.
fn show_error<W: fmt::Write>(f: &mut fmt::Formatter<W>, error: &ReportError) -> fmt::Result
    ensures { WritesOnOk W.write_str_gives f.old result (shown_one error.now) f.new }
{
    f.write_str("error code: ")?;
    f.write_str(error.error_code().as_str())?;
    match error.own_text() {
        None => f.write_str(" "),
        Some(text) => {
            f.write_str(", text: ")?;
            f.write_str(text.as_str())?;
            f.write_str(" ")
        }
    }
}

// Errors, one after the other.
fn show_errors<W: fmt::Write>(f: &mut fmt::Formatter<W>, errors: &[ReportError]) -> fmt::Result
    ensures { WritesOnOk W.write_str_gives f.old result (shown_errors errors.now) f.new }
{
    let mut left = errors;
    'errors: while let Some((error, more)) = left.split_first() {
        show_error(f, error)?;
        left = more;
    }
    Ok(())
}

impl fmt::Display for ErrorReply {
    ghost output = { λ r. Some (shown_reply r) };

    fn fmt<W: fmt::Write>(&self, f: &mut fmt::Formatter<W>) -> fmt::Result {
        f.write_str("error reply including: ")?;
        show_errors(f, self.errors())
    }
}
