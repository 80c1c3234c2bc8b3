//! What words ask for.

ghost use Rattle.std.specs.Prelude.{IfOk, IfSome, IsNone, codes};
ghost use Rattle.rpki_external.specs.Words as spec;
ghost use Rattle.rpki_external.specs.declared.task.Asked.{Asked as AskedOf};
ghost use Rattle.rpki_external.specs.declared.task.Finished.{Finished as FinishedOf};
ghost use Rattle.rpki_external.specs.declared.task.Prepared.{Prepared as PreparedOf};

use crate::task::{Asked, Finished, Prepared, Task, Verified};
use crate::word_parts::{
    answers_at, few_keys_from, last_at, plan_at, request_plan_at, signature_at, signatures_at,
    validity_at,
};
use rpki_ca::Words;
use rpki_common::OutOfMemory;
use std::alloc::Global;

// ---- `questions`

// The questions of a signed message, if the words behind are keys.
#[tactic(auto, using(crate::proofs::NoTasks::no_message_asked))]
fn message_asked(alloc: Global, words: &Words) -> Result<Option<Asked>, OutOfMemory>
    requires first { spec.HasWord words.now 0 (codes "questions") }
    requires second { spec.HasWord words.now 1 (codes "message") }
    ensures some { IfOk result (λ o. IfSome o (spec.IsAsked words.now)) }
    ensures none { IfOk result (λ o. IsNone o → (what : AskedOf)
        → spec.IsAsked words.now what → ⊥) }
{
    match few_keys_from(alloc, words, 2)? {
        Some(keys) => Ok(Some(Asked::Message { keys })),
        None => Ok(None),
    }
}

// The questions of a setup message, if the one word behind names its kind.
#[tactic(auto, using(crate::proofs::NoTasks::no_setup_asked))]
fn setup_asked(words: &Words) -> Option<Asked>
    requires first { spec.HasWord words.now 0 (codes "questions") }
    requires second { spec.HasWord words.now 1 (codes "setup") }
    ensures some { IfSome result (spec.IsAsked words.now) }
    ensures none { IsNone result → (what : AskedOf) → spec.IsAsked words.now what → ⊥ }
{
    if words.len() != 3 {
        return None;
    }
    match words.setup_kind(2) {
        Some(kind) => Some(Asked::Setup { kind }),
        None => None,
    }
}

// The questions of a certificate request, if there is no word behind.
#[tactic(auto, using(crate::proofs::NoTasks::no_request_asked))]
fn request_asked(words: &Words) -> Option<Asked>
    requires first { spec.HasWord words.now 0 (codes "questions") }
    requires second { spec.HasWord words.now 1 (codes "request") }
    ensures some { IfSome result (spec.IsAsked words.now) }
    ensures none { IsNone result → (what : AskedOf) → spec.IsAsked words.now what → ⊥ }
{
    if words.len() != 2 {
        return None;
    }
    Some(Asked::Request)
}

// The questions of an issue request, if there is no word behind.
#[tactic(auto, using(crate::proofs::NoTasks::no_issue_asked))]
fn issue_asked(words: &Words) -> Option<Asked>
    requires first { spec.HasWord words.now 0 (codes "questions") }
    requires second { spec.HasWord words.now 1 (codes "issue") }
    ensures some { IfSome result (spec.IsAsked words.now) }
    ensures none { IsNone result → (what : AskedOf) → spec.IsAsked words.now what → ⊥ }
{
    if words.len() != 2 {
        return None;
    }
    Some(Asked::Issue)
}

// What has the questions that the words behind `questions` ask for.
#[tactic(auto, using(crate::proofs::NoTasks::no_asked))]
fn asked_in(alloc: Global, words: &Words) -> Result<Option<Asked>, OutOfMemory>
    requires { spec.HasWord words.now 0 (codes "questions") }
    ensures some { IfOk result (λ o. IfSome o (spec.IsAsked words.now)) }
    ensures none { IfOk result (λ o. IsNone o → (what : AskedOf)
        → spec.IsAsked words.now what → ⊥) }
{
    match words.get(1) {
        Some("message") => message_asked(alloc, words),
        Some("setup") => Ok(setup_asked(words)),
        Some("request") => Ok(request_asked(words)),
        Some("issue") => Ok(issue_asked(words)),
        _ => Ok(None),
    }
}

// The task `questions`, if the words behind it are of its form.
#[tactic(auto, using(crate::proofs::NoTasks::no_questions))]
fn questions_task(alloc: Global, words: &Words) -> Result<Option<Task>, OutOfMemory>
    requires { spec.HasWord words.now 0 (codes "questions") }
    ensures some { IfOk result (λ o. IfSome o (spec.IsKeysTask words.now)) }
    ensures none { IfOk result (λ o. IsNone o → spec.IsNoKeysTask words.now) }
{
    match asked_in(alloc, words)? {
        Some(what) => Ok(Some(Task::Ask(what))),
        None => Ok(None),
    }
}

// ---- what is verified by answers

// The task `receive`, if the words behind it are of its form.
#[tactic(auto, using(crate::proofs::NoTasks::no_receive))]
fn receive_task(alloc: Global, words: &Words) -> Result<Option<Task>, OutOfMemory>
    requires { spec.HasWord words.now 0 (codes "receive") }
    ensures some { IfOk result (λ o. IfSome o (spec.IsKeysTask words.now)) }
    ensures none { IfOk result (λ o. IsNone o → spec.IsNoKeysTask words.now) }
{
    let Some(kind) = words.kind(1) else {
        return Ok(None);
    };
    let Some(when) = words.moment(2) else {
        return Ok(None);
    };
    let Some(last) = last_at(words, 3) else {
        return Ok(None);
    };
    let Some(answers) = answers_at(alloc, words, 4)? else {
        return Ok(None);
    };
    let Some(keys) = few_keys_from(alloc, words, 6)? else {
        return Ok(None);
    };
    let what = Verified::Message {
        kind,
        when,
        last,
        keys,
    };
    Ok(Some(Task::Verify { what, answers }))
}

// The task `explain`, if the words behind it are of its form.
#[tactic(auto, using(crate::proofs::NoTasks::no_explain))]
fn explain_task(alloc: Global, words: &Words) -> Result<Option<Task>, OutOfMemory>
    requires { spec.HasWord words.now 0 (codes "explain") }
    ensures some { IfOk result (λ o. IfSome o (spec.IsKeysTask words.now)) }
    ensures none { IfOk result (λ o. IsNone o → spec.IsNoKeysTask words.now) }
{
    if words.len() != 5 {
        return Ok(None);
    }
    let Some(when) = words.moment(1) else {
        return Ok(None);
    };
    let Some(answers) = answers_at(alloc, words, 2)? else {
        return Ok(None);
    };
    match words.key(alloc, 4)? {
        Some(key) => Ok(Some(Task::Verify {
            what: Verified::Checks { when, key },
            answers,
        })),
        None => Ok(None),
    }
}

// The task `setup`, if the words behind it are of its form.
#[tactic(auto, using(crate::proofs::NoTasks::no_setup))]
fn setup_task(alloc: Global, words: &Words) -> Result<Option<Task>, OutOfMemory>
    requires { spec.HasWord words.now 0 (codes "setup") }
    ensures some { IfOk result (λ o. IfSome o (spec.IsKeysTask words.now)) }
    ensures none { IfOk result (λ o. IsNone o → spec.IsNoKeysTask words.now) }
{
    if words.len() != 5 {
        return Ok(None);
    }
    let Some(kind) = words.setup_kind(1) else {
        return Ok(None);
    };
    let Some(when) = words.moment(2) else {
        return Ok(None);
    };
    match answers_at(alloc, words, 3)? {
        Some(answers) => Ok(Some(Task::Verify {
            what: Verified::Setup { kind, when },
            answers,
        })),
        None => Ok(None),
    }
}

// The task `request`, if the words behind it are of its form.
#[tactic(auto, using(crate::proofs::NoTasks::no_request))]
fn request_task(alloc: Global, words: &Words) -> Result<Option<Task>, OutOfMemory>
    requires { spec.HasWord words.now 0 (codes "request") }
    ensures some { IfOk result (λ o. IfSome o (spec.IsKeysTask words.now)) }
    ensures none { IfOk result (λ o. IsNone o → spec.IsNoKeysTask words.now) }
{
    if words.len() != 3 {
        return Ok(None);
    }
    match answers_at(alloc, words, 1)? {
        Some(answers) => Ok(Some(Task::Verify {
            what: Verified::Request,
            answers,
        })),
        None => Ok(None),
    }
}

// The task `issue`, if the words behind it are of its form.
#[tactic(auto, using(crate::proofs::NoTasks::no_issue))]
fn issue_task(alloc: Global, words: &Words) -> Result<Option<Task>, OutOfMemory>
    requires { spec.HasWord words.now 0 (codes "issue") }
    ensures some { IfOk result (λ o. IfSome o (spec.IsKeysTask words.now)) }
    ensures none { IfOk result (λ o. IsNone o → spec.IsNoKeysTask words.now) }
{
    if words.len() != 3 {
        return Ok(None);
    }
    match answers_at(alloc, words, 1)? {
        Some(answers) => Ok(Some(Task::Verify {
            what: Verified::Issue,
            answers,
        })),
        None => Ok(None),
    }
}

// ---- `inspect`

// The task `inspect`, if there is no word behind it.
#[tactic(auto, using(crate::proofs::NoTasks::no_inspect))]
fn inspect_task(words: &Words) -> Option<Task>
    requires { spec.HasWord words.now 0 (codes "inspect") }
    ensures some { IfSome result (spec.IsKeysTask words.now) }
    ensures none { IsNone result → spec.IsNoKeysTask words.now }
{
    if words.len() != 1 {
        return None;
    }
    Some(Task::Inspect)
}

// ---- `prepare`

// What is to be signed of a message, if the five words behind are of its form.
#[tactic(auto, using(crate::proofs::NoTasks::no_message_prepared))]
fn message_prepared(alloc: Global, words: &Words) -> Result<Option<Prepared>, OutOfMemory>
    requires first { spec.HasWord words.now 0 (codes "prepare") }
    requires second { spec.HasWord words.now 1 (codes "message") }
    ensures some { IfOk result (λ o. IfSome o (spec.IsPrepared words.now)) }
    ensures none { IfOk result (λ o. IsNone o → (what : PreparedOf)
        → spec.IsPrepared words.now what → ⊥) }
{
    if words.len() != 7 {
        return Ok(None);
    }
    let Some(kind) = words.kind(2) else {
        return Ok(None);
    };
    match plan_at(alloc, words, 3)? {
        Some(plan) => Ok(Some(Prepared::Message { kind, plan })),
        None => Ok(None),
    }
}

// What is to be signed of a key's own certificate, if the three words behind are of its form.
#[tactic(auto, using(crate::proofs::NoTasks::no_anchor_prepared))]
fn anchor_prepared(alloc: Global, words: &Words) -> Result<Option<Prepared>, OutOfMemory>
    requires first { spec.HasWord words.now 0 (codes "prepare") }
    requires second { spec.HasWord words.now 1 (codes "anchor") }
    ensures some { IfOk result (λ o. IfSome o (spec.IsPrepared words.now)) }
    ensures none { IfOk result (λ o. IsNone o → (what : PreparedOf)
        → spec.IsPrepared words.now what → ⊥) }
{
    if words.len() != 5 {
        return Ok(None);
    }
    let Some(validity) = validity_at(words, 2) else {
        return Ok(None);
    };
    match words.key(alloc, 4)? {
        Some(key) => Ok(Some(Prepared::Anchor { validity, key })),
        None => Ok(None),
    }
}

// What is to be signed of a certificate request, if the four words behind are of its form.
#[tactic(auto, using(crate::proofs::NoTasks::no_request_prepared))]
fn request_prepared(alloc: Global, words: &Words) -> Result<Option<Prepared>, OutOfMemory>
    requires first { spec.HasWord words.now 0 (codes "prepare") }
    requires second { spec.HasWord words.now 1 (codes "request") }
    ensures some { IfOk result (λ o. IfSome o (spec.IsPrepared words.now)) }
    ensures none { IfOk result (λ o. IsNone o → (what : PreparedOf)
        → spec.IsPrepared words.now what → ⊥) }
{
    if words.len() != 6 {
        return Ok(None);
    }
    match request_plan_at(alloc, words, 2)? {
        Some(plan) => Ok(Some(Prepared::Request { plan })),
        None => Ok(None),
    }
}

// What the words behind `prepare` ask to prepare.
#[tactic(auto, using(crate::proofs::NoTasks::no_prepared))]
fn prepared_in(alloc: Global, words: &Words) -> Result<Option<Prepared>, OutOfMemory>
    requires { spec.HasWord words.now 0 (codes "prepare") }
    ensures some { IfOk result (λ o. IfSome o (spec.IsPrepared words.now)) }
    ensures none { IfOk result (λ o. IsNone o → (what : PreparedOf)
        → spec.IsPrepared words.now what → ⊥) }
{
    match words.get(1) {
        Some("message") => message_prepared(alloc, words),
        Some("anchor") => anchor_prepared(alloc, words),
        Some("request") => request_prepared(alloc, words),
        _ => Ok(None),
    }
}

// The task `prepare`, if the words behind it are of its form.
#[tactic(auto, using(crate::proofs::NoTasks::no_prepare))]
fn prepare_task(alloc: Global, words: &Words) -> Result<Option<Task>, OutOfMemory>
    requires { spec.HasWord words.now 0 (codes "prepare") }
    ensures some { IfOk result (λ o. IfSome o (spec.IsKeysTask words.now)) }
    ensures none { IfOk result (λ o. IsNone o → spec.IsNoKeysTask words.now) }
{
    match prepared_in(alloc, words)? {
        Some(what) => Ok(Some(Task::Prepare(what))),
        None => Ok(None),
    }
}

// ---- `finish`

// A signed message, if the eight words behind are of its form.
#[tactic(auto, using(crate::proofs::NoTasks::no_message_finished))]
fn message_finished(alloc: Global, words: &Words) -> Result<Option<Finished>, OutOfMemory>
    requires first { spec.HasWord words.now 0 (codes "finish") }
    requires second { spec.HasWord words.now 1 (codes "message") }
    ensures some { IfOk result (λ o. IfSome o (spec.IsFinished words.now)) }
    ensures none { IfOk result (λ o. IsNone o → (what : FinishedOf)
        → spec.IsFinished words.now what → ⊥) }
{
    if words.len() != 10 {
        return Ok(None);
    }
    let Some(kind) = words.kind(2) else {
        return Ok(None);
    };
    let Some(plan) = plan_at(alloc, words, 3)? else {
        return Ok(None);
    };
    match signatures_at(alloc, words, 7)? {
        Some(signatures) => Ok(Some(Finished::Message {
            kind,
            plan,
            signatures,
        })),
        None => Ok(None),
    }
}

// A key's own certificate, if the four words behind are of its form.
#[tactic(auto, using(crate::proofs::NoTasks::no_anchor_finished))]
fn anchor_finished(alloc: Global, words: &Words) -> Result<Option<Finished>, OutOfMemory>
    requires first { spec.HasWord words.now 0 (codes "finish") }
    requires second { spec.HasWord words.now 1 (codes "anchor") }
    ensures some { IfOk result (λ o. IfSome o (spec.IsFinished words.now)) }
    ensures none { IfOk result (λ o. IsNone o → (what : FinishedOf)
        → spec.IsFinished words.now what → ⊥) }
{
    if words.len() != 6 {
        return Ok(None);
    }
    let Some(validity) = validity_at(words, 2) else {
        return Ok(None);
    };
    let Some(key) = words.key(alloc, 4)? else {
        return Ok(None);
    };
    match signature_at(alloc, words, 5, b"anchor")? {
        Some(signature) => Ok(Some(Finished::Anchor {
            validity,
            key,
            signature,
        })),
        None => Ok(None),
    }
}

// A certificate request, if the five words behind are of its form.
#[tactic(auto, using(crate::proofs::NoTasks::no_request_finished))]
fn request_finished(alloc: Global, words: &Words) -> Result<Option<Finished>, OutOfMemory>
    requires first { spec.HasWord words.now 0 (codes "finish") }
    requires second { spec.HasWord words.now 1 (codes "request") }
    ensures some { IfOk result (λ o. IfSome o (spec.IsFinished words.now)) }
    ensures none { IfOk result (λ o. IsNone o → (what : FinishedOf)
        → spec.IsFinished words.now what → ⊥) }
{
    if words.len() != 7 {
        return Ok(None);
    }
    let Some(plan) = request_plan_at(alloc, words, 2)? else {
        return Ok(None);
    };
    match signature_at(alloc, words, 6, b"request")? {
        Some(signature) => Ok(Some(Finished::Request { plan, signature })),
        None => Ok(None),
    }
}

// What the words behind `finish` ask to finish.
#[tactic(auto, using(crate::proofs::NoTasks::no_finished))]
fn finished_in(alloc: Global, words: &Words) -> Result<Option<Finished>, OutOfMemory>
    requires { spec.HasWord words.now 0 (codes "finish") }
    ensures some { IfOk result (λ o. IfSome o (spec.IsFinished words.now)) }
    ensures none { IfOk result (λ o. IsNone o → (what : FinishedOf)
        → spec.IsFinished words.now what → ⊥) }
{
    match words.get(1) {
        Some("message") => message_finished(alloc, words),
        Some("anchor") => anchor_finished(alloc, words),
        Some("request") => request_finished(alloc, words),
        _ => Ok(None),
    }
}

// The task `finish`, if the words behind it are of its form.
#[tactic(auto, using(crate::proofs::NoTasks::no_finish))]
fn finish_task(alloc: Global, words: &Words) -> Result<Option<Task>, OutOfMemory>
    requires { spec.HasWord words.now 0 (codes "finish") }
    ensures some { IfOk result (λ o. IfSome o (spec.IsKeysTask words.now)) }
    ensures none { IfOk result (λ o. IsNone o → spec.IsNoKeysTask words.now) }
{
    match finished_in(alloc, words)? {
        Some(what) => Ok(Some(Task::Finish(what))),
        None => Ok(None),
    }
}

// ---- all of them

/// What the words ask for; None exactly where they ask for nothing.
#[tactic(auto, using(crate::proofs::NoTasks::no_verb, crate::proofs::Tasks::has_few))]
pub(crate) fn task_of(alloc: Global, words: &Words) -> Result<Option<Task>, OutOfMemory>
    ensures some { IfOk result (λ o. IfSome o (spec.IsKeysTask words.now)) }
    ensures few { IfOk result (λ o. IfSome o spec.HasFewKeys) }
    ensures none { IfOk result (λ o. IsNone o → spec.IsNoKeysTask words.now) }
{
    match words.get(0) {
        Some("questions") => questions_task(alloc, words),
        Some("receive") => receive_task(alloc, words),
        Some("explain") => explain_task(alloc, words),
        Some("setup") => setup_task(alloc, words),
        Some("request") => request_task(alloc, words),
        Some("issue") => issue_task(alloc, words),
        Some("inspect") => Ok(inspect_task(words)),
        Some("prepare") => prepare_task(alloc, words),
        Some("finish") => finish_task(alloc, words),
        _ => Ok(None),
    }
}
