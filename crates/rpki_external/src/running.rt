//! All that the program does.

ghost use Rattle.std.specs.Prelude.{◌+◌, ◌≡◌, ◌≢◌, ◌⊎◌, [], Decides, Ok, Err, IfErr, IfOk};
ghost use Rattle.rpki_common.specs.Limits.{most_input};
ghost use Rattle.rpki_text.specs.Source.{TakesAtMost};
ghost use Rattle.rpki_ca.specs.Answer.{Ends};
ghost use Rattle.rpki_ca.specs.Hexadecimal.{hexadecimal};
ghost use Rattle.rpki_ca.specs.Lines.{EndsRun};
ghost use Rattle.rpki_ca.specs.Seen.{seen};
ghost use Rattle.rpki_ca.specs.declared.refusals.Refusal.TheVariants as refusals;
ghost use Rattle.rpki_external.specs.Running as spec;
ghost use Rattle.rpki_external.specs.Words.{HasFewKeys, IsNoKeysTask, IsKeysTask};
ghost use Rattle.rpki_external.specs.declared.keys_refusal.KeysRefusal.TheVariants as variant;
ghost use Rattle.rpki_external.specs.declared.task.Task.{Task as TaskOf};
ghost use Rattle.rpki_external.specs.declared.task.Task.TheVariants as tasks;

use crate::answering::{
    ask_issue, ask_message, ask_request, ask_setup, explain, finish_anchor_line, finish_message,
    finish_request_line, inspect_message, prepare_anchor_line, prepare_message,
    prepare_request_line, receive, set_up, verify_issue, verify_request,
};
use crate::answers::Answers;
use crate::keys_refusal::KeysRefusal;
use crate::task::{Asked, Finished, Prepared, Task, Verified};
use crate::task_words::task_of;
use rpki_ca::{Refusal, Status, Words, input_octets, read_input};
use rpki_text::{Sink, Source, write_all};
use std::alloc::Global;

// What `questions` writes.
fn ask(alloc: Global, what: Asked, input: Vec<u8>) -> Result<Vec<u8>, KeysRefusal>
    requires { HasFewKeys (tasks.Ask what) }
    ensures ok { IfOk result (λ output. spec.IsAskedAnswer what input.items (Ok output.items)) }
    ensures err { IfErr result (λ e. e ≢ variant.General refusals.OutOfMemory
        → spec.IsAskedAnswer what input.items (Err e)) }
{
    match what {
        Asked::Message { keys } => {
            let octets = input_octets(alloc, input)?;
            ask_message(alloc, &octets, keys.as_slice())
        }
        Asked::Setup { kind } => ask_setup(alloc, &input, kind),
        Asked::Request => {
            let octets = input_octets(alloc, input)?;
            ask_request(alloc, &octets)
        }
        Asked::Issue => ask_issue(alloc, &input),
    }
}

// What is written of what is verified by answers.
fn verify(
    alloc: Global,
    what: Verified,
    answers: &Answers,
    input: Vec<u8>,
) -> Result<Vec<u8>, KeysRefusal>
    requires { HasFewKeys (tasks.Verify what answers.now) }
    ensures ok { IfOk result (λ output.
        spec.IsVerifiedSo what answers.now input.items (Ok output.items)) }
    ensures err { IfErr result (λ e. e ≢ variant.General refusals.OutOfMemory
        → spec.IsVerifiedSo what answers.now input.items (Err e)) }
{
    match what {
        Verified::Message {
            kind,
            when,
            last,
            keys,
        } => {
            let octets = input_octets(alloc, input)?;
            receive(alloc, &octets, kind, keys.as_slice(), when, last, answers)
        }
        Verified::Checks { when, key } => {
            let octets = input_octets(alloc, input)?;
            explain(alloc, &octets, &key, when, answers)
        }
        Verified::Setup { kind, when } => set_up(alloc, &input, kind, when, answers),
        Verified::Request => {
            let octets = input_octets(alloc, input)?;
            verify_request(alloc, &octets, answers)
        }
        Verified::Issue => verify_issue(alloc, &input, answers),
    }
}

// What `prepare` writes.
fn prepare(alloc: Global, what: Prepared, input: Vec<u8>) -> Result<Vec<u8>, KeysRefusal>
    ensures ok { IfOk result (λ output. spec.IsPreparedAnswer what input.items (Ok output.items)) }
    ensures err { IfErr result (λ e. e ≢ variant.General refusals.OutOfMemory
        → spec.IsPreparedAnswer what input.items (Err e)) }
{
    match what {
        Prepared::Message { kind, plan } => prepare_message(alloc, &input, kind, &plan),
        Prepared::Anchor { validity, key } => prepare_anchor_line(alloc, validity, &key),
        Prepared::Request { plan } => prepare_request_line(alloc, &plan),
    }
}

// What `finish` writes.
fn finish(alloc: Global, what: Finished, input: Vec<u8>) -> Result<Vec<u8>, KeysRefusal>
    ensures ok { IfOk result (λ output. spec.IsFinishedAnswer what input.items (Ok output.items)) }
    ensures err { IfErr result (λ e. e ≢ variant.General refusals.OutOfMemory
        → spec.IsFinishedAnswer what input.items (Err e)) }
{
    match what {
        Finished::Message {
            kind,
            plan,
            signatures,
        } => finish_message(alloc, &input, kind, &plan, signatures),
        Finished::Anchor {
            validity,
            key,
            signature,
        } => finish_anchor_line(alloc, validity, &key, signature),
        Finished::Request { plan, signature } => finish_request_line(alloc, &plan, signature),
    }
}

// What `inspect` writes.
fn look(alloc: Global, input: Vec<u8>) -> Result<Vec<u8>, KeysRefusal>
    ensures ok { IfOk result (λ output.
        spec.OfSpelled spec.IsInspectAnswer (hexadecimal input.items) (Ok output.items)) }
    ensures err { IfErr result (λ e. e ≢ variant.General refusals.OutOfMemory
        → spec.OfSpelled spec.IsInspectAnswer (hexadecimal input.items) (Err e)) }
{
    let octets = input_octets(alloc, input)?;
    inspect_message(alloc, &octets)
}

// What is written of a task and input.
fn perform(alloc: Global, task: Task, input: Vec<u8>) -> Result<Vec<u8>, KeysRefusal>
    requires { HasFewKeys task }
    ensures ok { IfOk result (λ output. spec.IsTaskAnswer task input.items (Ok output.items)) }
    ensures err { IfErr result (λ e. e ≢ variant.General refusals.OutOfMemory
        → spec.IsTaskAnswer task input.items (Err e)) }
{
    match task {
        Task::Ask(what) => ask(alloc, what, input),
        Task::Verify { what, answers } => verify(alloc, what, &answers, input),
        Task::Inspect => look(alloc, input),
        Task::Prepare(what) => prepare(alloc, what, input),
        Task::Finish(what) => finish(alloc, what, input),
    }
}

// Writes the line of the refusal and answers its status, or 11 where a write failed. It takes no memory.
fn refuse<O: Sink>(output: &mut O, refusal: KeysRefusal) -> Status
    ensures { spec.EndsRefusedSo refusal result.0 (seen O.written O.faults output.old output.new) }
{
    match write_all(output, refusal.line().as_str().as_bytes()) {
        Ok(()) => Status(refusal.status()),
        Err(_) => Status(11),
    }
}

// Answers a task to an input that was read.
fn run_read<O: Sink>(alloc: Global, task: Task, input: Vec<u8>, output: &mut O) -> Status
    requires { HasFewKeys task }
    ensures { spec.EndsKeysTask task input.items result.0
        (seen O.written O.faults output.old output.new) }
{
    match perform(alloc, task, input) {
        Ok(text) => match write_all(output, &text) {
            Ok(()) => Status(0),
            Err(_) => Status(11),
        },
        Err(refusal) => refuse(output, refusal),
    }
}

impl Task {
    // Whether it reads input.
    fn reads_input(&self) -> bool
        ensures { Decides result (spec.ReadsTaskInput self.now) }
    {
        match self {
            Task::Prepare(Prepared::Anchor { .. } | Prepared::Request { .. }) => false,
            Task::Finish(Finished::Anchor { .. } | Finished::Request { .. }) => false,
            _ => true,
        }
    }
}

// What the words ask for.
fn task_in(alloc: Global, words: &Words) -> Result<Task, Refusal>
    ensures some { IfOk result (IsKeysTask words.now) }
    ensures few { IfOk result HasFewKeys }
    ensures err { IfErr result (λ e. e ≢ Refusal.OutOfMemory
        → (e ≡ Refusal.Usage) × IsNoKeysTask words.now) }
{
    match task_of(alloc, words)? {
        Some(task) => Ok(task),
        None => Err(Refusal::Usage),
    }
}

/// Does what the words ask for with the input, and answers the exit status: 0, that of a refusal, or 11 where a write failed. All
/// that is written is made before the first write.
pub fn run_keys<I: Source, O: Sink>(
    alloc: Global,
    words: &Words,
    input: &mut I,
    output: &mut O,
) -> Status
    // Other words are refused, and the source is left unread.
    ensures usage { IsNoKeysTask words.now → Ends (Err Refusal.Usage) result.0
        (seen O.written O.faults output.old output.new)
        ⊎ Ends (Err Refusal.OutOfMemory) result.0
        (seen O.written O.faults output.old output.new) }
    ensures unread { IsNoKeysTask words.now → input.new ≡ input.old }

    // At most one octet more than the limit is taken of the source.
    ensures most { TakesAtMost (I.rest input.old) (I.rest input.new) (most_input + 1) }

    // A task that reads no input leaves the source unread, and ends with the answer to the words, or for want of memory.
    ensures alone { (task : TaskOf) → IsKeysTask words.now task → ¬ (spec.ReadsTaskInput task)
        → (input.new ≡ input.old) × (Ends (Err Refusal.OutOfMemory) result.0
        (seen O.written O.faults output.old output.new)
        ⊎ spec.EndsKeysTask task [] result.0 (seen O.written O.faults output.old output.new)) }

    // Where reading stops early, the cause of that is the answer; where the source is read whole, the call ends with the answer to the
    // words and what was read, or for want of memory.
    ensures ends { (task : TaskOf) → IsKeysTask words.now task → spec.ReadsTaskInput task
        → Ends (Err Refusal.OutOfMemory) result.0 (seen O.written O.faults output.old output.new)
        ⊎ EndsRun (λ octets. spec.EndsKeysTask task octets result.0
        (seen O.written O.faults output.old output.new))
        result.0 (seen I.rest I.faults input.old input.new)
        (seen O.written O.faults output.old output.new) }
{
    let task = match task_in(alloc, words) {
        Ok(task) => task,
        Err(refusal) => return refuse(output, KeysRefusal::General(refusal)),
    };
    if !task.reads_input() {
        return run_read(alloc, task, Vec::new(alloc), output);
    }
    match read_input(alloc, input) {
        Ok(octets) => run_read(alloc, task, octets, output),
        Err(refusal) => refuse(output, KeysRefusal::General(refusal)),
    }
}
