//! All that the program does.

ghost use Rattle.std.specs.Prelude.{◌≡◌, ◌^◌, ◌+◌, ◌<◌, ◌≤◌, if◌then◌else◌};
ghost use Rattle.std.specs.Prelude.{Err, IfOk, IfSome, IsNone, length, string_bytes};
ghost use Rattle.rpki_common.specs.Limits.{most_input};
ghost use Rattle.rpki_text.specs.Source.{TakesAtMost};
ghost use Rattle.rpki_ca.specs.Answer.{Ends};
ghost use Rattle.rpki_ca.specs.Lines.{Answered, EndsRun, StopsForMemory, lines_of};
ghost use Rattle.rpki_ca.specs.Seen.{seen};
ghost use Rattle.rpki_archive.specs.Checking.{AreAllExplanations, AreAllVerdicts};
ghost use Rattle.rpki_archive.specs.Checking.{AreFirstExplanations, AreFirstVerdicts};
ghost use Rattle.rpki_archive.specs.Checking.{EndsArchiveTask, IsNoArchiveTask, IsArchiveTask};
ghost use Rattle.rpki_archive.specs.declared.checking.Task.{Task as TaskOf};
ghost use Rattle.rpki_archive.specs.Verdict.{total_of};

use crate::explanations::explanation_line;
use crate::verdicts::judge_line;
use rpki_base::{Scheme, Verifier};
use rpki_ca::{Lines, Refusal, Status, Stop, Words, finish_lines, read_input, refuse};
use rpki_common::OutOfMemory;
use rpki_text::{Sink, Source, write_all};
use std::alloc::Global;

// What is written of the messages.
#[derive(Clone, Copy)]
enum Task {
    Batch,
    Explain,
}

fn task_of(words: &Words) -> Option<Task>
    ensures some { IfSome result (IsArchiveTask words.now) }
    ensures none { IsNone result → IsNoArchiveTask words.now }
{
    if words.len() != 1 {
        return None;
    }
    match words.get(0) {
        Some("batch") => Some(Task::Batch),
        Some("explain") => Some(Task::Explain),
        _ => None,
    }
}

// How many lines there were, and of how many the message was accepted.
#[derive(Clone, Copy)]
struct Total {
    lines: u64,
    accepted: u64,
}

// The total with one line more, and with one accepted more where `accepted` says so.
fn one_more(total: Total, accepted: bool) -> Total
    requires lines { total.lines < most_input }
    requires few { total.accepted ≤ total.lines }
    ensures lines { result.lines ≡ total.lines + 1 }
    ensures accepted { result.accepted ≡ if accepted then total.accepted + 1 else total.accepted }
{
    Total {
        lines: total.lines + 1,
        accepted: if accepted {
            total.accepted + 1
        } else {
            total.accepted
        },
    }
}

fn total_line(alloc: Global, total: Total) -> Result<String, OutOfMemory>
    ensures { IfOk result (λ line. string_bytes line ≡ total_of total.lines total.accepted) }
{
    let Total { lines, accepted } = total;
    Ok(format!(in alloc; "total {lines} accepted {accepted}\n")?)
}

// Writes the verdict on each line, and their total.
fn judge_all<P: Scheme, O: Sink, V: Verifier<P>>(
    alloc: Global,
    input: &[u8],
    output: &mut O,
    verifier: &V,
) -> Result<(), Stop>
    requires { length input.now ≤ most_input }
    ensures { Answered (AreAllVerdicts P.checks (lines_of input.now))
        (AreFirstVerdicts P.checks (lines_of input.now))
        (StopsForMemory (AreFirstVerdicts P.checks (lines_of input.now))) result
        (seen O.written O.faults output.old output.new) }
{
    let mut total = Total {
        lines: 0,
        accepted: 0,
    };
    for line in Lines::new(input) {
        let judged = judge_line(alloc, line, verifier)?;
        write_all(output, judged.line.as_bytes())?;
        total = one_more(total, judged.accepted);
    }
    let closing = total_line(alloc, total)?;
    write_all(output, closing.as_bytes())?;
    Ok(())
}

// Writes the explanation of each line.
fn explain_all<P: Scheme, O: Sink, V: Verifier<P>>(
    alloc: Global,
    input: &[u8],
    output: &mut O,
    verifier: &V,
) -> Result<(), Stop>
    requires { length input.now ≤ most_input }
    ensures { Answered (AreAllExplanations P.checks (lines_of input.now))
        (AreFirstExplanations P.checks (lines_of input.now))
        (StopsForMemory (AreFirstExplanations P.checks (lines_of input.now))) result
        (seen O.written O.faults output.old output.new) }
{
    for line in Lines::new(input) {
        let explanation = explanation_line(alloc, line, verifier)?;
        write_all(output, explanation.as_bytes())?;
    }
    Ok(())
}

// Answers the whole input.
fn check_read<P: Scheme, O: Sink, V: Verifier<P>>(
    alloc: Global,
    task: Task,
    input: &[u8],
    output: &mut O,
    verifier: &V,
) -> Status
    requires { length input.now ≤ most_input }
    ensures { EndsArchiveTask P.checks task (lines_of input.now) result.0
        (seen O.written O.faults output.old output.new) }
{
    match task {
        Task::Batch => {
            let judged = judge_all(alloc, input, output, verifier);
            finish_lines(output, judged)
        }
        Task::Explain => {
            let explained = explain_all(alloc, input, output, verifier);
            finish_lines(output, explained)
        }
    }
}

/// Writes of each line of the input a line of its own. Then the exit status that it answers is 0, whatever
/// the lines are.
///
/// The only word is `batch` or `explain`. A line of the input is a message: its kind, the moment in
/// seconds since 1970, the DER of the key in hexadecimal, and the signed message in hexadecimal, with one
/// space between. With `batch` its line is what the command `receive` answers to it, whatever lines stand
/// beside it: the exit status, and the SHA-256 of the message's text in hexadecimal or the name of the
/// refusal; and a line follows with the number of lines and of those that were accepted. With `explain`
/// its line has a digit for each of the fourteen checks, 1 where it holds, or is `Usage`, `Hex` or
/// `CmsDecode` where there is nothing to check; the content isn't read.
///
/// The other exit statuses are 2 where the words are others, 9 where the input has more than 2^26 octets,
/// 10 where it fails, 11 where a write failed, and 12 where memory ran out.
pub fn check<P: Scheme, I: Source, O: Sink, V: Verifier<P>>(
    alloc: Global,
    words: &Words,
    input: &mut I,
    output: &mut O,
    verifier: &V,
) -> Status
    // Words that name no task are refused, and the source is left unread.
    ensures usage { IsNoArchiveTask words.now
        → Ends (Err Refusal.Usage) result.0 (seen O.written O.faults output.old output.new) }
    ensures unread { IsNoArchiveTask words.now → input.new ≡ input.old }

    // At most one octet more than the limit is taken of the source.
    ensures most { TakesAtMost (I.rest input.old) (I.rest input.new) (most_input + 1) }

    // Where the source isn't read whole, that is what is answered; where it is, each line is answered,
    // and no line's form ends the run.
    ensures ends { (task : TaskOf) → IsArchiveTask words.now task
        → EndsRun (λ octets. EndsArchiveTask P.checks task (lines_of octets) result.0
        (seen O.written O.faults output.old output.new))
        result.0 (seen I.rest I.faults input.old input.new)
        (seen O.written O.faults output.old output.new) }
{
    let Some(task) = task_of(words) else {
        return refuse(output, Refusal::Usage);
    };
    match read_input(alloc, input) {
        Ok(octets) => check_read(alloc, task, &octets, output, verifier),
        Err(refusal) => refuse(output, refusal),
    }
}
