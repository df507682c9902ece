//! The top call: from command words, files and a sink to a status.

ghost use Rattle.std.specs.Prelude.{◌≡◌, ◌↔◌, ◌≤◌, ℕ, List, None, IfSome};
ghost use Rattle.wcet_io.specs.Causes.{Rose};
ghost use Rattle.wcet_engine.specs.Given.{read_by};
ghost use Rattle.wcet_engine.specs.Words.{form_of, words_of};

use crate::answer::{Answer, answer_for};
use crate::contents::Stopped;
use crate::text::print_answer;
use crate::words::{Command, form_of};
use std::alloc::Global;
use wcet_io::{Shelf, Sink, deliver};

/// How a call ended. The program's exit statuses are 0 to 7 in this order.
#[derive(Clone, Copy, Debug, PartialEq, Eq)]
pub enum Status {
    /// The output was taken whole.
    Done,
    /// The words have no form; nothing was read or written.
    Usage,
    /// The files have a fault; the refusal line was taken whole.
    Refused,
    /// The shelf failed; nothing was written.
    ReadFault,
    /// The sink failed; it took a front of the output.
    WriteFault,
    /// No memory was left; nothing was written.
    Memory,
    /// A bound that some counts may not reach. It doesn't come yet.
    Open,
    /// A report that doesn't hold. It doesn't come yet.
    Rejected,
}

ghost use Rattle.wcet_engine.specs.Outcomes.{Told, Wrote, status_of};

/// Analyses the files that the words name, and writes the answer to the sink.
///
/// All output is made before the first byte is written.
pub fn wcet_main<F: Shelf, O: Sink>(
    alloc: Global,
    words: &[String],
    files: &mut F,
    out: &mut O,
) -> Status
    // Usage comes exactly where the words have no form, and then nothing is read or written.
    ensures usage { (result ≡ Status.Usage) ↔ (form_of (words_of words.now) ≡ None) }
    ensures unread { result ≡ Status.Usage → files.new ≡ files.old }
    ensures unwritten { result ≡ Status.Usage → out.new ≡ out.old }

    // What is written, for the contents that the shelf tells: the lines of an analysis for which the
    // headline holds, or the first fault with its place.
    ensures wrote { IfSome (form_of (words_of words.now)) (λ form.
        Wrote form.command (read_by (F.told files.old) form) result (O.held out.old) (O.held out.new)) }

    // The faults of the shelf and of the sink.
    ensures read { result ≡ Status.ReadFault → Rose (F.faults files.old) (F.faults files.new) }
    ensures write { result ≡ Status.WriteFault → Rose (O.faults out.old) (O.faults out.new) }
    ensures files_later { F.faults files.old ≤ F.faults files.new }
    ensures out_later { O.faults out.old ≤ O.faults out.new }
    ensures kept { (name : List ℕ) → F.told files.new name ≡ F.told files.old name }
{
    let Some(form) = form_of(words) else {
        return Status::Usage;
    };
    let answer = match answer_for(alloc, files, &form) {
        Ok(answer) => answer,
        Err(Stopped::Read) => return Status::ReadFault,
        Err(Stopped::Memory) => return Status::Memory,
    };
    tell(alloc, form.command, &answer, out)
}

/// Writes the text of an answer to a command to the sink.
fn tell<O: Sink>(alloc: Global, command: Command, answer: &Answer, out: &mut O) -> Status
    ensures told { Told command answer.now result (O.held out.old) (O.held out.new) }
    ensures write { result ≡ Status.WriteFault → Rose (O.faults out.old) (O.faults out.new) }
    ensures later { O.faults out.old ≤ O.faults out.new }
{
    let Ok(text) = print_answer(alloc, command, answer) else {
        return Status::Memory;
    };
    match deliver(out, &text) {
        Ok(()) => status_of(answer),
        Err(_) => Status::WriteFault,
    }
}

/// The status of an answer that was taken whole.
fn status_of(answer: &Answer) -> Status
    ensures { result ≡ status_of answer.now }
{
    match answer {
        Answer::Analysed(_) => Status::Done,
        Answer::Refused(_) => Status::Refused,
    }
}
