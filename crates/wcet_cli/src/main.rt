//! The program: its words, the real files and the standard output, and the exit status.
#![tactic(auto)]

ghost use Rattle.std.specs.Prelude.{◌≡◌, ◌↔◌, ◌⊎◌};
ghost use Rattle.std.specs.Option.{option_map};
ghost use Rattle.wcet_cli.specs.Exits.{complaint, exit_number};

use std::env;
use std::io::{self, ErrorKind};
use std::process::ExitCode;
use wcet_engine::{Status, wcet_main};

mod files;
mod out;

use files::FileShelf;
use out::OutSink;

/// Answers the words that the program was started with.
///
/// The exit status is the answer's number. Where nothing was answered, a line on the standard error
/// says why.
fn main(rt: HostRuntime) -> ExitCode {
    let status = match words_of(&rt) {
        Ok(words) => {
            let mut shelf = FileShelf::new(rt.alloc(), &rt);
            let mut sink = OutSink::new(&rt);
            wcet_main(rt.alloc(), words.as_slice(), &mut shelf, &mut sink)
        }
        Err(error) => status_of(error.kind()),
    };
    if let Some(line) = complaint_of(status) {
        // A standard error that can't be written leaves the status to tell.
        let _ = eprintln!(rt; "{line}");
    }
    ExitCode::from(number_of(status))
}

/// The words after the program's name.
fn words_of(rt: &(impl env::Env + AllocGlobal)) -> io::Result<Vec<String>> {
    let mut words = Vec::new(rt.alloc());
    for word in env::args(rt)?.skip(1) {
        words.push(word)?;
    }
    Ok(words)
}

/// Words that can't be read as text have no form; the other cause is want of memory.
fn status_of(cause: ErrorKind) -> Status
    ensures memory { (result ≡ Status.Memory) ↔ (cause ≡ ErrorKind.OutOfMemory) }
    ensures usage { (result ≡ Status.Memory) ⊎ (result ≡ Status.Usage) }
{
    match cause {
        ErrorKind::OutOfMemory => Status::Memory,
        _ => Status::Usage,
    }
}

/// The line for the standard error, where the status has one.
fn complaint_of(status: Status) -> Option<&'static str>
    ensures { option_map (λ line. line.now) result ≡ complaint status }
{
    match status {
        Status::Usage => Some("usage"),
        Status::ReadFault => Some("read fault"),
        Status::WriteFault => Some("write fault"),
        Status::Memory => Some("memory"),
        Status::Done | Status::Refused | Status::Open | Status::Rejected => None,
    }
}

/// The exit status.
fn number_of(status: Status) -> u8
    ensures { result ≡ exit_number status }
{
    match status {
        Status::Done => 0,
        Status::Usage => 1,
        Status::Refused => 2,
        Status::ReadFault => 3,
        Status::WriteFault => 4,
        Status::Memory => 5,
        Status::Open => 6,
        Status::Rejected => 7,
    }
}
