//! A shelf that keeps its files in memory and fails at chosen calls.
ghost use Rattle.std.specs.Prelude.{◌≡◌, ℕ, ◌-◌, ◌<◌, ◌≤◌, ◌↔◌, List, None, length, take, drop, min, map, IfOk, IsErr, OnOk, OnErr};
ghost use Rattle.std.specs.Option.{option_map};
ghost use Rattle.wcet_io.specs.Causes.{HasCause};
ghost use Rattle.wcet_io.specs.Counts.{CountsBytes, raised};
ghost use Rattle.wcet_io.specs.Files.{PlacesTold, file_at};
ghost use Rattle.wcet_io.specs.Stored.{named};
ghost use Rattle.wcet_io.specs.Shelved.{FailsAt, after_piece, new_shelf, piece_size, with_file};

use crate::source::{Failed, Shelf};
use std::alloc::{AllocError, Global};
use std::marker::Model;

/// A file in memory.
#[derive(Debug, Drop)]
struct StoredFile {
    name: String,
    bytes: Vec<u8>,
}

/// Files in memory, for trials of what reads files.
#[derive(Debug, Drop)]
pub struct MemShelf {
    alloc: Global,
    /// The most bytes that one call places.
    step: usize,
    /// The numbers of the calls that fail, the first call being 1.
    failing: Vec<u64>,
    files: Vec<StoredFile>,
    calls: u64,
    faults: u64,
    placed: u64,
}

impl Model for MemShelf {
    ghost use Rattle.wcet_io.specs.Shelved.{Shelved};

    ghost Value = { Shelved };

    ghost use Rattle.std.specs.Prelude.{◌<◌};
    ghost use Rattle.wcet_io.specs.ShelfView.{shelf_of};

    ghost view = { shelf_of };

    ghost invariant = { λ s. 0 < s.step };
}

impl MemShelf {
    /// A shelf without files, that places at most `step` bytes a call.
    ///
    /// It fails at the calls whose numbers stand in `failing`. It takes no memory.
    pub fn new(alloc: Global, step: usize, failing: Vec<u64>) -> MemShelf
        requires { 1 ≤ step }
        ensures { result ≡ new_shelf step failing.items }
    {
        MemShelf {
            alloc,
            step,
            failing,
            files: Vec::new(alloc),
            calls: 0,
            faults: 0,
            placed: 0,
        }
    }

    /// Adds a file whose name isn't there yet. Refused for want of memory, it changes nothing.
    pub fn add(&mut self, name: &str, bytes: &[u8]) -> Result<(), AllocError>
        requires { file_at self.old.files name.now ≡ None }
        ensures ok { OnOk result (self.new ≡ with_file self.old name.now bytes.now) }
        ensures err { OnErr result (self.new ≡ self.old) }
    {
        let file = StoredFile {
            name: String::from_str(self.alloc, name)?,
            bytes: Vec::from_slice(self.alloc, bytes)?,
        };
        self.files.push(file)?;
        Ok(())
    }

    /// Counts a failure.
    fn fail(&mut self) -> Failed
        ensures { self.new ≡ record self.old { faults = raised self.old.faults 1 } }
    {
        self.faults = self.faults.saturating_add(1);
        Failed
    }
}

impl Shelf for MemShelf {
    ghost told = { λ s name. file_at s.files name };

    ghost faults = { λ s. s.faults };

    ghost placed = { λ s. s.placed };

    /// Fails exactly where the call's number stands in `failing` or the name isn't there.
    ///
    /// It takes no memory.
    fn piece(&mut self, name: &str, at: u64, buf: &mut [u8]) -> Result<usize, Failed>
        requires { 0 < length buf.old }
        ensures bound { IfOk result (λ n. n ≤ length buf.new) }
        ensures bytes { PlacesTold (file_at self.old.files name.now) at result buf.new }
        ensures kept { (key : List ℕ) → file_at self.new.files key ≡ file_at self.old.files key }
        ensures count { CountsBytes result self.old.placed self.new.placed }
        ensures cause { HasCause self.old.faults self.new.faults result }

        // What this shelf promises besides: when it fails, how much it places, and its whole state.
        ensures failed { IsErr result ↔ FailsAt self.old name.now }
        ensures exact { IfOk result (λ n. n ≡ piece_size self.old name.now at (length buf.new)) }
        ensures state { self.new ≡ after_piece result self.old }
    {
        self.calls = self.calls.saturating_add(1);
        if self.failing.contains(&self.calls) {
            return Err(self.fail());
        }
        let Some(file) = bytes_of(&self.files, name) else {
            return Err(self.fail());
        };
        let count = place(file, at, self.step, buf);
        self.placed = self.placed.saturating_add(count as u64);
        Ok(count)
    }
}

/// The bytes of the first file of this name.
fn bytes_of<'a>(files: &'a [StoredFile], name: &str) -> Option<&'a [u8]>
    ensures { option_map (λ bytes. bytes.now) result ≡ file_at (map named files.now) name.now }
{
    for file in files {
        if file.name.as_str() == name {
            return Some(file.bytes.as_slice());
        }
    }
    None
}

/// Copies at most `step` bytes of a file, from the byte `at` on, and answers how many.
fn place(file: &[u8], at: u64, step: usize, buf: &mut [u8]) -> usize
    ensures count { result ≡ min step (min (length buf.new) (length file.now - at)) }
    ensures bytes { take result buf.new ≡ take result (drop at file.now) }
{
    if at >= file.len() as u64 {
        return 0;
    }
    let (_, rest) = file.split_at(at as usize);
    let count = step.min(buf.len().min(rest.len()));
    let (front, _) = rest.split_at(count);
    let (room, _) = buf.split_at_mut(count);
    room.copy_from_slice(front);
    count
}
