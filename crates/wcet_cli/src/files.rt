//! The file system as a shelf, one file of which is open at a time.
ghost use Rattle.std.specs.Prelude.{◌≡◌, ◌+◌, ◌^◌, ◌<◌, ◌≤◌, None, length, IfOk, OnOk, OnErr, IsSome, SomeIff, string_bytes};

use std::alloc::Global;
use std::fs;
use std::io::{self, Read, Seek, SeekFrom};
use std::rt::Files;
use wcet_io::{Failed, Shelf};

/// Files by their paths. It tells no bytes.
///
/// A file stays open while the pieces of its name follow on. So a pipe can be read, and a file that
/// is replaced while it is read doesn't mix with the new one.
#[derive(Drop)]
pub struct FileShelf<'a, R: Files> {
    rt: &'a R,
    /// The open file's name.
    name: String,
    file: Option<R::File>,
    /// Where the open file's next byte stands, unless that is past all numbers of 64 bits.
    next: Option<u64>,
    faults: u64,
    placed: u64,
}

impl<'a, R: Files> FileShelf<'a, R> {
    /// A shelf that opened no file yet. It takes no memory.
    pub fn new(alloc: Global, rt: &'a R) -> FileShelf<'a, R>
        ensures faults { result.faults ≡ 0 }
        ensures placed { result.placed ≡ 0 }
    {
        FileShelf {
            rt,
            name: String::new(alloc),
            file: None,
            next: None,
            faults: 0,
            placed: 0,
        }
    }

    /// Reads at a place of a file, which stays open where that went well, and else is closed.
    fn read_at(&mut self, name: &str, at: u64, buf: &mut [u8]) -> io::Result<usize>
        ensures bound { IfOk result (λ n. n ≤ length buf.new) }
        ensures name { OnOk result (string_bytes self.new.name ≡ name.now) }
        ensures open { OnOk result (IsSome self.new.file) }
        ensures next { IfOk result (λ n. SomeIff self.new.next (at + n < 2 ^ 64) (at + n)) }
        ensures closed { OnErr result (self.new.file ≡ None) }
        ensures faults { self.new.faults ≡ self.old.faults }
        ensures placed { self.new.placed ≡ self.old.placed }
    {
        let mut file = self.file_at(name, at)?;
        let count = file.read(buf)?;
        self.next = at.checked_add(count as u64);
        self.file = Some(file);
        Ok(count)
    }

    /// The file, with its next byte at the place: the open one where that follows on, else one that
    /// is opened anew.
    fn file_at(&mut self, name: &str, at: u64) -> io::Result<R::File>
        ensures name { OnOk result (string_bytes self.new.name ≡ name.now) }
        ensures closed { self.new.file ≡ None }
        ensures faults { self.new.faults ≡ self.old.faults }
        ensures placed { self.new.placed ≡ self.old.placed }
    {
        let open = self.file.take();
        if at > 0 && self.next == Some(at) && self.name.as_str() == name {
            if let Some(file) = open {
                return Ok(file);
            }
        }
        self.name.clear();
        self.name.push_str(name)?;
        let mut file = fs::open(self.rt, name)?;
        if at > 0 {
            file.seek(SeekFrom::Start(at))?;
        }
        Ok(file)
    }
}

impl<'a, R: Files> Shelf for FileShelf<'a, R> {
    ghost told = { λ s name. None };

    ghost faults = { λ s. s.faults };

    ghost placed = { λ s. s.placed };

    /// A fault is a file that isn't there or can't be read, a directory, and a name that can't be
    /// kept for want of memory.
    fn piece(&mut self, name: &str, at: u64, buf: &mut [u8]) -> Result<usize, Failed> {
        match self.read_at(name, at, buf) {
            Ok(count) => {
                self.placed = self.placed.saturating_add(count as u64);
                Ok(count)
            }
            Err(_) => {
                self.faults = self.faults.saturating_add(1);
                Err(Failed)
            }
        }
    }
}

#[cfg(test)]
mod tests {
    use super::*;

    /// The bytes that a piece of at most two bytes places.
    fn two<R: Files>(shelf: &mut FileShelf<R>, name: &str, at: u64) -> Option<[u8; 2]> {
        let mut buf = [0u8; 2];
        let count = shelf.piece(name, at, &mut buf).ok()?;
        if count == 2 { Some(buf) } else { None }
    }

    #[test]
    fn a_file_stays_open_while_its_pieces_follow_on(rt: HostRuntime) -> io::Result<()> {
        fs::write(&rt, "file", "first")?;
        let mut shelf = FileShelf::new(rt.alloc(), &rt);
        assert_eq!(rt; two(&mut shelf, "file", 0), Some(*b"fi"));

        // A file that takes the name meanwhile is read only from its front, or at a place.
        fs::write(&rt, "next", "other")?;
        fs::rename(&rt, "next", "file")?;
        assert_eq!(rt; two(&mut shelf, "file", 2), Some(*b"rs"));
        assert_eq!(rt; two(&mut shelf, "file", 0), Some(*b"ot"));
        assert_eq!(rt; two(&mut shelf, "file", 3), Some(*b"er"));
        assert_eq!(rt; two(&mut shelf, "missing", 0), None);
        fs::remove_file(&rt, "file")
    }
}
