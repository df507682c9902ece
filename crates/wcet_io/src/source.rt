//! Where files come from: a shelf that places the bytes of a named file, piece by piece.
ghost use Rattle.std.specs.Prelude.{◌≡◌, ℕ, ◌<◌, ◌≤◌, List, Option, length, IfOk};
ghost use Rattle.wcet_io.specs.Causes.{HasCause};
ghost use Rattle.wcet_io.specs.Counts.{CountsBytes};
ghost use Rattle.wcet_io.specs.Files.{PlacesTold};

/// The answer of an outside that failed; its count of faults says that it did.
#[derive(Clone, Copy, Debug, PartialEq, Eq)]
pub struct Failed;

/// Named files that are read from the front. Their contents never change.
pub trait Shelf {
    /// The contents of each name, by the name's bytes, where the shelf tells them.
    ghost told: { Self → List ℕ → Option (List ℕ) };

    /// How often the shelf failed.
    ghost faults: { Self → ℕ };

    /// How many bytes the shelf placed.
    ghost placed: { Self → ℕ };

    /// Places bytes of the file, from the byte `at` on, at the buffer's front; answers how many.
    ///
    /// Where the name's contents are told, `Ok(0)` comes exactly where they end at or before the byte
    /// `at`. What comes at a name whose contents aren't told is up to the shelf; where no file has the
    /// name it should be `Failed`, since `Ok(0)` reads as an empty file. What stands in the buffer
    /// behind the placed bytes is left open.
    fn piece(&mut self, name: &str, at: u64, buf: &mut [u8]) -> Result<usize, Failed>
        requires { 0 < length buf.old }

        // What was placed, by the contents that are told.
        ensures bound { IfOk result (λ n. n ≤ length buf.new) }
        ensures bytes { PlacesTold (told self.old name.now) at result buf.new }
        ensures kept { (other : List ℕ) → told self.new other ≡ told self.old other }

        // The counts.
        ensures count { CountsBytes result (placed self.old) (placed self.new) }
        ensures cause { HasCause (faults self.old) (faults self.new) result };
}
