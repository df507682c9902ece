//! Records: what a file says of the loops, jumps and accesses of its program.

ghost use Rattle.std.specs.Prelude.{◌≡◌};

/// A record. Kind 1 bounds a loop, kind 2 names a target, kind 3 a range of addresses.
#[derive(Clone, Copy, Debug)]
pub struct Mark {
    /// 1, 2 or 3 in an image.
    pub kind: u32,
    /// The address of what the record speaks of.
    pub address: u32,
    /// The bound, the target, or the first address of the range.
    pub x: u32,
    /// The address behind the range; 0 in the other kinds.
    pub y: u32,
}

impl Mark {
    ghost use Rattle.elf_mips.specs.Marks.{is_lawful};

    /// Whether the record is of a kind that is known, and its numbers are as that kind asks.
    pub(crate) fn is_lawful(&self) -> bool
        ensures { result ≡ is_lawful self.now }
    {
        self.address % 4 == 0
            && (self.kind == 1 && 1 <= self.x && self.y == 0
                || self.kind == 2 && self.x % 4 == 0 && self.y == 0
                || self.kind == 3 && self.x < self.y)
    }
}
