//! The standard output as a sink.
ghost use Rattle.std.specs.Prelude.{◌≡◌, None};

use std::io::{self, Write};
use wcet_io::{Failed, Sink};

/// The standard output. It tells no bytes.
#[derive(Drop)]
pub struct OutSink<'a, P: Print> {
    rt: &'a P,
    faults: u64,
}

impl<'a, P: Print> OutSink<'a, P> {
    /// A sink that took nothing yet.
    pub fn new(rt: &'a P) -> OutSink<'a, P>
        ensures { result.faults ≡ 0 }
    {
        OutSink { rt, faults: 0 }
    }
}

impl<'a, P: Print> Sink for OutSink<'a, P> {
    ghost held = { λ s. None };

    ghost faults = { λ s. s.faults };

    /// A write that fails or takes nothing is a fault.
    fn put(&mut self, piece: &[u8]) -> Result<usize, Failed> {
        match io::writer(self.rt).write(piece) {
            Ok(count) if count > 0 => Ok(count),
            _ => {
                self.faults = self.faults.saturating_add(1);
                Err(Failed)
            }
        }
    }
}
