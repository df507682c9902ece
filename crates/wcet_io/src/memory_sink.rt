//! A sink that keeps what it took in memory and fails at chosen calls.
ghost use Rattle.std.specs.Prelude.{◌≡◌, ◌<◌, ◌≤◌, ◌↔◌, Some, length, IfOk, IsErr};
ghost use Rattle.std.specs.Io.KnownBytes.{WriteAppends};
ghost use Rattle.wcet_io.specs.Causes.{HasCause};
ghost use Rattle.wcet_io.specs.Counts.{raised};
ghost use Rattle.wcet_io.specs.Sunk.{FailsNext, after_put, new_sink, put_size};

use crate::sink::Sink;
use crate::source::Failed;
use std::alloc::{AllocError, Global};
use std::marker::Model;

/// A taker of bytes in memory, for trials of what writes.
#[derive(Debug, Drop)]
pub struct MemSink {
    /// The most bytes that one call takes.
    step: usize,
    /// The most bytes that all calls take.
    room: usize,
    /// The numbers of the calls that fail, the first call being 1.
    failing: Vec<u64>,
    bytes: Vec<u8>,
    calls: u64,
    faults: u64,
}

impl Model for MemSink {
    ghost use Rattle.wcet_io.specs.Sunk.{Sunk};

    ghost Value = { Sunk };

    ghost use Rattle.wcet_io.specs.SinkView.{KeepsRoom, sink_of};

    ghost view = { sink_of };

    ghost invariant = { KeepsRoom };
}

impl MemSink {
    /// A sink that holds nothing, has room for `room` bytes and takes at most `step` bytes a call.
    ///
    /// Its calls fail where their numbers, from 1, stand in `failing`. `new` itself fails only for want of memory: it
    /// reserves the room at once.
    pub fn new(
        alloc: Global,
        step: usize,
        room: usize,
        failing: Vec<u64>,
    ) -> Result<MemSink, AllocError>
        requires { 1 ≤ step }
        ensures { IfOk result (λ s. s ≡ new_sink step room failing.items) }
    {
        Ok(MemSink {
            step,
            room,
            failing,
            bytes: Vec::with_capacity(alloc, room)?,
            calls: 0,
            faults: 0,
        })
    }

    /// The bytes taken so far.
    pub fn taken(&self) -> &[u8]
        ensures { result.now ≡ self.now.bytes }
    {
        self.bytes.as_slice()
    }

    /// Counts a failure.
    fn fail(&mut self) -> Failed
        ensures { self.new ≡ record self.old { faults = raised self.old.faults 1 } }
    {
        self.faults = self.faults.saturating_add(1);
        Failed
    }
}

impl Sink for MemSink {
    ghost held = { λ s. Some s.bytes };

    ghost faults = { λ s. s.faults };

    /// Fails exactly where the call's number stands in `failing` or no room is left.
    ///
    /// It takes no memory: `new` reserved the room.
    fn put(&mut self, piece: &[u8]) -> Result<usize, Failed>
        requires { 0 < length piece.now }
        ensures some { IfOk result (λ n. 0 < n) }
        ensures bound { IfOk result (λ n. n ≤ length piece.now) }
        ensures bytes { WriteAppends (Some self.old.bytes) (Some self.new.bytes) result piece.now }
        ensures cause { HasCause self.old.faults self.new.faults result }

        // What this sink promises besides: when it fails, how much it takes, and its whole state.
        ensures failed { IsErr result ↔ FailsNext self.old }
        ensures exact { IfOk result (λ n. n ≡ put_size self.old (length piece.now)) }
        ensures state { self.new ≡ after_put result piece.now self.old }
    {
        self.calls = self.calls.saturating_add(1);
        let left = self.room - self.bytes.len();
        if self.failing.contains(&self.calls) || left == 0 {
            return Err(self.fail());
        }
        let count = self.step.min(piece.len().min(left));
        let (front, _) = piece.split_at(count);
        match self.bytes.extend_from_slice(front) {
            Ok(()) => Ok(count),
            Err(_) => unreachable!(),
        }
    }
}
