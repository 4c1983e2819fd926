//! A sink in memory.
ghost use Rattle.std.specs.Prelude.{◌≡◌, ◌≤◌, ◌<◌, ◌+◌, ◌∷◌, ◌++◌, [], ◌↔◌, ◌⊎◌, length, take, min, Some, IfOk, OnOk, OnErr, IsErr, IsTrue, Contains, vec_len, vec_capacity};
ghost use Rattle.sop_outside.specs.Causes.{Counts, raised};
ghost use Rattle.sop_outside.specs.Told.{appended};
ghost use Rattle.sop_outside.specs.MemSink.{empty_sink};

use crate::failing::FailingCalls;
use crate::sink::{Failed, Sink};
use std::alloc::{AllocError, Global};
use std::marker::Model;

/// A sink in memory, which tells its bytes. It has a fixed room, a write takes a piece at most, and writes
/// fail where their numbers were named.
#[derive(Drop)]
pub struct MemSink {
    bytes: Vec<u8>,
    room: usize,
    piece: usize,
    failing: FailingCalls,
    faults: u64,
}

impl Model for MemSink {
    ghost use Rattle.std.specs.Prelude.{◌≤◌, ◌+◌, vec_len, vec_capacity};
    ghost use Rattle.sop_outside.specs.MemSink.{SinkInMemory};

    ghost Value = { SinkInMemory };

    ghost view = { λ s. record {
      bytes = s.bytes.items;
      room = s.room;
      piece = s.piece;
      failing = s.failing.named;
      writes = s.failing.calls;
      faults = s.faults;
    } };

    ghost invariant = { λ s. (1 ≤ s.piece) × (vec_len s.bytes + s.room ≤ vec_capacity s.bytes) };
}

impl MemSink {
    /// An empty sink with room for `room` bytes, of which a write takes at most `piece`.
    pub fn new(alloc: Global, room: usize, piece: usize) -> Result<MemSink, AllocError>
        requires { 1 ≤ piece }
        ensures { IfOk result (λ sink. sink ≡ empty_sink room piece) }
    {
        Ok(MemSink {
            bytes: Vec::with_capacity(alloc, room)?,
            room,
            piece,
            failing: FailingCalls::new(alloc),
            faults: 0,
        })
    }

    /// Names a write that fails, by its number from 1.
    pub fn fail_at(&mut self, call: u64) -> Result<(), AllocError>
        ensures ok { OnOk result (self.new ≡ record self.old { failing = self.old.failing ++ call ∷ [] }) }
        ensures err { OnErr result (self.new ≡ self.old) }
    {
        self.failing.add(call)
    }

    /// The bytes that were written.
    pub fn bytes(&self) -> &[u8]
        ensures { result.now ≡ self.now.bytes }
    {
        self.bytes.as_slice()
    }
}

impl Sink for MemSink {
    ghost told = { λ s. Some s.bytes };

    ghost faults = { λ s. s.faults };

    fn write(&mut self, bytes: &[u8]) -> Result<usize, Failed>
        ensures most { IfOk result (λ count. count ≤ length bytes.now) }
        ensures some { IfOk result (λ count. 0 < length bytes.now → 0 < count) }
        ensures ok { IfOk result (λ count. Some self.new.bytes ≡ appended (Some self.old.bytes) (take count bytes.now)) }
        ensures err { OnErr result (Some self.new.bytes ≡ Some self.old.bytes) }
        ensures faults { Counts self.old.faults self.new.faults (IsErr result) }

        // It fails exactly where its number was named or the room is full, and takes the least of three sizes.
        ensures number { self.new.writes ≡ raised self.old.writes }
        ensures fails { IsErr result ↔ (Contains self.old.failing self.new.writes ⊎ (self.old.room ≡ 0)) }
        ensures size { IfOk result (λ count. count ≡ min (min self.old.piece self.old.room) (length bytes.now)) }
        ensures room { IfOk result (λ count. self.new.room + count ≡ self.old.room) }
        ensures room_stays { OnErr result (self.new.room ≡ self.old.room) }
        ensures settings { (self.new.piece ≡ self.old.piece) × (self.new.failing ≡ self.old.failing) }
    {
        if must_fail(self.failing.next_fails(), self.room) {
            self.faults = self.faults.saturating_add(1);
            return Err(Failed);
        }
        let count = self.piece.min(self.room).min(bytes.len());
        match self.bytes.extend_from_slice(&bytes[..count]) {
            Ok(()) => {}
            Err(_) => unreachable!(),
        }
        self.room -= count;
        Ok(count)
    }
}

/// Whether the write was named, or there is no room.
fn must_fail(named: bool, room: usize) -> bool
    ensures { IsTrue result ↔ (IsTrue named ⊎ (room ≡ 0)) }
{
    named || room == 0
}
