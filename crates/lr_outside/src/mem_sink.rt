//! A sink in memory, whose failures are known beforehand.
ghost use Rattle.std.specs.Prelude.{◌≡◌, ◌<◌, ◌≤◌, ◌+◌, ◌++◌, ◌⊎◌, [], length, IsTrue, IsErr, IfOk, OnOk, OnErr};
ghost use Rattle.lr_outside.specs.Calls.{IsWriteCall};
ghost use Rattle.lr_outside.specs.Faults.{one_more};
ghost use Rattle.lr_outside.specs.Memory.{is_listed, store_seen};
ghost use Rattle.lr_outside.specs.Seen.{sink_change};

use crate::sink::Sink;
use crate::source::Failed;
use lr_base::Rows;
use std::alloc::Global;
use std::marker::Model;

/// A sink that keeps what it takes in memory, and takes each piece whole. Its listed calls fail, and so does one
/// that finds no memory. Calls are numbered from 1, failing ones too; a number stays at 2^64 - 1.
#[derive(Debug, Drop)]
pub struct MemSink {
    bytes: Vec<u8>,
    failing: Rows<u64>,
    calls: u64,
    faults: u64,
}

impl Model for MemSink {
    ghost use Rattle.std.specs.Prelude.{◌-◌, vec_capacity, vec_len};
    ghost use Rattle.lr_outside.specs.Memory.{Store};

    ghost Value = { Store };

    ghost view = { λ it. record {
      held = it.bytes.items;
      room = vec_capacity it.bytes - vec_len it.bytes;
      failing = it.failing;
      calls = it.calls;
      faults = it.faults;
    } };
}

impl MemSink {
    /// A sink that holds nothing, whose writes of these numbers fail.
    pub fn new(alloc: Global, failing: Rows<u64>) -> MemSink
        ensures { result ≡ record { held = []; room = 0; failing = failing; calls = 0; faults = 0 } }
    {
        MemSink {
            bytes: Vec::new(alloc),
            failing,
            calls: 0,
            faults: 0,
        }
    }

    /// The bytes held.
    pub fn bytes(&self) -> &[u8]
        ensures { result.now ≡ self.now.held }
    {
        self.bytes.as_slice()
    }
}

impl Sink for MemSink {
    ghost seen = { store_seen };

    fn write(&mut self, piece: &[u8]) -> Result<usize, Failed>
        ensures written { IsWriteCall (sink_change store_seen self.old self.new) result piece.now }

        // The listed calls fail, and each other one takes the whole piece, unless there is no memory: so it never fails
        // where the piece finds room already.
        ensures listed { IsTrue (is_listed self.old.failing (one_more self.old.calls)) → IsErr result }
        ensures lacking { OnErr result (IsTrue (is_listed self.old.failing (one_more self.old.calls))
            ⊎ (self.old.room < length piece.now)) }
        ensures whole { IfOk result (λ n. n ≡ length piece.now) }

        // What is held takes up room, and nothing else does.
        ensures ok { OnOk result ((self.old.room ≤ self.new.room + length piece.now) × (self.new ≡ record self.old {
          held = self.old.held ++ piece.now;
          room = self.new.room;
          calls = one_more self.old.calls;
        })) }
        ensures err { OnErr result ((self.old.room ≤ self.new.room) × (self.new ≡ record self.old {
          room = self.new.room;
          calls = one_more self.old.calls;
          faults = one_more self.old.faults;
        })) }
    {
        self.calls = self.calls.saturating_add(1);
        if self.failing.as_slice().contains(&self.calls) {
            self.faults = self.faults.saturating_add(1);
            return Err(Failed);
        }
        let Ok(()) = self.bytes.extend_from_slice(piece) else {
            self.faults = self.faults.saturating_add(1);
            return Err(Failed);
        };
        Ok(piece.len())
    }
}
