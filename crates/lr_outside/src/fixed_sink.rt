//! A sink in memory with room for so many bytes.
ghost use Rattle.std.specs.Prelude.{◌≡◌, ◌-◌, ◌<◌, ◌++◌, ◌↔◌, [], length, min, take, IsErr, IfOk, OnErr};
ghost use Rattle.lr_outside.specs.Calls.{IsWriteCall};
ghost use Rattle.lr_outside.specs.Faults.{one_more};
ghost use Rattle.lr_outside.specs.Memory.{bounded_seen};
ghost use Rattle.lr_outside.specs.Seen.{sink_change};

use crate::sink::Sink;
use crate::source::Failed;
use lr_base::NoMemory;
use std::alloc::Global;
use std::marker::Model;

/// A sink that takes so many bytes in all, and then fails. Memory for them is taken when it is made, and a write needs
/// none.
#[derive(Debug, Drop)]
pub struct FixedSink {
    bytes: Vec<u8>,
    room: u64,
    faults: u64,
}

impl Model for FixedSink {
    ghost use Rattle.std.specs.Prelude.{◌+◌, ◌≤◌, vec_capacity, vec_len};
    ghost use Rattle.lr_outside.specs.Memory.{BoundedStore};

    ghost Value = { BoundedStore };

    ghost view = { λ it. record { held = it.bytes.items; room = it.room; faults = it.faults } };

    ghost invariant = { λ it. vec_len it.bytes + it.room ≤ vec_capacity it.bytes };
}

impl FixedSink {
    /// A sink with room for so many bytes, whose memory is taken here.
    pub fn new(alloc: Global, room: u64) -> Result<FixedSink, NoMemory>
        ensures { IfOk result (λ sink. sink ≡ record { held = []; room = room; faults = 0 }) }
    {
        let bytes = Vec::with_capacity(alloc, room as usize)?;
        Ok(FixedSink {
            bytes,
            room,
            faults: 0,
        })
    }

    /// The bytes held.
    pub fn bytes(&self) -> &[u8]
        ensures { result.now ≡ self.now.held }
    {
        self.bytes.as_slice()
    }
}

impl Sink for FixedSink {
    ghost seen = { bounded_seen };

    fn write(&mut self, piece: &[u8]) -> Result<usize, Failed>
        ensures written { IsWriteCall (sink_change bounded_seen self.old self.new) result piece.now }

        // It takes as much as finds room, and fails just where nothing of a piece does.
        ensures empty { piece.now ≡ [] → result ≡ Ok 0 }
        ensures full { IsErr result ↔ ((self.old.room ≡ 0) × (0 < length piece.now)) }
        ensures fitting { IfOk result (λ n. n ≡ min self.old.room (length piece.now)) }
        ensures ok { IfOk result (λ n. self.new ≡
            record self.old { held = self.old.held ++ take n piece.now; room = self.old.room - n }) }
        ensures err { OnErr result (self.new ≡ record self.old { faults = one_more self.old.faults }) }
    {
        if piece.is_empty() {
            return Ok(0);
        }
        if self.room == 0 {
            self.faults = self.faults.saturating_add(1);
            return Err(Failed);
        }
        let count = piece.len().min(self.room as usize);
        // What finds room finds memory too.
        let Ok(()) = self.bytes.extend_from_slice(&piece[..count]) else {
            unreachable!()
        };
        self.room -= count as u64;
        Ok(count)
    }
}
