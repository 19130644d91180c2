//! A source in memory, whose failures are known beforehand.
ghost use Rattle.std.specs.Prelude.{◌≡◌, ◌↔◌, length, min, take, drop, IsTrue, IsErr, IfOk, OnErr};
ghost use Rattle.lr_outside.specs.Calls.{IsReadCall};
ghost use Rattle.lr_outside.specs.Faults.{one_more};
ghost use Rattle.lr_outside.specs.Memory.{is_listed, supply_seen};
ghost use Rattle.lr_outside.specs.Seen.{source_change};

use crate::source::{Failed, Source};
use lr_base::Rows;
use std::marker::Model;

/// A source over bytes in memory, whose listed calls fail. Calls are numbered from 1, failing ones too; a number
/// stays at 2^64 - 1.
#[derive(Debug, Drop)]
pub struct MemSource {
    bytes: Rows<u8>,
    at: usize,
    failing: Rows<u64>,
    calls: u64,
    faults: u64,
}

impl Model for MemSource {
    ghost use Rattle.std.specs.Prelude.{◌≤◌, drop, length};
    ghost use Rattle.lr_outside.specs.Memory.{Supply};

    ghost Value = { Supply };

    ghost view = { λ it. record {
      left = drop it.at it.bytes;
      failing = it.failing;
      calls = it.calls;
      faults = it.faults;
    } };

    ghost invariant = { λ it. it.at ≤ length it.bytes };
}

impl MemSource {
    /// A source of these bytes, whose reads of these numbers fail.
    pub fn new(bytes: Rows<u8>, failing: Rows<u64>) -> MemSource
        ensures { result ≡ record { left = bytes; failing = failing; calls = 0; faults = 0 } }
    {
        MemSource {
            bytes,
            at: 0,
            failing,
            calls: 0,
            faults: 0,
        }
    }
}

impl Source for MemSource {
    ghost seen = { supply_seen };

    fn read(&mut self, into: &mut [u8]) -> Result<usize, Failed>
        ensures read { IsReadCall (source_change supply_seen self.old self.new) result into.new }

        // Just the listed calls fail, and each other one fills the buffer as far as the bytes reach.
        ensures listed { IsErr result ↔ IsTrue (is_listed self.old.failing (one_more self.old.calls)) }
        ensures filled { IfOk result (λ n. n ≡ min (length into.new) (length self.old.left)) }
        ensures ok { IfOk result (λ n. self.new ≡
            record self.old { left = drop n self.old.left; calls = one_more self.old.calls }) }
        ensures err { OnErr result (self.new ≡
            record self.old { calls = one_more self.old.calls; faults = one_more self.old.faults }) }
        ensures unread { OnErr result (into.new ≡ into.old) }
    {
        self.calls = self.calls.saturating_add(1);
        if self.failing.as_slice().contains(&self.calls) {
            self.faults = self.faults.saturating_add(1);
            return Err(Failed);
        }
        let count = copy_front(&self.bytes.as_slice()[self.at..], into);
        self.at += count;
        Ok(count)
    }
}

// Copies as many first bytes as both have, and answers how many.
fn copy_front(from: &[u8], into: &mut [u8]) -> usize
    ensures count { result ≡ min (length into.new) (length from.now) }
    ensures front { take result into.new ≡ take result from.now }
{
    let count = into.len().min(from.len());
    into[..count].copy_from_slice(&from[..count]);
    count
}
