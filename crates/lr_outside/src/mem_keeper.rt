//! A keeper in memory, whose failures are known beforehand.
ghost use Rattle.std.specs.Prelude.{◌≡◌, ◌≢◌, ◌↔◌, ◌⊎◌, [], None, Some, true, false, IsTrue, IfOk, OnOk};
ghost use Rattle.lr_outside.specs.Faults.{one_more};
ghost use Rattle.lr_outside.specs.Keepers.{faults_told, IsLoadCall, IsSaveCall, keeper_change};
ghost use Rattle.lr_outside.specs.Memory.{archive_seen, is_listed};

use crate::keeper::{KeepFault, Keeper, copy_kept};
use lr_base::{NoMemory, Rows};
use std::alloc::Global;
use std::marker::Model;

/// A keeper whose bytes stand in memory. Its listed calls fail, and the next save once it is armed. Saves and loads are
/// numbered together, from 1, those that give up too; a number stays at 2^64 - 1.
#[derive(Debug, Drop)]
pub struct MemKeeper {
    alloc: Global,
    kept: Option<Rows<u8>>,
    is_armed: bool,
    failing: Rows<u64>,
    calls: u64,
    faults: u64,
}

impl Model for MemKeeper {
    ghost use Rattle.lr_outside.specs.Memory.{Archive};

    ghost Value = { Archive };

    ghost view = { λ it. record {
      kept = it.kept;
      is_armed = it.is_armed;
      failing = it.failing;
      calls = it.calls;
      faults = it.faults;
    } };
}

impl MemKeeper {
    /// A keeper that keeps nothing, whose calls of these numbers fail.
    pub fn new(alloc: Global, failing: Rows<u64>) -> MemKeeper
        ensures { result ≡ record { kept = None; is_armed = false; failing = failing; calls = 0; faults = 0 } }
    {
        MemKeeper {
            alloc,
            kept: None,
            is_armed: false,
            failing,
            calls: 0,
            faults: 0,
        }
    }

    /// Has the next save fail, whichever number it has. Armed twice before a save is as armed once.
    pub fn arm(&mut self)
        ensures { self.new ≡ record self.old { is_armed = true } }
    {
        self.is_armed = true;
    }

    /// A keeper equal to this one.
    pub fn copy(&self) -> Result<Self, NoMemory>
        ensures { IfOk result (λ copied. copied ≡ self.now) }
    {
        let kept = copy_kept(&self.kept)?;
        let failing = self.failing.copy()?;
        Ok(MemKeeper {
            alloc: self.alloc,
            kept,
            is_armed: self.is_armed,
            failing,
            calls: self.calls,
            faults: self.faults,
        })
    }

    // Counts a call, and answers whether it is listed.
    fn begin_call(&mut self) -> bool
        ensures counted { self.new ≡ record self.old { calls = one_more self.old.calls } }
        ensures listed { result ≡ is_listed self.old.failing (one_more self.old.calls) }
    {
        self.calls = self.calls.saturating_add(1);
        self.failing.as_slice().contains(&self.calls)
    }
}

impl Keeper for MemKeeper {
    ghost seen = { archive_seen };

    fn save(&mut self, bytes: &[u8]) -> Result<(), KeepFault>
        ensures saved { IsSaveCall (keeper_change archive_seen self.old self.new) result bytes.now }

        // Just a listed save fails, and one while the keeper is armed, which uses the arming up. Both at once are one
        // fault.
        ensures failed { (result ≡ Err KeepFault.Failed) ↔
            (IsTrue (is_listed self.old.failing (one_more self.old.calls)) ⊎ IsTrue self.old.is_armed) }
        ensures ok { OnOk result (self.new ≡
            record self.old { kept = Some bytes.now; calls = one_more self.old.calls }) }
        ensures err { (result ≡ Err KeepFault.Failed) → (self.new ≡ record self.old {
          is_armed = false;
          calls = one_more self.old.calls;
          faults = one_more self.old.faults;
        }) }
        ensures memory { (result ≡ Err KeepFault.NoMemory) → (self.new ≡
            record self.old { calls = one_more self.old.calls }) }
    {
        let is_listed = self.begin_call();
        if is_listed || self.is_armed {
            self.is_armed = false;
            self.faults = self.faults.saturating_add(1);
            return Err(KeepFault::Failed);
        }
        self.kept = Some(Rows::from_slice(self.alloc, bytes)?);
        Ok(())
    }

    fn load(&mut self) -> Result<Option<Rows<u8>>, KeepFault>
        ensures loaded { IsLoadCall (keeper_change archive_seen self.old self.new) result }

        // Just a listed load fails. One of nothing finds memory enough.
        ensures failed { (result ≡ Err KeepFault.Failed) ↔
            IsTrue (is_listed self.old.failing (one_more self.old.calls)) }
        ensures nothing { self.old.kept ≡ None → result ≢ Err KeepFault.NoMemory }
        ensures unchanged { self.new ≡ record self.old {
          calls = one_more self.old.calls;
          faults = faults_told self.old.faults result;
        } }
    {
        if self.begin_call() {
            self.faults = self.faults.saturating_add(1);
            return Err(KeepFault::Failed);
        }
        Ok(copy_kept(&self.kept)?)
    }
}
