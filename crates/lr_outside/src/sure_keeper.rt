//! A keeper in memory that never fails.
ghost use Rattle.std.specs.Prelude.{◌≡◌, ◌≢◌, None, Some, IsOk, OnOk, OnErr};
ghost use Rattle.lr_outside.specs.Keepers.{IsLoadCall, IsSaveCall, keeper_change};
ghost use Rattle.lr_outside.specs.Memory.{sure_seen};

use crate::keeper::{KeepFault, Keeper, copy_kept};
use lr_base::Rows;
use std::alloc::Global;
use std::marker::Model;

/// A keeper whose bytes stand in memory, as long as it does. Its calls give up for want of memory alone.
#[derive(Debug, Drop)]
pub struct SureKeeper {
    alloc: Global,
    kept: Option<Rows<u8>>,
}

impl Model for SureKeeper {
    ghost use Rattle.std.specs.Prelude.{List, Option, ℕ};

    ghost Value = { Option (List ℕ) };

    ghost view = { λ it. it.kept };
}

impl SureKeeper {
    /// A keeper that keeps nothing.
    pub fn new(alloc: Global) -> SureKeeper
        ensures { result ≡ None }
    {
        SureKeeper { alloc, kept: None }
    }
}

impl Keeper for SureKeeper {
    ghost seen = { sure_seen };

    fn save(&mut self, bytes: &[u8]) -> Result<(), KeepFault>
        ensures saved { IsSaveCall (keeper_change sure_seen self.old self.new) result bytes.now }
        ensures never { result ≢ Err KeepFault.Failed }
        ensures ok { OnOk result (self.new ≡ Some bytes.now) }
        ensures err { OnErr result (self.new ≡ self.old) }
    {
        self.kept = Some(Rows::from_slice(self.alloc, bytes)?);
        Ok(())
    }

    fn load(&mut self) -> Result<Option<Rows<u8>>, KeepFault>
        ensures loaded { IsLoadCall (keeper_change sure_seen self.old self.new) result }
        ensures never { result ≢ Err KeepFault.Failed }
        ensures nothing { self.old ≡ None → IsOk result }
        ensures unchanged { self.new ≡ self.old }
    {
        Ok(copy_kept(&self.kept)?)
    }
}
