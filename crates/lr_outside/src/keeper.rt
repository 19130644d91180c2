//! What keeps bytes.
ghost use Rattle.std.specs.Prelude.{◌≡◌, None, IsOk, IfOk};
ghost use Rattle.lr_outside.specs.Keepers.{IsLoadCall, IsSaveCall, keeper_change, KeeperSeen};

use lr_base::{NoMemory, Rows};

#[cfg(test)]
mod tests;

/// Why a keeper gave up.
#[derive(Clone, Copy, Debug, PartialEq, Eq)]
pub enum KeepFault {
    /// A save or a load failed.
    Failed,
    /// There was no memory for the bytes.
    NoMemory,
}

impl From<NoMemory> for KeepFault {
    ghost use Rattle.std.specs.Prelude.{◌≡◌};
    ghost use Rattle.lr_outside.specs.declared.keeper.KeepFault.TheVariants as fault;

    ghost from_gives = { λ none given. given ≡ fault.NoMemory };

    fn from(_none: NoMemory) -> KeepFault {
        KeepFault::NoMemory
    }
}

/// Keeps bytes, as one piece, or nothing. It means what is kept, which it always tells, and a count of its faults. Only
/// a failing call is a fault: for want of memory none is counted.
pub trait Keeper {
    ghost seen: { Self → KeeperSeen };

    /// Keeps these bytes in the place of what was kept. A save that gives up leaves what was kept.
    fn save(&mut self, bytes: &[u8]) -> Result<(), KeepFault>
        ensures { IsSaveCall (keeper_change seen self.old self.new) result bytes.now };

    /// Gives a copy of the bytes kept, if some are.
    fn load(&mut self) -> Result<Option<Rows<u8>>, KeepFault>
        ensures { IsLoadCall (keeper_change seen self.old self.new) result };
}

// A copy of what is kept. It takes no memory where nothing is.
pub(crate) fn copy_kept(kept: &Option<Rows<u8>>) -> Result<Option<Rows<u8>>, NoMemory>
    ensures ok { IfOk result (λ copied. copied ≡ kept.now) }
    ensures nothing { kept.now ≡ None → IsOk result }
{
    match kept {
        Some(bytes) => Ok(Some(bytes.copy()?)),
        None => Ok(None),
    }
}
