//! What a value's applying asks of a table of executed calls.
ghost use Rattle.std.specs.Prelude.{List, ◌≡◌, None, is_some, OnOk, OnErr};
ghost use Rattle.lr_base.specs.Calls.{enter_call};
ghost use Rattle.lr_base.specs.Rules.{known_of};
ghost use Rattle.lr_base.specs.declared.names.Cid.{Cid};
ghost use Rattle.lr_base.specs.declared.messages.Known.{Known};

use crate::messages::Known;
use crate::names::Cid;
use crate::rows::NoMemory;

/// A table of executed calls, each with one spot and its stamp.
pub trait Executed {
    /// The calls with what is known of them, in the order of calls.
    ghost known: { Self → List (Cid × Known) };

    /// What no entering changes.
    ghost Kept: { Type 0 };

    ghost kept: { Self → Kept };

    /// Whether the call was executed.
    fn has(&self, cid: Cid) -> bool
        ensures { result ≡ is_some (known_of (known self.now) cid) };

    /// Enters a call that isn't there.
    fn enter(&mut self, cid: Cid, entry: Known) -> Result<(), NoMemory>
        requires { known_of (known self.old) cid ≡ None }
        ensures ok { OnOk result (known self.new ≡ enter_call (cid, entry) (known self.old)) }
        ensures err { OnErr result (known self.new ≡ known self.old) }
        ensures kept { kept self.new ≡ kept self.old };
}
