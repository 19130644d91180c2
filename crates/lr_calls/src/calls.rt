//! Which calls were executed, and where.
ghost use Rattle.std.specs.Prelude.{◌≡◌, [], ◌∷◌, map, IfOk, OnOk, OnErr, None, is_some};
ghost use Rattle.lr_base.specs.Calls.{enter_call};
ghost use Rattle.lr_base.specs.Rules.{known_of, undone_calls};
ghost use Rattle.lr_calls.specs.Tables.{without};

use indexmap::IndexMap;
use lr_base::{Cid, Known, LogAck, NoMemory, Places};
use std::alloc::Global;
use std::marker::Model;

/// The executed calls, each with one spot and its stamp.
#[derive(Drop)]
pub struct CallTable {
    known: IndexMap<Cid, Known>,
}

impl Model for CallTable {
    ghost use Rattle.std.specs.Prelude.{List};
    ghost use Rattle.std.specs.HashMap.{IsUnique};
    ghost use Rattle.lr_base.specs.Calls.{by_call};
    ghost use Rattle.lr_base.specs.contracts.names.CidPartialEq.TheImpl.{eq-value};
    ghost use Rattle.lr_base.specs.declared.names.Cid.{Cid};
    ghost use Rattle.lr_base.specs.declared.messages.Known.{Known};

    ghost Value = { List (Cid × Known) };

    ghost view = { λ table. by_call table.known.entries };

    ghost invariant = { λ table. IsUnique eq-value.it table.known };
}

impl CallTable {
    ghost use Rattle.lr_base.specs.Calls.{AreByCall};

    /// No call.
    pub fn new(alloc: Global) -> Self
        ensures { result ≡ [] }
    {
        CallTable {
            known: IndexMap::new(alloc),
        }
    }

    /// Enters an executed call that isn't there.
    pub fn enter(&mut self, cid: Cid, entry: Known) -> Result<(), NoMemory>
        requires { known_of self.old cid ≡ None }
        ensures ok { OnOk result (self.new ≡ enter_call (cid, entry) self.old) }
        ensures err { OnErr result (self.new ≡ self.old) }
    {
        self.known.insert(cid, entry)?;
        Ok(())
    }

    /// Where the call was executed, if it was.
    pub fn find(&self, cid: Cid) -> Option<Known>
        ensures { result ≡ known_of self.now cid }
    {
        let known = self.known.get(&cid)?;
        Some(known.copy())
    }

    /// Whether the call was executed.
    pub fn has(&self, cid: Cid) -> bool
        ensures { result ≡ is_some (known_of self.now cid) }
    {
        self.known.contains_key(&cid)
    }

    /// A table equal to this one.
    pub fn copy(&self) -> Result<Self, NoMemory>
        ensures { IfOk result (λ copied. copied ≡ self.now) }
    {
        let known = self.known.clone()?;
        Ok(CallTable { known })
    }

    /// The executed calls, ascending.
    pub fn cids(&self, alloc: Global) -> Result<Vec<Cid>, NoMemory>
        ensures cids { IfOk result (λ cids. cids.items ≡ map (λ e. e.0) self.now) }
        ensures in_order { AreByCall self.now }
    {
        let mut cids = keys_of(&self.known, alloc)?;
        cids.sort_unstable();
        Ok(cids)
    }

    // Takes out one call, if it is there.
    fn take_out(&mut self, cid: Cid)
        ensures { self.new ≡ without (cid ∷ []) self.old }
    {
        let _known = self.known.swap_remove(&cid);
    }

    /// Takes out these calls. It takes no memory.
    pub fn leave(&mut self, cids: &[Cid])
        ensures { self.new ≡ without cids.now self.old }
    {
        for cid in cids {
            self.take_out(*cid);
        }
    }

    /// Forgets the calls that are done: those with one of these acknowledgements, and no update in the log. It takes no
    /// memory, and it looks up one call an acknowledgement, never through the table.
    pub fn forget<O, L: Places<O>>(&mut self, log: &L, acks: &[LogAck])
        ensures { self.new ≡ undone_calls (L.updates log.now) acks.now self.old }
    {
        for ack in acks {
            if !log.has_update(ack.cid) {
                self.take_out(ack.cid);
            }
        }
    }
}

// The calls of a map's entries.
fn keys_of(known: &IndexMap<Cid, Known>, alloc: Global) -> Result<Vec<Cid>, NoMemory>
    ensures { IfOk result (λ cids. cids.items ≡ map (λ e. e.0) known.now.entries) }
{
    let cids = known.keys().copied().collect(alloc)?;
    Ok(cids)
}
