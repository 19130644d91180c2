//! Applying logged updates to a value, each call once.
ghost use Rattle.std.specs.Prelude.{◌≡◌, ◌∷◌, ◌++◌, [], length, None, IfOk, OnOk};
ghost use Rattle.lr_base.specs.Calls.{enter_call};
ghost use Rattle.lr_base.specs.Kinds.{IsUpdate};
ghost use Rattle.lr_base.specs.Logged.{AllLogged, IsLogged};
ghost use Rattle.lr_base.specs.Places.{AreInOrder};
ghost use Rattle.lr_base.specs.Rules.{apply_one, apply_ready as rule, known_of};
ghost use Rattle.lr_value.specs.Applied.{GoesOn, progress_at};
ghost use Rattle.lr_value.specs.Executing.{LeadsOn};
ghost use Rattle.lr_value.specs.Waiting.{AreLeft, behind};

use crate::ops::Ops;
use crate::waiting::Table;
use lr_base::lr_service::Service;
use lr_base::{Executed, Known, LogUpdate, NoMemory, Stamp};
use std::alloc::Global;

/// A value that is changed, and the operations that were executed on it.
#[derive(Drop)]
pub(crate) struct Draft<S: Service> {
    pub(crate) value: S,
    pub(crate) val_ts: Stamp,
    pub(crate) since: Ops<S::Op>,
}

// Executes a call that wasn't executed.
fn run_call<S: Service, E: Executed>(
    draft: &mut Draft<S>,
    calls: &mut E,
    update: &LogUpdate<S::Op>,
    stamp: &Stamp,
) -> Result<(), NoMemory>
    requires new { known_of (E.known calls.old) update.now.cid ≡ None }
    requires update { IsUpdate (S.Op.kind_of update.now.op) }
    ensures ok { OnOk result (progress_at draft.new.value draft.new.val_ts (E.known calls.new)
        ≡ progress_at (S.meaning.apply draft.old.value update.now.op) draft.old.val_ts
        (enter_call (update.now.cid, record { spot = update.now.spot; stamp = stamp.now }) (E.known calls.old))) }
    ensures since { OnOk result (draft.new.since ≡ draft.old.since ++ update.now.op ∷ []) }

    // What stays, also where memory ends.
    ensures goes_on { length stamp.now ≡ length draft.old.val_ts →
        GoesOn (progress_at draft.old.value draft.old.val_ts (E.known calls.old))
        (progress_at draft.new.value draft.new.val_ts (E.known calls.new)) }
    ensures kept { E.kept calls.new ≡ E.kept calls.old }
{
    draft.since.note(&update.op)?;
    let known = Known {
        spot: update.spot,
        stamp: stamp.copy(),
    };
    calls.enter(update.cid, known)?;
    draft.value.apply(&update.op)
}

// Applies one update: its call is executed unless it was before, and its stamp is covered either way.
fn execute<S: Service, E: Executed>(
    draft: &mut Draft<S>,
    calls: &mut E,
    update: &LogUpdate<S::Op>,
) -> Result<(), NoMemory>
    requires { IsLogged S.Op.kind_of (length draft.old.val_ts) update.now }
    ensures ok { OnOk result (progress_at draft.new.value draft.new.val_ts (E.known calls.new)
        ≡ apply_one S.meaning (progress_at draft.old.value draft.old.val_ts (E.known calls.old)) update.now) }
    ensures since { OnOk result
        (LeadsOn S.meaning draft.old.since draft.old.value draft.new.since draft.new.value) }

    // What stays, also where memory ends.
    ensures goes_on { GoesOn (progress_at draft.old.value draft.old.val_ts (E.known calls.old))
        (progress_at draft.new.value draft.new.val_ts (E.known calls.new)) }
    ensures kept { E.kept calls.new ≡ E.kept calls.old }
{
    let stamp = update.stamp();
    if !calls.has(update.cid) {
        run_call(draft, calls, update, &stamp)?;
    }
    draft.val_ts.join(&stamp);
    Ok(())
}

/// Applies what waits, each time the first whose causes are applied, until none is left that may be. It answers what
/// still waits.
pub(crate) fn apply_all<'a, S: Service, E: Executed>(
    alloc: Global,
    draft: &mut Draft<S>,
    calls: &mut E,
    waiting: Vec<&'a LogUpdate<S::Op>>,
) -> Result<Vec<&'a LogUpdate<S::Op>>, NoMemory>
    requires { AllLogged S.Op.kind_of (length draft.old.val_ts) (behind waiting.items)
        × AreInOrder (λ u. u.spot) (behind waiting.items) }
    ensures ok { let todo = behind waiting.entry.items in
        OnOk result (progress_at draft.new.value draft.new.val_ts (E.known calls.new)
        ≡ rule S.meaning (length todo) todo (progress_at draft.old.value draft.old.val_ts (E.known calls.old))) }
    ensures since { OnOk result
        (LeadsOn S.meaning draft.old.since draft.old.value draft.new.since draft.new.value) }
    ensures left { IfOk result (λ left. AreLeft draft.new.val_ts (behind waiting.entry.items) (behind left.items)) }

    // What stays, also where memory ends.
    ensures goes_on { GoesOn (progress_at draft.old.value draft.old.val_ts (E.known calls.old))
        (progress_at draft.new.value draft.new.val_ts (E.known calls.new)) }
    ensures kept { E.kept calls.new ≡ E.kept calls.old }
{
    let mut table = Table::of(alloc, waiting, &draft.val_ts)?;
    while let Some(update) = table.take_first() {
        execute(draft, calls, update)?;
        table.wake(update.spot.place, &draft.val_ts)?;
    }
    table.rest()
}
