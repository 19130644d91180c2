//! The laws of front ends. These functions do nothing: their contracts are the laws.
ghost use Rattle.std.specs.Prelude.{ℕ, ◌≡◌, ◌+◌, List, fold, max, replicate};
ghost use Rattle.lr_base.specs.Fronts.{FrontEvent, FrontState, front_next, new_front};
ghost use Rattle.lr_base.specs.Fronts.FrontEvent.{CallTo, ResendTo, AckTo};
ghost use Rattle.lr_base.specs.Stamps.{join};
ghost use Rattle.lr_base.specs.declared.names.Config.{Config};
ghost use Rattle.lr_front.specs.Replies.{front_after, readings, stamps_got};
ghost use Rattle.lr_front.specs.Undoing.{restored, saved};

use lr_base::lr_service::Operation;

/// The label of a front end's calls is the join of the stamps of the replies that it took, and its clock is the
/// greatest reading, whatever came to it.
pub fn label_joins_the_replies_taken<O: Operation>()
    ensures label { (config : Config) (client : ℕ) (events : List (FrontEvent O))
        → (front_after config client events).label
        ≡ fold join (replicate (config.replicas + 1) 0) (stamps_got (new_front config client) events) }
    ensures clock { (config : Config) (client : ℕ) (events : List (FrontEvent O))
        → (front_after config client events).clock ≡ fold max 0 (readings events) }
{}

/// After a command, refused or not, the savepoint from before gives the front end of then.
pub fn commands_can_be_undone<O: Operation>()
    ensures call { (front : FrontState O) (replica reading : ℕ) (op : O)
        → restored (saved front) (front_next (CallTo replica reading op) front) ≡ front }
    ensures resend { (front : FrontState O) (replica reading : ℕ)
        → restored (saved front) (front_next (ResendTo replica reading) front) ≡ front }
    ensures ack { (front : FrontState O) (replica reading : ℕ)
        → restored (saved front) (front_next (AckTo replica reading) front) ≡ front }
{}
