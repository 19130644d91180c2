//! The law of orders of updates. The function does nothing: its contract is the law.
ghost use Rattle.std.specs.Prelude.{◌≡◌, List};
ghost use Rattle.lr_base.specs.Orders.{AgreeWhereOrdered, AreUpdates};
ghost use Rattle.lr_base.specs.Orders.{HasSameUpdates, Keyed, OppositesCommute, apply_all};

use crate::lr_service::Service;

/// Two orders of the same updates give one value from every start where updates that stand in them in opposite order
/// commute: so where they agree on each pair whose kinds need one order.
pub fn agreeing_orders_give_one_value<S: Service, Key>()
    ensures pairs { (value : S) (one other : List (Keyed Key S.Op))
        → HasSameUpdates one other → OppositesCommute S.meaning one other
        → apply_all S.meaning value one ≡ apply_all S.meaning value other }
    ensures kinds { (value : S) (one other : List (Keyed Key S.Op))
        → HasSameUpdates one other → AreUpdates S.meaning one → AgreeWhereOrdered S.meaning one other
        → apply_all S.meaning value one ≡ apply_all S.meaning value other }
{}
