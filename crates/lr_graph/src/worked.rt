//! Laws about small histories: each function does nothing, and its contract is the law.
ghost use Rattle.std.specs.Prelude.{[], ◌∷◌, codes, take};
ghost use Rattle.svc_tally.specs.Tally.{tally};
ghost use Rattle.lr_base.specs.declared.events.Event.TheVariants.{Deliver};
ghost use Rattle.lr_base.specs.declared.events.Outcome.TheVariants.{Accept, Got, Send};
ghost use Rattle.lr_base.specs.declared.events.Sent.TheVariants.{Done};
ghost use Rattle.lr_base.specs.declared.names.Actor.TheVariants.{Client, Replica};
ghost use Rattle.lr_graph.specs.Graph.{below_of, ready};
ghost use Rattle.lr_graph.specs.Legal.{IsLegal};
ghost use Rattle.lr_graph.specs.Promises.{TakesAnswer, TakesDone, facts_of};
ghost use Rattle.lr_graph.specs.Worked.{ack_spot, acknowledged, add_and_read, called_by, first_call, first_spot};
ghost use Rattle.lr_graph.specs.Worked.{forced_call, forced_sum, gossiped, gossiped_before, pair};
ghost use Rattle.lr_graph.specs.Worked.{second_call, shown_at_first, small};

/// A history of an addition, and of a read that sees it, is legal.
pub fn an_addition_is_read()
    ensures { IsLegal tally small (add_and_read (Got first_call ∷ []) (codes "3")) }
{}

/// The same history with another answer is not.
pub fn another_answer_is_not_legal()
    ensures { IsLegal tally small (add_and_read (Got first_call ∷ []) (codes "4")) → ⊥ }
{}

/// Nor is it where the front end prints nothing of the addition's reply.
pub fn a_reply_that_is_not_taken_is_not_legal()
    ensures { IsLegal tally small (add_and_read [] (codes "3")) → ⊥ }
{}

/// In the first history the client is told that the addition is done, and then the answer.
pub fn a_client_is_told()
    ensures done { TakesDone tally small (take 2 (add_and_read (Got first_call ∷ []) (codes "3")))
        (record { event = Deliver 2; outcomes = Got first_call ∷ [] }) 0 first_call
        (below_of (facts_of tally small (take 2 (add_and_read (Got first_call ∷ []) (codes "3")))).accepted
        first_spot) }
    ensures answer { TakesAnswer tally small (take 5 (add_and_read (Got first_call ∷ []) (codes "3")))
        (record { event = Deliver 4; outcomes = Got second_call ∷ [] }) 0 second_call
        (ready (facts_of tally small (take 5 (add_and_read (Got first_call ∷ []) (codes "3")))).accepted
        ((facts_of tally small (take 5 (add_and_read (Got first_call ∷ []) (codes "3")))).received 0)) }
{}

/// A client that isn't there calls nothing in a legal history, and a replica that isn't there is shown in none.
pub fn what_is_not_there_makes_no_step()
    ensures client { IsLegal tally small (called_by 0) }
    ensures no_client { IsLegal tally small (called_by 1) → ⊥ }
    ensures replica { IsLegal tally small (shown_at_first 0) }
    ensures no_replica { IsLegal tally small (shown_at_first 7) → ⊥ }
{}

/// A forced update is called and sent, and not accepted as a causal one is.
pub fn a_forced_update_is_not_accepted()
    ensures sent { IsLegal forced_sum small (forced_call []) }
    ensures accepted { IsLegal forced_sum small (forced_call
        (Accept first_spot first_call ∷ Send 2 (Replica 0) (Client 0) (Done first_call first_spot) ∷ [])) → ⊥ }
{}

/// Of two replicas one that logs an acknowledged update still shows its call: the call leaves only with the update.
pub fn a_call_stays_while_its_update_is_logged()
    ensures stays { IsLegal tally pair (acknowledged (first_call ∷ [])) }
    ensures leaves { IsLegal tally pair (acknowledged []) → ⊥ }
{}

/// Once the other has told that it has the update, the update and the call leave; and the acknowledgement, which the
/// other has too, leaves at the first reading at which a copy of the call is late.
pub fn a_call_leaves_once_all_have_its_update()
    ensures leaves { IsLegal tally pair (gossiped [] 18 []) }
    ensures in_time { IsLegal tally pair (gossiped [] 17 (ack_spot ∷ [])) }
    ensures call { IsLegal tally pair (gossiped (first_call ∷ []) 18 []) → ⊥ }
    ensures early { IsLegal tally pair (gossiped [] 17 []) → ⊥ }
{}

/// However late it is, the acknowledgement stays in the log while the other replica hasn't told that it has it.
pub fn an_acknowledgement_stays_until_all_have_it()
    ensures stays { IsLegal tally pair (gossiped_before (ack_spot ∷ [])) }
    ensures leaves { IsLegal tally pair (gossiped_before []) → ⊥ }
{}
