//! Which histories are legal: by the causes of updates, as sets, and by one value of each set.
#![tactic(auto)]

mod facts;
mod laws;
mod listed;
mod promises;
mod slow;
mod worked;

pub use laws::{
    a_call_is_taken_once_at_a_replica, a_call_that_left_is_over, a_made_history_goes_on,
    answers_are_printable, every_order_gives_one_value, legal_histories_are_one,
    no_copy_is_later_than_an_acknowledgement, ready_is_the_greatest_closed_set,
    replicas_have_the_value_of_what_is_ready, runs_are_legal, sending_changes_the_messages_alone,
    stamps_stand_for_sets, what_all_told_is_ready, what_is_made_is_legal, what_is_printed_fits,
    what_is_sent_is_spread, what_left_stays_away,
};
pub use listed::{listed_are_the_members, the_least_spot_is_kept};
pub use promises::{
    answers_are_read_after_what_is_ready, causes_come_first, clients_read_their_writes,
    one_round_of_gossip_is_enough, reads_are_monotonic, replicas_converge,
    replies_stand_for_acceptances, writes_are_monotonic, writes_follow_reads,
};
pub use slow::{ready_of, value_of};
pub use worked::{
    a_call_leaves_once_all_have_its_update, a_call_stays_while_its_update_is_logged,
    a_client_is_told, a_forced_update_is_not_accepted, a_reply_that_is_not_taken_is_not_legal,
    an_acknowledgement_stays_until_all_have_it, an_addition_is_read, another_answer_is_not_legal,
    what_is_not_there_makes_no_step,
};
