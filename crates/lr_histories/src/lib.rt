//! Histories worked out by hand, as printed and altered. This file is made by .ci/laws_of_histories.
#![tactic(auto)]

pub mod a_call_made_again_through_another_replica;
pub mod a_copy_that_comes_late;
pub mod a_late_copy_of_an_executed_call;
pub mod a_lone_replica_forgets_an_acknowledged_call;
pub mod a_query_delivered_four_times;
pub mod a_query_is_sent_again;
pub mod a_query_waits_for_gossip;
pub mod a_query_waits_for_the_acceptance_that_its_label_names;
pub mod a_second_call_while_one_is_open;
pub mod a_word_sent_and_read;
pub mod an_acknowledgement_comes_before_its_call;
pub mod an_acknowledgement_is_noted_again_after_it_left;
pub mod an_update_before_its_cause;
pub mod an_update_delivered_twice;
pub mod an_update_delivered_twice_and_a_second_open_call;
pub mod an_update_is_accepted_at_two_replicas;
pub mod first;
pub mod lost_gossip_made_good;
pub mod many_calls_while_one_is_open;
pub mod messages_that_were_never_sent;
pub mod no_copy_may_come_after_its_time;
pub mod notes_with_repeats;
pub mod one_box_at_two_replicas;
pub mod one_replica_never_tells;
pub mod sixty_four_clients;
pub mod the_longest_name_and_the_greatest_amounts;
pub mod times_at_both_ends_of_64_bits;
pub mod two_clients_dont_wait;
pub mod two_clients_on_counters_that_wrap;
pub mod two_clients_one_counter;
pub mod what_front_ends_refuse;
