//! The demands on the rules, as theorems: each is the contract of a function that does nothing, since what it says holds of all calls.
#![tactic(auto)]

mod endings;
mod number_reads;
mod order;
mod refusals;
mod reply_space;
mod secrecy;
mod stores;
mod uniqueness;

pub use endings::{every_call_ends_as_listed, every_call_ends_by_its_table};
pub use number_reads::both_number_reads_say_one_number;
pub use order::{dates_stay_valid, order_stays, values_stay_in_range};
pub use refusals::{
    broadcasts_are_not_answered, faults_send_an_error_frame, refusals_change_nothing,
    silent_refusals_write_nothing,
};
pub use reply_space::{lengths_stay, replies_are_one_frame};
pub use secrecy::{
    agreement_goes_by_number, hidden_values_are_not_told, levels_learn_no_more,
    the_next_level_is_told,
};
pub use stores::{
    a_fill_leaves_the_defaults, a_request_leaves_what_it_brings, a_system_write_stores_its_value,
    only_what_is_named_changes,
};
pub use uniqueness::no_contract_leaves_a_choice;
