//! What a batch comes to at one key beside other clients' writes, and what that says of the whole batch.
//! Its functions do nothing; their clauses are the laws.
#![tactic(auto)]

mod batch_laws;
mod key_laws;
mod middle_laws;
mod progress_laws;
mod reply_laws;

pub use batch_laws::{
    batch_numbers, cut_deed, fails_at_key, fails_turn, first_fails, gives_at_keys, keys_give,
    piece_gives, turns_fail,
};
pub use key_laws::{
    acts_alone, any_stamp, asked_again, fails_alone, fails_old, from_today, piece_alone,
    same_course, settles_alike,
};
pub use middle_laws::{
    partway_acts, partway_again, partway_begins, partway_foreign, partway_refused,
    partway_rolled_back,
};
pub use progress_laws::{
    batch_begins, batch_ends, batch_goes, batch_refused, batch_stays, batch_written, block_goes,
    cuts_go_again, cuts_go_on, piece_fails, piece_goes, progress_kept, serves_asked,
};
pub use reply_laws::{
    answers_in_turn, batch_answers, cut_answers, gathered_asks, joins_answer, piece_replies,
    replies_in_turn,
};
