//! Laws of a follower and the history of the office that it follows, for proofs of crates above:
//! the functions do nothing, and their contracts are the laws. Begin with
//! `followers_show_the_board`.
#![tactic(auto)]

mod laws;

pub use laws::{
    first_texts_end_at_a_front, followers_show_the_board, legal_histories_read_as_their_boards,
};
