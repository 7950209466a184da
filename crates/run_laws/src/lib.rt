//! Laws about the effects of commands: the cases of the contract of `run`, each from its clauses `does` and `memory`.
#![tactic(auto)]

mod conversions;
mod discs;

pub use conversions::{
    clean_streams_give_their_words, damaged_readings_give_their_packs,
    damaged_streams_give_their_packs, players_go_on_from_saved_streams,
    scheduled_streams_show_their_pictures, scratched_streams_are_damaged,
    scratched_streams_give_their_packs, streams_go_on_from_saved_players,
};
pub use discs::{
    accepted_discs_are_written, authored_texts_are_written, copied_texts_are_written,
    refusals_are_reported, second_faults_come_after_the_first_input,
};
