//! The laws of many stops: over any number of lives each opening finds room for its mending. The functions do nothing:
//! their contracts are the laws.
#![tactic(auto)]

mod free_over_stops;
mod room_of_groups;
mod room_over_stops;

pub use free_over_stops::a_stop_costs_no_free_block;
pub use room_of_groups::{
    an_idle_life_leaves_nothing_to_mend, groups_leave_their_room_at_each_stop,
};
pub use room_over_stops::{each_opening_finds_room, no_life_is_locked_out};
