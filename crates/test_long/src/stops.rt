//! Stops at each job of the long row.
use crate::player::Player;
use crate::rows::{ACTS, LIVES, written_down};
use std::alloc::Global;
use std::process::Abort;
use ufsim::Stops;

/// A check of what was written down tries so many stops, none of which is bad.
fn good_stops(rt: &impl Abort, alloc: Global, player: &Player, tries: Stops) -> usize {
    match &player.script {
        Some(script) => script.good_stops(rt, alloc, tries),
        None => 0,
    }
}

/// Each time that a die is given a program or an erase there are three stops, and where the other
/// die has one too nine more: each content of the one with each of the other.
#[test]
fn each_pair_of_leftovers_of_a_long_row_is_good(rt: HostRuntime) {
    let player = written_down(&rt, rt.alloc(), LIVES, ACTS);
    let (writes, both) = (player.counts.writes, player.counts.both);
    assert!(rt; 300 < writes && writes < 1000 && 0 < both && both < 1000);
    let stops = good_stops(&rt, rt.alloc(), &player, Stops::Pairs);
    assert!(rt; stops == 3 * writes + 9 * both, "{stops} stops");
    drop(player);
}

/// In how many parts the second stops of the row are tried.
const PARTS: usize = 8;

/// Each time that a die is given a program or an erase there are three stops, and in the opening after
/// each of them three more for each program and each erase of it. It erases a block of each die at
/// least, and after a stop of which something is lost it programs marks and repairs. Here they are
/// tried each eighth time, from this one on.
fn second_stops_are_good(rt: &impl Abort, alloc: Global, part: usize) {
    let player = written_down(rt, alloc, LIVES, ACTS);
    let writes = player.counts.writes;
    assert!(rt; 300 < writes && writes < 1000);
    let stops = good_stops(rt, alloc, &player, Stops::SecondOf { part, parts: PARTS });
    assert!(rt; stops > 3 * 3 * (writes / PARTS), "{stops} stops");
    drop(player);
}

#[test]
fn second_stops_of_the_first_part_are_good(rt: HostRuntime) {
    second_stops_are_good(&rt, rt.alloc(), 0);
}

#[test]
fn second_stops_of_the_second_part_are_good(rt: HostRuntime) {
    second_stops_are_good(&rt, rt.alloc(), 1);
}

#[test]
fn second_stops_of_the_third_part_are_good(rt: HostRuntime) {
    second_stops_are_good(&rt, rt.alloc(), 2);
}

#[test]
fn second_stops_of_the_fourth_part_are_good(rt: HostRuntime) {
    second_stops_are_good(&rt, rt.alloc(), 3);
}

#[test]
fn second_stops_of_the_fifth_part_are_good(rt: HostRuntime) {
    second_stops_are_good(&rt, rt.alloc(), 4);
}

#[test]
fn second_stops_of_the_sixth_part_are_good(rt: HostRuntime) {
    second_stops_are_good(&rt, rt.alloc(), 5);
}

#[test]
fn second_stops_of_the_seventh_part_are_good(rt: HostRuntime) {
    second_stops_are_good(&rt, rt.alloc(), 6);
}

#[test]
fn second_stops_of_the_eighth_part_are_good(rt: HostRuntime) {
    second_stops_are_good(&rt, rt.alloc(), 7);
}
