//! Two lanes, a keeper and a host, each in a thread of its own.
use crate::example::serve_both;
use crate::sharing::{crew_over, two_dies};

/// A block is written and read while both lanes serve.
#[test]
fn a_block_is_read_back_with_a_thread_for_each_die(rt: HostRuntime) {
    let mut crew = crew_over(&rt, rt.alloc(), two_dies(&rt, rt.alloc()));
    let (one, other) = (&mut crew.second, &mut crew.first);
    assert!(rt; serve_both(&rt, one, other, &mut crew.keeper, &mut crew.port));
    drop(crew);
}

/// The same, with the dies changed about.
#[test]
fn a_block_is_read_back_with_the_threads_changed_about(rt: HostRuntime) {
    let mut crew = crew_over(&rt, rt.alloc(), two_dies(&rt, rt.alloc()));
    let (one, other) = (&mut crew.first, &mut crew.second);
    assert!(rt; serve_both(&rt, one, other, &mut crew.keeper, &mut crew.port));
    drop(crew);
}
