//! Two dies, a keeper and two hosts, each in a thread of its own.
use stress::stress_text;

/// Each block is read as it was written.
#[test]
fn two_hosts_over_two_dies(rt: HostRuntime) {
    let alloc = rt.alloc();
    let mut out: Vec<u8> = Vec::new(alloc);
    let mut faults: Vec<u8> = Vec::new(alloc);
    let status = stress_text(&rt, alloc, 2, 2, &mut out, &mut faults);
    assert!(rt; status == 0 && faults.is_empty());
    assert!(rt; out.as_slice() == b"stress dies 2 hosts 2 writes 512 bad 0\n".as_slice());
}
