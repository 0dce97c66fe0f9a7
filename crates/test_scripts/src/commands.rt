//! The commands beside READ(10) and WRITE(10), and the messages that open no task.
use crate::steps::Step::{Block, Command, Good, Host, Lines, NopOut, Refusal, Reply, Send, Settle};
use crate::steps::{Script, TAGS, expect};

/// NOP OUT, before the device is mended too, is answered by NOP IN.
#[test]
fn nop_out_is_answered_by_nop_in(rt: HostRuntime) {
    expect(
        &rt,
        rt.alloc(),
        &[
            NopOut("05"),
            Reply("20000005", ""),
            Lines("reply", "reply none"),
        ],
    );
}

/// 32 NOP OUT without a reply taken; one more is refused with fault 9, and taken after one reply.
#[test]
fn a_message_beyond_32_unheard_replies_is_refused(rt: HostRuntime) {
    let mut script = Script::new(rt.alloc());
    for tag in TAGS.iter().take(32) {
        script.add(&[NopOut(tag)]);
    }
    script.add(&[
        Host("00000020", 32, "host fault 9"),
        Reply("20000000", ""),
        NopOut("20"),
    ]);
    script.run(&rt);
}

/// READ CAPACITY(10) tells the last address and the length of a block, also before the device is
/// mended.
#[test]
fn read_capacity_tells_the_last_address(rt: HostRuntime) {
    expect(
        &rt,
        rt.alloc(),
        &[
            Command("014000", "09", "00000008", "25"),
            Reply(
                "2200000900000000000000080000000000000008",
                "000000ff00001000",
            ),
            Good("09"),
        ],
    );
}

/// REQUEST SENSE tells that there is nothing to tell, in as many bytes as are allowed.
#[test]
fn request_sense_has_nothing_to_tell(rt: HostRuntime) {
    expect(
        &rt,
        rt.alloc(),
        &[
            Command("014000", "0a", "00000004", "0300000004"),
            Reply("2200000a00000000000000040000000000000004", "70000000"),
            Good("0a"),
        ],
    );
}

/// READ(6) with the length 0 means 256 blocks, which are too many for one command.
#[test]
fn a_read_6_of_256_blocks_is_refused(rt: HostRuntime) {
    expect(
        &rt,
        rt.alloc(),
        &[
            Settle("4"),
            Command("014000", "0b", "00100000", "0800000000"),
            Refusal("212000", "0b", "00100000", "05", "2400"),
        ],
    );
}

/// WRITE(6) has no FUA, so that it is answered at once; READ(6) gives its block.
#[test]
fn write_6_and_read_6_carry_a_block(rt: HostRuntime) {
    expect(
        &rt,
        rt.alloc(),
        &[
            Settle("4"),
            Command("012000", "0c", "00001000", "0a0000ff01"),
            Send("0c", "6c", 1),
            Good("0c"),
            Command("014000", "0d", "00001000", "080000ff01"),
            Block("0d", "6c"),
            Good("0d"),
        ],
    );
}
