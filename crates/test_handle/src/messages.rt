//! Messages of a host that are written into a buffer.
use row_messages::frames::{Numbers, answer_command, frame, frames_command};
use row_messages::messages::{FUA, READ, WRITE, command, unmap, unmap_list};
use std::process::Abort;
use ufs_handle::Fault;
use ufs_messages::{
    PlainFrame, get_frame, put_asking, put_asking_for, put_command, put_data_out, put_flush,
    put_frame, put_long, put_mac, put_nop, put_query, put_read, put_security, put_task_request,
    put_unmap, put_unmap_list, put_verify, put_write,
};
use ufs_spec::Asked;

/// A buffer that is longer than the message, which stands in its first bytes; what is behind stays.
fn expect(rt: &impl Abort, answer: Result<(), Fault>, room: &[u8], message: &[u8]) {
    assert!(rt; answer.is_ok());
    assert!(rt; room.starts_with(message));
    assert!(rt; room[message.len()..].iter().all(|byte| *byte == 0xEE));
}

/// The COMMANDs that carry data are those of the standards.
#[test]
fn commands_with_data_are_written(rt: HostRuntime) {
    let mut room = [0xEE; 64];
    let answer = put_read(0, 7, 0x01020304, 5, &mut room);
    expect(&rt, answer, &room, &command(7, READ, 0, 0x01020304, 5));
    let answer = put_write(0, 7, 9, 128, true, &mut room);
    expect(&rt, answer, &room, &command(7, WRITE, FUA, 9, 128));
    let answer = put_write(0, 8, 9, 1, false, &mut room);
    expect(&rt, answer, &room, &command(8, WRITE, 0, 9, 1));
    let answer = put_unmap(0, 7, &mut room);
    expect(&rt, answer, &room, &unmap(7));
    let answer = put_unmap_list(0, 7, 0x0102, 3, &mut room);
    expect(&rt, answer, &room, &unmap_list(7, 0x0102, 3));
}

/// So are the others, the queries and the short exchanges.
#[test]
fn short_messages_are_written(rt: HostRuntime) {
    let mut room = [0xEE; 64];
    let mut wanted = [0; 32];
    wanted[0] = 0x01;
    wanted[2] = 0xD0;
    wanted[3] = 7;
    wanted[16] = 0x35;
    let answer = put_flush(0xD0, 7, false, &mut room);
    expect(&rt, answer, &room, &wanted);
    wanted[17] = 0x02;
    let answer = put_flush(0xD0, 7, true, &mut room);
    expect(&rt, answer, &room, &wanted);
    let mut inquiry = [0; 32];
    inquiry[0] = 0x01;
    inquiry[1] = 0x40;
    inquiry[3] = 7;
    inquiry[15] = 36;
    inquiry[16] = 0x12;
    inquiry[20] = 36;
    let answer = put_asking(0x12, 0, 7, 36, &mut room);
    expect(&rt, answer, &room, &inquiry);
    let mut query = [0; 32];
    query[0] = 0x16;
    query[3] = 7;
    query[5] = 0x81;
    query[12] = 0x04;
    query[23] = 2;
    let boot = Asked {
        opcode: 0x04,
        idn: 0,
        index: 0,
        selector: 0,
    };
    let answer = put_query(7, boot, 0, 2, &mut room);
    expect(&rt, answer, &room, &query);
    let mut abort = [0; 32];
    abort[0] = 0x04;
    abort[2] = 1;
    abort[3] = 7;
    abort[5] = 0x01;
    abort[15] = 1;
    abort[19] = 6;
    let answer = put_task_request(1, 7, 0x01, 6, &mut room);
    expect(&rt, answer, &room, &abort);
    let mut nop = [0; 32];
    nop[3] = 7;
    let answer = put_nop(7, &mut room);
    expect(&rt, answer, &room, &nop);
}

/// The COMMAND to unit 2 with task tag 7, these flags, this many expected bytes and this CDB.
fn whole(flags: u8, expected: [u8; 4], cdb: &[u8; 16]) -> [u8; 32] {
    let mut bytes = [0; 32];
    bytes[0] = 0x01;
    bytes[1] = flags;
    bytes[2] = 2;
    bytes[3] = 7;
    bytes[12..16].copy_from_slice(&expected);
    bytes[16..].copy_from_slice(cdb);
    bytes
}

/// What is asked for in profile 1 alone: READ CAPACITY(16); and by a selection page B0h of INQUIRY, page
/// 08h of MODE SENSE(10), changeable values of all pages and subpages of (6), the well-known units of
/// REPORT LUNS, READ CAPACITY(16) with its service action and timeouts of REPORT SUPPORTED OPERATION
/// CODES, and a self-test of SEND DIAGNOSTIC (SPC-4, SBC-3).
#[test]
fn asking_commands_of_profile_1_are_written(rt: HostRuntime) {
    let mut room = [0xEE; 64];
    let capacity = [0x9E, 0x10, 0, 0, 0, 0, 0, 0, 0, 0, 0, 0, 0, 32, 0, 0];
    let answer = put_asking(0x9E, 2, 7, 32, &mut room);
    expect(&rt, answer, &room, &whole(0x40, [0, 0, 0, 32], &capacity));
    let rows = [
        (
            0x12,
            0xB0,
            64,
            0x40,
            [0x12, 0x01, 0xB0, 0, 64, 0, 0, 0, 0, 0],
        ),
        (
            0x5A,
            0x0800,
            28,
            0x40,
            [0x5A, 0, 0x08, 0, 0, 0, 0, 0, 28, 0],
        ),
        (
            0x1A,
            0x7FFF,
            48,
            0x40,
            [0x1A, 0, 0x7F, 0xFF, 48, 0, 0, 0, 0, 0],
        ),
        (0xA0, 1, 16, 0x40, [0xA0, 0, 1, 0, 0, 0, 0, 0, 0, 16]),
        (
            0xA3,
            0x829E0010,
            64,
            0x40,
            [0xA3, 0x0C, 0x82, 0x9E, 0, 0x10, 0, 0, 0, 64],
        ),
        (0x1D, 1, 0, 0x00, [0x1D, 0x04, 0, 0, 0, 0, 0, 0, 0, 0]),
    ];
    for (operation, select, allocation, flags, front) in rows {
        let mut room = [0xEE; 64];
        let mut cdb = [0; 16];
        cdb[..10].copy_from_slice(&front);
        let answer = put_asking_for(operation, select, 2, 7, u32::from(allocation), &mut room);
        expect(
            &rt,
            answer,
            &room,
            &whole(flags, [0, 0, 0, allocation], &cdb),
        );
    }
}

/// VERIFY(10) with BYTCHK 00, which has no data, and with BYTCHK 01, which brings its blocks (SBC-3).
#[test]
fn verifies_are_written(rt: HostRuntime) {
    let mut room = [0xEE; 64];
    let mut cdb = [0x2F, 0, 1, 2, 3, 4, 0, 1, 5, 0, 0, 0, 0, 0, 0, 0];
    let answer = put_verify(2, 7, 0x01020304, 0x0105, false, &mut room);
    expect(&rt, answer, &room, &whole(0x00, [0, 0, 0, 0], &cdb));
    cdb[1] = 0x02;
    let answer = put_verify(2, 7, 0x01020304, 0x0105, true, &mut room);
    expect(&rt, answer, &room, &whole(0x20, [0, 0x10, 0x50, 0], &cdb));
}

/// Commands on blocks in sixteen bytes: READ(16) from an address of 64 bits on, WRITE(16) with FUA,
/// SYNCHRONIZE CACHE(16) and PRE-FETCH(16) with IMMED and without it, and the longest READ(16) (SBC-3).
#[test]
fn long_commands_are_written(rt: HostRuntime) {
    let rows = [
        (
            0x88,
            0x0102030405060708,
            5,
            false,
            0x40,
            [0, 0, 0x50, 0],
            [0x88, 0, 1, 2, 3, 4, 5, 6, 7, 8, 0, 0, 0, 5, 0, 0],
        ),
        (
            0x8A,
            9,
            128,
            true,
            0x20,
            [0, 0x08, 0, 0],
            [0x8A, 0x08, 0, 0, 0, 0, 0, 0, 0, 9, 0, 0, 0, 128, 0, 0],
        ),
        (
            0x91,
            0,
            0,
            true,
            0x00,
            [0, 0, 0, 0],
            [0x91, 0x02, 0, 0, 0, 0, 0, 0, 0, 0, 0, 0, 0, 0, 0, 0],
        ),
        (
            0x90,
            5,
            512,
            false,
            0x00,
            [0, 0, 0, 0],
            [0x90, 0, 0, 0, 0, 0, 0, 0, 0, 5, 0, 0, 2, 0, 0, 0],
        ),
        (
            0x88,
            0,
            0xF_FFFF,
            true,
            0x40,
            [0xFF, 0xFF, 0xF0, 0],
            [
                0x88, 0x08, 0, 0, 0, 0, 0, 0, 0, 0, 0, 0x0F, 0xFF, 0xFF, 0, 0,
            ],
        ),
    ];
    for (operation, address, blocks, option, flags, expected, cdb) in rows {
        let mut room = [0xEE; 64];
        let answer = put_long(operation, 2, 7, address, blocks, option, &mut room);
        expect(&rt, answer, &room, &whole(flags, expected, &cdb));
    }
}

/// A frame and the commands that carry frames are those of the standards, and a frame is read again.
#[test]
fn frames_are_written(rt: HostRuntime) {
    let mut room = [0xEE; 600];
    let answer = put_security(true, 7, 0, 2, &mut room);
    expect(&rt, answer, &room, &frames_command(7, 2));
    let mut room = [0xEE; 600];
    let answer = put_security(false, 7, 0, 8, &mut room);
    expect(&rt, answer, &room, &answer_command(7, 8));
    let numbers = Numbers {
        counter: 0x01020304,
        address: 0x0506,
        count: 0x0708,
        code: 0x090A,
        kind: 0x0003,
    };
    let fields = PlainFrame {
        key_or_mac: [0x11; 32],
        payload: [0x22; 256],
        nonce: [0; 16],
        write_counter: 0x01020304,
        address: 0x0506,
        block_count: 0x0708,
        result: 0x090A,
        message_type: 0x0003,
    };
    let mut room = [0xEE; 600];
    let answer = put_frame(&fields, &mut room);
    expect(&rt, answer, &room, &frame(&[0x11; 32], 0x22, numbers));
    let mut read = PlainFrame {
        key_or_mac: [0; 32],
        payload: [0; 256],
        nonce: [1; 16],
        write_counter: 0,
        address: 0,
        block_count: 0,
        result: 0,
        message_type: 0,
    };
    assert!(rt; matches!(get_frame(&room, &mut read), Err(Fault::Number)));
    assert!(rt; get_frame(&room[..512], &mut read).is_ok());
    assert!(rt; read.key_or_mac == [0x11; 32] && read.payload == [0x22; 256]);
    assert!(rt; read.nonce == [0; 16] && read.write_counter == 0x01020304);
    assert!(rt; read.address == 0x0506 && read.block_count == 0x0708);
    assert!(rt; read.result == 0x090A && read.message_type == 3);
}

/// What says nothing is a wrong number, also where the room is too small.
#[test]
fn wrong_numbers_are_told(rt: HostRuntime) {
    let mut room = [0xEE; 64];
    let wrong = put_command(0x60, 0, 7, 0, &[0; 6], &mut room);
    assert!(rt; matches!(wrong, Err(Fault::Number)));
    let wrong = put_command(0x60, 0, 7, 0, &[0; 6], &mut []);
    assert!(rt; matches!(wrong, Err(Fault::Number)));
    let wrong = put_data_out(0, 7, 0, &[], &mut room);
    assert!(rt; matches!(wrong, Err(Fault::Number)));
    let wrong = put_mac(&[0; 31], &[0; 512], &mut room);
    assert!(rt; matches!(wrong, Err(Fault::Number)));
    let wrong = put_asking(0x28, 0, 7, 8, &mut room);
    assert!(rt; matches!(wrong, Err(Fault::Number)));
    let wrong = put_asking(0x03, 0, 7, 256, &mut room);
    assert!(rt; matches!(wrong, Err(Fault::Number)));
    for (operation, select, allocation) in [
        (0x12, 0x100, 64),
        (0x12, 0x80, 65536),
        (0x5A, 0x1C00, 28),
        (0x5A, 0x1_0800, 28),
        (0x1A, 0x0800, 256),
        (0xA0, 3, 16),
        (0xA3, 0x0800_0000, 64),
        (0x1D, 2, 0),
        (0x25, 0, 8),
    ] {
        let wrong = put_asking_for(operation, select, 0, 7, allocation, &mut room);
        assert!(rt; matches!(wrong, Err(Fault::Number)));
    }
    for (operation, blocks) in [(0x88, 0x10_0000), (0x8A, 0x10_0000), (0x28, 1)] {
        let wrong = put_long(operation, 0, 7, 0, blocks, false, &mut room);
        assert!(rt; matches!(wrong, Err(Fault::Number)));
    }
    let wrong = put_security(true, 7, 4, 1, &mut room);
    assert!(rt; matches!(wrong, Err(Fault::Number)));
    let wrong = put_security(true, 7, 3, 9, &mut room);
    assert!(rt; matches!(wrong, Err(Fault::Number)));
    assert!(rt; room == [0xEE; 64]);
}

/// What says something goes into just enough room, and a byte less is too little.
#[test]
fn just_enough_room_is_enough(rt: HostRuntime) {
    let mut small = [0xEE; 31];
    let refused = put_command(0, 0, 7, 0, &[0; 6], &mut small);
    assert!(rt; matches!(refused, Err(Fault::Room)));
    let refused = put_mac(&[0; 32], &[0; 512], &mut small);
    assert!(rt; matches!(refused, Err(Fault::Room)));
    assert!(rt; small == [0xEE; 31]);
    let mut enough = [0xEE; 32];
    assert!(rt; put_command(0, 0, 7, 0, &[0; 6], &mut enough).is_ok());
    assert!(rt; put_mac(&[0; 32], &[0; 512], &mut enough).is_ok());
    let mut small = [0xEE; 39];
    let refused = put_data_out(0, 7, 0, &[1; 5], &mut small);
    assert!(rt; matches!(refused, Err(Fault::Room)));
    assert!(rt; small == [0xEE; 39]);
    let mut enough = [0xEE; 40];
    assert!(rt; put_data_out(0, 7, 0, &[1; 5], &mut enough).is_ok());
}
