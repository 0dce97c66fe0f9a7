//! Frames of the replay protected memory block in scripts (JESD220, 12.4).
use crate::scripts::Text;

/// The fields of a frame in hexadecimal digits; an empty one is zeros. All bytes of its data are
/// the same.
#[derive(Clone, Copy)]
pub struct Frame<'a> {
    pub key_or_mac: &'a str,
    pub data: &'a str,
    pub nonce: &'a str,
    pub counter: &'a str,
    pub address: &'a str,
    pub count: &'a str,
    pub result: &'a str,
    pub kind: &'a str,
}

/// A frame of zeros.
pub const ZEROS: Frame<'static> = Frame {
    key_or_mac: "",
    data: "00",
    nonce: "",
    counter: "",
    address: "",
    count: "",
    result: "",
    kind: "",
};

/// The key of the rows: 32 bytes 0Bh.
pub const KEY: &str = "0b0b0b0b0b0b0b0b0b0b0b0b0b0b0b0b0b0b0b0b0b0b0b0b0b0b0b0b0b0b0b0b";

/// The nonce of the requests.
pub const NONCE: &str = "0102030405060708090a0b0c0d0e0f10";

/// The request that programs the key.
pub const KEY_REQUEST: Frame<'static> = Frame {
    key_or_mac: KEY,
    kind: "0001",
    ..ZEROS
};

/// The request for the write counter.
pub const COUNTER_REQUEST: Frame<'static> = Frame {
    nonce: NONCE,
    kind: "0002",
    ..ZEROS
};

/// The request for the result of the last key or write.
pub const RESULT_REQUEST: Frame<'static> = Frame {
    kind: "0005",
    ..ZEROS
};

/// The write counter read response before a key is programmed: authentication key not yet
/// programmed.
pub const NO_COUNTER: Frame<'static> = Frame {
    nonce: NONCE,
    result: "0007",
    kind: "0200",
    ..ZEROS
};

/// The write counter read response with the counter 0, under the key.
pub const COUNTER_0: Frame<'static> = Frame {
    key_or_mac: "3077e0f03b7c0baf8804ea05c3ff1ec7ddaf547eeba87de27d468c9cc7dc1221",
    nonce: NONCE,
    kind: "0200",
    ..ZEROS
};

/// The same with the counter 1.
pub const COUNTER_1: Frame<'static> = Frame {
    key_or_mac: "72a5ed2e95fe6bf5fff62c0dfce217fba85b0c55104fe29b9125b81c62eb1e29",
    counter: "00000001",
    ..COUNTER_0
};

/// The same with the counter 2.
pub const COUNTER_2: Frame<'static> = Frame {
    key_or_mac: "20a2e872fd9bc1d3ebb50e71a2c244c0bc91c41b2eff1eba8f32235379d596d0",
    counter: "00000002",
    ..COUNTER_0
};

/// The key programming response: operation OK.
pub const KEY_ANSWER: Frame<'static> = Frame {
    kind: "0100",
    ..ZEROS
};

/// How many bytes so many frames have, in four digits.
pub fn length_of(frames: usize) -> &'static str {
    match frames {
        1 => "0200",
        2 => "0400",
        3 => "0600",
        4 => "0800",
        5 => "0a00",
        6 => "0c00",
        7 => "0e00",
        8 => "1000",
        _ => "0000",
    }
}

impl Text {
    /// Adds the bytes of frames.
    pub fn add_frames(&mut self, frames: &[Frame<'_>]) {
        for frame in frames {
            self.add_frame(*frame);
        }
    }

    fn add_frame(&mut self, frame: Frame<'_>) {
        self.add_fields(&[("", 196), (frame.key_or_mac, 32)]);
        self.add_times(frame.data, 256);
        self.add_fields(&[
            (frame.nonce, 16),
            (frame.counter, 4),
            (frame.address, 2),
            (frame.count, 2),
            (frame.result, 2),
            (frame.kind, 2),
        ]);
    }
}
