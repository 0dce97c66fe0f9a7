//! The RESPONSEs of a device whose jobs fail, with their sense, as the standards lay them out.

/// A RESPONSE with CHECK CONDITION to the task 07: a write that failed (3/0C/00) after all its bytes
/// came, and one that is refused (7/27/00) before any came.
pub const WRITE_FAILED: [u8; 52] = [
    0x21, 0x00, 0x00, 0x07, 0, 0, 1, 2, 0, 0, 0, 0x14, 0, 0, 0, 0, 0, 0, 0, 0, 0, 0, 0, 0, 0, 0, 0,
    0, 0, 0, 0, 0, 0x00, 0x12, 0x70, 0, 0x03, 0, 0, 0, 0, 0x0A, 0, 0, 0, 0, 0x0C, 0, 0, 0, 0, 0,
];

pub const PROTECTED: [u8; 52] = [
    0x21, 0x20, 0x00, 0x07, 0, 0, 1, 2, 0, 0, 0, 0x14, 0, 0, 0x10, 0, 0, 0, 0, 0, 0, 0, 0, 0, 0, 0,
    0, 0, 0, 0, 0, 0, 0x00, 0x12, 0x70, 0, 0x07, 0, 0, 0, 0, 0x0A, 0, 0, 0, 0, 0x27, 0, 0, 0, 0, 0,
];

/// A RESPONSE to the task 08: its block could not be read (3/11/00), and nothing came.
pub const READ_FAILED: [u8; 52] = [
    0x21, 0x20, 0x00, 0x08, 0, 0, 1, 2, 0, 0, 0, 0x14, 0, 0, 0x10, 0, 0, 0, 0, 0, 0, 0, 0, 0, 0, 0,
    0, 0, 0, 0, 0, 0, 0x00, 0x12, 0x70, 0, 0x03, 0, 0, 0, 0, 0x0A, 0, 0, 0, 0, 0x11, 0, 0, 0, 0, 0,
];
