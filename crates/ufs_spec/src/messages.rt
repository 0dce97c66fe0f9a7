//! UPIUs, the messages between a host and a device (JESD220, 10.7).
use arrayvec::ArrayVec;

/// The data segment of a message, at most 4096 bytes.
pub type Data = ArrayVec<u8, 4096>;

/// A message. A field that is not named is zero (JESD220, 10.7).
#[derive(Debug, Drop)]
pub enum Message {
    /// NOP OUT, 10.7.11.
    NopOut {
        tag: u8,
    },
    /// COMMAND, 10.7.1: the expected length counts bytes.
    Command {
        flags: u8,
        lun: u8,
        tag: u8,
        expected: u32,
        cdb: [u8; 16],
    },
    /// DATA OUT, 10.7.3.
    DataOut {
        lun: u8,
        tag: u8,
        offset: u32,
        data: Data,
    },
    /// TASK MANAGEMENT REQUEST, 10.7.6: `meant` is the tag of the task that is meant.
    TaskRequest {
        lun: u8,
        tag: u8,
        function: u8,
        meant: u8,
    },
    /// QUERY REQUEST, 10.7.8.
    QueryRequest {
        tag: u8,
        function: u8,
        asked: Asked,
        length: u16,
        value: u32,
        data: Data,
    },
    /// LINK EVENT, of this profile: `kind` is 1 for a hardware reset, 2 for a reset of the link or of the
    /// host's controller.
    LinkEvent {
        kind: u8,
    },
    /// NOP IN, 10.7.12.
    NopIn {
        tag: u8,
    },
    /// RESPONSE, 10.7.2: the sense data are there with status 02h alone.
    Response {
        flags: u8,
        lun: u8,
        tag: u8,
        response: u8,
        status: u8,
        residual: u32,
        sense: Option<[u8; 20]>,
    },
    /// DATA IN, 10.7.4.
    DataIn {
        lun: u8,
        tag: u8,
        offset: u32,
        data: Data,
    },
    /// TASK MANAGEMENT RESPONSE, 10.7.7.
    TaskResponse {
        lun: u8,
        tag: u8,
        service: u8,
    },
    /// READY TO TRANSFER, 10.7.5.
    ReadyToTransfer {
        lun: u8,
        tag: u8,
        offset: u32,
        count: u32,
    },
    /// QUERY RESPONSE, 10.7.9.
    QueryResponse {
        tag: u8,
        function: u8,
        response: u8,
        asked: Asked,
        length: u16,
        value: u32,
        data: Data,
    },
}

/// What a query is about (JESD220, 10.7.8).
#[derive(Clone, Copy, Debug, Default, PartialEq, Eq)]
pub struct Asked {
    pub opcode: u8,
    pub idn: u8,
    pub index: u8,
    pub selector: u8,
}
