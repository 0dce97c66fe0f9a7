//! The names that the standards give to codes (JESD220, SAM, SPC, SBC).
use rpmb_frame::codes;
use ufs_spec::{HostFault, Sense};

/// The name of a code among these.
pub fn name_in(names: &[(u8, &'static str)], code: u8) -> Option<&'static str> {
    for (known, name) in names {
        if *known == code {
            return Some(*name);
        }
    }
    None
}

// The name of a code of two bytes among these.
fn long_name_in(names: &[(u16, &'static str)], code: u16) -> Option<&'static str> {
    for (known, name) in names {
        if *known == code {
            return Some(*name);
        }
    }
    None
}

const STATUSES: [(u8, &str); 8] = [
    (0x00, "GOOD"),
    (0x02, "CHECK CONDITION"),
    (0x04, "CONDITION MET"),
    (0x08, "BUSY"),
    (0x18, "RESERVATION CONFLICT"),
    (0x28, "TASK SET FULL"),
    (0x30, "ACA ACTIVE"),
    (0x40, "TASK ABORTED"),
];

/// The name of a status (SAM, status codes).
pub fn status_name(status: u8) -> &'static str {
    name_in(&STATUSES, status).unwrap_or("a status without a name")
}

const SENSE_KEYS: [(u8, &str); 15] = [
    (0x0, "NO SENSE"),
    (0x1, "RECOVERED ERROR"),
    (0x2, "NOT READY"),
    (0x3, "MEDIUM ERROR"),
    (0x4, "HARDWARE ERROR"),
    (0x5, "ILLEGAL REQUEST"),
    (0x6, "UNIT ATTENTION"),
    (0x7, "DATA PROTECT"),
    (0x8, "BLANK CHECK"),
    (0x9, "VENDOR SPECIFIC"),
    (0xA, "COPY ABORTED"),
    (0xB, "ABORTED COMMAND"),
    (0xD, "VOLUME OVERFLOW"),
    (0xE, "MISCOMPARE"),
    (0xF, "COMPLETED"),
];

/// The name of a sense key (SPC, sense key descriptions).
pub fn sense_key_name(key: u8) -> &'static str {
    name_in(&SENSE_KEYS, key).unwrap_or("a sense key without a name")
}

/// The name of an additional sense code with its qualifier (SPC, additional sense codes).
pub fn additional_sense_name(sense: &Sense) -> &'static str {
    match (sense.asc, sense.ascq) {
        (0x00, 0x00) => "NO ADDITIONAL SENSE INFORMATION",
        (0x04, 0x01) => "LOGICAL UNIT IS IN PROCESS OF BECOMING READY",
        (0x0C, 0x00) => "WRITE ERROR",
        (0x11, 0x00) => "UNRECOVERED READ ERROR",
        (0x1A, 0x00) => "PARAMETER LIST LENGTH ERROR",
        (0x1D, 0x00) => "MISCOMPARE DURING VERIFY OPERATION",
        (0x20, 0x00) => "INVALID COMMAND OPERATION CODE",
        (0x21, 0x00) => "LOGICAL BLOCK ADDRESS OUT OF RANGE",
        (0x24, 0x00) => "INVALID FIELD IN CDB",
        (0x25, 0x00) => "LOGICAL UNIT NOT SUPPORTED",
        (0x26, 0x00) => "INVALID FIELD IN PARAMETER LIST",
        (0x27, 0x00) => "WRITE PROTECTED",
        (0x2C, 0x00) => "COMMAND SEQUENCE ERROR",
        (0x39, 0x00) => "SAVING PARAMETERS NOT SUPPORTED",
        (0x3E, 0x03) => "LOGICAL UNIT FAILED SELF-TEST",
        _ => "an additional sense code without a name here",
    }
}

const OPERATIONS: [(u8, &str); 30] = [
    (0x00, "TEST UNIT READY"),
    (0x03, "REQUEST SENSE"),
    (0x04, "FORMAT UNIT"),
    (0x08, "READ(6)"),
    (0x0A, "WRITE(6)"),
    (0x12, "INQUIRY"),
    (0x15, "MODE SELECT(6)"),
    (0x1A, "MODE SENSE(6)"),
    (0x1B, "START STOP UNIT"),
    (0x1D, "SEND DIAGNOSTIC"),
    (0x25, "READ CAPACITY(10)"),
    (0x28, "READ(10)"),
    (0x2A, "WRITE(10)"),
    (0x2F, "VERIFY(10)"),
    (0x34, "PRE-FETCH(10)"),
    (0x35, "SYNCHRONIZE CACHE(10)"),
    (0x3B, "WRITE BUFFER"),
    (0x3C, "READ BUFFER"),
    (0x42, "UNMAP"),
    (0x55, "MODE SELECT(10)"),
    (0x5A, "MODE SENSE(10)"),
    (0x88, "READ(16)"),
    (0x8A, "WRITE(16)"),
    (0x90, "PRE-FETCH(16)"),
    (0x91, "SYNCHRONIZE CACHE(16)"),
    (0x9E, "SERVICE ACTION IN(16)"),
    (0xA0, "REPORT LUNS"),
    (0xA2, "SECURITY PROTOCOL IN"),
    (0xA3, "MAINTENANCE IN"),
    (0xB5, "SECURITY PROTOCOL OUT"),
];

/// The name of an operation code, byte 0 of a CDB (SPC and SBC, operation codes).
pub fn operation_name(operation: u8) -> &'static str {
    name_in(&OPERATIONS, operation).unwrap_or("a command without a name here")
}

const PAGES: [(u8, &str); 7] = [
    (0x00, "supported pages"),
    (0x80, "unit serial number"),
    (0x83, "device identification"),
    (0x87, "mode page policy"),
    (0xB0, "block limits"),
    (0xB1, "block device characteristics"),
    (0xB2, "logical block provisioning"),
];

/// The name of a page of vital product data (SPC and SBC, vital product data parameters).
pub fn page_name(page: u8) -> &'static str {
    name_in(&PAGES, page).unwrap_or("without a name here")
}

const MODE_PAGES: [(u8, &str); 4] = [
    (0x01, "read-write error recovery"),
    (0x08, "caching"),
    (0x0A, "control"),
    (0x3F, "all pages"),
];

/// The name of a mode page (SPC and SBC, mode parameters).
pub fn mode_page_name(page: u8) -> &'static str {
    name_in(&MODE_PAGES, page).unwrap_or("without a name here")
}

const VALUES: [(u8, &str); 4] = [
    (0x0, "the current"),
    (0x1, "the changeable"),
    (0x2, "the default"),
    (0x3, "the saved"),
];

/// The name of the values of mode pages that are asked for (SPC, MODE SENSE, page control).
pub fn values_name(control: u8) -> &'static str {
    name_in(&VALUES, control).unwrap_or("the")
}

const TASK_FUNCTIONS: [(u8, &str); 6] = [
    (0x01, "ABORT TASK"),
    (0x02, "ABORT TASK SET"),
    (0x04, "CLEAR TASK SET"),
    (0x08, "LOGICAL UNIT RESET"),
    (0x80, "QUERY TASK"),
    (0x81, "QUERY TASK SET"),
];

/// The name of a task management function (JESD220, 10.7.6).
pub fn task_function_name(function: u8) -> &'static str {
    name_in(&TASK_FUNCTIONS, function).unwrap_or("a function without a name")
}

const EVENTS: [(u8, &str); 2] = [
    (0x01, "hardware reset"),
    (0x02, "reset of the link or the controller"),
];

/// The name of a kind of LINK EVENT.
pub fn event_name(kind: u8) -> &'static str {
    name_in(&EVENTS, kind).unwrap_or("a kind without a name")
}

const SERVICES: [(u8, &str); 5] = [
    (0x00, "FUNCTION COMPLETE"),
    (0x04, "FUNCTION NOT SUPPORTED"),
    (0x05, "FUNCTION FAILED"),
    (0x08, "FUNCTION SUCCEEDED"),
    (0x09, "INCORRECT LOGICAL UNIT NUMBER"),
];

/// The name of a service response of task management (JESD220, 10.7.7).
pub fn service_name(service: u8) -> &'static str {
    name_in(&SERVICES, service).unwrap_or("a service response without a name")
}

const QUERIES: [(u8, &str); 9] = [
    (0x00, "NOP"),
    (0x01, "READ DESCRIPTOR"),
    (0x02, "WRITE DESCRIPTOR"),
    (0x03, "READ ATTRIBUTE"),
    (0x04, "WRITE ATTRIBUTE"),
    (0x05, "READ FLAG"),
    (0x06, "SET FLAG"),
    (0x07, "CLEAR FLAG"),
    (0x08, "TOGGLE FLAG"),
];

/// The name of a query's opcode (JESD220, 10.7.8).
pub fn query_name(opcode: u8) -> &'static str {
    name_in(&QUERIES, opcode).unwrap_or("an opcode without a name")
}

const QUERY_RESPONSES: [(u8, &str); 11] = [
    (0x00, "SUCCESS"),
    (0xF6, "PARAMETER NOT READABLE"),
    (0xF7, "PARAMETER NOT WRITEABLE"),
    (0xF8, "PARAMETER ALREADY WRITTEN"),
    (0xF9, "INVALID LENGTH"),
    (0xFA, "INVALID VALUE"),
    (0xFB, "INVALID SELECTOR"),
    (0xFC, "INVALID INDEX"),
    (0xFD, "INVALID IDN"),
    (0xFE, "INVALID OPCODE"),
    (0xFF, "GENERAL FAILURE"),
];

/// The name of a query's response (JESD220, 10.7.9).
pub fn query_response_name(response: u8) -> &'static str {
    name_in(&QUERY_RESPONSES, response).unwrap_or("a response without a name")
}

/// What a host fault says, and what to look at.
pub fn host_fault_words(fault: HostFault) -> &'static str {
    match fault {
        HostFault::Short => "the message has fewer than 32 bytes",
        HostFault::Length => {
            "the length in bytes 10 and 11 is not one of this kind, or not that of the bytes that \
             follow"
        }
        HostFault::Digest => "bit 7 or 6 of byte 0 asks for a digest, and there is none",
        HostFault::Ehs => "byte 8 tells of an extra header segment, and there is none",
        HostFault::Code => "bits 5..0 of byte 0 are no transaction code of a host",
        HostFault::Reserved => {
            "a byte or bit that must be zero is set, or a field has a value that it may not have"
        }
        HostFault::TagInUse => "a task with this tag is still open",
        HostFault::NotAskedFor => "no READY TO TRANSFER asked for these data",
        HostFault::Backlog => "32 short exchanges are open; ask for their replies first",
    }
}

/// The host fault with this number, as scripts print it.
pub fn host_fault_of(number: u32) -> Option<HostFault> {
    match number {
        1 => Some(HostFault::Short),
        2 => Some(HostFault::Length),
        3 => Some(HostFault::Digest),
        4 => Some(HostFault::Ehs),
        5 => Some(HostFault::Code),
        6 => Some(HostFault::Reserved),
        7 => Some(HostFault::TagInUse),
        8 => Some(HostFault::NotAskedFor),
        9 => Some(HostFault::Backlog),
        _ => None,
    }
}

const KNOWN_UNITS: [(u8, &str); 4] = [
    (0x81, "REPORT LUNS (81h)"),
    (0xB0, "BOOT (B0h)"),
    (0xC4, "RPMB (C4h)"),
    (0xD0, "UFS DEVICE (D0h)"),
];

/// The name of a well known unit, with its LUN (JESD220, 10.5).
pub fn known_unit_name(lun: u8) -> Option<&'static str> {
    name_in(&KNOWN_UNITS, lun)
}

const FRAMES: [(u16, &str); 9] = [
    (
        codes::KEY_PROGRAMMING_REQUEST,
        "authentication key programming request",
    ),
    (codes::COUNTER_READ_REQUEST, "write counter read request"),
    (
        codes::DATA_WRITE_REQUEST,
        "authenticated data write request",
    ),
    (codes::DATA_READ_REQUEST, "authenticated data read request"),
    (codes::RESULT_READ_REQUEST, "result read request"),
    (
        codes::KEY_PROGRAMMING_RESPONSE,
        "authentication key programming response",
    ),
    (codes::COUNTER_READ_RESPONSE, "write counter read response"),
    (
        codes::DATA_WRITE_RESPONSE,
        "authenticated data write response",
    ),
    (
        codes::DATA_READ_RESPONSE,
        "authenticated data read response",
    ),
];

/// The name of a frame's message type (JESD220, 12.4).
pub fn frame_name(kind: u16) -> &'static str {
    long_name_in(&FRAMES, kind).unwrap_or("a frame without a name")
}

const FRAME_RESULTS: [(u16, &str); 8] = [
    (codes::OPERATION_OK, "operation OK"),
    (codes::GENERAL_FAILURE, "general failure"),
    (codes::AUTHENTICATION_FAILURE, "authentication failure"),
    (codes::COUNTER_FAILURE, "counter failure"),
    (codes::ADDRESS_FAILURE, "address failure"),
    (codes::WRITE_FAILURE, "write failure"),
    (codes::READ_FAILURE, "read failure"),
    (
        codes::KEY_NOT_PROGRAMMED,
        "authentication key not yet programmed",
    ),
];

/// The name of a frame's result, without the bit that tells of the counter (JESD220, 12.4).
pub fn frame_result_name(code: u16) -> &'static str {
    long_name_in(&FRAME_RESULTS, code).unwrap_or("a result without a name")
}
