//! The response codes of queries.
ghost use Rattle.std.specs.Prelude.{◌≡◌};
ghost use Rattle.descriptors.specs.Codes.{response_byte};

/// The query response code of a QUERY RESPONSE (JESD220, 10.7.9).
#[derive(Clone, Copy)]
pub enum ResponseCode {
    /// 00h.
    Success,
    /// F6h: parameter not readable.
    NotReadable,
    /// F7h: parameter not writeable.
    NotWriteable,
    /// F8h: parameter already written.
    AlreadyWritten,
    /// F9h: invalid length.
    InvalidLength,
    /// FAh: invalid value.
    InvalidValue,
    /// FBh: invalid selector.
    InvalidSelector,
    /// FCh: invalid index.
    InvalidIndex,
    /// FDh: invalid IDN.
    InvalidIdn,
    /// FEh: invalid opcode.
    InvalidOpcode,
    /// FFh: general failure.
    GeneralFailure,
}

impl ResponseCode {
    /// The byte that tells it.
    pub fn byte(self) -> u8
        ensures { result ≡ response_byte self }
    {
        match self {
            ResponseCode::Success => 0x00,
            ResponseCode::NotReadable => 0xF6,
            ResponseCode::NotWriteable => 0xF7,
            ResponseCode::AlreadyWritten => 0xF8,
            ResponseCode::InvalidLength => 0xF9,
            ResponseCode::InvalidValue => 0xFA,
            ResponseCode::InvalidSelector => 0xFB,
            ResponseCode::InvalidIndex => 0xFC,
            ResponseCode::InvalidIdn => 0xFD,
            ResponseCode::InvalidOpcode => 0xFE,
            ResponseCode::GeneralFailure => 0xFF,
        }
    }
}
