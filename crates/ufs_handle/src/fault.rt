//! Why a call is refused, as C sees it.
ghost use Rattle.std.specs.Prelude.{◌≡◌, ◌<◌, ◌≤◌, length, slice_index};
ghost use Rattle.ufs_handle.specs.Numbers.{answer_number, config_fault_of, ended_number, fault_number};
ghost use Rattle.ufs_handle.specs.Numbers.{flag_number, heard_number, host_number, open_number, reply_number};
ghost use Rattle.ufs_handle.specs.Numbers.{saved_number, stop_number};
ghost use Rattle.ufs_handle.specs.Words.{IsText, fault_words, host_words};

use ufs_spec::{ConfigFault, HostFault};

/// Why a call is refused. The numbers are those of the header.
#[derive(Clone, Copy, Debug, PartialEq, Eq)]
pub enum Fault {
    /// The handle holds no device.
    Closed,
    /// The handle holds a device already.
    Open,
    /// Memory was refused.
    NoMemory,
    /// A number of the configuration is out of its range.
    Range,
    /// The units, the RPMB areas and the slots need more blocks than the dies have beside the spare
    /// ones.
    TooLittleSpare,
    /// Two units have the same boot number.
    TwoBootUnits,
    /// The dies hold another configuration.
    OtherConfig,
    /// The bytes are no image of dies of these sizes.
    Image,
    /// Nothing is due.
    Nothing,
    /// The die has no job in flight that ends so.
    NoJob,
    /// The buffer has too little room.
    Room,
    /// A number is none that the call knows.
    Number,
    /// The dies are the program's own.
    OwnDies,
}

impl Fault {
    /// Its number in C.
    pub fn number(self) -> u32
        ensures { result ≡ fault_number self }
    {
        match self {
            Fault::Closed => 1,
            Fault::Open => 2,
            Fault::NoMemory => 3,
            Fault::Range => 4,
            Fault::TooLittleSpare => 5,
            Fault::TwoBootUnits => 6,
            Fault::OtherConfig => 7,
            Fault::Image => 8,
            Fault::Nothing => 9,
            Fault::NoJob => 10,
            Fault::Room => 11,
            Fault::Number => 12,
            Fault::OwnDies => 13,
        }
    }
}

impl From<ConfigFault> for Fault {
    ghost from_gives = { λ fault given. given ≡ config_fault_of fault };

    fn from(fault: ConfigFault) -> Fault {
        match fault {
            ConfigFault::Range => Fault::Range,
            ConfigFault::TooLittleSpare => Fault::TooLittleSpare,
            ConfigFault::TwoBootUnits => Fault::TwoBootUnits,
        }
    }
}

/// The number of an answer that is a fault or nothing: 0 where it went well.
pub fn answer_number(answer: &Result<(), Fault>) -> u32
    ensures { result ≡ answer_number answer.now }
{
    match answer {
        Ok(()) => 0,
        Err(fault) => fault.number(),
    }
}

/// The number of what a handle answered to a message: 0 where the device took it, 1 where there is
/// none, and from 21 on why the device did not take it.
pub fn heard_number(answer: &Option<Result<(), HostFault>>) -> u32
    ensures { result ≡ heard_number answer.now }
{
    match answer {
        None => 1,
        Some(Ok(())) => 0,
        Some(Err(fault)) => host_number(fault),
    }
}

/// The number of why a device does not take a message.
fn host_number(fault: &HostFault) -> u32
    ensures { result ≡ host_number fault.now }
{
    match fault {
        HostFault::Short => 21,
        HostFault::Length => 22,
        HostFault::Digest => 23,
        HostFault::Ehs => 24,
        HostFault::Code => 25,
        HostFault::Reserved => 26,
        HostFault::TagInUse => 27,
        HostFault::NotAskedFor => 28,
        HostFault::Backlog => 29,
    }
}

/// The number of what a handle answered to a call that did something or not: 0 where it did, 1
/// where there is no device, and else that of this fault.
pub fn flag_number(answer: Option<bool>, otherwise: Fault) -> u32
    ensures { result ≡ flag_number answer otherwise }
{
    match answer {
        None => 1,
        Some(true) => 0,
        Some(false) => otherwise.number(),
    }
}

/// The number of whether the handle held a device: 0 where it did.
pub fn open_number(was_open: bool) -> u32
    ensures { result ≡ open_number was_open }
{
    if was_open { 0 } else { 1 }
}

/// The number of a reply that was asked for: 11 where there was too little room for any.
pub fn reply_number(answer: Option<Option<bool>>) -> u32
    ensures { result ≡ reply_number answer }
{
    match answer {
        None => 11,
        Some(flag) => flag_number(flag, Fault::Nothing),
    }
}

/// The number of a job that was to end: 12 where the plain numbers say no ending.
pub fn ended_number(answer: Option<Option<bool>>) -> u32
    ensures { result ≡ ended_number answer }
{
    match answer {
        None => 12,
        Some(flag) => flag_number(flag, Fault::NoJob),
    }
}

/// The number of a stop: 12 where a plain number says nothing that may be left.
pub fn stop_number(answer: &Option<Option<Result<(), Fault>>>) -> u32
    ensures { result ≡ stop_number answer.now }
{
    match answer {
        None => 12,
        Some(None) => 1,
        Some(Some(answer)) => answer_number(answer),
    }
}

/// The number of an image that was asked for: 1 where there is no device.
pub fn saved_number(answer: &Option<Result<(), Fault>>) -> u32
    ensures { result ≡ saved_number answer.now }
{
    match answer {
        None => 1,
        Some(answer) => answer_number(answer),
    }
}

/// Writes what the number says, and behind it a zero byte; cut off where the room ends. The answer
/// is how many bytes stand before the zero byte.
pub fn copy_text(number: u32, into: &mut [u8]) -> usize
    ensures said { IsText (fault_words number) into.old result into.new }
    ensures within { result ≤ length into.old }
    ensures ended { 0 < length into.old → (result < length into.old) × (slice_index into.new result ≡ 0) }
{
    if into.is_empty() {
        return 0;
    }
    let bytes = text(number).as_bytes();
    let count = bytes.len().min(into.len() - 1);
    into[..count].copy_from_slice(&bytes[..count]);
    into[count] = 0;
    count
}

/// What the number says, in English.
fn text(number: u32) -> &'static str
    ensures { result.now ≡ fault_words number }
{
    match number {
        0 => "it went well",
        1 => "the handle holds no device",
        2 => "the handle holds a device already",
        3 => "memory was refused",
        4 => "a number of the configuration is out of its range",
        5 =>
            "the units, the RPMB areas and the slots need more blocks than the dies have beside the spare ones",
        6 => "two units have the same boot number",
        7 => "the dies hold another configuration",
        8 => "the bytes are no image of dies of these sizes",
        9 => "nothing is due",
        10 => "the die has no job in flight that ends so",
        11 => "the buffer has too little room",
        12 => "a number is none that the call knows",
        13 => "the dies are the program's own",
        _ => host_text(number),
    }
}

/// What the number of a message that was not taken says.
fn host_text(number: u32) -> &'static str
    ensures { result.now ≡ host_words number }
{
    match number {
        21 => "the message has fewer than 32 bytes",
        22 => "the data segment's length is wrong for the message's kind or for its bytes",
        23 => "a digest is asked for, which this device does not have",
        24 => "the message has an extra header segment, which this device does not have",
        25 => "no message of a host has this transaction code",
        26 => "a reserved byte or bit is set, or a field is outside its set",
        27 => "the task tag is in use",
        28 => "no data with this tag, LUN, offset and count were asked for",
        29 => "32 short exchanges are open",
        _ => "no fault has this number",
    }
}
