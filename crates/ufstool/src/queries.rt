//! The queries that lines can be written for (JESD220, 10.7.8).
ghost use Rattle.std.specs.Prelude.{◌≡◌, false};
ghost use Rattle.ufs_spec.specs.Messages.{spelling, IsMessage};
ghost use Rattle.ufs_spec.specs.Queries.{has_wrong_opcode};
ghost use Rattle.ufstool.specs.HostQueries.{asked_by, asked_for, call_opcode, function_of};
ghost use Rattle.ufstool.specs.HostQueries.{length_in, query_asked, query_spelled, value_in};

use ufs_spec::{Asked, Data, Message};

/// Query function, standard read request.
const STANDARD_READ: u8 = 0x01;

/// Query function, standard write request.
const STANDARD_WRITE: u8 = 0x81;

/// The opcode READ DESCRIPTOR.
const READ_DESCRIPTOR: u8 = 0x1;

/// The opcode READ ATTRIBUTE.
const READ_ATTRIBUTE: u8 = 0x3;

/// The opcode WRITE ATTRIBUTE.
const WRITE_ATTRIBUTE: u8 = 0x4;

/// What a query names by its IDN, a descriptor, an attribute or a flag; with an index and a selector
/// (JESD220, 14).
#[derive(Clone, Copy)]
pub struct Named {
    pub idn: u8,
    pub index: u8,
    pub selector: u8,
}

/// A query that a line can be written for.
#[derive(Clone, Copy)]
pub enum HostQuery {
    /// READ DESCRIPTOR, of so many bytes at most.
    ReadDescriptor { descriptor: Named, length: u16 },
    /// READ ATTRIBUTE.
    ReadAttribute { attribute: Named },
    /// WRITE ATTRIBUTE, with this value.
    WriteAttribute { attribute: Named, value: u32 },
    /// A query of a flag.
    Flag { call: FlagCall, flag: Named },
}

/// What is done with a flag.
#[derive(Clone, Copy)]
pub enum FlagCall {
    /// READ FLAG.
    Read,
    /// SET FLAG.
    Set,
    /// CLEAR FLAG.
    Clear,
    /// TOGGLE FLAG.
    Toggle,
}

/// The QUERY REQUEST with this task tag: it asks for what the query says, under a function that its
/// opcode may have.
pub fn query_message(tag: u8, query: HostQuery) -> Message
    ensures message { IsMessage result }
    ensures spelled { spelling result ≡ query_spelled tag (query_asked query) }
    ensures function { has_wrong_opcode (query_asked query) ≡ false }
{
    let asked = asked_by(query);
    Message::QueryRequest {
        tag,
        function: function_of(asked.opcode),
        asked,
        length: length_in(query),
        value: value_in(query),
        data: Data::new(),
    }
}

// The opcode with IDN, index and selector.
fn asked_by(query: HostQuery) -> Asked
    ensures { result ≡ asked_by query }
{
    match query {
        HostQuery::ReadDescriptor { descriptor, .. } => asked(READ_DESCRIPTOR, descriptor),
        HostQuery::ReadAttribute { attribute } => asked(READ_ATTRIBUTE, attribute),
        HostQuery::WriteAttribute { attribute, .. } => asked(WRITE_ATTRIBUTE, attribute),
        HostQuery::Flag { call, flag } => asked(call_opcode(call), flag),
    }
}

// The opcode, and what it is about.
fn asked(opcode: u8, named: Named) -> Asked
    ensures { result ≡ asked_for opcode named }
{
    Asked {
        opcode,
        idn: named.idn,
        index: named.index,
        selector: named.selector,
    }
}

// The opcode of a query of a flag.
fn call_opcode(call: FlagCall) -> u8
    ensures { result ≡ call_opcode call }
{
    match call {
        FlagCall::Read => 0x5,
        FlagCall::Set => 0x6,
        FlagCall::Clear => 0x7,
        FlagCall::Toggle => 0x8,
    }
}

// The function of a query with this opcode: the opcodes that read are 1, 3 and 5.
fn function_of(opcode: u8) -> u8
    ensures { result ≡ function_of opcode }
{
    match opcode {
        0x1 | 0x3 | 0x5 => STANDARD_READ,
        _ => STANDARD_WRITE,
    }
}

// How many bytes of a descriptor are asked for.
fn length_in(query: HostQuery) -> u16
    ensures { result ≡ length_in query }
{
    match query {
        HostQuery::ReadDescriptor { length, .. } => length,
        _ => 0,
    }
}

// What the attribute is written with.
fn value_in(query: HostQuery) -> u32
    ensures { result ≡ value_in query }
{
    match query {
        HostQuery::WriteAttribute { value, .. } => value,
        _ => 0,
    }
}
