//! The answer to a query.
ghost use Rattle.std.specs.Prelude.{◌≡◌, ◌==◌, ◌&&◌, ◌<◌, Some, false, if◌then◌else◌, is_none, not};
ghost use Rattle.std.specs.Prelude.{true};
ghost use Rattle.ufs_spec.specs.Keys.{flag_byte};
ghost use Rattle.ufs_spec.specs.Plain.{Plain, apply};
ghost use Rattle.ufs_spec.specs.Queries.{Query, attribute_told, background_after, flag_told};
ghost use Rattle.ufs_spec.specs.Queries.{has_wrong_idn};
ghost use Rattle.ufs_spec.specs.Queries.{has_wrong_value, query_code, setting_of};
ghost use Rattle.ufs_spec.specs.Queries.{sets_initializing, sets_power_on};
ghost use Rattle.ufs_spec.specs.Queries.{value_told, volatile_after, writes_attribute};
ghost use Rattle.descriptors.specs.Answers.{Says, code_of, command_in, command_of, is_setting};
ghost use Rattle.descriptors.specs.Answers.{succeeds};
ghost use Rattle.descriptors.specs.Asks.{HasSettings, query_of};
ghost use Rattle.ufs_spec.specs.declared.Volatile.{Volatile as Life};

use crate::codes::{
    ACTIVE_ICC_LEVEL, BACKGROUND_OPS_EN, BOOT_LUN_EN, CLEAR_FLAG, CONFIG_DESCR_LOCK,
    CURRENT_POWER_MODE, DEVICE_INIT, MAX_DATA_IN_SIZE, MAX_DATA_OUT_SIZE, PERMANENT_WP_EN,
    POWER_ON_WP_EN, READ_ATTRIBUTE, READ_FLAG, REF_CLK_FREQ, SET_FLAG, TOGGLE_FLAG,
    WRITE_ATTRIBUTE,
};
use crate::queries::{QueryRequest, QuerySettings};
use crate::responses::ResponseCode;
use crate::table::{first_line, sets_permanent, writes_boot};
use ufs_spec::{Numbers, Volatile};

/// bCurrentPowerMode: active.
const ACTIVE: u8 = 0x11;

/// bMaxDataInSize and bMaxDataOutSize: a block, in 512 bytes.
const BLOCK_SIZE: u8 = 8;

/// bConfigDescrLock: locked.
const LOCKED: u8 = 1;

/// What a query is answered.
#[derive(Clone, Copy)]
pub enum QueryAnswer {
    /// Nothing but this response code: why it is refused, or success of no operation.
    Code(ResponseCode),
    /// Success, and this is told at once.
    Told(Told),
    /// This is to be accepted as a command; success is told once it is durable.
    Setting(Setting),
}

/// What is told of a query that succeeds, beside the bytes of a descriptor
/// ([`descriptor_told`](crate::descriptor_told)).
#[derive(Clone, Copy)]
pub struct Told {
    /// The attribute or the flag, as it is after the query.
    pub value: u32,
    /// What is volatile from now on.
    pub volatile: Volatile,
}

/// A setting, which is a command.
#[derive(Clone, Copy)]
pub enum Setting {
    /// bBootLunEn becomes 0, 1 or 2.
    Boot(u8),
    /// fPermanentWPEn is set.
    Permanent,
}

impl Setting {
    /// The value that is told once the setting is durable: the one that it set.
    pub fn value(self) -> u32
        ensures { (p : Plain) (volatile : Life) (q : Query) →
            setting_of q ≡ Some (command_of self) →
            result ≡ value_told (apply p (command_of self)) volatile q }
    {
        match self {
            Setting::Boot(boot) => u32::from(boot),
            Setting::Permanent => 1,
        }
    }
}

/// The answer to a query that finds these settings. A setting is refused if none can be accepted
/// (`may_accept`).
pub fn answer(
    numbers: &Numbers,
    settings: QuerySettings,
    may_accept: bool,
    query: &QueryRequest,
) -> QueryAnswer
    // The response code is that of the first line of the table that applies.
    ensures code { (p : Plain) → HasSettings settings p →
        code_of result ≡ query_code numbers.now p may_accept (query_of query.now) }
    // A query that no line refuses is told or is a setting, but for no operation.
    ensures succeeds { (p : Plain) → HasSettings settings p →
        succeeds result ≡ (query_code numbers.now p may_accept (query_of query.now) == 0x00)
        && not (query.now.asked.opcode == 0) }
    ensures says { (p : Plain) → HasSettings settings p →
        Says p numbers.now settings.is_mended settings.volatile (query_of query.now) result }
    // A query is a setting only if one can be accepted.
    ensures may { is_setting result ≡ true → may_accept ≡ true }
{
    match first_line(numbers, settings.is_permanent, may_accept, query) {
        Some(code) => QueryAnswer::Code(code),
        None => passed(numbers, settings, query),
    }
}

// The answer to a query that no line refuses.
fn passed(numbers: &Numbers, settings: QuerySettings, query: &QueryRequest) -> QueryAnswer
    requires there { has_wrong_idn numbers.now (query_of query.now) ≡ false }
    requires value { has_wrong_value numbers.now (query_of query.now) ≡ false }
    ensures code { code_of result ≡ 0 }
    ensures succeeds { succeeds result ≡ true }
    ensures says { (p : Plain) → HasSettings settings p →
        Says p numbers.now settings.is_mended settings.volatile (query_of query.now) result }
    ensures setting { is_setting result ≡ true → is_none (setting_of (query_of query.now)) ≡ false }
{
    match setting_of(numbers, query) {
        Some(setting) => QueryAnswer::Setting(setting),
        None => QueryAnswer::Told(told_at_once(numbers, settings, query)),
    }
}

// The setting that a query is, if it is one. bBootLunEn becomes 0, 1 or 2.
fn setting_of(numbers: &Numbers, query: &QueryRequest) -> Option<Setting>
    requires { has_wrong_value numbers.now (query_of query.now) ≡ false }
    ensures { command_in result ≡ setting_of (query_of query.now) }
{
    if writes_boot(query) {
        Some(Setting::Boot(query.value as u8))
    } else if sets_permanent(query) {
        Some(Setting::Permanent)
    } else {
        None
    }
}

// What is told of a query that is no setting.
fn told_at_once(numbers: &Numbers, settings: QuerySettings, query: &QueryRequest) -> Told
    requires there { has_wrong_idn numbers.now (query_of query.now) ≡ false }
    requires value { has_wrong_value numbers.now (query_of query.now) ≡ false }
    ensures value { (p : Plain) → HasSettings settings p → result.value ≡ value_told p
        (volatile_after numbers.now settings.is_mended settings.volatile (query_of query.now)) (query_of query.now) }
    ensures volatile { result.volatile
        ≡ volatile_after numbers.now settings.is_mended settings.volatile (query_of query.now) }
{
    let volatile = volatile_after(numbers, settings, query);
    let settings = QuerySettings {
        volatile,
        ..settings
    };
    Told {
        value: value_told(settings, query),
        volatile,
    }
}

// What is volatile once the query passed. Each attribute of it has a value of one byte.
fn volatile_after(numbers: &Numbers, settings: QuerySettings, query: &QueryRequest) -> Volatile
    requires there { has_wrong_idn numbers.now (query_of query.now) ≡ false }
    requires value { has_wrong_value numbers.now (query_of query.now) ≡ false }
    ensures { result
        ≡ volatile_after numbers.now settings.is_mended settings.volatile (query_of query.now) }
{
    let was = settings.volatile;
    Volatile {
        power_on: was.power_on || sets_power_on(query),
        initializing: (was.initializing || sets_initializing(numbers, query))
            && !settings.is_mended,
        current_level: attribute_after(ACTIVE_ICC_LEVEL, was.current_level, query),
        clock: attribute_after(REF_CLK_FREQ, was.clock, query),
        background: background_after(was.background, query),
        ..was
    }
}

// Whether fDeviceInit is set, on a device that keeps note of it.
fn sets_initializing(numbers: &Numbers, query: &QueryRequest) -> bool
    ensures { result ≡ sets_initializing numbers.now (query_of query.now) }
{
    numbers.profile > 0 && query.asked.opcode == SET_FLAG && query.asked.idn == DEVICE_INIT
}

// Whether fPowerOnWPEn is set.
fn sets_power_on(query: &QueryRequest) -> bool
    ensures { result ≡ sets_power_on (query_of query.now) }
{
    query.asked.opcode == SET_FLAG && query.asked.idn == POWER_ON_WP_EN
}

// The attribute with this IDN after the query: what it is written, or as it was.
fn attribute_after(idn: u8, was: u8, query: &QueryRequest) -> u8
    requires { writes_attribute idn (query_of query.now) ≡ true → query.now.value < 256 }
    ensures { result
        ≡ (if writes_attribute idn (query_of query.now) then query.now.value else was) }
{
    if query.asked.opcode == WRITE_ATTRIBUTE && query.asked.idn == idn {
        query.value as u8
    } else {
        was
    }
}

// Whether fBackgroundOpsEn is set after the query.
fn background_after(was: bool, query: &QueryRequest) -> bool
    ensures { result ≡ background_after was (query_of query.now) }
{
    if query.asked.idn != BACKGROUND_OPS_EN {
        return was;
    }
    match query.asked.opcode {
        SET_FLAG => true,
        CLEAR_FLAG => false,
        TOGGLE_FLAG => !was,
        _ => was,
    }
}

// The value of the attribute or flag that is asked for.
fn value_told(settings: QuerySettings, query: &QueryRequest) -> u32
    ensures { (p : Plain) → HasSettings settings p →
        result ≡ value_told p settings.volatile (query_of query.now) }
{
    let idn = query.asked.idn;
    match query.asked.opcode {
        READ_ATTRIBUTE | WRITE_ATTRIBUTE => u32::from(attribute_told(settings, idn)),
        READ_FLAG | SET_FLAG | CLEAR_FLAG | TOGGLE_FLAG => u32::from(flag_told(settings, idn)),
        _ => 0,
    }
}

// The value of an attribute.
fn attribute_told(settings: QuerySettings, idn: u8) -> u8
    ensures { (p : Plain) → HasSettings settings p →
        result ≡ attribute_told p settings.volatile idn }
{
    match idn {
        BOOT_LUN_EN => settings.boot,
        CURRENT_POWER_MODE => ACTIVE,
        ACTIVE_ICC_LEVEL => settings.volatile.current_level,
        MAX_DATA_IN_SIZE | MAX_DATA_OUT_SIZE => BLOCK_SIZE,
        REF_CLK_FREQ => settings.volatile.clock,
        CONFIG_DESCR_LOCK => LOCKED,
        _ => 0,
    }
}

// Whether a flag is set.
fn flag_told(settings: QuerySettings, idn: u8) -> bool
    ensures { (p : Plain) → HasSettings settings p →
        flag_byte result ≡ flag_told p settings.volatile idn }
{
    match idn {
        DEVICE_INIT => settings.volatile.initializing,
        PERMANENT_WP_EN => settings.is_permanent,
        POWER_ON_WP_EN => settings.volatile.power_on,
        BACKGROUND_OPS_EN => settings.volatile.background,
        _ => false,
    }
}
