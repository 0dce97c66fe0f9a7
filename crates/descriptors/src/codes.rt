//! The codes of a query (JESD220, 10.7.8 and 14).

/// Query function, standard read request.
pub const STANDARD_READ: u8 = 0x01;

/// Query function, standard write request.
pub const STANDARD_WRITE: u8 = 0x81;

/// No operation.
pub const NO_OPERATION: u8 = 0x0;

/// READ DESCRIPTOR.
pub const READ_DESCRIPTOR: u8 = 0x1;

/// WRITE DESCRIPTOR.
pub const WRITE_DESCRIPTOR: u8 = 0x2;

/// READ ATTRIBUTE.
pub const READ_ATTRIBUTE: u8 = 0x3;

/// WRITE ATTRIBUTE.
pub const WRITE_ATTRIBUTE: u8 = 0x4;

/// READ FLAG.
pub const READ_FLAG: u8 = 0x5;

/// SET FLAG.
pub const SET_FLAG: u8 = 0x6;

/// CLEAR FLAG.
pub const CLEAR_FLAG: u8 = 0x7;

/// TOGGLE FLAG.
pub const TOGGLE_FLAG: u8 = 0x8;

/// The device descriptor.
pub const DEVICE_DESCRIPTOR: u8 = 0x00;

/// The configuration descriptor.
pub const CONFIGURATION_DESCRIPTOR: u8 = 0x01;

/// The interconnect descriptor.
pub const INTERCONNECT_DESCRIPTOR: u8 = 0x04;

/// A string descriptor, which its index names.
pub const STRING_DESCRIPTOR: u8 = 0x05;

/// The geometry descriptor.
pub const GEOMETRY_DESCRIPTOR: u8 = 0x07;

/// The power parameters descriptor.
pub const POWER_DESCRIPTOR: u8 = 0x08;

/// The index of the unit descriptor of the RPMB unit.
pub const RPMB_UNIT: u8 = 0xC4;

/// The attribute bBootLunEn.
pub const BOOT_LUN_EN: u8 = 0x00;

/// The attribute bCurrentPowerMode.
pub const CURRENT_POWER_MODE: u8 = 0x02;

/// The attribute bActiveICCLevel.
pub const ACTIVE_ICC_LEVEL: u8 = 0x03;

/// The attribute bMaxDataInSize.
pub const MAX_DATA_IN_SIZE: u8 = 0x07;

/// The attribute bMaxDataOutSize.
pub const MAX_DATA_OUT_SIZE: u8 = 0x08;

/// The attribute bRefClkFreq.
pub const REF_CLK_FREQ: u8 = 0x0A;

/// The attribute bConfigDescrLock.
pub const CONFIG_DESCR_LOCK: u8 = 0x0B;

/// The flag fDeviceInit.
pub const DEVICE_INIT: u8 = 0x01;

/// The flag fPermanentWPEn.
pub const PERMANENT_WP_EN: u8 = 0x02;

/// The flag fPowerOnWPEn.
pub const POWER_ON_WP_EN: u8 = 0x03;

/// The flag fBackgroundOpsEn.
pub const BACKGROUND_OPS_EN: u8 = 0x04;
