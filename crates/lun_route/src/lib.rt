//! Which unit a LUN byte names, which operation codes it takes, and what INQUIRY, REPORT LUNS, MODE
//! SENSE, REPORT SUPPORTED OPERATION CODES and READ CAPACITY(16) tell of the units (JESD220, 10.8.5;
//! SPC; SBC).
#![tactic(auto)]

mod identities;
mod laws;
mod lengths;
mod luns;
mod modes;
mod operations;
mod pages;
mod routes;

pub use identities::{
    UnitList, device_type, inquiry_bytes, long_capacity_bytes, luns_bytes, units_listed,
};
pub use laws::{
    each_lun_takes_its_actions, each_lun_takes_its_commands, reads_need_blocks,
    routes_are_the_first_lines, units_tell_what_they_take, worked_capacity, worked_limits,
    worked_modes, worked_operations, worked_pages, worked_selections,
};
pub use lengths::told_length;
pub use luns::{Lun, boot_unit, named_lun};
pub use modes::{ModesTold, ShortModesTold, modes_told, short_modes_told};
pub use operations::{OperationsTold, is_reported, operations_told};
pub use pages::{VitalPage, has_page, page_bytes};
pub use routes::{Route, is_passing, route_of};
