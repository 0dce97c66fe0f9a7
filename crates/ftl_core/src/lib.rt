//! The translation layer: where the content of each address stands, which groups of pages are still
//! to be programmed, and which job each die gets next. It knows places and tags, and no messages.
#![tactic(auto)]

mod books;
mod ftl;

pub use block_table::{BlockState, DieRow, Flight, OpenBlock};
pub use books::{Brought, Mending, Step, Waiting};
pub use ftl::{Ended, Ftl};
pub use readers::Pin;
pub use unit_map::Stored;
pub use write_cache::{Claimed, Part, Pending};
