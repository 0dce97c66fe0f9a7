//! Seals a block with its tag into a flash page, opens a page again and tells what it is, and judges
//! what a stop has left of one. The layouts of the spare bytes and of a mark's body are this profile's: of
//! the spare bytes version 2 is written, and version 1 is read too. The check is the SHA-256 of FIPS 180-4.
#![tactic(auto)]

mod check;
mod contents;
mod facts;
mod front;
mod jobs;
mod mark;
mod mark_read;
mod owed;
mod page;
mod zeros;

pub use check::check_bytes;
pub use contents::{Content, Mark, content_of, contents_of_four};
pub use facts::one_seal;
pub use jobs::{UnsealedJob, tag_read};
pub use mark::mark_body;
pub use owed::OwedJob;
pub use page::{leftover_ok, open, reopened, seal, sealed_tag};
pub use zeros::ZeroSeal;
