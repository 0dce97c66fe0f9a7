//! Runs scripts over a device whose dies lie in memory. A script is made of lines; each is one
//! event of the device, or several, and each has one line of output.
#![tactic(auto)]

mod attentions;
mod check;
mod commands;
mod fault;
mod first_lines;
mod image;
mod images;
mod keys;
mod leftovers;
mod lines;
mod outputs;
mod reading;
mod regions;
mod run;
mod settings_shown;
mod spelling;
mod stopped;
mod tally;
mod words;

pub use check::Stops;
pub use command_line::{Call, CallFault, call};
pub use fault::{ScriptFault, Word};
pub use image::{ImageFault, Sizes, read_image, write_image};
pub use images::{check_image_shown, check_image_text, load_text, save_text};
pub use run::{check_each_text, check_shown, check_text, run_text, world_after};
pub use spelling::{bytes, text};
