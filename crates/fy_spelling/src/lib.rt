//! How acts, replies and entries are spelled in scripts and audits.
#![tactic(auto)]

mod command;
mod entry_line;
mod fits;
pub mod laws;
mod parts;
mod reading;
mod scan;
mod script_line;
mod writing;

pub use command::{Command, CommandFault, LineFault, MOST_LINE_BYTES};
pub use entry_line::{EntryFault, read_entry, read_entry_by_value};
pub use fits::{act_fits, entry_is_representable, reply_is_representable};
pub use fy_acts::{Act, Entry, Refusal, Reply};
pub use reading::read_command_by_value;
pub use script_line::read_command;
pub use writing::{entry_text, put_command, put_entry};
