//! Scripts of acts to come; audits, which are journals written out.
#![tactic(auto)]

mod audit;
pub mod laws;
mod reader;
mod script;
mod text;

pub use audit::{AuditFault, AuditLineFault, MOST_AUDIT_BYTES, read_audit};
pub use fy_acts::{Journal, JournalFault, MOST_ENTRIES, Version};
pub use fy_spelling::{
    Act, Command, Entry, EntryFault, LineFault, MOST_LINE_BYTES, Refusal, Reply, entry_text,
};
pub use reader::{AuditReader, after_header, read_entry_at};
pub use script::{MOST_SCRIPT_BYTES, ScriptFault, read_script};
pub use text::{header_text, push_entry_line};
