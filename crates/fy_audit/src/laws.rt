//! Laws of scripts and audits, for the crates above, and the limits as numbers.
ghost use Rattle.std.specs.Prelude.{◌≡◌};
ghost use Rattle.fy_audit.specs.declared.audit.TheConstants.{MOST_AUDIT_BYTES};
ghost use Rattle.fy_audit.specs.declared.script.TheConstants.{MOST_SCRIPT_BYTES};
ghost use Rattle.fy_audit.specs.One.{AuditIsUnambiguous, AuditTextIsInjective, ScriptIsUnambiguous};
ghost use Rattle.fy_audit.specs.Reading.{EntryExtendsRead, StopsAreFaults, EndsAsAudit};

use fy_spelling::laws::{
    a_held_text_is_of_one_entry, a_text_is_a_line, a_text_is_of_one_entry, lines_are_unambiguous,
};

/// Bytes are one script, or have one first fault.
pub fn scripts_are_unambiguous()
    ensures { ScriptIsUnambiguous }
{
    lines_are_unambiguous()
}

/// Two journals with one text are of one version and have the same entries, whatever entries a
/// program can hold.
pub fn audit_text_is_injective()
    ensures { AuditTextIsInjective }
{
    a_held_text_is_of_one_entry()
}

/// Bytes are one audit, or have one first fault: so where they are the text of a journal within
/// the limits, a reader whose allocations succeed reads that journal.
pub fn audits_are_unambiguous()
    ensures { AuditIsUnambiguous }
{
    a_text_is_a_line();
    a_text_is_of_one_entry()
}

/// An audit is read by its entries one after another: an entry more was read, a stop is the
/// audit's first fault, and what was read to the end is the audit.
pub fn an_audit_is_read_entry_by_entry()
    ensures more { EntryExtendsRead }
    ensures stopped { StopsAreFaults }
    ensures end { EndsAsAudit }
{}

/// The limits of this crate, as numbers.
pub fn limits()
    ensures audit_bytes { MOST_AUDIT_BYTES ≡ 268435456 }
    ensures script_bytes { MOST_SCRIPT_BYTES ≡ 16777216 }
{}
