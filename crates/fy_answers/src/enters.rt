//! Clusters that make acts and spell their entries: one that keeps its journal, and one that
//! doesn't.
ghost use Rattle.std.specs.Prelude.{◌≡◌, ◌<◌, length, vec_capacity, IfErr, OnOk};
ghost use Rattle.fy_audit.specs.AuditText.{entry_line};
ghost use Rattle.fy_answers.specs.Answers.{EndsLine};
ghost use Rattle.fy_answers.specs.declared.fault.AnswerFault.TheVariants.{Unwritten};

use crate::fault::AnswerFault;
use fy_acts::Act;
use fy_audit::push_entry_line;
use fy_cluster::{Cluster, ClusterState};
use fy_spelling::{Entry, entry_is_representable, laws};

/// A cluster that makes acts, one after another, and has the entry of each.
pub trait Enters {
    ghost use Rattle.std.specs.Prelude.{IfErr, OnOk, vec_capacity};
    ghost use Rattle.fy_cluster.specs.Execution.{Execution};
    ghost use Rattle.fy_answers.specs.Answers.{EndsLine, HasEntered, HasNoEntry};

    ghost cluster: { Self → Execution };

    /// Makes an act of the actor with this number, and puts the line of its entry into a text, in
    /// place of what that has.
    ///
    /// # Errors
    ///
    /// In this order: `JournalFull` where the journal is at its limit; `NoMemory`: nothing changed
    /// then. `Unwritten` where the act is made and an allocation for the line failed, which has
    /// more bytes than the text has room for.
    fn enter_line(&mut self, by: u32, act: Act, text: &mut Vec<u8>) -> Result<(), AnswerFault>
        ensures entered { OnOk result
            (HasEntered (cluster self.old) (cluster self.new) by act text.new.items) }
        ensures ends { OnOk result (EndsLine text.new.items) }
        ensures err { IfErr result (HasNoEntry (cluster self.old) (cluster self.new) by act
            (vec_capacity text.old)) };
}

/// Puts an entry's line into a text, in place of what it has.
///
/// # Errors
///
/// `Unwritten` where an allocation for the line failed, which has more bytes than the text has room
/// for.
fn put_line(text: &mut Vec<u8>, entry: &Entry) -> Result<(), AnswerFault>
    ensures line { OnOk result (text.new.items ≡ entry_line entry.now) }
    ensures ends { OnOk result (EndsLine text.new.items) }
    ensures err { IfErr result (λ fault. (fault ≡ Unwritten)
        × (vec_capacity text.old < length (entry_line entry.now))) }
{
    entry_is_representable(entry);
    laws::a_held_text_is_of_one_entry();
    text.clear();
    // The act is made, so no `From` says what an allocation failure is here.
    match push_entry_line(text, entry) {
        Ok(()) => Ok(()),
        Err(_) => Err(AnswerFault::Unwritten),
    }
}

impl Enters for ClusterState {
    ghost cluster = { λ cluster. cluster };

    fn enter_line(&mut self, by: u32, act: Act, text: &mut Vec<u8>) -> Result<(), AnswerFault> {
        let entry = self.enter(by, act)?;
        put_line(text, &entry)
    }
}

impl Enters for Cluster {
    ghost cluster = { λ cluster. cluster };

    fn enter_line(&mut self, by: u32, act: Act, text: &mut Vec<u8>) -> Result<(), AnswerFault> {
        self.apply(by, act)?;
        let Some(entry) = self.journal().entries().last() else {
            unreachable!();
        };
        put_line(text, entry)
    }
}
