//! The acts Give, Take, Protect and Unprotect: grants and protections change.
ghost use Rattle.std.specs.Prelude.{◌≡◌};
ghost use Rattle.fy_acts.specs.declared.act.Act.TheVariants.{Give, Take, Protect, Unprotect};
ghost use Rattle.fy_cluster.specs.Standing.{Point, Refines, StepsTo, StepsToOrOom, reply_to_fault};

use crate::Fault;
use crate::machine::Machine;
use fy_acts::{Refusal, Reply};
use fy_grants::{BookFault, Grant, laws};
use fy_kinds::KindSet;
use fy_locality::ProcId;

/// The reply, or the fault, that a fault of the book stands for.
fn reply_to_fault(fault: BookFault) -> Result<Reply, Fault>
    ensures { result ≡ reply_to_fault fault }
{
    match fault {
        BookFault::NoActor => Ok(Reply::No(Refusal::NoActor)),
        BookFault::NoSuch => Ok(Reply::No(Refusal::NoSuch)),
        BookFault::Full => Ok(Reply::No(Refusal::Full)),
        BookFault::NoMemory => Err(Fault::NoMemory),
    }
}

impl Machine {
    /// Gives a grant, last in its actor's list.
    pub(crate) fn give(&mut self, grant: Grant) -> Result<Reply, Fault>
        ghost point: { Point }
        requires { Refines point.setup point.before self.old }
        ensures { StepsToOrOom point (Give grant) result self.new }
    {
        laws::grants_after_give();
        match self.book.give(grant) {
            Ok(()) => Ok(Reply::Done),
            Err(fault) => reply_to_fault(fault),
        }
    }

    /// Takes a grant away, by its place in its actor's list.
    pub(crate) fn take(&mut self, actor: u32, index: u32) -> Result<Reply, Fault>
        ghost point: { Point }
        requires { Refines point.setup point.before self.old }
        ensures { StepsToOrOom point (Take actor index) result self.new }
    {
        laws::grants_after_take();
        match self.book.take(actor, index) {
            Ok(()) => Ok(Reply::Done),
            Err(fault) => reply_to_fault(fault),
        }
    }

    /// Adds kinds to those from which a process is protected.
    pub(crate) fn protect(&mut self, process: ProcId, kinds: KindSet) -> Reply
        ghost point: { Point }
        requires { Refines point.setup point.before self.old }
        ensures { StepsTo point (Protect process kinds) result self.new }
    {
        laws::protections_after_change();
        fy_kinds::laws::members_together();
        if process.0 as usize >= self.book.processes() {
            return Reply::No(Refusal::NoProcess);
        }
        self.book.protect(process, kinds);
        Reply::Done
    }

    /// Removes kinds from those from which a process is protected.
    pub(crate) fn unprotect(&mut self, process: ProcId, kinds: KindSet) -> Reply
        ghost point: { Point }
        requires { Refines point.setup point.before self.old }
        ensures { StepsTo point (Unprotect process kinds) result self.new }
    {
        laws::protections_after_change();
        fy_kinds::laws::members_together();
        if process.0 as usize >= self.book.processes() {
            return Reply::No(Refusal::NoProcess);
        }
        self.book.unprotect(process, kinds);
        Reply::Done
    }
}
