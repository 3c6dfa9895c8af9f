//! The running parts of a cluster.
ghost use Rattle.std.specs.Prelude.{◌≡◌, IfOk};

use fy_decide::DeadBook;
use fy_disk::Disks;
use fy_grants::Book;
use fy_locality::ProcSet;
use fy_net::Net;
use fy_team::Teams;
use std::alloc::{AllocError, Global};

/// Who is destroyed and who is left, the grants and protections, the processes' disks, who is up,
/// the network, and the teams with their records.
#[derive(Drop)]
pub(crate) struct Machine {
    pub(crate) dead: DeadBook,
    pub(crate) book: Book,
    pub(crate) disks: Disks,
    pub(crate) up: ProcSet,
    pub(crate) net: Net,
    pub(crate) teams: Teams,
}

impl Machine {
    /// An equal machine, in memory of its own.
    ///
    /// # Errors
    ///
    /// `AllocError` where an allocation fails.
    pub(crate) fn try_copy(&self, alloc: Global) -> Result<Machine, AllocError>
        ensures { IfOk result (λ copy. copy ≡ self.now) }
    {
        Ok(Machine {
            dead: self.dead.try_copy(alloc)?,
            book: self.book.try_copy(alloc)?,
            disks: self.disks.try_copy(alloc)?,
            up: self.up,
            net: self.net.try_copy(alloc)?,
            teams: self.teams.try_copy(alloc)?,
        })
    }
}
