//! A machine before anything happened.
ghost use Rattle.std.specs.Prelude.{◌≡◌, ◌≤◌, ◌<◌, ◌+◌, ◌++◌, ◌||◌, ℕ, [], length, IfOk, OnOk};
ghost use Rattle.std.specs.List.{All};
ghost use Rattle.fy_locality.specs.declared.TheConstants.{MOST_PROCESSES};
ghost use Rattle.fy_kinds.specs.Kinds.{Deed, has};
ghost use Rattle.fy_grants.specs.declared.book.TheConstants.{MOST_GRANTS};
ghost use Rattle.fy_grants.specs.Rights.{grants_of, protections_of, grant_count};
ghost use Rattle.fy_decide.specs.DeadBook.{IsFresh};
ghost use Rattle.fy_net.specs.Net.{quiet};
ghost use Rattle.fy_cluster.specs.Rules.{grants_to, some_protects};
ghost use Rattle.fy_cluster.specs.Standing.{Refines, RefinesRights};

use crate::machine::Machine;
use crate::{Config, Protection, laws};
use fy_decide::{DeadBook, MakeFault};
use fy_disk::Disks;
use fy_grants::{Book, BookFault, Grant};
use fy_net::Net;
use fy_team::Teams;
use std::alloc::{AllocError, Global};

/// Nobody is destroyed, and everyone is left.
fn nobody_destroyed(alloc: Global, config: &Config) -> Result<DeadBook, AllocError>
    ensures { IfOk result (IsFresh config.now.processes config.now.policies) }
{
    laws::none_unmet();
    config.invariant();
    match DeadBook::make(alloc, config.map(), config.policies()) {
        Ok(dead) => Ok(dead),
        // All processes together satisfy each policy of a configuration.
        Err(MakeFault::Unmet { .. }) => unreachable!(),
        Err(MakeFault::NoMemory) => Err(AllocError),
    }
}

/// Gives one grant after another.
fn give_all(book: &mut Book, grants: &[Grant]) -> Result<(), AllocError>
    requires actors { All (λ grant. grant.actor < length book.old.grants) grants.now }
    requires few { grant_count book.old + length grants.now ≤ MOST_GRANTS }
    ensures given { OnOk result ((a : ℕ) →
        grants_of book.new a ≡ grants_of book.old a ++ grants_to a grants.now) }
    ensures actors { length book.new.grants ≡ length book.old.grants }
    ensures protections { book.new.protections ≡ book.old.protections }
    ensures map { book.new.processes ≡ book.old.processes }
{
    fy_grants::laws::grants_after_give();
    fy_grants::laws::grants_are_counted();
    for grant in grants {
        match book.give(*grant) {
            Ok(()) => {}
            Err(BookFault::NoMemory) => return Err(AllocError),
            Err(_) => unreachable!(),
        }
    }
    Ok(())
}

/// Adds one protection after another.
fn protect_all(book: &mut Book, protections: &[Protection])
    requires { All (λ it. it.process.0 < length book.old.protections) protections.now }
    ensures kinds { (p : ℕ) (deed : Deed) → has (protections_of book.new p) deed
        ≡ (some_protects protections.now p deed || has (protections_of book.old p) deed) }
    ensures processes { length book.new.protections ≡ length book.old.protections }
    ensures grants { book.new.grants ≡ book.old.grants }
    ensures map { book.new.processes ≡ book.old.processes }
{
    fy_grants::laws::protections_after_change();
    fy_kinds::laws::members_together();
    for protection in protections {
        book.protect(protection.process, protection.kinds);
    }
}

/// The first grants and protections.
fn first_rights(alloc: Global, config: &Config) -> Result<Book, AllocError>
    ensures { IfOk result (RefinesRights config.now []) }
{
    fy_grants::laws::grants_are_counted();
    config.invariant();
    let mut book = Book::make(alloc, config.actors(), config.map())?;
    give_all(&mut book, config.grants())?;
    protect_all(&mut book, config.protections());
    Ok(book)
}

/// A network in which nothing was sent.
fn quiet_net(alloc: Global, processes: u32) -> Result<Net, AllocError>
    requires { processes ≤ MOST_PROCESSES }
    ensures { IfOk result (λ net. net ≡ quiet processes) }
{
    match Net::make(alloc, processes) {
        Ok(net) => Ok(net),
        // `Net::make` fails by an allocation failure alone.
        Err(_) => Err(AllocError),
    }
}

impl Machine {
    /// The machine of a cluster before anything happened: nobody is destroyed, everyone is up,
    /// disks are empty, and nothing was sent.
    pub(crate) fn make(alloc: Global, config: &Config) -> Result<Machine, AllocError>
        ensures { IfOk result (Refines config.now []) }
    {
        let processes = config.map().len();
        Ok(Machine {
            dead: nobody_destroyed(alloc, config)?,
            book: first_rights(alloc, config)?,
            disks: Disks::make(alloc, processes)?,
            up: config.map().everyone(),
            net: quiet_net(alloc, processes)?,
            teams: Teams::make(alloc),
        })
    }
}
