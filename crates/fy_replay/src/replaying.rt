//! Checks a journal by replaying it: its acts are made once more, and the replies compared. No
//! entry is kept.
ghost use Rattle.std.specs.Prelude.{◌≡◌, ◌↔◌, ◌<◌, List, [], ◌∷◌, ◌++◌, length, None, IfOk, IfSome, OnOk, OnErr, IsSome, IsTrue};
ghost use Rattle.fy_acts.specs.declared.entry.Entry.{Entry};
ghost use Rattle.fy_cluster.specs.Setup.{Setup};
ghost use Rattle.fy_cluster.specs.Versions.{LegalUnder};
ghost use Rattle.fy_replay.specs.Check.{ChecksOrOom};
ghost use Rattle.fy_replay.specs.Replayed.{HasReplayed};

use crate::CheckFault;
use fy_acts::{Entry, Journal, Version};
use fy_cluster::{ClusterState, Config, Fault, laws};
use std::alloc::{AllocError, Global};
use std::marker::Model;

/// Whether the entry may come next in the journal of the state, which is a legal one of the
/// version. Where it may, that journal then ends with it.
fn comes_next(state: &mut ClusterState, version: Version, entry: Entry) -> Result<bool, AllocError>
    requires legal { LegalUnder version state.old.setup state.old.journal }
    requires place { entry.at ≡ length state.old.journal }
    ensures next { IfOk result (λ next. IsTrue next
        ↔ LegalUnder version state.old.setup (state.old.journal ++ entry ∷ [])) }
    ensures entered { IfOk result (λ next. IsTrue next → state.new
        ≡ record state.old { journal = state.old.journal ++ entry ∷ [] }) }
    ensures none { OnErr result (state.new ≡ state.old) }
    ensures room { OnErr result (length state.old.journal < state.old.setup.limit) }
{
    laws::versions();
    fy_acts::laws::equal_is_the_same();
    if !version.knows(&entry.act) {
        return Ok(false);
    }
    let (_, by, act, told) = entry.into_parts();
    match state.enter(by, act) {
        Ok(made) => Ok(made.reply == told),
        Err(Fault::JournalFull) => Ok(false),
        Err(Fault::NoMemory) => Err(AllocError),
    }
}

/// Checks a journal entry by entry: each act is made once more, and the reply is compared. The
/// entry is dropped then, so memory doesn't grow with their number.
#[derive(Drop)]
pub struct Replayer {
    state: ClusterState,
    version: Version,
    first_bad: Option<u32>,
}

impl Model for Replayer {
    ghost use Rattle.std.specs.Coded.{codes};
    ghost use Rattle.fy_locality.specs.contracts.locality.Locality as e;
    ghost use Rattle.fy_policy.specs.TreeCode.{tree_code};
    ghost use Rattle.fy_replay.specs.Replayed.{Replayed};

    ghost Value = { Replayed };

    ghost coded = { Prim.hlevel (codes, tree_code, e.the_row.coded) };

    ghost use Rattle.fy_replay.specs.Replayer.{replayed, IsSound};

    ghost view = { replayed };

    ghost invariant = { IsSound };
}

impl Replayer {
    /// Begins with a cluster of this configuration, for a journal of the version.
    ///
    /// # Errors
    ///
    /// `AllocError` where an allocation fails for the cluster.
    pub fn begin(alloc: Global, config: Config, version: Version) -> Result<Replayer, AllocError>
        ensures begun { IfOk result (HasReplayed config []) }
        ensures none { IfOk result (λ replayer. replayer.first_bad ≡ None) }
        ensures version { IfOk result (λ replayer. replayer.version ≡ version) }
    {
        laws::versions();
        Ok(Replayer {
            state: ClusterState::make(alloc, config)?,
            version,
            first_bad: None,
        })
    }

    /// The version of the journal.
    pub fn version(&self) -> Version
        ensures { result ≡ self.now.version }
    {
        let Replayer { version, .. } = self;
        *version
    }

    /// The cluster that makes the acts. While no entry is bad, its journal is the entries so far; a
    /// bad entry's act may have been made.
    pub fn cluster(&self) -> &ClusterState
        ensures { result.now ≡ self.now.execution }
    {
        &self.state
    }

    /// Gives away the cluster that makes the acts, as [`Replayer::cluster`] shows it.
    pub fn into_cluster(self) -> ClusterState
        ensures { result ≡ self.execution }
    {
        let Replayer {
            state,
            version: _,
            first_bad: _,
        } = self;
        state
    }

    /// The place of the first bad entry so far; `None` where the entries are a legal journal.
    pub fn first_bad(&self) -> Option<u32>
        ensures { result ≡ self.now.first_bad }
    {
        self.first_bad
    }

    /// Checks the next entry. After the first bad one nothing is done.
    ///
    /// # Errors
    ///
    /// `AllocError` where an allocation for its act fails, and never for an entry whose place is the
    /// journal limit, which is bad. The entry isn't checked then.
    pub fn enter(&mut self, entry: Entry) -> Result<(), AllocError>
        requires { self.old.first_bad ≡ None → entry.at ≡ length self.old.execution.journal }
        ensures entered { OnOk result ((setup : Setup) (so_far : List Entry)
            → HasReplayed setup so_far self.old
            → HasReplayed setup (so_far ++ entry ∷ []) self.new) }
        ensures version { self.new.version ≡ self.old.version }
        ensures stays { IsSome self.old.first_bad → self.new ≡ self.old }
        ensures place { OnOk result (self.old.first_bad ≡ None
            → IfSome self.new.first_bad (λ at. at ≡ entry.at)) }
        ensures same { OnErr result (self.new ≡ self.old) }
        ensures room { OnErr result
            (length self.old.execution.journal < self.old.execution.setup.limit) }
    {
        if self.first_bad.is_some() {
            return Ok(());
        }
        let at = entry.at;
        if !comes_next(&mut self.state, self.version, entry)? {
            self.first_bad = Some(at);
        }
        Ok(())
    }
}

/// Whether the journal is legal for the configuration, under its own version of the rules. The acts
/// are made once more under this configuration, so the time is that of the run.
///
/// # Errors
///
/// `BadEntry` at the first entry whose reply isn't the one that the rules give, whose act the
/// version doesn't have, or whose place is the journal limit. `NoMemory`, in place of any answer,
/// where an allocation fails for the cluster or for one of its acts.
pub fn replay(alloc: Global, config: &Config, journal: &Journal) -> Result<(), CheckFault>
    ensures { ChecksOrOom journal.now.version config.now journal.now.entries result }
{
    journal.invariant();
    let mut replayer = Replayer::begin(alloc, config.try_copy(alloc)?, journal.version())?;
    for entry in journal.entries() {
        replayer.enter(entry.try_copy(alloc)?)?;
        if let Some(at) = replayer.first_bad() {
            return Err(CheckFault::BadEntry { at });
        }
    }
    Ok(())
}
