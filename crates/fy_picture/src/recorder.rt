//! Records the picture of a journal while it is checked entry by entry.
ghost use Rattle.std.specs.Prelude.{◌≡◌, ◌++◌, ◌∷◌, [], List, ℕ, None, Some, IfOk, OnOk, OnErr, IsFalse, IsSome, IsSomeAnd, IsTrue, length};
ghost use Rattle.fy_acts.specs.declared.entry.Entry.{Entry};
ghost use Rattle.fy_cluster.specs.Setup.{Setup};
ghost use Rattle.fy_picture.specs.Layouts.{AreAllMade, AreEven, AreInOrder, IsFresh, IsWidth, laid_by};
ghost use Rattle.fy_picture.specs.Pictures.{IsPicture};
ghost use Rattle.fy_picture.specs.Recording.{HasEndedDue, HasRecorded, begun, roomed};
ghost use Rattle.fy_picture.specs.SoFar.{DueHaveEnded, is_full};

use crate::Picture;
use crate::layout::Plan;
use crate::recorded::Recorded;
use fy_acts::{Entry, Version};
use fy_cluster::{ClusterState, Config};
use fy_replay::Replayer;
use std::alloc::{AllocError, Global};
use std::marker::Model;

/// Checks a journal entry by entry, and records the picture of the entries before the first bad
/// one, column by column. No entry is kept. After an error a recorder is of no use. Where its two
/// clusters may differ, each later call that may fail answers an error.
#[derive(Drop)]
pub struct Recorder {
    alloc: Global,
    /// Makes the acts of all entries up to the first bad one, which it may make too.
    replayer: Replayer,
    /// Makes the acts of the good entries alone.
    recorded: Recorded,
    /// Whether no call failed midway. Then both have the same good entries.
    is_whole: bool,
}

impl Model for Recorder {
    ghost use Rattle.std.specs.Coded.{codes};
    ghost use Rattle.fy_locality.specs.contracts.locality.Locality as e;
    ghost use Rattle.fy_policy.specs.TreeCode.{tree_code};
    ghost use Rattle.fy_picture.specs.Recording.{Recording};

    ghost Value = { Recording };

    ghost coded = { Prim.hlevel (codes, tree_code, e.the_row.coded) };

    ghost use Rattle.fy_picture.specs.Recorder.{recording, IsSoundIfWhole};

    ghost view = { recording };

    ghost invariant = { IsSoundIfWhole };
}

impl Recorder {
    /// Begins with a cluster of this configuration, for a journal of the version. Columns are even:
    /// each stands for the same power of two of entries, and there are at most `MOST_COLUMNS`.
    ///
    /// # Errors
    ///
    /// `AllocError` where an allocation fails.
    pub fn begin(alloc: Global, config: Config, version: Version) -> Result<Recorder, AllocError>
        ensures begun { IfOk result (λ recorder. recorder ≡ begun version config None) }
        ensures recorded { IfOk result (HasRecorded config []) }
    {
        Recorder::begin_planned(alloc, config, version, Plan::Even(1))
    }

    /// Begins likewise, with the end of each column: how many entries there are up to it. No end is
    /// below one before it, and there may be any number of them.
    ///
    /// # Errors
    ///
    /// `AllocError` where an allocation fails.
    pub fn begin_laid(
        alloc: Global,
        config: Config,
        version: Version,
        ends: Vec<u32>,
    ) -> Result<Recorder, AllocError>
        ensures begun { IfOk result
            (λ recorder. recorder ≡ begun version config (Some ends.items)) }
        ensures recorded { IfOk result (HasRecorded config []) }
    {
        Recorder::begin_planned(alloc, config, version, Plan::Laid(ends))
    }

    /// Begins with columns of this plan.
    fn begin_planned(
        alloc: Global,
        config: Config,
        version: Version,
        plan: Plan,
    ) -> Result<Recorder, AllocError>
        requires { IsFresh plan }
        ensures begun { IfOk result (λ recorder. recorder ≡ begun version config (laid_by plan)) }
        ensures recorded { IfOk result (HasRecorded config []) }
    {
        let recorded = Recorded::begin(alloc, config.try_copy(alloc)?, plan)?;
        let replayer = Replayer::begin(alloc, config, version)?;
        Ok(Recorder {
            alloc,
            replayer,
            recorded,
            is_whole: true,
        })
    }

    /// The place of the first bad entry so far; `None` where the entries are a legal journal.
    pub fn first_bad(&self) -> Option<u32>
        ensures { result ≡ self.now.first_bad }
    {
        self.replayer.first_bad()
    }

    /// The cluster with the entries so far, up to the first bad one.
    pub fn cluster(&self) -> &ClusterState
        ensures { result.now ≡ self.now.execution }
    {
        &self.recorded.state
    }

    /// How many columns have ended.
    pub fn columns(&self) -> usize
        ensures { result ≡ length self.now.columns.ends }
    {
        self.recorded.ended()
    }

    /// That no earlier call left the two clusters apart.
    ///
    /// # Errors
    ///
    /// `AllocError` where one did.
    fn check_whole(&self) -> Result<(), AllocError>
        ensures whole { OnOk result (IsTrue self.now.is_whole) }
        ensures apart { OnErr result (IsFalse self.now.is_whole) }
    {
        if self.is_whole {
            Ok(())
        } else {
            Err(AllocError)
        }
    }

    /// Makes each two columns one, where there are as many as there may be and more entries. The
    /// answer is whether it did.
    ///
    /// # Errors
    ///
    /// `AllocError` where an earlier call left the two clusters apart.
    pub fn make_room(&mut self) -> Result<bool, AllocError>
        ensures room { OnOk result (self.new ≡ roomed self.old) }
        ensures folded { IfOk result (λ folded.
            folded ≡ is_full (length self.old.execution.journal) self.old.columns) }
        ensures kept { OnErr result (self.new ≡ self.old) }
        ensures apart { OnErr result (IsFalse self.old.is_whole) }
        ensures was_whole { OnOk result (IsTrue self.old.is_whole) }
    {
        self.check_whole()?;
        Ok(self.recorded.make_room())
    }

    /// Ends each column that ends before the next entry, once there is room for it.
    ///
    /// # Errors
    ///
    /// `AllocError` where an allocation fails, or where an earlier call left the two clusters
    /// apart.
    pub fn end_due(&mut self) -> Result<(), AllocError>
        ensures ended { OnOk result (HasEndedDue self.old self.new) }
        ensures was_whole { OnOk result (IsTrue self.old.is_whole) }
    {
        self.check_whole()?;
        self.is_whole = false;
        self.recorded.end_due()?;
        self.is_whole = true;
        Ok(())
    }

    /// Checks the next entry, and records it where it is what the rules give. After the first bad
    /// one nothing is done. While none is bad, the entry's place is the number of entries so far.
    ///
    /// # Errors
    ///
    /// `AllocError` where an allocation fails, or where an earlier call left the two clusters
    /// apart.
    pub fn enter(&mut self, entry: Entry) -> Result<(), AllocError>
        requires { self.old.first_bad ≡ None → entry.at ≡ length self.old.execution.journal }
        ensures entered { OnOk result ((setup : Setup) (so_far : List Entry)
            → HasRecorded setup so_far self.old
            → HasRecorded setup (so_far ++ entry ∷ []) self.new) }
        ensures version { OnOk result (self.new.version ≡ self.old.version) }
        ensures whole { OnOk result (IsTrue self.new.is_whole) }
        ensures was_whole { OnOk result (IsTrue self.old.is_whole) }
        ensures laid { OnOk result (self.new.columns.laid ≡ self.old.columns.laid) }
        ensures past { IsSome self.old.first_bad → OnOk result (self.new ≡ self.old) }
        ensures good { self.new.first_bad ≡ None → OnOk result (DueHaveEnded
            (length self.old.execution.journal) self.old.columns self.new.columns) }
        ensures bad { IsSome self.new.first_bad → OnOk result
            (self.new ≡ record self.old { first_bad = self.new.first_bad }) }
    {
        self.check_whole()?;
        let copy = entry.try_copy(self.alloc)?;
        self.is_whole = false;
        self.replayer.enter(copy)?;
        if self.replayer.first_bad().is_some() {
            self.is_whole = true;
            return Ok(());
        }
        self.recorded.enter(entry)?;
        self.is_whole = true;
        Ok(())
    }

    /// The picture of the entries before the first bad one. A given end behind them has no column;
    /// the last of even columns may stand for fewer entries.
    ///
    /// # Errors
    ///
    /// `AllocError` where an allocation fails, or where an earlier call left the two clusters
    /// apart.
    pub fn finish(self) -> Result<Picture, AllocError>
        ensures picture { IfOk result (IsPicture self.execution.setup self.execution.journal) }
        ensures was_whole { OnOk result (IsTrue self.is_whole) }
        ensures even { self.columns.laid ≡ None → IfOk result (λ picture.
            AreEven (length self.execution.journal) picture.columns.items
            × IsSomeAnd picture.width (IsWidth (length self.execution.journal))) }
        ensures laid { (ends : List ℕ) → self.columns.laid ≡ Some ends → AreInOrder ends
            → IfOk result (λ picture.
            AreAllMade ends (length self.execution.journal) picture.columns.items) }
        ensures uneven { IsSome self.columns.laid → IfOk result (λ picture.
            picture.width ≡ None) }
    {
        self.check_whole()?;
        let Recorder {
            alloc: _,
            replayer: _,
            recorded,
            is_whole: _,
        } = self;
        recorded.finish()
    }
}
