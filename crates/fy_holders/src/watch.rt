//! Watches a journal while it is checked entry by entry.
ghost use Rattle.std.specs.Prelude.{◌≡◌, ◌++◌, ◌∷◌, [], ◌&&◌, ◌||◌, not, ℕ, List, None, IfOk, OnOk, OnErr, IsTrue, IsFalse, length, option_to_list};
ghost use Rattle.std.specs.FinSet as sets;
ghost use Rattle.fy_acts.specs.declared.entry.Entry.{Entry};
ghost use Rattle.fy_cluster.specs.Setup.{Setup};
ghost use Rattle.fy_replay.specs.Replayed.{HasReplayed};
ghost use Rattle.fy_holders.specs.Destroyed.{heal_of};

use crate::Outages;
use crate::outages::{Heal, since_of};
use crate::turns::{no_turns, note_turns};
use fy_acts::{Entry, Version};
use fy_cluster::Config;
use fy_cluster::effects::heals;
use fy_events::{Done, answered};
use fy_locality::ProcSet;
use fy_replay::Replayer;
use std::alloc::{AllocError, Global};
use std::marker::Model;

/// Checks a journal entry by entry, and notes when its processes are destroyed and healed. No entry
/// is kept: memory grows with what changes, and by a few bytes for each entry. After an error a
/// watch is of no use: each later call that may fail answers an error.
#[derive(Drop)]
pub struct Watch {
    replayer: Replayer,
    end: u32,
    turns: Vec<Vec<u32>>,
    heals: Vec<Heal>,
    answers: Vec<Option<Done>>,
    /// Whether no call failed midway.
    is_whole: bool,
}

impl Model for Watch {
    ghost use Rattle.std.specs.Coded.{codes};
    ghost use Rattle.fy_locality.specs.contracts.locality.Locality as e;
    ghost use Rattle.fy_policy.specs.TreeCode.{tree_code};
    ghost use Rattle.fy_holders.specs.Watched.{Watched, watched, IsSound};

    ghost Value = { Watched };

    ghost coded = { Prim.hlevel (codes, tree_code, e.the_row.coded) };

    ghost view = { watched };

    ghost invariant = { IsSound };
}

/// The processes that one of two sets alone has.
fn turned(before: &ProcSet, after: &ProcSet) -> ProcSet
    ensures { result ≡ sets.union
        (sets.difference before.now after.now) (sets.difference after.now before.now) }
{
    before.difference(after).union(&after.difference(before))
}

/// Notes the heal that an entry did, where it did one.
fn note_heal(heals: &mut Vec<Heal>, healed: Option<Heal>) -> Result<(), AllocError>
    ensures { OnOk result (heals.new.items ≡ heals.old.items ++ option_to_list healed) }
{
    if let Some(heal) = healed {
        heals.push(heal)?;
    }
    Ok(())
}

/// The heal that an entry did.
fn heal_of(entry: &Entry) -> Option<Heal>
    ensures { result ≡ heal_of entry.now }
{
    match heals(entry) {
        Some(process) => Some(Heal {
            process,
            entry: entry.at,
        }),
        None => None,
    }
}

impl Watch {
    /// Begins with a cluster of this configuration, for a journal of the version.
    ///
    /// # Errors
    ///
    /// `AllocError` where an allocation fails.
    pub fn begin(alloc: Global, config: Config, version: Version) -> Result<Watch, AllocError>
        ensures begun { IfOk result (λ watch. HasReplayed config [] watch.replayed) }
        ensures none { IfOk result (λ watch. watch.replayed.first_bad ≡ None) }
        ensures version { IfOk result (λ watch. watch.replayed.version ≡ version) }
        ensures whole { IfOk result (λ watch. IsTrue watch.is_whole) }
    {
        let turns = no_turns(alloc, config.map().len())?;
        Ok(Watch {
            replayer: Replayer::begin(alloc, config, version)?,
            end: 0,
            turns,
            heals: Vec::new(alloc),
            answers: Vec::new(alloc),
            is_whole: true,
        })
    }

    /// The place of the first bad entry so far; `None` where the entries are a legal journal.
    pub fn first_bad(&self) -> Option<u32>
        ensures { result ≡ self.now.replayed.first_bad }
    {
        self.replayer.first_bad()
    }

    /// That no earlier call failed midway.
    ///
    /// # Errors
    ///
    /// `AllocError` where one did.
    fn check_whole(&self) -> Result<(), AllocError>
        ensures whole { OnOk result (IsTrue self.now.is_whole) }
        ensures apart { OnErr result (IsFalse self.now.is_whole) }
    {
        if self.is_whole {
            Ok(())
        } else {
            Err(AllocError)
        }
    }

    /// Checks the next entry, and notes what it did. After the first bad one nothing is done. While
    /// none is bad, the entry's place is the number of entries so far.
    ///
    /// # Errors
    ///
    /// `AllocError` where an allocation fails, or did in an earlier call.
    pub fn enter(&mut self, entry: Entry) -> Result<(), AllocError>
        requires { self.old.replayed.first_bad ≡ None
            → entry.at ≡ length self.old.replayed.execution.journal }
        ensures entered { OnOk result ((setup : Setup) (so_far : List Entry)
            → HasReplayed setup so_far self.old.replayed
            → HasReplayed setup (so_far ++ entry ∷ []) self.new.replayed) }
        ensures version { OnOk result (self.new.replayed.version ≡ self.old.replayed.version) }
        ensures whole { OnOk result (IsTrue self.new.is_whole) }
        ensures was_whole { OnOk result (IsTrue self.old.is_whole) }
    {
        self.check_whole()?;
        let (at, healed, answer) = (entry.at, heal_of(&entry), answered(&entry));
        let before = self.replayer.cluster().destroyed();
        self.is_whole = false;
        self.replayer.enter(entry)?;
        if self.replayer.first_bad().is_some() {
            self.is_whole = true;
            return Ok(());
        }
        let cluster = self.replayer.cluster();
        cluster.config().invariant();
        let after = cluster.destroyed();
        self.end = at + 1;
        note_turns(&mut self.turns, &turned(&before, &after), self.end)?;
        note_heal(&mut self.heals, healed)?;
        self.answers.push(answer)?;
        self.is_whole = true;
        Ok(())
    }

    /// What was noted of a legal journal.
    ///
    /// # Errors
    ///
    /// `AllocError` where an allocation failed in an earlier call.
    pub fn finish(self) -> Result<Outages, AllocError>
        requires { self.replayed.first_bad ≡ None }
        ensures outages { IfOk result (λ outages. outages ≡ self.replayed.execution) }
        ensures was_whole { OnOk result (IsTrue self.is_whole) }
        ensures apart { OnErr result (IsFalse self.is_whole) }
    {
        self.check_whole()?;
        let Watch {
            replayer,
            end,
            turns,
            heals,
            answers,
            is_whole: _,
        } = self;
        let cluster = replayer.into_cluster();
        let since = since_of(cluster.config(), &turns, 0, end);
        Ok(Outages {
            cluster,
            end,
            turns,
            heals,
            answers,
            since,
        })
    }
}
