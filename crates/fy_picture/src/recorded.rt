//! What a recorder keeps of the good entries of a journal.
ghost use Rattle.std.specs.Prelude.{◌≡◌, ◌++◌, ◌∷◌, [], List, ℕ, None, Some, IfOk, OnOk, IsSome, IsSomeAnd, length};
ghost use Rattle.fy_cluster.specs.Execution.{opened};
ghost use Rattle.fy_cluster.specs.Replies.{Legal};
ghost use Rattle.fy_picture.specs.Layouts.{AreAllMade, AreEnded, AreEven, AreInOrder, HasRoom, IsFresh, IsLate, IsWidth, laid_by};
ghost use Rattle.fy_picture.specs.Pictures.{IsPicture};
ghost use Rattle.fy_picture.specs.Recorded.{EndsColumn, IsRecorded, IsSameBut, ShowStates, columns_of};
ghost use Rattle.fy_picture.specs.SoFar.{DueHaveEnded, is_full, with_room};

use crate::column::{Column, states_of};
use crate::keeping::{acknowledged, begins_next, keepers_of, note_entry};
use crate::killable::count_columns;
use crate::layout::{Plan, fold, full_width, is_due, is_open, width_of};
use crate::{MOST_KEPT, Picture};
use fy_acts::Entry;
use fy_cluster::{ClusterState, Config};
use std::alloc::{AllocError, Global};

/// The cluster with the good entries, and what is recorded of them.
#[derive(Drop)]
pub(crate) struct Recorded {
    pub(crate) alloc: Global,
    pub(crate) state: ClusterState,
    pub(crate) plan: Plan,
    /// Those that have ended. Their counts are made at the end, since most may be folded away.
    pub(crate) columns: Vec<Column>,
    /// How many good entries there are.
    pub(crate) entries: u32,
    /// Of each record that was begun, the entry that acknowledged it.
    pub(crate) acked_at: Vec<Option<u32>>,
}

impl Recorded {
    /// Begins with no entry.
    pub(crate) fn begin(alloc: Global, config: Config, plan: Plan) -> Result<Recorded, AllocError>
        requires { IsFresh plan }
        ensures recorded { IfOk result IsRecorded }
        ensures state { IfOk result (λ recorded. recorded.state ≡ opened config) }
        ensures plan { IfOk result (λ recorded. recorded.plan ≡ plan) }
        ensures none { IfOk result (λ recorded. recorded.columns.items ≡ []) }
    {
        let state = ClusterState::make(alloc, config)?;
        Ok(Recorded {
            alloc,
            state,
            plan,
            columns: Vec::new(alloc),
            entries: 0,
            acked_at: Vec::new(alloc),
        })
    }

    /// How many columns have ended.
    pub(crate) fn ended(&self) -> usize
        ensures { result ≡ length self.now.columns.items }
    {
        self.columns.len()
    }

    /// Of how many records the picture tells so far.
    fn told(&self) -> usize
        ensures { result ≡ length self.now.acked_at.items }
    {
        self.acked_at.len()
    }

    /// Makes each two columns one, where there are as many as there may be and more entries. The
    /// answer is whether it did.
    pub(crate) fn make_room(&mut self) -> bool
        requires { IsRecorded self.old }
        ensures recorded { IsRecorded self.new }
        ensures state { self.new.state ≡ self.old.state }
        ensures laid { laid_by self.new.plan ≡ laid_by self.old.plan }
        ensures room { HasRoom self.new.plan (length self.new.columns.items) self.new.entries }
        ensures columns { columns_of self.new ≡ with_room self.old.entries (columns_of self.old) }
        ensures folded { result ≡ is_full self.old.entries (columns_of self.old) }
    {
        match full_width(&self.plan, self.ended(), self.entries) {
            Some(width) => {
                fold(&mut self.columns);
                self.plan = Plan::Even(width * 2);
                true
            }
            None => false,
        }
    }

    /// Ends a column.
    fn end_column(&mut self) -> Result<(), AllocError>
        ensures { OnOk result (EndsColumn self.old self.new) }
    {
        self.state.forget_ended();
        let states = states_of(&self.state);
        self.columns.push(Column {
            end: self.entries,
            states,
            counts: Vec::new(self.alloc),
        })?;
        Ok(())
    }

    /// Ends each column that ends before the next entry, once there is room for it.
    pub(crate) fn end_due(&mut self) -> Result<(), AllocError>
        requires { IsRecorded self.old }
        ensures recorded { OnOk result (IsRecorded self.new) }
        ensures state { OnOk result (self.new.state ≡ self.old.state) }
        ensures laid { OnOk result (laid_by self.new.plan ≡ laid_by self.old.plan) }
        ensures room { OnOk result
            (HasRoom self.new.plan (length self.new.columns.items) self.new.entries) }
        ensures late { OnOk result
            (IsLate self.new.plan (length self.new.columns.items) self.new.entries) }
        ensures ended { OnOk result
            (DueHaveEnded self.old.entries (columns_of self.old) (columns_of self.new)) }
    {
        self.make_room();
        while is_due(&self.plan, self.ended(), self.entries) {
            self.end_column()?;
        }
        Ok(())
    }

    /// Ends the last column, which may stand for fewer entries.
    fn end_last(&mut self) -> Result<(), AllocError>
        requires recorded { IsRecorded self.old }
        requires room { HasRoom self.old.plan (length self.old.columns.items) self.old.entries }
        requires late { IsLate self.old.plan (length self.old.columns.items) self.old.entries }
        ensures same { OnOk result (IsSameBut self.old self.new) }
        ensures columns { OnOk result (ShowStates self.old.state.setup self.old.state.journal
            self.new.columns.items) }
        ensures ended { OnOk result (AreEnded self.old.plan (length self.old.state.journal)
            self.new.columns.items) }
    {
        if is_open(&self.plan, self.ended(), self.entries) {
            self.end_column()?;
        }
        Ok(())
    }

    /// Enters the next entry, which the rules give.
    pub(crate) fn enter(&mut self, entry: Entry) -> Result<(), AllocError>
        requires recorded { IsRecorded self.old }
        requires legal { Legal self.old.state.setup (self.old.state.journal ++ entry ∷ []) }
        ensures recorded { OnOk result (IsRecorded self.new) }
        ensures state { OnOk result (self.new.state ≡ record self.old.state {
          journal = self.old.state.journal ++ entry ∷ [];
        }) }
        ensures laid { OnOk result (laid_by self.new.plan ≡ laid_by self.old.plan) }
        ensures ended { OnOk result
            (DueHaveEnded self.old.entries (columns_of self.old) (columns_of self.new)) }
    {
        fy_cluster::laws::one_entry_more();
        fy_cluster::laws::clients_told();
        self.end_due()?;
        let known = self.told();
        let is_begun = begins_next(&self.state, &entry, known);
        let (at, by, act, reply) = entry.into_parts();
        let marked = self.state.marks(&act);
        let Ok(_) = self.state.enter(by, act) else {
            return Err(AllocError);
        };
        // A legal journal has at most this many entries.
        let limit = self.state.config().journal_limit();
        self.entries = self.entries.saturating_add(1).min(limit);
        let acked = acknowledged(reply, marked);
        note_entry(at, is_begun, acked, &mut self.acked_at)?;
        Ok(())
    }

    /// The picture of the entries so far.
    pub(crate) fn finish(mut self) -> Result<Picture, AllocError>
        requires { IsRecorded self }
        ensures picture { IfOk result (IsPicture self.state.setup self.state.journal) }
        ensures even { laid_by self.plan ≡ None → IfOk result (λ picture.
            AreEven (length self.state.journal) picture.columns.items
            × IsSomeAnd picture.width (IsWidth (length self.state.journal))) }
        ensures laid { (ends : List ℕ) → laid_by self.plan ≡ Some ends → AreInOrder ends
            → IfOk result (λ picture.
            AreAllMade ends (length self.state.journal) picture.columns.items) }
        ensures uneven { IsSome (laid_by self.plan) → IfOk result (λ picture.
            picture.width ≡ None) }
    {
        self.end_due()?;
        self.end_last()?;
        count_columns(self.alloc, self.state.config(), &mut self.columns)?;
        let width = width_of(&self.plan);
        let count = self.told().min(MOST_KEPT as usize) as u32;
        let keepers = keepers_of(self.alloc, &self.state, count)?;
        let Recorded {
            alloc: _,
            state: _,
            plan: _,
            columns,
            entries: _,
            acked_at,
        } = self;
        Ok(Picture {
            width,
            columns,
            keepers,
            acked_at,
        })
    }
}
