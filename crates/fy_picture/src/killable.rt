//! For each policy, how many processes could each be killed for good next. `fy_tolerance` asks
//! another question: how many together.
ghost use Rattle.std.specs.Prelude.{◌≡◌, ◌<◌, Some, IfOk, OnOk, IsTrue, length, map, slice_get};
ghost use Rattle.std.specs.Arc.{arc_value};
ghost use Rattle.std.specs.FinSet as sets;
ghost use Rattle.fy_locality.specs.declared.TheConstants.{MOST_PROCESSES};
ghost use Rattle.fy_cluster.specs.Setup.{Setup};
ghost use Rattle.fy_picture.specs.declared.column.Column.{Column};
ghost use Rattle.fy_picture.specs.Counters.{AreCounters, AreTallied, counted_in, killable_by_tallies};
ghost use Rattle.fy_picture.specs.Killable.{AreCounted, AreCountsAt, HaveSameLosses, is_killable, killable_at, states_in};
ghost use Rattle.fy_picture.specs.Layouts.{ends_of};

use crate::column::{Column, States};
use crate::tallied_set::{TalliedSet, symmetric_difference};
use fy_cluster::Config;
use fy_locality::{Map, ProcId, ProcSet};
use fy_policy::Policy;
use std::alloc::{AllocError, Global};
use std::marker::Model;
use std::sync::Arc;

/// Whether two sets have the same processes.
fn is_same_set(one: &ProcSet, other: &ProcSet) -> bool
    ensures { IsTrue result → one.now ≡ other.now }
{
    symmetric_difference(one, other).is_empty()
}

/// Whether the same processes are destroyed and left in two states.
fn has_same_losses(one: &States, other: &States) -> bool
    ensures { IsTrue result → HaveSameLosses one.now other.now }
{
    is_same_set(&one.destroyed, &other.destroyed) && is_same_set(&one.left, &other.left)
}

/// Whether a process that is left and not destroyed could be killed for good next, as far as the
/// tallies' policy goes.
fn is_killable(destroyed: &TalliedSet, left: &TalliedSet, p: ProcId) -> bool
    requires small { p.0 < MOST_PROCESSES }
    requires tallied { AreTallied destroyed.now left.now }
    ensures { result ≡ is_killable destroyed.now.processes destroyed.now.policy
        (sets.contains destroyed.now.set) (sets.contains left.now.set) p.0 }
{
    if !left.contains(p) || destroyed.contains(p) {
        return false;
    }
    !destroyed.satisfied_with_one(p) && left.satisfied_without_one(p)
}

/// How many processes could each be killed for good next, as far as the tallies' policy goes.
#[tactic(auto, using(crate::proofs::Losing::count_next))]
fn count_killable(map: &Map, destroyed: &TalliedSet, left: &TalliedSet) -> u32
    requires among { destroyed.now.processes ≡ map.now }
    requires tallied { AreTallied destroyed.now left.now }
    ensures { result ≡ killable_by_tallies destroyed.now left.now }
{
    let mut count = 0;
    for p in 0..map.len() {
        if is_killable(destroyed, left, ProcId(p)) {
            count += 1;
        }
    }
    count
}

/// Counts how many processes could each be killed for good next, as far as one policy goes. It
/// keeps the losses at which it counted last, so that the next ones cost what changed.
#[derive(Drop)]
struct Counter {
    map: Arc<Map>,
    destroyed: TalliedSet,
    left: TalliedSet,
}

impl Model for Counter {
    ghost use Rattle.std.specs.Prelude.{◌≡◌};
    ghost use Rattle.std.specs.Coded.{codes};
    ghost use Rattle.fy_locality.specs.contracts.locality.Locality as e;
    ghost use Rattle.fy_policy.specs.TreeCode.{tree_code};
    ghost use Rattle.fy_picture.specs.Counters.{AreTallied, Counting};

    ghost Value = { Counting };

    ghost coded = { Prim.hlevel (codes, tree_code, e.the_row.coded) };

    ghost view = { λ c. record { processes = c.map.value; policy = c.destroyed.policy } };

    ghost invariant = { λ c.
        (c.destroyed.processes ≡ c.map.value) × AreTallied c.destroyed c.left };
}

impl Counter {
    /// Begins to count by a policy.
    fn begin(alloc: Global, map: &Arc<Map>, policy: &Policy) -> Result<Counter, AllocError>
        ensures { IfOk result (λ counter.
            counter ≡ record { processes = arc_value map.now; policy = policy.now }) }
    {
        Ok(Counter {
            map: Arc::try_clone(map)?,
            destroyed: TalliedSet::begin(alloc, map, policy)?,
            left: TalliedSet::begin(alloc, map, policy)?,
        })
    }

    /// How many could go in these states. Doesn't allocate.
    fn count_at(&mut self, states: &States) -> u32
        ensures count { result ≡ killable_at self.old.processes self.old.policy states.now }
        ensures same { self.new ≡ self.old }
    {
        self.destroyed.move_to(&states.destroyed);
        self.left.move_to(&states.left);
        count_killable(&self.map, &self.destroyed, &self.left)
    }
}

/// A counter by each policy.
fn counters_of(alloc: Global, config: &Config) -> Result<Vec<Counter>, AllocError>
    ensures { IfOk result (λ counters. AreCounters config.now counters.items) }
{
    let map = Arc::new(alloc, config.map().try_copy(alloc)?)?;
    let mut counters = Vec::new(alloc);
    for policy in config.policies() {
        counters.push(Counter::begin(alloc, &map, policy)?)?;
    }
    Ok(counters)
}

/// What each counter counts in these states.
fn counts_at(
    alloc: Global,
    counters: &mut [Counter],
    states: &States,
) -> Result<Vec<u32>, AllocError>
    ensures same { OnOk result (counters.new ≡ counters.old) }
    ensures counts { IfOk result (λ counts.
        counts.items ≡ map (counted_in states.now) counters.old) }
{
    let mut counts = Vec::new(alloc);
    for i in 0..counters.len() {
        let count = counters[i].count_at(states);
        counts.push(count)?;
    }
    Ok(counts)
}

/// For each policy, how many processes could each be killed for good next at a column. Where the
/// column before has the same losses, its counts are copied.
fn next_counts(
    alloc: Global,
    counters: &mut [Counter],
    columns: &[Column],
    k: usize,
) -> Result<Vec<u32>, AllocError>
    requires { k < length columns.now }
    ensures same { OnOk result (counters.new ≡ counters.old) }
    ensures counts { IfOk result (λ counts. (setup : Setup) (column : Column)
        → AreCounted setup k columns.now → AreCounters setup counters.old
        → slice_get columns.now k ≡ Some column
        → AreCountsAt setup.processes setup.policies column.states counts.items) }
{
    let states = &columns[k].states;
    if k > 0 {
        let before = &columns[k - 1];
        if has_same_losses(&before.states, states) {
            let counts = Vec::from_slice(alloc, &before.counts)?;
            return Ok(counts);
        }
    }
    let fresh = counts_at(alloc, counters, states)?;
    Ok(fresh)
}

/// Counts for each column, and by each policy, how many processes could each be killed for good
/// next.
pub(crate) fn count_columns(
    alloc: Global,
    config: &Config,
    columns: &mut Vec<Column>,
) -> Result<(), AllocError>
    ensures ends { OnOk result (ends_of columns.new.items ≡ ends_of columns.old.items) }
    ensures states { OnOk result (states_in columns.new.items ≡ states_in columns.old.items) }
    ensures counted { OnOk result
        (AreCounted config.now (length columns.new.items) columns.new.items) }
{
    let mut counters = counters_of(alloc, config)?;
    for k in 0..columns.len() {
        let counts = next_counts(alloc, &mut counters, columns, k)?;
        columns[k].counts = counts;
    }
    Ok(())
}
