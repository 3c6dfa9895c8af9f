//! A set of processes with whether it satisfies a policy, kept while processes come and go.
ghost use Rattle.std.specs.Prelude.{◌≡◌, ◌<◌, IfOk};
ghost use Rattle.std.specs.Arc.{arc_value};
ghost use Rattle.std.specs.FinSet as sets;
ghost use Rattle.fy_locality.specs.declared.TheConstants.{MOST_PROCESSES};
ghost use Rattle.fy_policy.specs.Sat.{satisfies};

use crate::Policy;
use crate::build_counters::build_counters;
use crate::node::{
    Node, copied_node, is_satisfied_at, satisfied_after_one_toggle, satisfied_after_toggle, toggle,
    zeros,
};
use fy_locality::{Map, ProcId, ProcSet, TryCopy};
use std::alloc::{AllocError, Global};
use std::marker::Model;
use std::sync::Arc;

/// A policy, the processes of a map, and a set of processes. Whether the set satisfies the policy
/// is counted along the policy's tree, for every group of processes, so that a process that joins
/// or goes is counted once a node. Those who share a map share it here too.
pub struct Tally {
    map: Arc<Map>,
    everyone: ProcSet,
    policy: Policy,
    node: Node,
    set: ProcSet,
}

impl Model for Tally {
    ghost use Rattle.std.specs.Coded.{codes, coded_ℕ};
    ghost use Rattle.std.specs.FinSet as sets;
    ghost use Rattle.std.specs.Ordering.{nat_cmp};
    ghost use Rattle.fy_locality.specs.contracts.locality.Locality as e;
    ghost use Rattle.fy_policy.specs.TreeCode.{tree_code};
    ghost use Rattle.fy_policy.specs.Counted.{Tallied, IsTallied};

    ghost Value = { Tallied };

    ghost coded = { Prim.hlevel
        (codes, tree_code, e.the_row.coded, sets.code {R = nat_cmp} coded_ℕ) };

    ghost view = { λ t. record { processes = t.map.value; policy = t.policy; set = t.set } };

    ghost invariant = { λ t. IsTallied t.map.value t.everyone t.policy t.set t.node };
}

// Written out and not derived: see `Drop` in docs/DECISIONS.md.
impl Drop for Tally {
    fn drop(self) {
        let Tally {
            map: _,
            everyone: _,
            policy: _,
            node: _,
            set: _,
        } = self;
    }
}

impl Tally {
    /// The empty set, of the processes of a map and by a policy. It keeps a copy of the map.
    ///
    /// # Errors
    ///
    /// An allocation failed.
    pub fn make(alloc: Global, policy: &Policy, map: &Map) -> Result<Tally, AllocError>
        ensures { IfOk result (λ t. (t.processes ≡ map.now)
            × (t.policy ≡ policy.now) × (t.set ≡ sets.empty)) }
    {
        let map = Arc::new(alloc, map.try_copy(alloc)?)?;
        Tally::make_shared(alloc, policy, &map)
    }

    /// A tally of nobody over a map that others share, of which no copy is made.
    ///
    /// # Errors
    ///
    /// An allocation failed.
    pub fn make_shared(alloc: Global, policy: &Policy, map: &Arc<Map>) -> Result<Tally, AllocError>
        ensures { IfOk result (λ t. (t.processes ≡ arc_value map.now)
            × (t.policy ≡ policy.now) × (t.set ≡ sets.empty)) }
    {
        let places = zeros(alloc, map.len())?;
        // Each `And` of a policy has a part.
        let Some(node) = build_counters(alloc, policy.shape(), map, &places)? else {
            unreachable!();
        };
        Ok(Tally {
            map: Arc::try_clone(map)?,
            everyone: map.everyone(),
            policy: policy.try_copy(alloc)?,
            node,
            set: ProcSet::empty(),
        })
    }

    /// An equal tally over an equal map, which the copy's holder shares with it. Nothing of it is
    /// shared with this tally.
    ///
    /// # Errors
    ///
    /// An allocation failed.
    pub fn try_copy_shared(&self, alloc: Global, map: &Arc<Map>) -> Result<Tally, AllocError>
        requires { arc_value map.now ≡ self.now.processes }
        ensures { IfOk result (λ copy. copy ≡ self.now) }
    {
        Ok(Tally {
            map: Arc::try_clone(map)?,
            everyone: self.everyone,
            policy: self.policy.try_copy(alloc)?,
            node: copied_node(alloc, &self.node)?,
            set: self.set,
        })
    }

    /// Puts a process in. Doesn't allocate.
    pub fn add(&mut self, p: ProcId)
        requires { p.0 < MOST_PROCESSES }
        ensures { self.new ≡ record self.old { set = sets.insert self.old.set p.0 } }
    {
        let joins = self.everyone.has(p) & !self.set.has(p);
        if joins {
            toggle(&mut self.node, &self.map, 0, p, true);
        }
        self.set.put(p);
    }

    /// Takes a process out. Doesn't allocate.
    pub fn remove(&mut self, p: ProcId)
        requires { p.0 < MOST_PROCESSES }
        ensures { self.new ≡ record self.old { set = sets.remove self.old.set p.0 } }
    {
        let goes = self.everyone.has(p) & self.set.has(p);
        if goes {
            toggle(&mut self.node, &self.map, 0, p, false);
        }
        self.set.drop_one(p);
    }

    /// Whether the set satisfies the policy. Doesn't allocate.
    pub fn satisfied(&self) -> bool
        ensures { result
            ≡ satisfies self.now.processes self.now.policy (sets.contains self.now.set) }
    {
        is_satisfied_at(&self.node, 0)
    }

    /// Whether the set with those given would satisfy the policy. Doesn't allocate.
    pub fn satisfied_with(&self, given: &ProcSet) -> bool
        ensures { result ≡ satisfies self.now.processes self.now.policy
            (sets.contains (sets.union self.now.set given.now)) }
    {
        let comers = given.intersection(&self.everyone).difference(&self.set);
        satisfied_after_toggle(&self.node, &self.map, 0, &comers, true)
    }

    /// Whether the set with one process would satisfy the policy. Doesn't allocate, and makes no
    /// set.
    pub fn satisfied_with_one(&self, p: ProcId) -> bool
        requires { p.0 < MOST_PROCESSES }
        ensures { result ≡ satisfies self.now.processes self.now.policy
            (sets.contains (sets.insert self.now.set p.0)) }
    {
        if self.everyone.has(p) & !self.set.has(p) {
            satisfied_after_one_toggle(&self.node, &self.map, 0, p, true)
        } else {
            is_satisfied_at(&self.node, 0)
        }
    }

    /// Whether the set without those given would satisfy the policy. Doesn't allocate.
    pub fn satisfied_without(&self, given: &ProcSet) -> bool
        ensures { result ≡ satisfies self.now.processes self.now.policy
            (sets.contains (sets.difference self.now.set given.now)) }
    {
        let goers = given.intersection(&self.everyone).intersection(&self.set);
        satisfied_after_toggle(&self.node, &self.map, 0, &goers, false)
    }

    /// Whether the set without one process would satisfy the policy. Doesn't allocate, and makes no
    /// set.
    pub fn satisfied_without_one(&self, p: ProcId) -> bool
        requires { p.0 < MOST_PROCESSES }
        ensures { result ≡ satisfies self.now.processes self.now.policy
            (sets.contains (sets.remove self.now.set p.0)) }
    {
        if self.everyone.has(p) & self.set.has(p) {
            satisfied_after_one_toggle(&self.node, &self.map, 0, p, false)
        } else {
            is_satisfied_at(&self.node, 0)
        }
    }
}
