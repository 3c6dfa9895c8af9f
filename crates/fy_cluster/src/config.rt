//! What a cluster begins with.
ghost use Rattle.std.specs.Prelude.{◌≡◌, Some, None, Err, IfOk, IsOk, length, slice_get, nat_lt};
ghost use Rattle.std.specs.List.{list_all};
ghost use Rattle.fy_cluster.specs.Setup.{setup_of, is_in_range, config_refusal, IsSetup};

use crate::Role;
use fy_decide::first_unmet;
use fy_grants::{Grant, MOST_GRANTS};
use fy_kinds::KindSet;
use fy_locality::{Map, ProcId, try_copy_each};
use fy_policy::{MOST_POLICIES, Policy};
use std::alloc::{AllocError, Global};
use std::marker::Model;

/// How many actors there may be, from 1.
pub const MOST_ACTORS: usize = 64;
/// How many entries the journal of a cluster may have, from 1.
pub const MOST_JOURNAL_ENTRIES: u32 = 1_048_576;

/// A process that is protected from the start, and from which kinds. Several protections of one
/// process add up.
#[derive(Clone, Copy, PartialEq, Eq, Debug)]
pub struct Protection {
    pub process: ProcId,
    pub kinds: KindSet,
}

/// Why there is no such configuration.
#[derive(Clone, Copy, PartialEq, Eq, Debug)]
pub enum MakeFault {
    /// There are no policies or over 8, no actors or over 64, or over 4096 grants; a grant is of an
    /// actor or a protection of a process that isn't there; or the journal limit is outside 1 to
    /// 1,048,576.
    Limit,
    /// The policy at this place is the first that all processes together don't satisfy.
    PolicyUnmet { index: usize },
}

/// What a cluster begins with: its processes and policies, a role for each actor, the first grants
/// and protections, and how many entries its journal may have.
///
/// There are 1 to 8 policies, each satisfied by all processes together, 1 to 64 actors, at most
/// 4096 grants and a journal of 1 to 1,048,576 entries; each grant is of an actor and each
/// protection of a process that is there.
pub struct Config {
    map: Map,
    policies: Vec<Policy>,
    roles: Vec<Role>,
    grants: Vec<Grant>,
    protections: Vec<Protection>,
    journal_limit: u32,
}

impl Model for Config {
    ghost use Rattle.std.specs.Coded.{codes};
    ghost use Rattle.fy_locality.specs.contracts.locality.Locality as e;
    ghost use Rattle.fy_policy.specs.TreeCode.{tree_code};
    ghost use Rattle.fy_cluster.specs.Setup.{Setup, setup_of, IsSetup};

    ghost Value = { Setup };

    ghost coded = { Prim.hlevel (codes, tree_code, e.the_row.coded) };

    ghost view = { λ c. setup_of
        c.map c.policies.items c.roles.items c.grants.items c.protections.items c.journal_limit };

    ghost invariant = { λ c. IsSetup (setup_of
        c.map c.policies.items c.roles.items c.grants.items c.protections.items c.journal_limit) };
}

// Written out and not derived: see `Drop` in docs/DECISIONS.md.
impl Drop for Config {
    fn drop(self) {
        let Config {
            map: _,
            policies: _,
            roles: _,
            grants: _,
            protections: _,
            journal_limit: _,
        } = self;
    }
}

/// Whether each grant is of an actor that is there.
fn are_of_actors(grants: &[Grant], actors: usize) -> bool
    ensures { result ≡ list_all (λ grant. nat_lt grant.actor actors) grants.now }
{
    grants.iter().all(|grant| (grant.actor as usize) < actors)
}

/// Whether each protection is of a process that is there.
fn are_of_processes(protections: &[Protection], processes: u32) -> bool
    ensures { result ≡ list_all
        (λ protection. nat_lt protection.process.0 processes) protections.now }
{
    protections
        .iter()
        .all(|protection| protection.process.0 < processes)
}

/// What a configuration is made of, before it is known to be one.
#[derive(Clone, Copy)]
struct Parts<'a> {
    map: &'a Map,
    policies: &'a [Policy],
    roles: &'a [Role],
    grants: &'a [Grant],
    protections: &'a [Protection],
    journal_limit: u32,
}

impl Parts<'_> {
    /// Whether each number is in its range, and each actor and process that is named is there.
    fn is_in_range(&self) -> bool
        ensures { result ≡ is_in_range (setup_of self.now.map.now self.now.policies.now
            self.now.roles.now self.now.grants.now self.now.protections.now
            self.now.journal_limit) }
    {
        (1..=MOST_POLICIES).contains(&self.policies.len())
            && (1..=MOST_ACTORS).contains(&self.roles.len())
            && self.grants.len() <= MOST_GRANTS
            && are_of_actors(self.grants, self.roles.len())
            && are_of_processes(self.protections, self.map.len())
            && (1..=MOST_JOURNAL_ENTRIES).contains(&self.journal_limit)
    }
}

impl Config {
    /// The configuration of these parts. Doesn't allocate.
    ///
    /// # Errors
    ///
    /// In this order: `Limit` where a number is outside its range, or where a grant or protection
    /// is of an actor or process that isn't there; `PolicyUnmet` with the place of the first policy
    /// that all processes together don't satisfy.
    pub fn make(
        map: Map,
        policies: Vec<Policy>,
        roles: Vec<Role>,
        grants: Vec<Grant>,
        protections: Vec<Protection>,
        journal_limit: u32,
    ) -> Result<Config, MakeFault>
        ensures refused { (fault : MakeFault) → config_refusal
            (setup_of map policies.items roles.items grants.items protections.items journal_limit)
            ≡ Some fault → result ≡ Err fault }
        ensures made { config_refusal
            (setup_of map policies.items roles.items grants.items protections.items journal_limit)
            ≡ None → IsOk result }
        ensures value { IfOk result (λ config. config ≡ setup_of
            map policies.items roles.items grants.items protections.items journal_limit) }
    {
        let parts = Parts {
            map: &map,
            policies: &policies,
            roles: &roles,
            grants: &grants,
            protections: &protections,
            journal_limit,
        };
        if !parts.is_in_range() {
            return Err(MakeFault::Limit);
        }
        if let Some(index) = first_unmet(&policies, &map) {
            return Err(MakeFault::PolicyUnmet { index });
        }
        Ok(Config {
            map,
            policies,
            roles,
            grants,
            protections,
            journal_limit,
        })
    }

    /// An equal configuration.
    ///
    /// # Errors
    ///
    /// `AllocError` where an allocation fails.
    pub fn try_copy(&self, alloc: Global) -> Result<Config, AllocError>
        ensures { IfOk result (λ copy. copy ≡ self.now) }
    {
        Ok(Config {
            map: self.map.try_copy(alloc)?,
            policies: try_copy_each(alloc, &self.policies)?,
            roles: Vec::from_slice(alloc, &self.roles)?,
            grants: Vec::from_slice(alloc, &self.grants)?,
            protections: Vec::from_slice(alloc, &self.protections)?,
            journal_limit: self.journal_limit,
        })
    }

    /// The processes.
    pub fn map(&self) -> &Map
        ensures { result.now ≡ self.now.processes }
    {
        &self.map
    }

    /// The policies, 1 to 8.
    pub fn policies(&self) -> &[Policy]
        ensures { result.now ≡ self.now.policies }
    {
        &self.policies
    }

    /// How many actors there are, 1 to 64. They are numbered from 0.
    pub fn actors(&self) -> u32
        ensures { result ≡ length self.now.roles }
    {
        self.roles.len() as u32
    }

    /// The role of the actor with this number, where it is there.
    pub fn role(&self, actor: u32) -> Option<Role>
        ensures { result ≡ slice_get self.now.roles actor }
    {
        self.roles.get(actor as usize).copied()
    }

    /// The first grants, of all actors, in the order in which they were given.
    pub fn grants(&self) -> &[Grant]
        ensures { result.now ≡ self.now.grants }
    {
        &self.grants
    }

    /// The first protections, in the order in which they were given.
    pub fn protections(&self) -> &[Protection]
        ensures { result.now ≡ self.now.protections }
    {
        &self.protections
    }

    /// How many entries the journal may have, 1 to 1,048,576.
    pub fn journal_limit(&self) -> u32
        ensures { result ≡ self.now.limit }
    {
        self.journal_limit
    }

    /// Everything is in its range, and each policy is within its limits and satisfied by all
    /// processes together.
    pub fn invariant(&self)
        ensures { IsSetup self.now }
    {
        let _policies = &self.policies;
    }
}
