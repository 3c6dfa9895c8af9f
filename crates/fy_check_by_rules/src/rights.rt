//! What the entries before say of grants and protections.
#![tactic(auto, using(crate::proofs::Pasts::past_next, crate::proofs::Pasts::past_none))]

ghost use Rattle.std.specs.Prelude.{◌≡◌, option_map, IfOk, OnOk};
ghost use Rattle.fy_cluster.specs.History.{gives, takes_grant};
ghost use Rattle.fy_cluster.specs.Rules.{grants_to, with_given, without_taken, grants, changes, some_protects, is_protected};
ghost use Rattle.fy_cluster.specs.Replies.{grant_count};
ghost use Rattle.fy_check_by_rules.specs.Past.{history_of};
ghost use Rattle.fy_check_by_rules.specs.Deeds.{deed_of};

use crate::asked::AskedDeed;
use crate::past::Past;
use fy_acts::Entry;
use fy_cluster::Protection;
use fy_cluster::effects::{gives, protects, takes_grant, unprotects};
use fy_grants::Grant;
use fy_kinds::KindSet;
use fy_locality::ProcId;
use std::alloc::{AllocError, Global};

/// The actor's own grants, out of these.
fn grants_to(alloc: Global, actor: u32, grants: &[Grant]) -> Result<Vec<Grant>, AllocError>
    ensures { IfOk result (λ own. own.items ≡ grants_to actor grants.now) }
{
    grants
        .iter()
        .copied()
        .filter(|grant| grant.actor == actor)
        .collect(alloc)
}

/// A Give to the actor puts its grant last.
fn put_given(own: &mut Vec<Grant>, actor: u32, entry: &Entry) -> Result<(), AllocError>
    ensures { OnOk result (own.new.items
        ≡ with_given actor (gives entry.now.act entry.now.reply) own.old.items) }
{
    match gives(entry) {
        Some(grant) => {
            if grant.actor == actor {
                own.extend_from_slice(&[grant])?;
            }
            Ok(())
        }
        None => Ok(()),
    }
}

/// A Take from the actor closes its list up.
#[tactic(auto, using(crate::proofs::Lists::remove_past))]
fn close_taken(own: &mut Vec<Grant>, actor: u32, entry: &Entry)
    ensures { own.new.items
        ≡ without_taken actor (takes_grant entry.now.act entry.now.reply) own.old.items }
{
    if let Some((from, index)) = takes_grant(entry) {
        if from == actor && (index as usize) < own.len() {
            let _ = own.remove(index as usize);
        }
    }
}

/// The actor's grants: the first ones, each Give to it put last, each Take from it closing up.
pub(crate) fn grants(before: &Past, actor: u32) -> Result<Vec<Grant>, AllocError>
    ensures { IfOk result (λ own. own.items
        ≡ grants before.now.config.now (history_of before.now) actor) }
{
    let mut own = grants_to(before.alloc, actor, before.config.grants())?;
    for step in before.steps {
        put_given(&mut own, actor, &step.entry)?;
        close_taken(&mut own, actor, &step.entry);
    }
    Ok(own)
}

/// Whether the change names the process and what is asked.
fn changes(p: ProcId, asked: AskedDeed, change: Option<(ProcId, KindSet)>) -> bool
    ensures { result ≡ changes p.0 (deed_of asked) (option_map (λ it. (it.0.0, it.1)) change) }
{
    match change {
        Some((process, kinds)) => process.0 == p.0 && asked.is_in(kinds),
        None => false,
    }
}

/// Whether one of the protections is of the process and from what is asked.
fn some_protects(protections: &[Protection], p: ProcId, asked: AskedDeed) -> bool
    ensures { result ≡ some_protects protections.now p.0 (deed_of asked) }
{
    protections
        .iter()
        .any(|it| it.process.0 == p.0 && asked.is_in(it.kinds))
}

/// Whether the process is protected from what is asked: the last change of the two says so, or else
/// the configuration.
pub(crate) fn is_protected(before: &Past, p: ProcId, asked: AskedDeed) -> bool
    ensures { result
        ≡ is_protected before.now.config.now (history_of before.now) p.0 (deed_of asked) }
{
    let mut protected = some_protects(before.config.protections(), p, asked);
    for step in before.steps {
        protected = changes(p, asked, protects(&step.entry))
            || !changes(p, asked, unprotects(&step.entry)) && protected;
    }
    protected
}

/// How many grants all actors have.
#[tactic(auto, using(crate::proofs::Lists::sum_next))]
pub(crate) fn grant_count(before: &Past) -> Result<u128, AllocError>
    ensures { IfOk result (λ count. count
        ≡ grant_count before.now.config.now (history_of before.now)) }
{
    let mut count = 0u128;
    for actor in 0..before.config.actors() {
        let own = grants(before, actor)?;
        count += own.len() as u128;
    }
    Ok(count)
}
