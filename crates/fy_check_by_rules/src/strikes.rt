//! Whom the entries before have struck: who is destroyed, gone, left and up.
#![tactic(auto, using(crate::proofs::Pasts::past_next, crate::proofs::Pasts::past_none, crate::proofs::Sets::members))]

ghost use Rattle.std.specs.Prelude.{◌≡◌, ◌==◌, ◌&&◌, ◌||◌, not, ℕ, []};
ghost use Rattle.std.specs.FinSet as sets;
ghost use Rattle.fy_decide.specs.Verdicts.{targets};
ghost use Rattle.fy_kinds.specs.Kinds.{destroys_for_good};
ghost use Rattle.fy_cluster.specs.History.{some_is, strikes, destroys, heals_at, ups, destroyed, gone, left, up};
ghost use Rattle.fy_check_by_rules.specs.Past.{as_step, history_of};

use crate::past::Past;
use crate::step::FoundStep;
use fy_cluster::effects::{heals, struck_by, ups};
use fy_kinds::{Kind, Target};
use fy_locality::{ProcId, ProcSet};

/// The kind by which the step struck the process.
pub(crate) fn strikes(step: &FoundStep, p: ProcId) -> Option<Kind>
    ensures { result ≡ strikes (as_step [] step.now) p.0 }
{
    if step.targets.contains(p) {
        struck_by(&step.entry)
    } else {
        None
    }
}

/// Whether the step struck the process by a destroying kind.
pub(crate) fn destroys(step: &FoundStep, p: ProcId) -> bool
    ensures { result ≡ destroys (as_step [] step.now) p.0 }
{
    match strikes(step, p) {
        Some(kind) => kind.is_destroying(),
        None => false,
    }
}

/// Whether the step struck the process by the kind that leaves nobody to come back.
fn kills_for_good(step: &FoundStep, p: ProcId) -> bool
    ensures { result ≡ some_is destroys_for_good (strikes (as_step [] step.now) p.0) }
{
    match strikes(step, p) {
        Some(kind) => kind.destroys_for_good(),
        None => false,
    }
}

/// Whether the step healed the process.
pub(crate) fn heals_at(step: &FoundStep, p: ProcId) -> bool
    ensures { result ≡ heals_at (as_step [] step.now) p.0 }
{
    match heals(&step.entry) {
        Some(healed) => healed.0 == p.0,
        None => false,
    }
}

/// Whether the step started the process.
fn ups_at(step: &FoundStep, p: ProcId) -> bool
    ensures { result ≡ some_is (λ q. q == p.0) (ups step.now.entry.act step.now.entry.reply) }
{
    match ups(&step.entry) {
        Some(started) => started.0 == p.0,
        None => false,
    }
}

/// The set without the process that the step healed, if it healed one.
fn without_healed(set: ProcSet, step: &FoundStep) -> ProcSet
    ensures { (p : ℕ) → sets.contains result p
        ≡ (not (heals_at (as_step [] step.now) p) && sets.contains set p) }
{
    let mut set = set;
    set.invariant();
    if let Some(p) = heals(&step.entry)
        && set.contains(p)
    {
        set.drop_one(p);
    }
    set
}

/// The targets of the step, if it struck them by a destroying kind.
fn destroyed_at(step: &FoundStep) -> ProcSet
    ensures { (p : ℕ) → sets.contains result p ≡ destroys (as_step [] step.now) p }
{
    match struck_by(&step.entry) {
        Some(kind) => if kind.is_destroying() {
            step.targets
        } else {
            ProcSet::empty()
        },
        None => ProcSet::empty(),
    }
}

/// The destroyed: some step destroyed them, and none healed them since.
pub(crate) fn destroyed(before: &Past) -> ProcSet
    ensures { (p : ℕ) → sets.contains result p ≡ destroyed (history_of before.now) p }
{
    let mut destroyed = ProcSet::empty();
    for step in before.steps {
        destroyed = destroyed_at(step).union(&without_healed(destroyed, step));
    }
    destroyed
}

/// Whether some step struck the process by the kind that leaves nobody to come back.
pub(crate) fn gone(before: &Past, p: ProcId) -> bool
    ensures { result ≡ gone (history_of before.now) p.0 }
{
    let mut gone = false;
    for step in before.steps {
        gone = kills_for_good(step, p) || gone;
    }
    gone
}

/// Whether there was no strike at the process after its last start.
pub(crate) fn up(before: &Past, p: ProcId) -> bool
    ensures { result ≡ up (history_of before.now) p.0 }
{
    let mut up = true;
    for step in before.steps {
        up = ups_at(step, p) || strikes(step, p).is_none() && up;
    }
    up
}

/// The targets of the step, if it struck them by the kind that leaves nobody to come back.
fn killed_at(step: &FoundStep) -> ProcSet
    ensures { (p : ℕ) → sets.contains result p
        ≡ some_is destroys_for_good (strikes (as_step [] step.now) p) }
{
    match struck_by(&step.entry) {
        Some(kind) => if kind.destroys_for_good() {
            step.targets
        } else {
            ProcSet::empty()
        },
        None => ProcSet::empty(),
    }
}

/// The processes that are not gone, emptied ones too.
pub(crate) fn left(before: &Past) -> ProcSet
    ensures { (p : ℕ) → sets.contains result p
        ≡ left before.now.config.now (history_of before.now) p }
{
    let mut left = before.config.map().everyone();
    for step in before.steps {
        left = left.difference(&killed_at(step));
    }
    left
}

/// The processes left that have the target's value of its key.
pub(crate) fn targets(before: &Past, target: &Target) -> ProcSet
    ensures { (p : ℕ) → sets.contains result p
        ≡ targets before.now.config.now.processes
        (left before.now.config.now (history_of before.now)) target.now p }
{
    left(before).intersection(&before.config.map().members(target.key, &target.value))
}
