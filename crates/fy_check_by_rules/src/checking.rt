//! Checks a journal by the definitions: the reply of each entry is read off the entries before.
ghost use Rattle.std.specs.Prelude.{◌≡◌, ◌↔◌, ◌<◌, ◌∷◌, [], ◌++◌, List, length, is_some, IfOk, IfSome, OnOk, IsTrue};
ghost use Rattle.fy_acts.specs.declared.entry.Entry.{Entry};
ghost use Rattle.fy_cluster.specs.Versions.{LegalUnder};
ghost use Rattle.fy_replay.specs.Check.{ChecksOrOom};
ghost use Rattle.fy_check_by_rules.specs.Steps.{AreStepsOf};

use crate::doing::step_of;
use crate::past::Past;
use crate::reply::reply;
use crate::step::FoundStep;
use fy_acts::{Entry, Journal, Version};
use fy_cluster::{Config, laws};
use fy_replay::CheckFault;
use std::alloc::{AllocError, Global};

/// Whether the entry may come next, where the entries before are a legal journal.
fn may_follow(before: &Past, version: Version, entry: &Entry) -> Result<bool, AllocError>
    ensures next { (so_far : List Entry)
        → AreStepsOf version before.now.config.now so_far before.now.steps.now
        → entry.now.at ≡ length so_far
        → IfOk result (λ may. IsTrue may
        ↔ LegalUnder version before.now.config.now (so_far ++ entry.now ∷ [])) }
    ensures room { IfOk result (λ may. IsTrue may
        → length before.now.steps.now < before.now.config.now.limit) }
{
    laws::versions();
    fy_acts::laws::equal_is_the_same();
    before.config.invariant();
    if before.steps.len() >= before.config.journal_limit() as usize {
        return Ok(false);
    }
    if !version.knows(&entry.act) {
        return Ok(false);
    }
    let reply = reply(before, entry.by, &entry.act)?;
    Ok(reply == entry.reply)
}

/// The step of the entry, if it may come next, where the entries before are a legal journal.
fn next_step(
    before: &Past,
    version: Version,
    entry: &Entry,
) -> Result<Option<FoundStep>, AllocError>
    ensures next { (so_far : List Entry)
        → AreStepsOf version before.now.config.now so_far before.now.steps.now
        → entry.now.at ≡ length so_far
        → IfOk result (λ next. IsTrue (is_some next)
        ↔ LegalUnder version before.now.config.now (so_far ++ entry.now ∷ [])) }
    ensures put { (so_far : List Entry)
        → AreStepsOf version before.now.config.now so_far before.now.steps.now
        → entry.now.at ≡ length so_far
        → IfOk result (λ next. IfSome next (λ step. AreStepsOf version before.now.config.now
        (so_far ++ entry.now ∷ []) (before.now.steps.now ++ step ∷ []))) }
{
    laws::one_entry_more();
    before.config.invariant();
    let may = may_follow(before, version, entry)?;
    if !may {
        return Ok(None);
    }
    let step = step_of(before, entry)?;
    Ok(Some(step))
}

/// Puts a step behind all others.
fn put_last(steps: &mut Vec<FoundStep>, step: FoundStep) -> Result<(), AllocError>
    ensures { OnOk result (steps.new.items ≡ steps.old.items ++ step ∷ []) }
{
    steps.push(step)?;
    Ok(())
}

/// Whether the journal is legal for the configuration, under its own version of the rules. Each
/// definition of the rules is a small function that reads it off the entries before, so the time
/// grows with a power of the number of entries. `replay` has the same contract, for journals of
/// more than some hundred entries.
///
/// # Errors
///
/// `BadEntry` at the first entry whose reply isn't the one that the rules give, whose act the
/// version doesn't have, or whose place is the journal limit. `NoMemory`, in place of any answer,
/// where an allocation fails for what is read off.
pub fn check(alloc: Global, config: &Config, journal: &Journal) -> Result<(), CheckFault>
    ensures { ChecksOrOom journal.now.version config.now journal.now.entries result }
{
    laws::versions();
    journal.invariant();
    let version = journal.version();
    let mut steps = Vec::new(alloc);
    for entry in journal.entries() {
        let before = Past {
            alloc,
            config,
            steps: &steps,
        };
        let Some(step) = next_step(&before, version, entry)? else {
            return Err(CheckFault::BadEntry { at: entry.at });
        };
        put_last(&mut steps, step)?;
    }
    Ok(())
}
