//! Operators: protections and grants.
ghost use Rattle.std.specs.Prelude.{◌≡◌};
ghost use Rattle.fy_players.specs.Operators.{choice_of, scope_of, grant_of, operates};

use crate::draws::Words;
use crate::picks::{pick, pick_key, pick_kinds, pick_process, pick_target};
use fy_acts::Act;
use fy_cluster::Config;
use fy_grants::{Grant, Scope};

/// What an operator chooses to do.
#[derive(Clone, Copy, PartialEq, Eq, Debug)]
enum Choice {
    Protect,
    Unprotect,
    Give,
    Take,
    /// What an operator may not do.
    Stray,
}

/// What a word chooses.
fn choice_of(word: u32) -> Choice
    ensures { result ≡ choice_of word }
{
    let k = word % 16;
    if k < 5 {
        Choice::Protect
    } else if k < 11 {
        Choice::Unprotect
    } else if k < 13 {
        Choice::Give
    } else if k < 15 {
        Choice::Take
    } else {
        Choice::Stray
    }
}

/// Everywhere, or on a target.
fn pick_scope(config: &Config, words: Words) -> Scope
    ensures { result ≡ scope_of config.now words }
{
    if words.third % 2 == 0 {
        return Scope::All;
    }
    Scope::Where(pick_target(words.fifth, pick_key(words.fourth), config.map()))
}

/// Some kinds for an actor, everywhere or on a target.
fn pick_grant(config: &Config, words: Words) -> Grant
    ensures { result ≡ grant_of config.now words }
{
    Grant {
        actor: pick(words.first, config.actors()),
        kinds: pick_kinds(words.second),
        scope: pick_scope(config, words),
    }
}

/// The act of an operator's turn.
pub(crate) fn operate(config: &Config, words: Words) -> Act
    ensures { result ≡ operates config.now words }
{
    let process = pick_process(words.first, config.map());
    let kinds = pick_kinds(words.second);
    match choice_of(words.choice) {
        Choice::Protect => Act::Protect { process, kinds },
        Choice::Unprotect => Act::Unprotect { process, kinds },
        Choice::Give => {
            let grant = pick_grant(config, words);
            Act::Give { grant }
        }
        Choice::Take => {
            let actor = pick(words.first, config.actors());
            let index = words.second % 4;
            Act::Take { actor, index }
        }
        Choice::Stray => Act::Sync { process },
    }
}
