//! Whether something else was done for an order than its reply says.
ghost use Rattle.std.specs.Prelude.{◌≡◌};
ghost use Rattle.fy_events.specs.Answers.{answered, struck_done, differs};

use crate::Done;
use fy_acts::{Act, Entry, Reply};
use fy_kinds::Kind;

/// What is done where a kill strikes so.
fn struck_done(struck: Option<Kind>) -> Done
    ensures { result ≡ struck_done struck }
{
    match struck {
        Some(kind) => Done::Kill(kind),
        None => Done::Nothing,
    }
}

/// What the reply to a kill or a clog says is done; `None` of any other entry.
pub fn answered(entry: &Entry) -> Option<Done>
    ensures { result ≡ answered entry.now.act entry.now.reply }
{
    match entry.act {
        Act::Kill { .. } => match entry.reply {
            Reply::Verdict(verdict) => Some(struck_done(verdict.struck)),
            _ => Some(Done::Nothing),
        },
        Act::Clog { .. } => match entry.reply {
            Reply::Ruled { rule: None } => Some(Done::Clog),
            _ => Some(Done::Nothing),
        },
        _ => None,
    }
}

/// Whether the entry is an order for which something else was done than its reply says. Where
/// nothing is told of what was done, the reply stands.
pub fn differs(entry: &Entry, done: Done) -> bool
    ensures { result ≡ differs (answered entry.now.act entry.now.reply) done }
{
    match answered(entry) {
        Some(answer) => done != Done::Untold && done != answer,
        None => false,
    }
}
