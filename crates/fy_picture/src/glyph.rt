//! What a glyph shows of an order, besides the processes that it names.
ghost use Rattle.std.specs.Prelude.{◌≡◌, ◌==◌};
ghost use Rattle.fy_kinds.specs.Kinds.{rank};
ghost use Rattle.fy_cluster.specs.History.{some_is};
ghost use Rattle.fy_picture.specs.Glyphs.{struck_as_ordered, rule_of};

use fy_acts::{Act, Entry, Reply};
use fy_kinds::{Kind, Rule};

/// The rank of a kind, 0 for the mildest.
fn rank_of(kind: Kind) -> u32
    ensures { result ≡ rank kind }
{
    match kind {
        Kind::RebootProcess => 0,
        Kind::Reboot => 1,
        Kind::RebootAndDelete => 2,
        Kind::KillInstantly => 3,
    }
}

/// Whether what struck is the ordered kind.
fn is_kind(struck: Option<Kind>, ordered: Kind) -> bool
    ensures { result ≡ some_is (λ kind. rank kind == rank ordered) struck }
{
    match struck {
        Some(kind) => rank_of(kind) == rank_of(ordered),
        None => false,
    }
}

/// Whether the entry is an order that struck as ordered: a kill by its own kind, or a clog or an
/// end of clogs that no rule barred. Its glyph is filled then, and that of any other order hollow.
pub fn struck_as_ordered(entry: &Entry) -> bool
    ensures { result ≡ struck_as_ordered entry.now.act entry.now.reply }
{
    match entry.act {
        Act::Kill { order } => match entry.reply {
            Reply::Verdict(verdict) => is_kind(verdict.struck, order.kind()),
            _ => false,
        },
        Act::Clog { .. } | Act::Unclog { .. } => match entry.reply {
            Reply::Ruled { rule } => rule.is_none(),
            _ => false,
        },
        _ => false,
    }
}

/// The rule that the entry's reply names: why an order struck by a milder kind, or struck nobody. A
/// glyph's title names it.
pub fn rule_of(entry: &Entry) -> Option<Rule>
    ensures { result ≡ rule_of entry.now.reply }
{
    match entry.reply {
        Reply::Verdict(verdict) => verdict.rule,
        Reply::Ruled { rule } => rule,
        _ => None,
    }
}
