//! What holds of these journals by the laws of every journal.
ghost use Rattle.std.specs.Prelude.{◌≡◌, map, ℕ, List, IsTrue, Some, is_some};
ghost use Rattle.fy_kinds.specs.declared.kind.Kind.TheVariants.{Reboot};
ghost use Rattle.fy_team.specs.Teams.{is_among};
ghost use Rattle.fy_grants.specs.Least.{LeastWith};
ghost use Rattle.fy_kinds.specs.declared.verdict.Rule.TheVariants.{TooManyDestroyed};
ghost use Rattle.fy_decide.specs.Safety.{AreShort, AreSatisfied};
ghost use Rattle.fy_decide.specs.Verdicts.{verdict};
ghost use Rattle.fy_acts.specs.declared.entry.Entry.{Entry};
ghost use Rattle.fy_cluster.specs.Setup.{IsMet};
ghost use Rattle.fy_cluster.specs.History.{history, destroyed, left, members_for, acked, keeps, keeper};
ghost use Rattle.fy_cluster.specs.Rules.{situation};
ghost use Rattle.fy_cluster.specs.Replies.{Legal};
ghost use Rattle.fy_cluster.specs.Survival.{by_and_act, Kept};
ghost use Rattle.fy_laws.specs.Clusters.{six, four, process};
ghost use Rattle.fy_laws.specs.Strikes.{two_zones, one_zone, second_kill};
ghost use Rattle.fy_laws.specs.Records.{written_and_synced, first_acknowledged};

use super::{records, strikes};

/// All processes of the six satisfy their policy, which is within its limits.
pub fn six_is_met()
    ensures { IsMet six }
{}

/// The four satisfy the same policy.
pub fn four_is_met()
    ensures { IsMet four }
{}

/// After a legal journal the destroyed are short of the policy, and those left satisfy it.
#[tactic(auto, using(crate::proofs::FromLaws::short_after, crate::proofs::FromLaws::satisfied_after))]
pub fn replication_stands()
    ensures short { AreShort six.processes six.policies
        (destroyed (history six written_and_synced)) }
    ensures satisfied { AreSatisfied six.processes six.policies (left six (history six two_zones)) }
{
    six_is_met();
    records::written_and_synced();
    strikes::two_zones();
    fy_cluster::laws::destroyed_short();
    fy_cluster::laws::left_satisfy();
}

/// What is acknowledged is kept: some member isn't destroyed, and each such member has the record
/// synced.
pub fn record_stands()
    ensures { Kept (history six written_and_synced) 0 }
{}

/// The keeper of an acknowledged record is the least member that keeps it.
pub fn least_keeps()
    ensures { LeastWith (is_among (members_for (history six first_acknowledged) 0))
        (keeps (history six first_acknowledged) 0) (Some (process 0)) }
{}

/// Whatever legal journal the six have, every acknowledged record is kept, and has a keeper.
#[tactic(auto, using(crate::proofs::FromLaws::six_keep, crate::proofs::FromLaws::six_have_keepers))]
pub fn six_keep_records()
    ensures kept { (journal : List Entry) → Legal six journal → (r : ℕ) →
        IsTrue (acked (history six journal) r) → Kept (history six journal) r }
    ensures keepers { (journal : List Entry) → Legal six journal → (r : ℕ) →
        is_some (keeper six (history six journal) r) ≡ acked (history six journal) r }
{
    six_is_met();
    fy_cluster::laws::records_kept();
    fy_cluster::laws::keepers_found();
}

/// No other legal journal has the acts of the two kills.
#[tactic(auto, using(crate::proofs::FromLaws::two_zones_alone))]
pub fn two_zones_alone()
    ensures { (journal : List Entry) → Legal six journal →
        map by_and_act journal ≡ map by_and_act two_zones → journal ≡ two_zones }
{
    strikes::two_zones();
    fy_cluster::laws::same_acts_same_journal();
    fy_cluster::laws::versions();
}

/// What stands in a legal journal beside a kill is the verdict on it.
#[tactic(auto, using(crate::proofs::FromLaws::verdict_stands))]
pub fn verdict_stands()
    ensures { verdict (situation six (history six one_zone) 1) second_kill
        ≡ record { struck = Some Reboot; rule = Some (TooManyDestroyed 0) } }
{
    strikes::two_zones();
    fy_cluster::laws::kills_judged();
    fy_decide::laws::verdict_answers();
}
