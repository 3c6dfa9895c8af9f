//! What every legal journal keeps, over the definitions alone; and the limits as numbers.
ghost use Rattle.std.specs.Prelude.{◌≡◌, ◌≢◌, ◌∷◌, ℕ, true};
ghost use Rattle.fy_acts.specs.declared.entry.Entry.{Entry};
ghost use Rattle.fy_acts.specs.declared.reply.Reply.TheVariants.{Marked};
ghost use Rattle.fy_cluster.specs.Setup.{Setup};
ghost use Rattle.fy_cluster.specs.History.{History, acked, step_of};
ghost use Rattle.fy_cluster.specs.Replies.{reply};
ghost use Rattle.fy_cluster.specs.Survival.{ClientsTold, DestroyedShort, LeftSatisfy, KillsJudged, RulesNamed, RecordsKept, KeepersFound, JournalsSurvive, FrontsLegal, EntryAddsStep, NextLegal, NoneUnmet, SameActsSameJournal};
ghost use Rattle.fy_cluster.specs.Places.{AckedByPlace, CloggedByPlace};
ghost use Rattle.fy_cluster.specs.Stores.{HoldersAreLeft};
ghost use Rattle.fy_cluster.specs.Versions.{SecondKnowsAll, NextLegalUnder};
ghost use Rattle.fy_cluster.specs.Earlier.{EarlierRulesHold};
ghost use Rattle.fy_cluster.specs.declared.config.TheConstants.{MOST_ACTORS, MOST_JOURNAL_ENTRIES};

/// The destroyed are short of every policy.
#[tactic(auto, using(crate::proofs::Strikes::destroyed_short))]
pub fn destroyed_short()
    ensures { DestroyedShort }
{
    fy_policy::laws::empty_satisfies_none();
    fy_policy::laws::more_satisfies();
    fy_decide::laws::struck_may_be_destroyed();
}

/// The processes left satisfy every policy.
#[tactic(auto, using(crate::proofs::Strikes::left_satisfy))]
pub fn left_satisfy()
    ensures { LeftSatisfy }
{
    fy_policy::laws::more_satisfies();
    fy_decide::laws::struck_may_be_destroyed();
}

/// Each kill by an actor has as its reply a verdict that answers the order, and any other
/// No(Stranger).
pub fn kills_judged()
    ensures { KillsJudged }
{
    fy_decide::laws::verdict_answers();
}

/// Of a kill's verdict no rule is named exactly where the ordered kind struck.
#[tactic(auto, using(crate::proofs::Journals::rules_named))]
pub fn rules_named()
    ensures { RulesNamed }
{
    fy_decide::laws::rule_is_named_for_less();
}

/// Every acknowledged record keeps a synced copy on an undestroyed member of its team, and each
/// undestroyed member has one.
pub fn records_kept()
    ensures { RecordsKept }
{
    fy_policy::laws::test_is_satisfaction();
    fy_policy::laws::more_satisfies();
    destroyed_short();
}

/// A record is acknowledged only by an entry whose reply says so.
pub fn acknowledged_by_reply()
    ensures { (setup : Setup) (before : History) (entry : Entry) →
        entry.reply ≡ reply setup before entry.by entry.act → entry.reply ≢ Marked true →
        (rec : ℕ) → acked (step_of setup before entry ∷ before) rec ≡ acked before rec }
{}

/// Who delivers an acknowledgement of a record is told whether the record is acknowledged from then
/// on, and no other entry acknowledges one.
#[tactic(auto, using(crate::proofs::Told::clients_told))]
pub fn clients_told()
    ensures { ClientsTold }
{}

/// There is a keeper of exactly the acknowledged records: the least member that isn't destroyed and
/// has the record synced.
pub fn keepers_found()
    ensures { KeepersFound }
{
    fy_policy::laws::test_is_satisfaction();
    fy_policy::laws::more_satisfies();
    fy_grants::laws::least_is_first_found();
    destroyed_short();
}

/// Whatever was ordered: after each prefix of the journal the destroyed are short of every policy,
/// those left satisfy each, and every acknowledged record has a synced copy on an undestroyed
/// member; every kill is judged, no rule is named exactly where the ordered kind struck, and
/// clients are told which records are acknowledged.
pub fn journals_survive()
    ensures { JournalsSurvive }
{
    one_entry_more();
    destroyed_short();
    left_satisfy();
    kills_judged();
    rules_named();
    clients_told();
    records_kept();
}

/// Of a store of one's own that keeps the three premises, each acknowledged record has a holder
/// that isn't destroyed, at every moment.
pub fn holders_are_left()
    ensures { HoldersAreLeft }
{
    fy_policy::laws::more_of_map_satisfies();
    fy_policy::laws::some_holder_is_left();
    destroyed_short();
}

/// Which records are acknowledged and who is clogged, by the places of entries.
#[tactic(auto, using(crate::proofs::ByPlace::acked_by_place, crate::proofs::ByPlace::clogged_by_place))]
pub fn by_place()
    ensures acked { AckedByPlace }
    ensures clogged { CloggedByPlace }
{}

/// A front of a legal journal is legal; one entry more is one step more; and a legal journal with
/// one entry more is legal exactly where the entry may follow it.
pub fn one_entry_more()
    ensures fronts { FrontsLegal }
    ensures steps { EntryAddsStep }
    ensures next { NextLegal }
{}

/// No policy of a setup is unmet.
pub fn none_unmet()
    ensures { NoneUnmet }
{
    fy_policy::laws::test_is_satisfaction();
}

/// The same acts by the same actors make the same journal of a version.
pub fn same_acts_same_journal()
    ensures { SameActsSameJournal }
{}

/// Under the second version a journal is legal where its entries are. A legal journal with one
/// entry more is legal exactly where the entry may follow it and the version knows its act.
pub fn versions()
    ensures second { SecondKnowsAll }
    ensures next { NextLegalUnder }
{}

/// In a legal journal of the first version, which has no `CopyTo`, `Replace` and `Heal`, those
/// destroyed, the teams, the marks and the acknowledged records are as the rules gave them before
/// there were these acts.
pub fn earlier_rules_hold()
    ensures { EarlierRulesHold }
{
    fy_policy::laws::test_is_satisfaction();
    fy_policy::laws::empty_satisfies_none();
}

/// The limits of this crate, as numbers.
pub fn limits()
    ensures actors { MOST_ACTORS ≡ 64 }
    ensures journal_entries { MOST_JOURNAL_ENTRIES ≡ 1048576 }
{}
