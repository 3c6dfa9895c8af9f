//! Laws of teams, for the crates above, and the limits as numbers.
ghost use Rattle.std.specs.Prelude.{◌≡◌};
ghost use Rattle.fy_team.specs.declared.limits.TheConstants.{MOST_MEMBERS, MOST_TEAMS, MOST_RECORDS, MOST_BYTES};
ghost use Rattle.fy_team.specs.Standing.{MembersTested, FitIsFormed, SwappedMembers, ReplacedMembers, ReplacedPolicies, MarkAcknowledges, AckedByMark, AckedStays, MarkLeavesTeams, MarkIsOneMore, MarkTwice, BegunUnmarked, BegunUnacked, HealedMarks, HealedAcked, HealedTeams, HealedPayloads};

/// Numbers are members exactly if they are few enough and each is above the one before it.
#[tactic(auto, using(crate::proofs::Rising::members_tested))]
pub fn members_are_tested()
    ensures { MembersTested }
{}

/// Members against whom nothing speaks satisfy the policy that the team names.
pub fn fit_is_formed()
    ensures { FitIsFormed }
{
    fy_policy::laws::test_is_satisfaction();
}

/// A replacement changes one team: one process is no longer a member, and another is. Each team
/// names the policy that it named.
pub fn a_replacement_changes_one_team()
    ensures among { SwappedMembers }
    ensures members { ReplacedMembers }
    ensures policies { ReplacedPolicies }
{}

/// A record is acknowledged from the first mark after which each member of its team has marked it,
/// and stays so at each mark.
pub fn a_mark_acknowledges()
    ensures relation { MarkAcknowledges }
    ensures marks { AckedByMark }
    ensures stays { AckedStays }
{}

/// A mark leaves the teams, adds one process to the marks of one record, and changes nothing if it
/// is there already and the record is acknowledged.
pub fn a_mark_is_one_more()
    ensures teams { MarkLeavesTeams }
    ensures marks { MarkIsOneMore }
    ensures repeat { MarkTwice }
{}

/// A record that was just begun has no mark and isn't acknowledged, and the others keep theirs.
pub fn a_record_begins_unmarked()
    ensures marks { BegunUnmarked }
    ensures acked { BegunUnacked }
{}

/// A heal takes one process's marks off each record that isn't acknowledged, and leaves each record
/// acknowledged or not, with its team and what it holds.
pub fn a_heal_takes_marks_off()
    ensures marks { HealedMarks }
    ensures acked { HealedAcked }
    ensures teams { HealedTeams }
    ensures payloads { HealedPayloads }
{}

/// The limits of this crate, as numbers.
pub fn limits()
    ensures members { MOST_MEMBERS ≡ 1024 }
    ensures teams { MOST_TEAMS ≡ 4096 }
    ensures records { MOST_RECORDS ≡ 65536 }
    ensures bytes { MOST_BYTES ≡ 256 }
{}
