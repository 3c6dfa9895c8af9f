//! Laws of what may forget.
ghost use Rattle.fy_votes.specs.Counting.{ByCounts, MostMayForget};
ghost use Rattle.fy_votes.specs.Elections.{NobodyLackingIsElected};
ghost use Rattle.fy_votes.specs.Votes.{SmallerMayForget};

use fy_policy::laws;

/// Of a store that keeps the premises: nobody is elected who lacks an acknowledged record, exactly
/// where those who forgot may forget.
pub fn nobody_lacking_is_elected()
    ensures { NobodyLackingIsElected }
{
    laws::empty_satisfies_none();
    laws::more_of_map_satisfies();
}

/// Where a set may forget, so may a smaller one.
pub fn smaller_may_forget()
    ensures { SmallerMayForget }
{}

/// Of `n` processes with `Across(w,processid,One())` for writes and `Across(e,processid,One())` for
/// elections, fewer than `w + e - n` may forget, and no more: of five none by three and three, of
/// seven one by five and four, and three by seven and four.
pub fn by_counts()
    ensures counts { ByCounts }
    ensures none_of_five { MostMayForget 5 3 3 0 }
    ensures one_of_seven { MostMayForget 7 5 4 1 }
    ensures three_of_seven { MostMayForget 7 7 4 3 }
{
    laws::a_quorum_is_left();
    laws::test_is_satisfaction();
}
