//! Laws of what a book holds after a change and of the least process, for the crates above.
ghost use Rattle.std.specs.Prelude.{◌≡◌, ℕ, List, length};
ghost use Rattle.fy_locality.specs.declared.locality.Locality.{Locality};
ghost use Rattle.fy_kinds.specs.declared.kind_set.KindSet.{KindSet};
ghost use Rattle.fy_grants.specs.declared.grant.Grant.{Grant};
ghost use Rattle.fy_grants.specs.Rights.{Rights, grant_count, no_rights, with_grant, without_grant, with_protection};
ghost use Rattle.fy_grants.specs.Changes.{GivenToOne, TakenFromOne, GivenIsCounted, ProtectedOne, LeastIsFirst};
ghost use Rattle.fy_grants.specs.declared.book.TheConstants.{MOST_GRANTS};

/// A grant goes to its actor's list alone.
pub fn grants_after_give()
    ensures lists { GivenToOne }
    ensures actors { (rights : Rights) (grant : Grant)
        → length (with_grant rights grant).grants ≡ length rights.grants }
{}

/// A grant leaves its actor's list alone.
pub fn grants_after_take()
    ensures lists { TakenFromOne }
    ensures actors { (rights : Rights) (actor index : ℕ)
        → length (without_grant rights actor index).grants ≡ length rights.grants }
{}

/// There is no grant at first, and a grant that is given is one more.
pub fn grants_are_counted()
    ensures none { (actors : ℕ) (processes : List Locality)
        → grant_count (no_rights actors processes) ≡ 0 }
    ensures given { GivenIsCounted }
{}

/// A change of one process leaves the protections of the others.
pub fn protections_after_change()
    ensures kinds { ProtectedOne }
    ensures processes { (rights : Rights) (p : ℕ) (kinds : KindSet)
        → length (with_protection rights p kinds).protections ≡ length rights.protections }
{}

/// The least process of a set that passes a test is the first one found below a bound of the set.
pub fn least_is_first_found()
    ensures { LeastIsFirst }
{}

/// The limit of this crate, as a number.
pub fn limits()
    ensures grants { MOST_GRANTS ≡ 4096 }
{}
