//! Laws of kinds and of their sets, for the crates above.
ghost use Rattle.std.specs.Prelude.{◌≡◌, ◌&&◌, ◌||◌, not, Some, [], ◌∷◌};
ghost use Rattle.fy_kinds.specs.declared.kind.TheConstants.{MILDEST_FIRST, HARDEST_FIRST};
ghost use Rattle.fy_kinds.specs.declared.kind.Kind.{Kind};
ghost use Rattle.fy_kinds.specs.declared.kind.Kind.TheVariants.{RebootProcess, Reboot, RebootAndDelete, KillInstantly};
ghost use Rattle.fy_kinds.specs.declared.kind_set.KindSet.{KindSet};
ghost use Rattle.fy_kinds.specs.Kinds.{Deed, rank, kind_text, kind_named, deed_text, deed_named, has, only, in_either, in_each, in_first_alone, has_all, has_some};

/// Kinds of one rank are one kind.
pub fn kinds_by_rank()
    ensures { (k l : Kind) → rank k ≡ rank l → k ≡ l }
{}

/// No two kinds, and no two deeds, are written alike.
pub fn texts_differ()
    ensures kinds { (k l : Kind) → kind_text k ≡ kind_text l → k ≡ l }
    ensures deeds { (d e : Deed) → deed_text d ≡ deed_text e → d ≡ e }
{}

/// Whatever is written is read back.
pub fn texts_read_back()
    ensures kinds { (kind : Kind) → kind_named (kind_text kind) ≡ Some kind }
    ensures deeds { (d : Deed) → deed_named (deed_text d) ≡ Some d }
{}

/// Sets with the same members are equal.
pub fn same_members()
    ensures { (a b : KindSet) → ((d : Deed) → has a d ≡ has b d) → a ≡ b }
{}

/// The members of sets that were put together.
pub fn members_together()
    ensures either { (a b : KindSet) (d : Deed) → has (in_either a b) d ≡ (has a d || has b d) }
    ensures both { (a b : KindSet) (d : Deed) → has (in_each a b) d ≡ (has a d && has b d) }
    ensures first { (a b : KindSet) (d : Deed)
        → has (in_first_alone a b) d ≡ (has a d && not (has b d)) }
{}

/// To have all or some of one deed is to have it.
pub fn one_deed()
    ensures all { (kinds : KindSet) (d : Deed) → has_all kinds (only d) ≡ has kinds d }
    ensures some { (kinds : KindSet) (d : Deed) → has_some kinds (only d) ≡ has kinds d }
{}

/// Both lists of the kinds, written out.
pub fn kinds_in_order()
    ensures mildest_first { MILDEST_FIRST
        ≡ RebootProcess ∷ Reboot ∷ RebootAndDelete ∷ KillInstantly ∷ [] }
    ensures hardest_first { HARDEST_FIRST
        ≡ KillInstantly ∷ RebootAndDelete ∷ Reboot ∷ RebootProcess ∷ [] }
{}
