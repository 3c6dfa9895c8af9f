//! Whom the grants of one actor cover, kept beside them.
ghost use Rattle.std.specs.Prelude.{◌≡◌, ◌&&◌, ◌||◌, ℕ, IfSome};
ghost use Rattle.std.specs.FinSet as sets;
ghost use Rattle.fy_kinds.specs.Kinds.{Deed, has, only};
ghost use Rattle.fy_grants.specs.Covers.{bare, covers, set_at, IsCoverOf, IsGroupOf, LeavesOpen, Tells};
ghost use Rattle.fy_grants.specs.Rights.{is_granted};

use crate::{Grant, Scope};
use fy_kinds::{Kind, KindSet};
use fy_locality::{Map, ProcId, ProcSet};

/// For each kind of kill, and for clogging, the processes that some grants cover. A grant on every
/// process is no set: `everyone` has its kinds.
#[derive(Clone, Copy)]
pub(crate) struct Cover {
    everyone: KindSet,
    reboot_process: ProcSet,
    reboot: ProcSet,
    reboot_and_delete: ProcSet,
    kill_instantly: ProcSet,
    clog: ProcSet,
}

/// Puts the members of a group into a set, where they are wanted there.
fn put_group(set: &mut ProcSet, wanted: bool, group: &ProcSet)
    ensures { (p : ℕ) → sets.contains set.new p
        ≡ (sets.contains set.old p || wanted && sets.contains group.now p) }
{
    if wanted {
        *set = set.union(group);
    }
}

impl Cover {
    /// No grant covers anybody.
    pub(crate) fn bare() -> Cover
        ensures { result ≡ bare }
    {
        Cover {
            everyone: KindSet::empty(),
            reboot_process: ProcSet::empty(),
            reboot: ProcSet::empty(),
            reboot_and_delete: ProcSet::empty(),
            kill_instantly: ProcSet::empty(),
            clog: ProcSet::empty(),
        }
    }

    /// The cover of some grants, one after another. Doesn't allocate.
    pub(crate) fn of(grants: &[Grant], map: &Map) -> Cover
        ensures { IsCoverOf map.now grants.now result }
    {
        let mut cover = Cover::bare();
        for grant in grants {
            cover.add(grant, map);
        }
        cover
    }

    /// Adds what one more grant covers. Doesn't allocate.
    pub(crate) fn add(&mut self, grant: &Grant, map: &Map)
        ensures { (deed : Deed) (p : ℕ) → covers self.new deed p
            ≡ (covers self.old deed p || is_granted map.now grant.now (only deed) p) }
    {
        fy_kinds::laws::one_deed();
        fy_kinds::laws::members_together();
        match grant.scope {
            Scope::All => self.everyone = self.everyone.union(grant.kinds),
            Scope::Where(target) => {
                self.add_group(grant.kinds, &map.members(target.key, &target.value));
            }
        }
    }

    /// The members of a group are covered from some kinds.
    fn add_group(&mut self, kinds: KindSet, group: &ProcSet)
        ensures everyone { self.new.everyone ≡ self.old.everyone }
        ensures sets { (deed : Deed) (p : ℕ) → sets.contains (set_at self.new deed) p
            ≡ (sets.contains (set_at self.old deed) p
            || has kinds deed && sets.contains group.now p) }
    {
        put_group(
            &mut self.reboot_process,
            kinds.has(Kind::RebootProcess),
            group,
        );
        put_group(&mut self.reboot, kinds.has(Kind::Reboot), group);
        put_group(
            &mut self.reboot_and_delete,
            kinds.has(Kind::RebootAndDelete),
            group,
        );
        put_group(
            &mut self.kill_instantly,
            kinds.has(Kind::KillInstantly),
            group,
        );
        put_group(&mut self.clog, kinds.has_clog(), group);
    }

    /// The processes of a set that no grant with this kind covers, where one kind is asked about;
    /// else nothing, since a question about several kinds wants one grant that has them all.
    /// Doesn't allocate.
    pub(crate) fn uncovered_in(&self, kinds: KindSet, set: &ProcSet) -> Option<ProcSet>
        ensures { IfSome result (LeavesOpen self.now kinds set.now) }
    {
        fy_kinds::laws::one_deed();
        let covered = self.group(kinds)?;
        if self.everyone.contains(kinds) {
            return Some(ProcSet::empty());
        }
        Some(set.difference(covered))
    }

    /// Whether a grant with this kind covers a process, where one kind is asked about; else
    /// nothing, as of [`Cover::uncovered_in`]. Makes no set.
    pub(crate) fn covers(&self, kinds: KindSet, p: ProcId) -> Option<bool>
        ensures { IfSome result (Tells self.now kinds p.0) }
    {
        fy_kinds::laws::one_deed();
        let covered = self.group(kinds)?;
        Some(self.everyone.contains(kinds) || covered.contains(p))
    }

    /// The set of the one kind that some kinds are.
    fn group(&self, kinds: KindSet) -> Option<&ProcSet>
        ensures { IfSome result (λ set. IsGroupOf self.now kinds set.now) }
    {
        if kinds == KindSet::of(Kind::RebootProcess) {
            return Some(&self.reboot_process);
        }
        if kinds == KindSet::of(Kind::Reboot) {
            return Some(&self.reboot);
        }
        if kinds == KindSet::of(Kind::RebootAndDelete) {
            return Some(&self.reboot_and_delete);
        }
        if kinds == KindSet::of(Kind::KillInstantly) {
            return Some(&self.kill_instantly);
        }
        if kinds == KindSet::of_clog() {
            return Some(&self.clog);
        }
        None
    }
}
