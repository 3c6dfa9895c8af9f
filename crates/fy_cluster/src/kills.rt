//! The act Kill: the targets of an order are struck, and recorded as lost where the kind destroys.
ghost use Rattle.std.specs.Prelude.{◌≡◌, ◌<◌, ℕ, true, false, length, slice_set, Some, Ok};
ghost use Rattle.std.specs.FinSet as sets;
ghost use Rattle.fy_decide.specs.declared.dead_book.Loss.{Loss};
ghost use Rattle.fy_decide.specs.Targets.{targeted};
ghost use Rattle.fy_decide.specs.Verdicts.{loss_of, NamesProcess};
ghost use Rattle.fy_acts.specs.declared.act.Act.TheVariants.{Kill};
ghost use Rattle.fy_decide.specs.DeadBook.{MayLose};
ghost use Rattle.fy_disk.specs.Disk.{empty_disk};
ghost use Rattle.fy_disk.specs.Disks.{disk_of};
ghost use Rattle.fy_cluster.specs.Standing.{Point, Refines, StepsTo, RepliesOrOom, targets_by, with_losses, ChangesAt, disk_after_strike};

use crate::Config;
use crate::machine::Machine;
use fy_acts::{Refusal, Reply};
use fy_decide::{DeadBook, Loss, Targets, judge_targets};
use fy_disk::Disks;
use fy_kinds::{KillOrder, Kind};
use fy_locality::{Map, ProcId, ProcSet};

/// Strikes the disk of a process: a reboot tears off unsynced writes, and a destroying kind leaves
/// nothing.
fn strike_disk(disks: &mut Disks, p: ProcId, kind: Kind, tear: u64)
    requires { p.0 < length disks.old }
    ensures { disks.new
        ≡ slice_set disks.old p.0 (disk_after_strike kind tear (disk_of disks.old p.0)) }
{
    match kind {
        Kind::RebootProcess => {}
        Kind::Reboot => disks.crash(p, tear),
        Kind::RebootAndDelete | Kind::KillInstantly => disks.wipe(p),
    }
}

/// Strikes the disk of each process of a set.
fn strike_disks(disks: &mut Disks, targets: &ProcSet, kind: Kind, tear: u64)
    requires { (p : ℕ) → sets.contains targets.now p ≡ true → p < length disks.old }
    ensures { ChangesAt (sets.contains targets.now) (disk_after_strike kind tear) empty_disk
        disks.old disks.new }
{
    for p in targets.iter() {
        strike_disk(disks, p, kind, tear);
    }
}

/// Of these processes those whose disks a strike may change: a reboot leaves a disk as it is that
/// has nothing to sync.
fn changed_by(disks: &Disks, targets: &ProcSet, kind: Kind) -> ProcSet
    ensures within { (p : ℕ) → sets.contains result p ≡ true → sets.contains targets.now p ≡ true }
    ensures same { (p tear : ℕ) → sets.contains targets.now p ≡ true
        → sets.contains result p ≡ false
        → disk_after_strike kind tear (disk_of disks.now p) ≡ disk_of disks.now p }
{
    match kind {
        Kind::Reboot => targets.intersection(disks.with_unsynced()),
        Kind::RebootProcess | Kind::RebootAndDelete | Kind::KillInstantly => *targets,
    }
}

/// Strikes the disk of each target. Of a lone one no set is made.
fn strike_targets(disks: &mut Disks, targets: &Targets, kind: Kind, tear: u64)
    requires { (p : ℕ) → sets.contains (targeted targets.now) p ≡ true → p < length disks.old }
    ensures { ChangesAt (sets.contains (targeted targets.now)) (disk_after_strike kind tear)
        empty_disk disks.old disks.new }
{
    // A reboot of processes leaves the disks as they are.
    if let Kind::RebootProcess = kind {
        return;
    }
    match targets.alone() {
        Some(p) => strike_disk(disks, p, kind, tear),
        None => {
            let changed = changed_by(disks, &targets.set(), kind);
            strike_disks(disks, &changed, kind, tear);
        }
    }
}

/// Records the targets as lost, where the kind destroys.
fn record_losses(dead: &mut DeadBook, targets: &Targets, kind: Kind)
    requires { (loss : Loss) → loss_of kind ≡ Some loss
        → MayLose dead.old (sets.contains (targeted targets.now)) loss }
    ensures { dead.new ≡ with_losses dead.old (targeted targets.now) kind }
{
    if let Some(loss) = Loss::of(kind) {
        dead.strike(&targets.set(), loss);
    }
}

impl Machine {
    /// Strikes these targets of an order by the hardest kind that nothing bars.
    // One call less for each kill.
    #[inline(always)]
    fn strike(&mut self, by: u32, order: &KillOrder, found: &Targets) -> Reply
        ghost point: { Point }
        requires stands { Refines point.setup point.before self.old }
        requires by { by ≡ point.by }
        requires found { (p : ℕ) → sets.contains (targeted found.now) p
            ≡ targets_by self.old order.now.target p }
        ensures { StepsTo point (Kill order.now) result self.new }
    {
        fy_decide::laws::struck_may_be_destroyed();
        let verdict = judge_targets(&self.dead, &self.book, by, order, found);
        let Some(kind) = verdict.struck else {
            return Reply::Verdict(verdict);
        };
        strike_targets(&mut self.disks, found, kind, order.tear());
        found.drop_from(&mut self.up);
        record_losses(&mut self.dead, found, kind);
        Reply::Verdict(verdict)
    }

    /// Strikes the targets of an order by the hardest kind that nothing bars.
    pub(crate) fn kill(&mut self, map: &Map, by: u32, order: &KillOrder) -> Reply
        ghost point: { Point }
        requires stands { Refines point.setup point.before self.old }
        requires map { map.now ≡ point.setup.processes }
        requires by { by ≡ point.by }
        ensures { StepsTo point (Kill order.now) result self.new }
    {
        let found = self.dead.find_targets(map, &order.target());
        self.strike(by, order, &found)
    }

    /// Strikes the process that an order names alone, as `kill` does. An unknown actor is refused
    /// first. The name isn't looked up. Doesn't allocate.
    pub(crate) fn kill_process(
        &mut self,
        config: &Config,
        by: u32,
        process: ProcId,
        order: &KillOrder,
    ) -> Reply
        ghost point: { Point }
        requires stands { Refines point.setup point.before self.old }
        requires config { config.now ≡ point.setup }
        requires by { by ≡ point.by }
        requires named { NamesProcess point.setup.processes process.0 order.now }
        ensures { RepliesOrOom point (Kill order.now) (Ok result) self.new }
    {
        if config.role(by).is_none() {
            return Reply::No(Refusal::Stranger);
        }
        let found = self.dead.process_targets(process);
        self.strike(by, order, &found)
    }
}
