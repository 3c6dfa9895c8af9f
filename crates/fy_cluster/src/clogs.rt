//! The acts Clog and Unclog: messages of the processes that are named are held up for some time.
ghost use Rattle.std.specs.Prelude.{◌≡◌, ◌<◌, ℕ, true, length, IfOk};
ghost use Rattle.std.specs.Result.{result_err};
ghost use Rattle.std.specs.FinSet as sets;
ghost use Rattle.fy_acts.specs.declared.act.Act.TheVariants.{Clog, Unclog};
ghost use Rattle.fy_cluster.specs.History.{clog_end, unclog_end};
ghost use Rattle.fy_cluster.specs.Standing.{Point, Refines, StepsTo, ClogsChange, targets_by, clog_bar};

use crate::machine::Machine;
use fy_acts::Reply;
use fy_decide::judge_clog_at;
use fy_kinds::{Rule, Target};
use fy_locality::{Map, ProcSet};
use fy_net::Net;

/// Clogs each target for some ticks.
fn clog_targets(net: &mut Net, targets: &ProcSet, ticks: u64)
    requires { (p : ℕ) → sets.contains targets.now p ≡ true → p < length net.old.until }
    ensures { ClogsChange (sets.contains targets.now) (clog_end ticks) net.old net.new }
{
    for p in targets.iter() {
        net.clog(p, ticks);
    }
}

/// Ends the clog of each target.
fn unclog_targets(net: &mut Net, targets: &ProcSet)
    requires { (p : ℕ) → sets.contains targets.now p ≡ true → p < length net.old.until }
    ensures { ClogsChange (sets.contains targets.now) unclog_end net.old net.new }
{
    for p in targets.iter() {
        net.unclog(p);
    }
}

impl Machine {
    /// The processes of a target that are left, or the rule of permission that bars a clog of them
    /// and its end.
    fn permitted_to_clog(&self, map: &Map, by: u32, target: &Target) -> Result<ProcSet, Rule>
        requires map { map.now ≡ self.now.dead.processes }
        requires book { self.now.book.processes ≡ self.now.dead.processes }
        ensures targets { IfOk result (λ set. (p : ℕ) →
            sets.contains set p ≡ targets_by self.now target.now p) }
        ensures rule { result_err result ≡ clog_bar self.now by target.now }
    {
        let targets = self.dead.targets(map, target);
        match judge_clog_at(&self.dead, &self.book, by, target, &targets) {
            None => Ok(targets),
            Some(rule) => Err(rule),
        }
    }

    /// Clogs the processes of a target for some ticks, if no rule of permission bars it.
    pub(crate) fn clog(&mut self, map: &Map, by: u32, target: &Target, ticks: u64) -> Reply
        ghost point: { Point }
        requires stands { Refines point.setup point.before self.old }
        requires map { map.now ≡ point.setup.processes }
        requires by { by ≡ point.by }
        ensures { StepsTo point (Clog target.now ticks) result self.new }
    {
        match self.permitted_to_clog(map, by, target) {
            Ok(targets) => {
                clog_targets(&mut self.net, &targets, ticks);
                Reply::Ruled { rule: None }
            }
            Err(rule) => Reply::Ruled { rule: Some(rule) },
        }
    }

    /// Ends the clogs of a target's processes, if no rule of permission bars it.
    pub(crate) fn unclog(&mut self, map: &Map, by: u32, target: &Target) -> Reply
        ghost point: { Point }
        requires stands { Refines point.setup point.before self.old }
        requires map { map.now ≡ point.setup.processes }
        requires by { by ≡ point.by }
        ensures { StepsTo point (Unclog target.now) result self.new }
    {
        match self.permitted_to_clog(map, by, target) {
            Ok(targets) => {
                unclog_targets(&mut self.net, &targets);
                Reply::Ruled { rule: None }
            }
            Err(rule) => Reply::Ruled { rule: Some(rule) },
        }
    }
}
