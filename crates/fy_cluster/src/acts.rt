//! One act of an actor that may make it.
ghost use Rattle.std.specs.Prelude.{◌≡◌, ◌<◌, ◌++◌, ◌∷◌, [], length, Ok, IfOk, OnErr};
ghost use Rattle.fy_acts.specs.declared.act.Act.TheVariants.{Kill};
ghost use Rattle.fy_decide.specs.Verdicts.{NamesProcess};
ghost use Rattle.fy_cluster.specs.declared.config.TheConstants.{MOST_JOURNAL_ENTRIES};
ghost use Rattle.fy_cluster.specs.Standing.{Point, Refines, StepsToOrOom, RepliesOrOom, EntersOrOom, IsReachable};

use crate::machine::Machine;
use crate::trail::Trail;
use crate::{Config, Fault};
use fy_acts::{Act, Entry, Refusal, Reply};
use fy_kinds::KillOrder;
use fy_locality::ProcId;
use std::alloc::Global;

impl Machine {
    /// Replies to an act, and appends both to the trail.
    pub(crate) fn enter(
        &mut self,
        trail: &mut Trail,
        alloc: Global,
        config: &Config,
        by: u32,
        act: Act,
    ) -> Result<Entry, Fault>
        ghost point: { Point }
        requires stands { Refines point.setup point.before self.old }
        requires config { config.now ≡ point.setup }
        requires by { by ≡ point.by }
        requires reachable { IsReachable point.setup point.before }
        requires room { length trail.old < MOST_JOURNAL_ENTRIES }
        ensures answered { EntersOrOom point (length trail.old) by act result self.new }
        ensures entered { IfOk result (λ entry. trail.new ≡ trail.old ++ entry ∷ []) }
        ensures err { OnErr result (trail.new ≡ trail.old) }
    {
        let reply = self.reply(alloc, config, by, &act)?;
        let at = trail.len() as u32;
        let entry = Entry { at, by, act, reply };
        trail.push(&entry);
        Ok(entry)
    }

    /// Replies to a kill of the process that an order names alone, and appends both to the trail,
    /// as `enter` does. The entry is the caller's to make. The name isn't looked up. Doesn't
    /// allocate.
    pub(crate) fn enter_kill(
        &mut self,
        trail: &mut Trail,
        config: &Config,
        by: u32,
        process: ProcId,
        order: &KillOrder,
    ) -> Reply
        ghost point: { Point }
        requires stands { Refines point.setup point.before self.old }
        requires config { config.now ≡ point.setup }
        requires by { by ≡ point.by }
        requires named { NamesProcess point.setup.processes process.0 order.now }
        requires room { length trail.old < MOST_JOURNAL_ENTRIES }
        ensures answered { RepliesOrOom point (Kill order.now) (Ok result) self.new }
        ensures entered { trail.new ≡ trail.old ++ record {
          at = length trail.old;
          by = by;
          act = Kill order.now;
          reply = result;
        } ∷ [] }
    {
        let reply = self.kill_process(config, by, process, order);
        let at = trail.len() as u32;
        let act = Act::Kill { order: *order };
        let killed = Entry { at, by, act, reply };
        trail.push(&killed);
        reply
    }

    /// Replies to an act, and does it where no rule refuses it. An unknown actor, or one whose role
    /// may not make the act, is refused first.
    pub(crate) fn reply(
        &mut self,
        alloc: Global,
        config: &Config,
        by: u32,
        act: &Act,
    ) -> Result<Reply, Fault>
        ghost point: { Point }
        requires stands { Refines point.setup point.before self.old }
        requires config { config.now ≡ point.setup }
        requires by { by ≡ point.by }
        requires reachable { IsReachable point.setup point.before }
        ensures { RepliesOrOom point act.now result self.new }
    {
        let Some(role) = config.role(by) else {
            return Ok(Reply::No(Refusal::Stranger));
        };
        if !role.may(act) {
            return Ok(Reply::No(Refusal::WrongRole));
        }
        self.act(alloc, config, by, act)
    }

    /// Does an act, or answers why it is refused. All memory is allocated before the first change.
    pub(crate) fn act(
        &mut self,
        alloc: Global,
        config: &Config,
        by: u32,
        act: &Act,
    ) -> Result<Reply, Fault>
        ghost point: { Point }
        requires stands { Refines point.setup point.before self.old }
        requires config { config.now ≡ point.setup }
        requires by { by ≡ point.by }
        requires reachable { IsReachable point.setup point.before }
        ensures { StepsToOrOom point act.now result self.new }
    {
        let map = config.map();
        match act {
            Act::Kill { order } => Ok(self.kill(map, by, order)),
            Act::Clog { target, ticks } => Ok(self.clog(map, by, target, *ticks)),
            Act::Unclog { target } => Ok(self.unclog(map, by, target)),
            Act::Form { members, policy } => {
                let members = members.try_copy(alloc)?;
                self.form(config, members, *policy)
            }
            Act::Begin { team, payload } => {
                let payload = payload.try_copy(alloc)?;
                self.begin(*team, payload)
            }
            Act::Deliver { message } => self.deliver(alloc, *message),
            Act::Lose { message } => Ok(self.lose(*message)),
            Act::Resend { rec, process } => self.resend(*rec, *process),
            Act::Sync { process } => self.sync(map, *process),
            Act::Up { process } => Ok(self.start(map, *process)),
            Act::Tick { ticks } => Ok(self.tick(*ticks)),
            Act::Give { grant } => self.give(*grant),
            Act::Take { actor, index } => self.take(*actor, *index),
            Act::Protect { process, kinds } => Ok(self.protect(*process, *kinds)),
            Act::Unprotect { process, kinds } => Ok(self.unprotect(*process, *kinds)),
            Act::CopyTo { from, rec, to } => self.copy_record(map, *from, *rec, *to),
            Act::Replace { team, out, into } => Ok(self.replace(config, *team, *out, *into)),
            Act::Heal { process } => Ok(self.heal(map, *process)),
        }
    }
}
