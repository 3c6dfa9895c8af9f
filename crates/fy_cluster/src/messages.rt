//! The acts Deliver, Lose and Sync: messages arrive or are lost, and what was written is synced.
ghost use Rattle.std.specs.Prelude.{◌≡◌, ◌≤◌, ◌<◌, Some, None, map, length, slice_set, OnOk, OnErr, IfErr};
ghost use Rattle.fy_net.specs.Net.{body_of, take_refusal, without_message};
ghost use Rattle.fy_net.specs.declared.message.Body.TheVariants.{Store, Synced};
ghost use Rattle.fy_acts.specs.declared.act.Act.TheVariants.{Deliver, Lose, Sync};
ghost use Rattle.fy_cluster.specs.History.{acks_of};
ghost use Rattle.fy_disk.specs.Disk.{written};
ghost use Rattle.fy_disk.specs.Disks.{disk_of};
ghost use Rattle.fy_cluster.specs.Standing.{Point, Refines, StepsTo, StepsToOrOom, IsReachable, Sends, reply_to_net_fault};
ghost use Rattle.fy_cluster.specs.declared.fault.Fault.TheVariants.{NoMemory};

use crate::Fault;
use crate::machine::Machine;
use fy_acts::{Refusal, Reply};
use fy_disk::{Disk, Disks, Item};
use fy_locality::{Map, ProcId};
use fy_net::{Body, Net, NetFault};
use std::alloc::Global;

/// The reply, or the fault, that a refusal of room in the network stands for.
pub(crate) fn reply_to_net_fault(fault: NetFault) -> Result<Reply, Fault>
    ensures { result ≡ reply_to_net_fault fault }
{
    match fault {
        NetFault::NetFull => Ok(Reply::No(Refusal::NetFull)),
        NetFault::NoMessage => Ok(Reply::No(Refusal::NoMessage)),
        NetFault::Clogged => Ok(Reply::No(Refusal::Clogged)),
        NetFault::ClockEnd => Ok(Reply::No(Refusal::ClockEnd)),
        NetFault::NoMemory => Err(Fault::NoMemory),
    }
}

/// Sends a process's acknowledgement of each write that it has not synced.
fn send_acks(net: &mut Net, disk: &Disk, process: ProcId)
    requires room { length disk.now.unsynced ≤ net.old.room }
    requires there { process.0 < length net.old.until }
    ensures { Sends net.old (acks_of process disk.now.unsynced) net.new }
{
    for place in 0..disk.unsynced_len() {
        let Some(item) = disk.pending(place) else {
            unreachable!();
        };
        let rec = item.rec;
        let _number = net.send(Body::Synced { rec, from: process });
    }
}

/// Takes a message out of the network. It is in flight and its process isn't clogged, so this can't
/// be refused.
fn take_out(net: &mut Net, message: u64)
    requires { take_refusal net.old message ≡ None }
    ensures { net.new ≡ without_message message net.old }
{
    // What it says was read before.
    let Ok(_body) = net.take(message) else {
        unreachable!();
    };
}

/// Writes an item to the disk of a process, or leaves all disks as they were where an allocation
/// fails.
fn write_to(disks: &mut Disks, p: ProcId, item: Item) -> Result<(), Fault>
    requires { p.0 < length disks.old }
    ensures written { OnOk result
        (disks.new ≡ slice_set disks.old p.0 (written item (disk_of disks.old p.0))) }
    ensures memory { IfErr result (λ fault. fault ≡ NoMemory) }
    ensures err { OnErr result (disks.new ≡ disks.old) }
{
    match disks.write(p, item) {
        Ok(()) => Ok(()),
        // The item comes back where an allocation fails.
        Err(_) => Err(Fault::NoMemory),
    }
}

impl Machine {
    /// Delivers a message.
    pub(crate) fn deliver(&mut self, alloc: Global, message: u64) -> Result<Reply, Fault>
        ghost point: { Point }
        requires stands { Refines point.setup point.before self.old }
        requires reachable { IsReachable point.setup point.before }
        ensures { StepsToOrOom point (Deliver message) result self.new }
    {
        match self.net.body(message) {
            Some(Body::Store { rec, to }) => self.store(alloc, message, rec, to),
            Some(Body::Synced { rec, from }) => Ok(self.mark(message, rec, from)),
            None => Ok(Reply::No(Refusal::NoMessage)),
        }
    }

    /// Delivers a store, which is the message in flight with this number.
    fn store(&mut self, alloc: Global, message: u64, rec: u32, to: ProcId) -> Result<Reply, Fault>
        ghost point: { Point }
        requires stands { Refines point.setup point.before self.old }
        requires reachable { IsReachable point.setup point.before }
        requires body { body_of self.old.net.in_flight message ≡ Some (Store rec to) }
        requires there { to.0 < length self.old.net.until }
        ensures { StepsToOrOom point (Deliver message) result self.new }
    {
        fy_policy::laws::test_is_satisfaction();
        if self.net.clogged(to) {
            return Ok(Reply::No(Refusal::Clogged));
        }
        if !self.up.contains(to) {
            return Ok(Reply::No(Refusal::NotUp));
        }
        let Some(payload) = self.teams.payload(rec) else {
            unreachable!();
        };
        let payload = payload.try_copy(alloc)?;
        write_to(&mut self.disks, to, Item { rec, payload })?;
        take_out(&mut self.net, message);
        Ok(Reply::Stored)
    }

    /// Delivers a process's acknowledgement, which is the message in flight with this number.
    fn mark(&mut self, message: u64, rec: u32, from: ProcId) -> Reply
        ghost point: { Point }
        requires stands { Refines point.setup point.before self.old }
        requires reachable { IsReachable point.setup point.before }
        requires body { body_of self.old.net.in_flight message ≡ Some (Synced rec from) }
        requires there { from.0 < length self.old.net.until }
        ensures { StepsTo point (Deliver message) result self.new }
    {
        fy_policy::laws::test_is_satisfaction();
        fy_team::laws::a_mark_is_one_more();
        fy_team::laws::a_mark_acknowledges();
        if self.net.clogged(from) {
            return Reply::No(Refusal::Clogged);
        }
        take_out(&mut self.net, message);
        let acked = self.teams.mark(rec, from);
        Reply::Marked { acked }
    }

    /// Loses a message, clogged or not.
    pub(crate) fn lose(&mut self, message: u64) -> Reply
        ghost point: { Point }
        requires { Refines point.setup point.before self.old }
        ensures { StepsTo point (Lose message) result self.new }
    {
        match self.net.lose(message) {
            Ok(()) => Reply::Done,
            Err(_) => Reply::No(Refusal::NoMessage),
        }
    }

    /// Syncs what a process has written, and sends its acknowledgement of each write.
    pub(crate) fn sync(&mut self, map: &Map, process: ProcId) -> Result<Reply, Fault>
        ghost point: { Point }
        requires stands { Refines point.setup point.before self.old }
        requires map { map.now ≡ point.setup.processes }
        requires reachable { IsReachable point.setup point.before }
        ensures { StepsToOrOom point (Sync process) result self.new }
    {
        if process.0 >= map.len() {
            return Ok(Reply::No(Refusal::NoProcess));
        }
        if !self.up.contains(process) {
            return Ok(Reply::No(Refusal::NotUp));
        }
        let count = self.disks.of(process).unsynced_len();
        if let Err(fault) = self.net.reserve(count) {
            return reply_to_net_fault(fault);
        }
        let first = self.net.sent();
        send_acks(&mut self.net, self.disks.of(process), process);
        self.disks.sync(process);
        let count = count as u32;
        Ok(Reply::Synced { first, count })
    }
}
