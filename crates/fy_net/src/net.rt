//! The network: its messages stand in a pool, in which each call finds its message at once.
ghost use Rattle.std.specs.Prelude.{◌≡◌, ◌+◌, ◌^◌, ◌<◌, ◌≤◌, ℕ, max, length, slice_index, Some, None, IfOk, IfErr, IfSome, OnOk, OnErr, IsOk, IsOkAnd};
ghost use Rattle.std.specs.List.{All};
ghost use Rattle.std.specs.FinSet as sets;
ghost use Rattle.fy_locality.specs.declared.TheConstants.{MOST_PROCESSES};
ghost use Rattle.fy_net.specs.declared.fault.NetFault.{NetFault};
ghost use Rattle.fy_net.specs.declared.fault.NetFault.TheVariants.{NoMemory};
ghost use Rattle.fy_net.specs.Net.{quiet, process_of, body_of, without_message, with_sent, without_acks_of, is_clogged, clogged_for, unclogged, first_free_of, reserve_refusal, take_refusal, lose_refusal, advance_refusal, NoneFreeBelow, IsNetState};

use crate::clog::clog_lasts;
use crate::limits::{LAST_TICK, MOST_IN_FLIGHT};
use crate::pool::Pool;
use crate::{Body, NetFault};
use fy_locality::{ProcId, ProcSet};
use std::alloc::{AllocError, Global};
use std::marker::Model;

/// The messages in flight between the processes and the client, which processes are clogged, and
/// the time. `may_be_clogged` has everyone who is clogged, and may have others whose clogs have
/// ended.
#[derive(Drop)]
pub struct Net {
    pool: Pool,
    clock: u64,
    until: Vec<u64>,
    may_be_clogged: ProcSet,
    room: usize,
}

impl Model for Net {
    ghost use Rattle.fy_net.specs.Net.{NetState};

    ghost Value = { NetState };

    ghost use Rattle.fy_net.specs.Kept.{net_state, NetInvariant};

    ghost view = { net_state };

    ghost invariant = { NetInvariant };
}

impl Net {
    /// Makes a network of so many processes, at most 1,024, at time 0, with no clog and nothing in
    /// flight.
    ///
    /// # Errors
    ///
    /// `NoMemory` only if an allocation fails.
    pub fn make(alloc: Global, processes: u32) -> Result<Net, NetFault>
        requires { processes ≤ MOST_PROCESSES }
        ensures made { IfOk result (λ net. net ≡ quiet processes) }
        ensures memory { IfErr result (λ fault. fault ≡ NoMemory) }
    {
        let until = vec![in alloc; 0; processes as usize]?;
        Ok(Net {
            pool: Pool::make(alloc, processes)?,
            clock: 0,
            until,
            may_be_clogged: ProcSet::empty(),
            room: 0,
        })
    }

    /// An equal network, in memory of its own.
    ///
    /// # Errors
    ///
    /// `AllocError` only if an allocation fails.
    pub fn try_copy(&self, alloc: Global) -> Result<Net, AllocError>
        ensures { IfOk result (λ copy. copy ≡ self.now) }
    {
        Ok(Net {
            pool: self.pool.try_copy(alloc)?,
            clock: self.clock,
            until: Vec::from_slice(alloc, &self.until)?,
            may_be_clogged: self.may_be_clogged,
            room: self.room,
        })
    }

    /// Makes sure that there is room for `count` sends.
    ///
    /// # Errors
    ///
    /// In order: `NetFull` if more than 65,536 messages would be in flight with them; `NoMemory`.
    pub fn reserve(&mut self, count: usize) -> Result<(), NetFault>
        requires { self.old.sent < 2 ^ 63 }
        ensures refused { (fault : NetFault) →
            reserve_refusal self.old count ≡ Some fault → result ≡ Err fault }
        ensures memory { reserve_refusal self.old count ≡ None →
            IfErr result (λ fault. fault ≡ NoMemory) }
        ensures there { count ≤ self.old.room → IsOk result }
        ensures ok { OnOk result (self.new ≡ record self.old { room = max self.old.room count }) }
        ensures err { OnErr result (self.new ≡ self.old) }
    {
        if count > MOST_IN_FLIGHT - self.pool.len() {
            return Err(NetFault::NetFull);
        }
        self.pool.reserve(count)?;
        self.room = self.room.max(count);
        Ok(())
    }

    /// Sends a message and returns its number, which is above every earlier one. It uses up one
    /// place of the room.
    pub fn send(&mut self, body: Body) -> u64
        requires room { 0 < self.old.room }
        requires process { process_of body < length self.old.until }
        ensures number { result ≡ self.old.sent }
        ensures unused { All (λ message. message.number < result) self.old.in_flight }
        ensures sent { self.new ≡ with_sent body self.old }
    {
        let number = self.pool.push(body);
        self.room -= 1;
        number
    }

    /// The body of the message in flight with a number.
    pub fn body(&self, number: u64) -> Option<Body>
        ensures body { result ≡ body_of self.now.in_flight number }
        ensures process { IfSome result (λ body. process_of body < length self.now.until) }
    {
        let place = self.pool.place_of(number)?;
        Some(self.pool.body(place))
    }

    /// Takes a message out of the network for delivery and returns its body.
    ///
    /// # Errors
    ///
    /// In order: `NoMessage` if no message in flight has the number; `Clogged` if its process is
    /// clogged.
    pub fn take(&mut self, number: u64) -> Result<Body, NetFault>
        ensures refused { (fault : NetFault) → take_refusal self.old number ≡ Some fault →
            (result ≡ Err fault) × (self.new ≡ self.old) }
        ensures taken { take_refusal self.old number ≡ None →
            IsOkAnd result (λ body. body_of self.old.in_flight number ≡ Some body)
            × (self.new ≡ without_message number self.old) }
    {
        let Some(place) = self.pool.place_of(number) else {
            return Err(NetFault::NoMessage);
        };
        if clog_lasts(&self.until, self.clock, self.pool.body(place).process()) {
            return Err(NetFault::Clogged);
        }
        Ok(self.pool.vacate(place))
    }

    /// Drops a message, clogged or not.
    ///
    /// # Errors
    ///
    /// `NoMessage` if no message in flight has the number.
    pub fn lose(&mut self, number: u64) -> Result<(), NetFault>
        ensures refused { (fault : NetFault) → lose_refusal self.old number ≡ Some fault →
            (result ≡ Err fault) × (self.new ≡ self.old) }
        ensures lost { lose_refusal self.old number ≡ None →
            (IsOk result) × (self.new ≡ without_message number self.old) }
    {
        let Some(place) = self.pool.place_of(number) else {
            return Err(NetFault::NoMessage);
        };
        self.pool.vacate(place);
        Ok(())
    }

    /// Drops every acknowledgement by a process, clogged or not. Stores to it stay. Doesn't
    /// allocate.
    pub fn void(&mut self, p: ProcId)
        ensures { self.new ≡ without_acks_of p.0 self.old }
    {
        self.pool.void(p);
    }

    /// Clogs a process for some ticks, at most up to the clock's end. A clog that lasts longer
    /// stays.
    pub fn clog(&mut self, p: ProcId, ticks: u64)
        requires { p.0 < length self.old.until }
        ensures { self.new ≡ clogged_for p.0 ticks self.old }
    {
        let end = self.clock.saturating_add(ticks).min(LAST_TICK);
        let until = &mut self.until[p.0 as usize];
        *until = (*until).max(end);
        self.may_be_clogged.put(p);
    }

    /// Ends a process's clog now, if it has one.
    pub fn unclog(&mut self, p: ProcId)
        requires { p.0 < length self.old.until }
        ensures { self.new ≡ unclogged p.0 self.old }
    {
        let until = &mut self.until[p.0 as usize];
        *until = (*until).min(self.clock);
        self.may_be_clogged.drop_one(p);
    }

    /// Whether a process is clogged.
    pub fn clogged(&self, p: ProcId) -> bool
        requires { p.0 < length self.now.until }
        ensures { result ≡ is_clogged self.now p.0 }
    {
        clog_lasts(&self.until, self.clock, p)
    }

    /// Until when the clogs of a process last. It is clogged where that is later than now.
    pub fn asked_clog_end(&self, p: ProcId) -> u64
        requires { p.0 < length self.now.until }
        ensures { result ≡ slice_index self.now.until p.0 }
    {
        self.until[p.0 as usize]
    }

    /// The processes that are clogged.
    pub fn all_clogged(&self) -> ProcSet
        ensures { (p : ℕ) → sets.contains result p ≡ is_clogged self.now p }
    {
        self.may_be_clogged.invariant();
        let mut clogged = ProcSet::empty();
        for p in self.may_be_clogged.iter() {
            if clog_lasts(&self.until, self.clock, p) {
                clogged.put(p);
            }
        }
        clogged
    }

    /// Forgets whose clogs have ended, so that `all_clogged` asks nobody else from then on than who
    /// is clogged now, or will be. Nothing that a network is seen as changes. Doesn't allocate.
    pub fn forget_ended(&mut self)
        ensures { self.new ≡ self.old }
    {
        self.may_be_clogged = self.all_clogged();
    }

    /// The time, in ticks from 0 to 2^40.
    pub fn now(&self) -> u64
        ensures time { result ≡ self.now.clock }
        ensures within { result ≤ LAST_TICK }
    {
        self.clock
    }

    /// Lets some ticks pass and returns the new time.
    ///
    /// # Errors
    ///
    /// `ClockEnd` if that would be past 2^40.
    pub fn advance(&mut self, ticks: u64) -> Result<u64, NetFault>
        ensures refused { (fault : NetFault) → advance_refusal self.old ticks ≡ Some fault →
            (result ≡ Err fault) × (self.new ≡ self.old) }
        ensures passed { advance_refusal self.old ticks ≡ None →
            (result ≡ Ok (self.old.clock + ticks))
            × (self.new ≡ record self.old { clock = self.old.clock + ticks }) }
    {
        if ticks > LAST_TICK - self.clock {
            return Err(NetFault::ClockEnd);
        }
        self.clock += ticks;
        Ok(self.clock)
    }

    /// The lowest number of a message whose process isn't clogged and, if the message is a store,
    /// is in `up`.
    pub fn first_free(&self, up: &ProcSet) -> Option<u64>
        ensures first { result ≡ first_free_of self.now (sets.contains up.now) }
        ensures least { IfSome result (NoneFreeBelow self.now (sets.contains up.now)) }
    {
        self.pool.first_free(&self.until, self.clock, up)
    }

    /// How many messages were sent so far. The next one gets this number.
    pub fn sent(&self) -> u64
        ensures { result ≡ self.now.sent }
    {
        self.pool.sent()
    }

    /// The messages in flight stand in order of their numbers, all below the next one, and each is
    /// of an existing process. With the room they are no more than may be in flight.
    pub fn invariant(&self)
        ensures { IsNetState self.now }
    {
        let _pool = &self.pool;
    }
}
