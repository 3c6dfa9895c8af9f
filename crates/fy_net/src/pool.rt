//! The pool of the messages in flight, and the chains that lead through it.
ghost use Rattle.std.specs.Prelude.{◌≡◌, ℕ, ◌+◌, ◌-◌, ◌^◌, ◌<◌, ◌≤◌, true, [], ◌∷◌, ◌++◌, length, slice_set, slice_index_or, filter, not, find, option_map, vec_len, IfOk, IfSome, IfNone, OnOk, IsOk, None};
ghost use Rattle.std.specs.List.{All};
ghost use Rattle.std.specs.Vec.{vec_capacity};
ghost use Rattle.std.specs.FinSet as sets;
ghost use Rattle.fy_net.specs.Net.{body_of, process_of, is_ack_from};
ghost use Rattle.fy_net.specs.Places.{may_be_taken};
ghost use Rattle.fy_net.specs.Slots.{there_of, vacated, IsThereAt};
ghost use Rattle.fy_net.specs.declared.pool.Pool.{Pool};
ghost use Rattle.fy_net.specs.declared.slot.Slot.{Slot};
ghost use Rattle.fy_net.specs.Pool.{chain_of, chain_at, is_there, with_link, lower_of, IsFirst, IsThereOnChain, IsReachedOf, IsFreeOf, AreLinked, IsChained, BusyIsRight, IsPool, IsTidy, HasRoom, KeepsRoom};

use crate::clog::clog_lasts;
use crate::slot::{Slot, place_there};
use crate::{Body, Message};
use fy_locality::{MOST_PROCESSES, ProcId, ProcSet};
use std::alloc::{AllocError, Global};

/// The ends of a chain.
#[derive(Clone, Copy)]
pub(crate) struct Ends {
    /// The chain's first slot whose message is in flight.
    pub(crate) first: Option<usize>,
    /// The chain's last slot.
    pub(crate) last: Option<usize>,
}

/// Messages in slots in order of number. The slots of the stores to a process are one chain, those
/// of its acknowledgements another.
#[derive(Drop)]
pub(crate) struct Pool {
    pub(crate) slots: Vec<Slot>,
    /// How many messages are in flight.
    pub(crate) there: usize,
    /// The number of the next message.
    pub(crate) sent: u64,
    /// For each slot the next slot of its chain.
    pub(crate) links: Vec<Option<usize>>,
    /// The ends of each process's chain of stores, and then of each process's chain of
    /// acknowledgements.
    pub(crate) ends: Vec<Ends>,
    pub(crate) processes: u32,
    /// The processes below 1024 that have a message in flight. A set can have no others.
    pub(crate) busy: ProcSet,
}

/// The number of a message's chain.
fn chain(processes: u32, body: Body) -> usize
    ensures { result ≡ chain_of processes body }
{
    match body {
        Body::Store { to, .. } => to.0 as usize,
        Body::Synced { from, .. } => processes as usize + from.0 as usize,
    }
}

/// Links the last slot of a chain, if it has one, to the slot at a place.
fn link_last(links: &mut Vec<Option<usize>>, last: Option<usize>, place: usize)
    requires { IfSome last (λ i. i < vec_len links.old) }
    ensures items { links.new.items ≡ with_link last place links.old.items }
    ensures len { vec_len links.new ≡ vec_len links.old }
    ensures capacity { vec_capacity links.new ≡ vec_capacity links.old }
{
    if let Some(last) = last {
        links[last] = Some(place);
    }
}

/// The lower of two places.
fn lower(one: Option<usize>, other: Option<usize>) -> Option<usize>
    ensures { result ≡ lower_of one other }
{
    match (one, other) {
        (Some(one), Some(other)) => Some(one.min(other)),
        (None, place) | (place, None) => place,
    }
}

/// A copy of a list with as much room.
fn copied_with_room<T: Copy>(alloc: Global, list: &Vec<T>) -> Result<Vec<T>, AllocError>
    ensures items { IfOk result (λ copy. copy.items ≡ list.now.items) }
    ensures len { IfOk result (λ copy. vec_len copy ≡ vec_len list.now) }
    ensures capacity { IfOk result (λ copy. vec_capacity list.now ≤ vec_capacity copy) }
{
    let mut copy = Vec::with_capacity(alloc, list.capacity())?;
    copy.extend_from_slice(list)?;
    Ok(copy)
}

impl Pool {
    /// A pool with no message and no room.
    pub(crate) fn make(alloc: Global, processes: u32) -> Result<Pool, AllocError>
        ensures { IfOk result (λ pool. IsPool pool × (pool.slots.items ≡ []) × (pool.sent ≡ 0)
            × (pool.processes ≡ processes)) }
    {
        let none = Ends {
            first: None,
            last: None,
        };
        let ends = vec![in alloc; none; 2 * processes as usize]?;
        Ok(Pool {
            slots: Vec::new(alloc),
            there: 0,
            sent: 0,
            links: Vec::new(alloc),
            ends,
            processes,
            busy: ProcSet::empty(),
        })
    }

    /// A pool with the same messages, and with as much room.
    pub(crate) fn try_copy(&self, alloc: Global) -> Result<Pool, AllocError>
        requires { IsPool self.now }
        ensures pool { IfOk result IsPool }
        ensures same { IfOk result (λ copy.
            there_of copy.slots.items ≡ there_of self.now.slots.items) }
        ensures like { IfOk result (KeepsRoom self.now) }
    {
        Ok(Pool {
            slots: copied_with_room(alloc, &self.slots)?,
            there: self.there,
            sent: self.sent,
            links: copied_with_room(alloc, &self.links)?,
            ends: Vec::from_slice(alloc, &self.ends)?,
            processes: self.processes,
            busy: self.busy,
        })
    }

    /// Makes room for `count` more messages.
    pub(crate) fn reserve(&mut self, count: usize) -> Result<(), AllocError>
        requires { IsPool self.old }
        ensures pool { IsPool self.new }
        ensures same { there_of self.new.slots.items ≡ there_of self.old.slots.items }
        ensures tidy { IsTidy self.new }
        ensures like { KeepsRoom self.old self.new }
        ensures ok { OnOk result (HasRoom count self.new) }
        ensures there { HasRoom count self.old → IsOk result }
    {
        self.tidy();
        self.slots.reserve(count)?;
        self.links.reserve(count)
    }

    /// Clears the vacated slots away once there are more than twice as many slots as messages in
    /// flight, and more than twice as many as chains. So over many calls it costs each little.
    fn tidy(&mut self)
        requires { IsPool self.old }
        ensures pool { IsPool self.new }
        ensures same { there_of self.new.slots.items ≡ there_of self.old.slots.items }
        ensures tidy { IsTidy self.new }
        ensures like { KeepsRoom self.old self.new }
    {
        if self.slots.len() / 2 <= self.there.max(self.ends.len()) {
            return;
        }
        self.clear_away();
    }

    /// Clears the vacated slots away, and chains the others anew.
    fn clear_away(&mut self)
        requires { IsPool self.old }
        ensures pool { IsPool self.new }
        ensures same { there_of self.new.slots.items ≡ there_of self.old.slots.items }
        ensures few { vec_len self.new.slots ≡ length (there_of self.new.slots.items) }
        ensures like { KeepsRoom self.old self.new }
    {
        self.slots.retain(|slot| slot.there);
        self.links.clear();
        self.ends.fill(Ends {
            first: None,
            last: None,
        });
        self.busy = ProcSet::empty();
        for _place in 0..self.slots.len() {
            self.attach();
        }
    }

    /// Attaches the first slot that isn't in its chain yet.
    fn attach(&mut self)
        requires chained { IsChained (vec_len self.old.links) self.old }
        requires within { vec_len self.old.links < vec_len self.old.slots }
        requires there { is_there self.old.slots.items (vec_len self.old.links) ≡ true }
        requires known { All (λ slot. process_of slot.message.body < self.old.processes)
            self.old.slots.items }
        requires noted { (p : ℕ) → BusyIsRight self.old p }
        requires room { vec_len self.old.links < vec_capacity self.old.links }
        ensures chained { IsChained (vec_len self.old.links + 1) self.new }
        ensures noted { (p : ℕ) → BusyIsRight self.new p }
        ensures rest { self.new ≡ record self.old
            { links = self.new.links; ends = self.new.ends; busy = self.new.busy } }
        ensures len { vec_len self.new.links ≡ vec_len self.old.links + 1 }
        ensures capacity { vec_capacity self.new.links ≡ vec_capacity self.old.links }
    {
        let place = self.links.len();
        let body = self.slots[place].message.body;
        let chain = chain(self.processes, body);
        let ends = self.ends[chain];
        link_last(&mut self.links, ends.last, place);
        self.links.push_reserved(None);
        self.ends[chain] = Ends {
            first: ends.first.or(Some(place)),
            last: Some(place),
        };
        self.update_busy(body.process());
    }

    /// Puts a process into the busy set, or takes it out, as its chains say.
    fn update_busy(&mut self, p: ProcId)
        requires wide { vec_len self.old.ends ≡ self.old.processes + self.old.processes }
        requires process { p.0 < self.old.processes }
        requires others { (q : ℕ) → (q ≡ p.0 → ⊥) → BusyIsRight self.old q }
        ensures noted { (q : ℕ) → BusyIsRight self.new q }
        ensures rest { self.new ≡ record self.old { busy = self.new.busy } }
    {
        // no set has a process from 1024 on
        self.busy.invariant();
        if p.0 >= MOST_PROCESSES {
            return;
        }
        let ack = self.ends[self.processes as usize + p.0 as usize].first;
        if lower(self.ends[p.0 as usize].first, ack).is_some() {
            self.busy.put(p);
        } else {
            self.busy.drop_one(p);
        }
    }

    /// Puts a message behind all others and returns its number.
    pub(crate) fn push(&mut self, body: Body) -> u64
        requires pool { IsPool self.old }
        requires room { HasRoom 1 self.old }
        requires process { process_of body < self.old.processes }
        requires countable { self.old.sent + 1 < 2 ^ 64 }
        ensures pool { IsPool self.new }
        ensures number { result ≡ self.old.sent }
        ensures sent { self.new.sent ≡ self.old.sent + 1 }
        ensures processes { self.new.processes ≡ self.old.processes }
        ensures there { there_of self.new.slots.items
            ≡ there_of self.old.slots.items ++ record { number = self.old.sent; body = body } ∷ [] }
        ensures room { (n : ℕ) → HasRoom (n + 1) self.old → HasRoom n self.new }
    {
        let number = self.sent;
        self.slots.push_reserved(Slot {
            message: Message { number, body },
            there: true,
        });
        self.there += 1;
        self.sent += 1;
        self.attach();
        number
    }

    /// How many messages are in flight.
    pub(crate) fn len(&self) -> usize
        requires { IsPool self.now }
        ensures { result ≡ length (there_of self.now.slots.items) }
    {
        self.there
    }

    /// The number of the next message.
    pub(crate) fn sent(&self) -> u64
        ensures { result ≡ self.now.sent }
    {
        self.sent
    }

    /// The body of the message in the slot at a place.
    pub(crate) fn body(&self, place: usize) -> Body
        requires { place < vec_len self.now.slots }
        ensures { (other : Slot) →
            result ≡ (slice_index_or self.now.slots.items place other).message.body }
    {
        self.slots[place].message.body
    }

    /// The place of the message in flight with a number.
    pub(crate) fn place_of(&self, number: u64) -> Option<usize>
        requires { IsPool self.now }
        ensures found { IfSome result (λ i. IsThereAt self.now.slots.items number i) }
        ensures missing { IfNone result (body_of (there_of self.now.slots.items) number ≡ None) }
    {
        place_there(&self.slots, number)
    }

    /// The next slot behind a place, of the same chain, whose message is in flight.
    fn next_there(&self, place: usize) -> Option<usize>
        requires within { place < vec_len self.now.slots }
        requires many { vec_len self.now.links ≡ vec_len self.now.slots }
        requires linked { AreLinked (vec_len self.now.slots) self.now.processes
            self.now.slots.items self.now.links.items }
        ensures { let chain = chain_at self.now.processes self.now.slots.items place in
            IsFirst (IsThereOnChain self.now.processes self.now.slots.items chain) (place + 1)
            (vec_len self.now.slots) result }
    {
        let mut at = self.links[place];
        while let Some(next) = at {
            if self.slots[next].there {
                return at;
            }
            at = self.links[next];
        }
        None
    }

    /// Takes the message at a place out and returns its body.
    pub(crate) fn vacate(&mut self, place: usize) -> Body
        requires pool { IsPool self.old }
        requires within { place < vec_len self.old.slots }
        requires there { is_there self.old.slots.items place ≡ true }
        ensures pool { IsPool self.new }
        ensures slot { (other : Slot) → self.new.slots.items
            ≡ slice_set self.old.slots.items place
            (vacated (slice_index_or self.old.slots.items place other)) }
        ensures body { (other : Slot) →
            result ≡ (slice_index_or self.old.slots.items place other).message.body }
        ensures like { KeepsRoom self.old self.new }
    {
        let body = self.slots[place].message.body;
        self.slots[place].there = false;
        self.there -= 1;
        let chain = chain(self.processes, body);
        if self.ends[chain].first == Some(place) {
            self.ends[chain].first = self.next_there(place);
            self.update_busy(body.process());
        }
        body
    }

    /// Takes every acknowledgement by a process out.
    pub(crate) fn void(&mut self, p: ProcId)
        requires { IsPool self.old }
        ensures pool { IsPool self.new }
        ensures there { there_of self.new.slots.items
            ≡ filter (λ message. not (is_ack_from p.0 message.body))
            (there_of self.old.slots.items) }
        ensures like { KeepsRoom self.old self.new }
    {
        if p.0 < self.processes {
            let acks = self.processes as usize + p.0 as usize;
            while let Some(place) = self.ends[acks].first {
                self.vacate(place);
            }
        }
    }

    /// The first place of a process's message whose receiver is up, `up` saying whether the process
    /// is.
    fn first_of(&self, p: ProcId, up: bool) -> Option<usize>
        requires pool { IsPool self.now }
        requires process { p.0 < self.now.processes }
        ensures { IsFirst (IsReachedOf self.now p.0 up) 0 (vec_len self.now.slots) result }
    {
        let ack = self.ends[self.processes as usize + p.0 as usize].first;
        if up {
            lower(ack, self.ends[p.0 as usize].first)
        } else {
            ack
        }
    }

    /// The first place of a process's message that may be delivered.
    fn free_of(&self, p: ProcId, until: &[u64], now: u64, up: &ProcSet) -> Option<usize>
        requires pool { IsPool self.now }
        requires process { p.0 < self.now.processes }
        ensures { IsFirst (IsFreeOf self.now until.now now (sets.contains up.now) p.0) 0
            (vec_len self.now.slots) result }
    {
        if !clog_lasts(until, now, p) {
            self.first_of(p, up.contains(p))
        } else {
            None
        }
    }

    /// The number of the first message that may be delivered. Only the busy processes are asked,
    /// and those from 1024 on.
    pub(crate) fn first_free(&self, until: &[u64], now: u64, up: &ProcSet) -> Option<u64>
        requires pool { IsPool self.now }
        requires clogs { length until.now ≡ self.now.processes }
        ensures { result ≡ option_map (λ message. message.number)
            (find (may_be_taken until.now now (sets.contains up.now))
            (there_of self.now.slots.items)) }
    {
        let mut first = None;
        for p in self.busy.iter() {
            first = lower(first, self.free_of(p, until, now, up));
        }
        for beyond in MOST_PROCESSES..self.processes {
            first = lower(first, self.free_of(ProcId(beyond), until, now, up));
        }
        match first {
            Some(place) => Some(self.slots[place].message.number),
            None => None,
        }
    }
}
