//! The cluster that actors share, and their seats.
ghost use Rattle.std.specs.Prelude.{◌≡◌, ◌↔◌, ◌<◌, ◌≤◌, [], ◌∷◌, length, map, All, IfOk, IfErr, Some, Ok, vec_len};
ghost use Rattle.std.specs.Vec.{vec_capacity};
ghost use Rattle.fy_actors.specs.Desk.{DeskState, Worked, execution_of};
ghost use Rattle.fy_actors.specs.Parts.{PlaysTurn};
ghost use Rattle.fy_cluster.specs.Setup.{IsMet};
ghost use Rattle.fy_cluster.specs.declared.fault.Fault.TheVariants.{JournalFull};
ghost use Rattle.fy_shared.specs.Turnstile.{first_view};
ghost use Rattle.fy_shared.specs.Places.{IsPlaceOf, Gathered, seat_state};
ghost use Rattle.fy_shared.specs.Yard.{Yard, actor_count, IsSameSeat, KeepsReceipts, SeesMore, EndsWithAct, Turned, Together, closed_seat, new_seats, Settled, Missing};
ghost use Rattle.fy_shared.specs.AtDesk.{AtDesk, Does, OnlyWorks, MakesAct};
ghost use Rattle.fy_shared.specs.Parts.{PlaysAt};
ghost use Rattle.fy_shared.specs.declared.yard.CloseFault.TheVariants.{SeatsMissing};

use crate::places::{draw_ticket, inform, make_next_place, return_desk, wait_for_desk};
use crate::turns::{Ends, Place, Turnstile};
use atomic_table::Refused;
use fy_actors::{Desk, FaultActor, Turn};
use fy_acts::{Act, Entry, Reply};
use fy_cluster::{Cluster, Fault, laws};
use std::alloc::Global;
use std::boxed::Box;
use std::marker::Model;
use std::snapshot::Snapshot;
use std::sync::{Mutex, Wait};

/// A cluster that actors share. Each order and each turn has the cluster alone, in the order of the
/// tickets that are drawn for them; whoever holds no ticket holds up nobody.
#[derive(Drop)]
pub struct Shared {
    table: Turnstile,
    /// One at a time comes in, draws a ticket and goes out once it was served.
    door: Mutex<()>,
    actors: u32,
}

impl Model for Shared {
    ghost use Rattle.std.specs.Coded.{codes};
    ghost use Rattle.std.specs.Prelude.{◌≡◌, ◌≤◌};
    ghost use Rattle.fy_locality.specs.contracts.locality.Locality as e;
    ghost use Rattle.fy_policy.specs.TreeCode.{tree_code};
    ghost use Rattle.fy_cluster.specs.Setup.{IsMet};
    ghost use Rattle.fy_shared.specs.Yard.{Yard, actor_count};
    ghost use Rattle.fy_shared.specs.Places.{IsTurnstile};
    ghost use Rattle.atomic_table.specs.Seated.{table_id_coded};

    ghost Value = { Yard };

    ghost coded = { Prim.hlevel (codes, tree_code, e.the_row.coded, table_id_coded) };

    ghost view = { λ s.
        record { id = s.table.shared.table_id; setup = s.table.shared.key.value } };

    ghost invariant = { λ s. IsTurnstile s.table.shared.table_id
        × (s.actors ≡ actor_count s.table.shared.key.value)
        × (1 ≤ s.actors) × IsMet s.table.shared.key.value };
}

/// An actor's seat at a shared cluster, with its receipts: the entries of all its acts, in order.
/// After the close it has the receipts alone.
#[derive(Drop)]
pub struct Seat {
    actor: u32,
    receipts: Vec<Entry>,
    place: Option<Place>,
}

impl Model for Seat {
    ghost use Rattle.std.specs.Coded.{codes};
    ghost use Rattle.fy_locality.specs.contracts.locality.Locality as e;
    ghost use Rattle.fy_policy.specs.TreeCode.{tree_code};
    ghost use Rattle.fy_shared.specs.Yard.{SeatState};
    ghost use Rattle.fy_shared.specs.Places.{seat_state, IsSeat};
    ghost use Rattle.atomic_table.specs.Seated.{table_id_coded};

    ghost Value = { SeatState };

    ghost coded = { Prim.hlevel (codes, tree_code, e.the_row.coded, table_id_coded) };

    ghost view = { λ s. seat_state s.actor s.receipts.items s.place };

    ghost invariant = { λ s. IsSeat s.actor s.receipts.items s.place };
}

/// The entry that an order left: its place in the journal, from 0, and its reply.
#[derive(Clone, Copy, PartialEq, Eq, Debug)]
pub struct Receipt {
    pub at: u32,
    pub reply: Reply,
}

/// What is left once all actors are done: the cluster, and each seat with its receipts.
#[derive(Drop)]
pub struct Closed {
    pub cluster: Cluster,
    pub seats: Vec<Seat>,
}

/// An allocation failed. `meet` never answers it.
#[derive(Clone, Copy, PartialEq, Eq, Debug)]
pub struct NoMemory;

/// Why a cluster wasn't closed. All that was handed in comes back as it was.
#[derive(Drop)]
pub enum CloseFault {
    /// Some actor's seat isn't among those handed in.
    SeatsMissing(Shared, Vec<Seat>),
    /// An allocation failed. `close` never answers it.
    NoMemory(Shared, Vec<Seat>),
}

/// How many actors there are, at least one.
fn count_actors(cluster: &Cluster) -> u32
    ensures { (result ≡ actor_count cluster.now.setup) × (1 ≤ result) }
{
    let config = cluster.config();
    config.invariant();
    config.actors()
}

/// The cluster of the desk in the one slot.
fn cluster_in(mut slots: Vec<Option<Desk>>) -> Cluster
    requires { (desk : DeskState) × (slots.items ≡ Some desk ∷ []) }
    ensures { (desk : DeskState) → slots.items ≡ Some desk ∷ [] → result ≡ execution_of desk }
{
    let Some(Some(desk)) = slots.pop() else {
        unreachable!()
    };
    desk.into_cluster()
}

/// The first place, from which the others are split.
fn open_table(alloc: Global, cluster: Cluster, actors: u32) -> Result<(Shared, Place), Cluster>
    requires empty { cluster.journal ≡ [] }
    requires actors { (actors ≡ actor_count cluster.setup) × (1 ≤ actors) }
    ensures ok { IfOk result (λ made. (made.0.setup ≡ cluster.setup)
        × (made.1.table_id ≡ made.0.id) × (made.1.me ≡ (first_view cluster.setup, []))) }
    ensures err { IfErr result (λ back. back ≡ cluster) }
{
    let Ok(mut slots) = Vec::with_capacity(alloc, 1) else {
        return Err(cluster);
    };
    cluster.config().invariant();
    let setup = Snapshot::of(cluster.config());
    slots.push_reserved(Some(Desk::make(alloc, cluster)));
    let (table, place) = match Turnstile::new(alloc, &[0, 0, 0], slots, &setup) {
        Ok(made) => made,
        Err(Refused { slots }) => return Err(cluster_in(slots)),
    };
    let door = Mutex::new(());
    let shared = Shared {
        table,
        door,
        actors,
    };
    Ok((shared, place))
}

/// A seat at its place.
fn seat_at(alloc: Global, place: Place, actor: u32) -> Seat
    requires { IsPlaceOf actor [] place }
    ensures { result ≡ seat_state actor [] (Some place) }
{
    Seat {
        actor,
        receipts: Vec::new(alloc),
        place: Some(place),
    }
}

/// Seats all actors by number, the first at this place.
fn seat_all(
    alloc: Global,
    shared: &Shared,
    place: Place,
    mut seats: Vec<Seat>,
    actors: u32,
) -> Vec<Seat>
    requires room { (seats.items ≡ []) × (actors ≤ vec_capacity seats) }
    requires count { (1 ≤ actors) × (actors ≡ actor_count shared.now.setup) }
    requires place { (place.table_id ≡ shared.now.id)
        × (place.me ≡ (first_view shared.now.setup, [])) }
    ensures { result.items ≡ new_seats shared.now 0 actors }
{
    let mut place = place;
    for actor in 1..actors {
        let next = make_next_place(&shared.table, &mut place);
        seats.push_reserved(seat_at(alloc, next, actor));
    }
    let first = seat_at(alloc, place, 0);
    let inserted = seats.insert(0, first);
    prove!(inserted.is_ok());
    seats
}

/// Joins the places of all seats into one.
fn gather(shared: &Shared, seats: &mut Vec<Seat>) -> Place
    requires some { 0 < vec_len seats.old }
    requires seats { All (λ s. s.of ≡ Some shared.now) seats.old.items }
    ensures place { result.table_id ≡ shared.now.id }
    ensures left { seats.new.items ≡ map closed_seat seats.old.items }
    ensures gathered { Gathered shared.now seats.old.items result.me }
{
    let first = &mut seats[0];
    let mut place = first.take_place();
    for i in 1..seats.len() {
        let seat = &mut seats[i];
        let other = seat.take_place();
        shared.table.shared.join_seat::<Ends>(&mut place, other);
    }
    place
}

/// Makes an act at the desk. Its receipt tells its entry's place in the journal, and its reply.
fn make_act(desk: &mut Desk, act: Act) -> Result<Receipt, Fault>
    ensures makes { MakesAct desk.old desk.new act result }
    ensures worked { Worked desk.old desk.new }
{
    let at = desk.journal_len() as u32;
    let reply = desk.act(act)?;
    Ok(Receipt { at, reply })
}

impl Seat {
    /// The number of its actor.
    pub fn actor(&self) -> u32
        ensures { result ≡ self.now.actor }
    {
        self.actor
    }

    /// The entries of its actor's acts, in order.
    pub fn receipts(&self) -> &[Entry]
        ensures { result.now ≡ self.now.receipts }
    {
        self.receipts.as_slice()
    }

    /// Takes the place out.
    fn take_place(&mut self) -> Place
        requires { (yard : Yard) × (self.old.of ≡ Some yard) }
        ensures left { self.new ≡ closed_seat self.old }
        ensures place { seat_state self.old.actor self.old.receipts (Some result) ≡ self.old }
        ensures is { IsPlaceOf self.old.actor self.old.receipts result }
    {
        let Some(place) = self.place.take() else {
            unreachable!()
        };
        place
    }
}

impl Shared {
    /// Shares a cluster in which nothing happened yet, and gives a seat for each actor, by number.
    ///
    /// # Errors
    ///
    /// The cluster, as it was, where an allocation fails.
    pub fn open(alloc: Global, cluster: Cluster) -> Result<(Shared, Vec<Seat>), Cluster>
        requires { cluster.journal ≡ [] }
        ensures setup { IfOk result (λ made. made.0.setup ≡ cluster.setup) }
        ensures seats { IfOk result
            (λ made. made.1.items ≡ new_seats made.0 0 (actor_count cluster.setup)) }
        ensures err { IfErr result (λ back. back ≡ cluster) }
    {
        let actors = count_actors(&cluster);
        let Ok(seats) = Vec::with_capacity(alloc, actors as usize) else {
            return Err(cluster);
        };
        let (shared, place) = open_table(alloc, cluster, actors)?;
        let seats = seat_all(alloc, &shared, place, seats, actors);
        Ok((shared, seats))
    }

    /// Waits for the seat's turn, seats its actor at the desk, has `work` done there, and gives the
    /// desk back. Besides the desk, `work` changes `who` alone.
    fn with_desk<R: Wait, A, T, F: FnOnce(&mut A, &mut Desk) -> T>(
        &self,
        rt: &R,
        seat: &mut Seat,
        who: &mut A,
        work: F,
    ) -> T
        requires seat { seat.old.of ≡ Some self.now }
        requires callable { F.IsAlwaysCallable work }
        requires works { OnlyWorks F.FnOnce work }
        ensures same { IsSameSeat seat.old seat.new }
        ensures sees { SeesMore self.now seat.old seat.new }
        ensures turned { Turned seat.old seat.new }
        ensures did { AtDesk self.now seat.old seat.new
            (λ before after. Does F.FnOnce work who.old before result who.new after) }
    {
        let mut place = seat.take_place();
        let inside = self.door.lock(rt);
        let ticket = draw_ticket(&self.table, &mut place);
        let mut desk = wait_for_desk(rt, &self.table, &mut place, ticket);
        desk.sit(seat.actor, &mut seat.receipts);
        let answer = work(who, &mut desk);
        desk.sit(0, &mut seat.receipts);
        return_desk(&self.table, &mut place, desk);
        drop(inside);
        seat.place = Some(place);
        laws::journals_survive();
        answer
    }

    /// The seat's actor makes an act, and the entry that it leaves is also the seat's last receipt.
    /// It waits for its turn. The seat has to be one of this cluster's.
    ///
    /// Whatever is answered, the seat has then seen a legal journal that begins with all that it
    /// had seen, in which its actor's entries are its receipts; of an answer that is `Ok` it is the
    /// journal up to the act's entry.
    ///
    /// # Errors
    ///
    /// In this order: `JournalFull` where the journal has as many entries as it may have;
    /// `NoMemory`. Cluster and receipts are then as they were before the act.
    pub fn order<R: Wait>(&self, rt: &R, seat: &mut Seat, act: Act) -> Result<Receipt, Fault>
        requires { seat.old.of ≡ Some self.now }
        ensures same { IsSameSeat seat.old seat.new }
        ensures sees { SeesMore self.now seat.old seat.new }
        ensures ok { IfOk result
            (λ receipt. EndsWithAct seat.old seat.new act receipt.at receipt.reply) }
        ensures err { IfErr result (λ fault. (seat.new.receipts ≡ seat.old.receipts)
            × ((fault ≡ JournalFull) ↔ (self.now.setup.limit ≤ length seat.new.seen))) }
    {
        // An order changes nothing but the desk.
        self.with_desk(
            rt,
            seat,
            &mut (),
            |_: &mut (), desk: &mut Desk|
                ensures makes { MakesAct desk.old desk.new act result }
                ensures worked { Worked desk.old desk.new }
            { make_act(desk, act) },
        )
    }

    /// The boxed actor takes a turn for the seat's actor, and the entries that it leaves are also
    /// the seat's last receipts. It waits for its turn. The seat has to be one of this cluster's.
    ///
    /// Whatever is answered, the seat has then seen a legal journal that begins with all that it
    /// had seen, in which its actor's entries are its receipts, and which ends with the new ones.
    /// The turn is one of the part that the boxed actor plays.
    ///
    /// # Errors
    ///
    /// The actor's. What the turn did before it stands.
    pub fn turn<R: Wait>(
        &self,
        rt: &R,
        seat: &mut Seat,
        actor: &mut Box<dyn FaultActor + Send>,
    ) -> Result<Turn, Fault>
        requires { seat.old.of ≡ Some self.now }
        ensures same { IsSameSeat seat.old seat.new }
        ensures sees { SeesMore self.now seat.old seat.new }
        ensures turned { Turned seat.old seat.new }
        ensures plays { PlaysAt self.now seat.old seat.new (part actor.old) (part actor.new)
            result }
    {
        self.with_desk(
            rt,
            seat,
            actor,
            |actor: &mut Box<dyn FaultActor + Send>, desk: &mut Desk|
                ensures plays { PlaysTurn (part actor.old, desk.old) (part actor.new, desk.new)
                    result }
                ensures worked { Worked desk.old desk.new }
            { actor.turn(desk) },
        )
    }

    /// Two seats tell each other what they have seen: of their two journals one begins with the
    /// other, and both have then seen the longer. It doesn't allocate and waits for nobody. Both
    /// seats have to be of this cluster's.
    ///
    /// # Errors
    ///
    /// None: the answer is always `Ok`.
    pub fn meet(&self, one: &mut Seat, other: &mut Seat) -> Result<(), NoMemory>
        requires { (one.old.of ≡ Some self.now) × (other.old.of ≡ Some self.now) }
        ensures always { result ≡ Ok tt }
        ensures one { KeepsReceipts one.old one.new × SeesMore self.now one.old one.new }
        ensures other { KeepsReceipts other.old other.new × SeesMore self.now other.old other.new }
        ensures together { Together one.old other.old one.new other.new }
    {
        let mut here = one.take_place();
        let mut there = other.take_place();
        inform(&self.table, &mut here, &mut there);
        inform(&self.table, &mut there, &mut here);
        one.place = Some(here);
        other.place = Some(there);
        laws::journals_survive();
        Ok(())
    }

    /// Ends the sharing, where each actor's seat is handed in; each has to be one of this
    /// cluster's. The journal is then legal, begins with what each seat had seen, and its entries
    /// of each actor are the receipts of that actor's seat. It doesn't allocate and waits for
    /// nobody.
    ///
    /// # Errors
    ///
    /// `SeatsMissing` exactly where some actor's seat isn't handed in, with all that was.
    pub fn close(self, mut seats: Vec<Seat>) -> Result<Closed, CloseFault>
        requires { All (λ seat. seat.of ≡ Some self) seats.items }
        ensures ok { IfOk result
            (λ closed. Settled self seats.items closed.cluster closed.seats.items) }
        ensures err { IfErr result (λ fault. (fault ≡ SeatsMissing self seats)
            × Missing (actor_count self.setup) seats.items) }
    {
        if seats.len() < self.actors as usize {
            return Err(CloseFault::SeatsMissing(self, seats));
        }
        let place = gather(&self, &mut seats);
        laws::journals_survive();
        let Shared {
            table,
            door: _,
            actors: _,
        } = self;
        let mut closed = table.close_with(place);
        let desk = closed.take(0);
        closed.free();
        let Some(desk) = desk else { unreachable!() };
        Ok(Closed {
            cluster: desk.into_cluster(),
            seats,
        })
    }
}
