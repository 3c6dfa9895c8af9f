//! Steps of a place at the turnstile.
ghost use Rattle.std.specs.Prelude.{◌≡◌, [], None};
ghost use Rattle.fy_cluster.specs.Replies.{Legal};
ghost use Rattle.fy_actors.specs.Desk.{entries_by};
ghost use Rattle.fy_shared.specs.Yard.{StartsWith};
ghost use Rattle.fy_shared.specs.Turnstile.{without_ticket, after_count, after_split, next_seat, after_meeting, told_by};
ghost use Rattle.fy_shared.specs.Places.{IsTurnstile, HasNoTicket, IsWaiting, DrewTicket, IsServed, HoldsDesk, IsGrown, IsOpener};

use crate::turns::{Advance, Count, Draw, Look, MakeNext, Meet, Note, Place, Turnstile};
use fy_actors::Desk;
use std::sync::Wait;
use std::thread;

/// Draws a ticket.
pub(crate) fn draw_ticket(table: &Turnstile, place: &mut Place) -> u64
    requires table { (place.old.table_id ≡ table.now.shared.table_id)
        × IsTurnstile table.now.shared.table_id }
    requires calm { HasNoTicket place.old.me }
    ensures place { place.new.table_id ≡ place.old.table_id }
    ensures waits { DrewTicket place.old.me place.new.me result }
{
    table.shared.fetch_add::<Draw>(place, 1, 1)
}

/// Looks until the ticket is served, and takes the desk. Inside the door the first look finds it.
pub(crate) fn wait_for_desk<R: Wait>(
    rt: &R,
    table: &Turnstile,
    place: &mut Place,
    ticket: u64,
) -> Desk
    requires table { (place.old.table_id ≡ table.now.shared.table_id)
        × IsTurnstile table.now.shared.table_id }
    requires waits { IsWaiting place.old.me ticket }
    ensures place { place.new.table_id ≡ place.old.table_id }
    ensures served { IsServed place.old.me.0 place.new.me result }
{
    for _ in rt.forever() {
        if table.shared.load::<Look>(place, 2) == ticket {
            let Some(desk) = table.shared.exchange(place, 0, None) else {
                unreachable!()
            };
            return desk;
        }
        thread::yield_now();
    }
    unreachable!()
}

/// Gives the desk back, counts its entries and lets the next ticket be served.
pub(crate) fn return_desk(table: &Turnstile, place: &mut Place, desk: Desk)
    requires table { (place.old.table_id ≡ table.now.shared.table_id)
        × IsTurnstile table.now.shared.table_id }
    requires serving { HoldsDesk place.old.me }
    requires grown { IsGrown place.old.me.0 desk }
    ensures place { place.new.table_id ≡ place.old.table_id }
    ensures seen { place.new.me ≡ (without_ticket (after_count place.old.me.0 desk.journal), []) }
    ensures legal { Legal desk.setup desk.journal }
{
    let count = desk.journal_len() as u64;
    table.shared.exchange(place, 0, Some(desk));
    table.shared.store::<Count>(place, 0, count);
    table.shared.fetch_add::<Advance>(place, 2, 1);
}

/// Makes the next actor's place.
pub(crate) fn make_next_place(table: &Turnstile, place: &mut Place) -> Place
    requires table { (place.old.table_id ≡ table.now.shared.table_id)
        × IsTurnstile table.now.shared.table_id }
    requires opens { IsOpener place.old.me }
    ensures kept { (place.new.table_id ≡ place.old.table_id)
        × (place.new.me ≡ (after_split place.old.me.0, place.old.me.1)) }
    ensures new { (result.table_id ≡ place.old.table_id)
        × (result.me ≡ (next_seat place.old.me.0, [])) }
{
    table.shared.split_seat::<MakeNext>(place)
}

/// Tells a place what another has seen, and the first then has seen the longer.
pub(crate) fn inform(table: &Turnstile, place: &mut Place, other: &mut Place)
    requires table { (place.old.table_id ≡ table.now.shared.table_id)
        × (other.old.table_id ≡ table.now.shared.table_id)
        × IsTurnstile table.now.shared.table_id }
    requires calm { HasNoTicket place.old.me × HasNoTicket other.old.me }
    ensures other { (other.new.table_id ≡ other.old.table_id) × (other.new.me ≡ other.old.me) }
    ensures place { (place.new.table_id ≡ place.old.table_id)
        × (place.new.me
        ≡ (after_meeting (told_by place.old.me.0 other.old.me.0), place.old.me.1)) }
    ensures longer { StartsWith place.new.me.0.seen place.old.me.0.seen
        × StartsWith place.new.me.0.seen other.old.me.0.seen }
    ensures legal { Legal place.old.me.0.setup place.new.me.0.seen }
    ensures own { entries_by place.old.me.0.actor place.new.me.0.seen ≡ place.old.me.0.mine }
{
    let note = table.shared.split_seat::<Note>(other);
    table.shared.join_seat::<Note>(place, note);
    table.shared.load::<Meet>(place, 0);
}
