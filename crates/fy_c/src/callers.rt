//! Callers: each call that asks something of its caller is made here, on a guard or a check that
//! another call has opened. They are proved with the crate, so what is asked can be met, and is
//! kept from call to call. Nothing calls them, so the library has none of their code.
ghost use Rattle.std.specs.Prelude.{◌≢◌};
ghost use Rattle.std.specs.Ptr.{null_ptr};

use crate::acting::{fy_act, fy_audit, fy_journal_len};
use crate::asking::{
    FySeen, fy_is_acked, fy_keeper, fy_needed, fy_process, fy_process_count, fy_sight, fy_state,
};
use crate::bearing::{FyBorne, fy_bears};
use crate::check_calls::{fy_begin_check, fy_end_check, fy_finding, fy_read_line};
use crate::check_handle::FyCheck;
use crate::clogging::{fy_clog, fy_unclog};
use crate::entering::{fy_heal, fy_up};
use crate::handle::FyGuard;
use crate::killable::fy_killable;
use crate::killing::{fy_judge, fy_kill};
use crate::killing_process::{fy_judge_process, fy_kill_process};
use crate::making::{FyReply, NOTHING_TOLD};
use crate::opening::{fy_close, fy_open, fy_reset, fy_try_copy};
use crate::planning::{FyOrder, VALUE_BYTES, fy_attrition_plan, fy_plan_orders, fy_swizzle_plan};
use crate::questioning::fy_ask;
use crate::resuming::fy_open_after;
use crate::rights::{fy_give, fy_protect, fy_take, fy_unprotect};
use crate::sets::{fy_destroyed_set, fy_gone_set, fy_is_destroyed, fy_left, fy_targets, fy_up_set};
use crate::storing::{fy_begin, fy_form, fy_replace};
use crate::traffic::{fy_copy, fy_deliver, fy_lose, fy_resend, fy_sync, fy_tick};
use std::alloc::Global;

/// Kills by name and by number, and what each would get.
fn kill_and_judge(guard: &mut FyGuard)
    requires { guard.old.at ≢ null_ptr }
    ensures open { guard.new.at ≢ null_ptr }
{
    let (mut struck, mut rule, mut named) = (0, 0, 0);
    let _ = fy_judge(guard, 1, 3, b"z0", 4, 2, &mut struck, &mut rule, &mut named);
    let _ = fy_kill(
        guard,
        1,
        3,
        b"z0",
        4,
        2,
        0,
        &mut struck,
        &mut rule,
        &mut named,
    );
    let _ = fy_judge_process(guard, 1, 0, 4, 2, &mut struck, &mut rule, &mut named);
    let _ = fy_kill_process(guard, 1, 0, 4, 2, 0, &mut struck, &mut rule, &mut named);
}

/// A line of a script, and the line of an entry.
fn act_and_audit(alloc: Global, guard: &mut FyGuard)
    requires { guard.old.at ≢ null_ptr }
    ensures open { guard.new.at ≢ null_ptr }
{
    let (mut buffer, mut told) = ([0; 256], 0);
    let line = b"{\"by\":0,\"act\":{\"tick\":{\"ticks\":1}}}";
    let _ = fy_act(alloc, guard, line, &mut buffer, &mut told);
    let asks = b"{\"ask\":{\"sight\":{}}}";
    let _ = fy_ask(alloc, guard, asks, &mut buffer, &mut told);
    if fy_journal_len(guard) > 0 {
        let _ = fy_audit(alloc, guard, 0, &mut buffer, &mut told);
    }
}

/// Teams and records.
fn store(alloc: Global, guard: &mut FyGuard, reply: &mut FyReply)
    requires { guard.old.at ≢ null_ptr }
    ensures open { guard.new.at ≢ null_ptr }
{
    let _ = fy_form(alloc, guard, 0, &[0, 2], 0, reply);
    let _ = fy_begin(alloc, guard, 0, 0, b"payload", reply);
    let _ = fy_replace(guard, 0, 0, 2, 4, reply);
}

/// Messages, syncs, copies and time.
fn move_data(guard: &mut FyGuard, reply: &mut FyReply)
    requires { guard.old.at ≢ null_ptr }
    ensures open { guard.new.at ≢ null_ptr }
{
    let _ = fy_deliver(guard, 0, 0, reply);
    let _ = fy_lose(guard, 0, 1, reply);
    let _ = fy_resend(guard, 0, 0, 2, reply);
    let _ = fy_sync(guard, 0, 0, reply);
    let _ = fy_copy(guard, 0, 0, 0, 2, reply);
    let _ = fy_tick(guard, 0, 1, reply);
}

/// A process that is started and healed, and one that is clogged and freed.
fn start_and_clog(guard: &mut FyGuard, reply: &mut FyReply)
    requires { guard.old.at ≢ null_ptr }
    ensures open { guard.new.at ≢ null_ptr }
{
    let mut refusal = 0;
    let _ = fy_up(guard, 0, 0, &mut refusal);
    let _ = fy_heal(guard, 0, 0, &mut refusal);
    let _ = fy_clog(guard, 1, 1, b"p1", 10, reply);
    let _ = fy_unclog(guard, 1, 1, b"p1", reply);
}

/// Grants and protections.
fn allow_and_bar(guard: &mut FyGuard, reply: &mut FyReply)
    requires { guard.old.at ≢ null_ptr }
    ensures open { guard.new.at ≢ null_ptr }
{
    let _ = fy_give(guard, 2, 1, 15, 0, b"", reply);
    let _ = fy_take(guard, 2, 1, 0, reply);
    let _ = fy_protect(guard, 2, 0, 8, reply);
    let _ = fy_unprotect(guard, 2, 0, 8, reply);
}

/// What is asked of the cluster.
fn ask(guard: &mut FyGuard)
    requires { guard.old.at ≢ null_ptr }
    ensures open { guard.new.at ≢ null_ptr }
{
    let process = fy_process(guard, b"p0");
    if process < fy_process_count(guard) {
        let _ = fy_state(guard, process);
        let _ = fy_needed(guard, process);
        let _ = fy_is_destroyed(guard, process);
    }
    if fy_is_acked(guard, 0) == 1 {
        let _ = fy_keeper(guard, 0);
    }
    let mut seen = FySeen {
        now: 0,
        deliverable: 0,
        unsynced: 0,
        sleeping: 0,
    };
    fy_sight(guard, &mut seen);
}

/// Sets of processes, of 16 words each.
fn ask_for_sets(guard: &mut FyGuard)
    requires { guard.old.at ≢ null_ptr }
    ensures open { guard.new.at ≢ null_ptr }
{
    let mut set = [0; 16];
    fy_left(guard, &mut set);
    fy_up_set(guard, &mut set);
    fy_destroyed_set(guard, &mut set);
    fy_gone_set(guard, &mut set);
    let _ = fy_targets(guard, 3, b"z0", &mut set);
}

/// How much may still be lost, and how hard each process may still be killed.
fn look_ahead(alloc: Global, guard: &mut FyGuard)
    requires { guard.old.at ≢ null_ptr }
    ensures open { guard.new.at ≢ null_ptr }
{
    let mut borne = FyBorne {
        emptied: 0,
        gone: 0,
        emptied_exact: 0,
        gone_exact: 0,
    };
    let _ = fy_bears(alloc, guard, &mut borne);
    let (mut kinds, mut told) = ([0; 1024], 0);
    let _ = fy_killable(guard, 1, &mut kinds, &mut told);
}

/// The orders of plans.
fn plan(alloc: Global, guard: &mut FyGuard)
    requires { guard.old.at ≢ null_ptr }
    ensures open { guard.new.at ≢ null_ptr }
{
    let none = FyOrder {
        ticks: 0,
        tear: 0,
        act: 0,
        key: 0,
        kind: 0,
        floor: 0,
        value: [0; VALUE_BYTES],
    };
    let (mut orders, mut told) = ([none; 12], 0);
    let _ = fy_swizzle_plan(alloc, guard, 7, 1, 10, &mut orders, &mut told);
    let _ = fy_attrition_plan(alloc, guard, 7, 1, 2, 1, 4, 2, 0, &mut orders, &mut told);
    let _ = fy_plan_orders(alloc, guard, 1, 7, 1, &mut orders);
}

/// A second guard with the journal of the first, which then begins anew.
fn copy_and_reset(alloc: Global, guard: &mut FyGuard, other: FyGuard)
    requires { guard.old.at ≢ null_ptr }
    ensures open { guard.new.at ≢ null_ptr }
{
    let mut other = other;
    if fy_try_copy(alloc, guard, &mut other) == 0 {
        fy_close(alloc, other);
    }
    let _ = fy_reset(alloc, guard);
}

/// All that is done with a guard, from when it is opened until it is closed.
fn use_guard(alloc: Global, config: &[u8], guard: FyGuard, other: FyGuard) {
    let (mut guard, mut reply) = (guard, NOTHING_TOLD);
    if fy_open(alloc, config, &mut guard) != 0 {
        return;
    }
    kill_and_judge(&mut guard);
    act_and_audit(alloc, &mut guard);
    store(alloc, &mut guard, &mut reply);
    move_data(&mut guard, &mut reply);
    start_and_clog(&mut guard, &mut reply);
    allow_and_bar(&mut guard, &mut reply);
    ask(&mut guard);
    ask_for_sets(&mut guard);
    look_ahead(alloc, &mut guard);
    plan(alloc, &mut guard);
    copy_and_reset(alloc, &mut guard, other);
    fy_close(alloc, guard);
}

/// A guard that goes on where an audit ends.
fn use_guard_after(alloc: Global, config: &[u8], audit: &[u8], guard: FyGuard) {
    let (mut guard, mut first_bad) = (guard, 0);
    if fy_open_after(alloc, config, audit, &mut guard, &mut first_bad) == 0 {
        kill_and_judge(&mut guard);
        fy_close(alloc, guard);
    }
}

/// An audit of two lines that is checked.
fn use_check(alloc: Global, config: &[u8], check: FyCheck) {
    let (mut check, mut count, mut first_bad) = (check, 0, 0);
    if fy_begin_check(alloc, config, &mut check) != 0 {
        return;
    }
    let tick = b"{\"act\":{\"tick\":{\"ticks\":1}},\"at\":0,\"by\":0,\"reply\":{\"time\":1}}\n";
    let _ = fy_read_line(alloc, &mut check, b"{\"audit\":2}\n", &mut first_bad);
    let _ = fy_read_line(alloc, &mut check, tick, &mut first_bad);
    let _ = fy_finding(&mut check, &mut count, &mut first_bad);
    fy_end_check(alloc, check);
}
