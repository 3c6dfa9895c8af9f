//! Kills, ordered and answered by numbers.
ghost use Rattle.std.specs.Prelude.{◌≡◌, ◌≢◌, Ok, Err, IfOk, IfErr, IfSome};
ghost use Rattle.std.specs.Ptr.{null_ptr};
ghost use Rattle.fy_decide.specs.Verdicts.{NamesProcess};
ghost use Rattle.fy_acts.specs.declared.act.Act.TheVariants.{Kill};
ghost use Rattle.fy_cluster.specs.Execution.{replied};
ghost use Rattle.fy_c.specs.Entering.{Applies, status_of};
ghost use Rattle.fy_c.specs.Killing.{AreKinds, NoKindAndFloor, IsOrderOf, NoOrder, IsKilled, Kills, Judges, told_of, untold};
ghost use Rattle.fy_c.specs.Statuses.{Answers, number};

use crate::entering::apply;
use crate::handle::FyGuard;
use crate::killing_process::apply_kill;
use crate::numbers::{key_of, kind_of, named_by, rule_number, struck_number};
use crate::status::Status;
use fy_acts::{Act, Reply};
use fy_cluster::{Cluster, Fault};
use fy_kinds::{KillOrder, Kind, Target};
use fy_locality::{Key, Map, Name, ProcId};

/// What C is told of a verdict.
#[derive(Clone, Copy, PartialEq, Eq)]
pub(crate) struct Told {
    /// The kind that struck, from 1; 0 where none did.
    pub(crate) struck: u32,
    /// The rule that bars the ordered kind, from 1; 0 where none does.
    pub(crate) rule: u32,
    /// The process or the policy that the rule names.
    pub(crate) named: u64,
}

/// Nothing to tell.
pub(crate) const UNTOLD: Told = Told {
    struck: 0,
    rule: 0,
    named: 0,
};

/// The status of an answer to a kill, and what C is told of it.
pub(crate) fn outcome_of(answer: Result<Reply, Status>) -> (Status, Told)
    ensures status { IfOk answer (λ reply. result.0 ≡ status_of (Ok reply)) }
    ensures told { IfOk answer (λ reply. result.1 ≡ told_of (Ok reply)) }
    ensures none { IfErr answer (λ status. result ≡ (status, untold)) }
{
    match answer {
        Ok(Reply::Verdict(verdict)) => {
            let told = Told {
                struck: struck_number(verdict.struck),
                rule: rule_number(verdict.rule),
                named: named_by(verdict.rule),
            };
            (Status::Done, told)
        }
        Ok(Reply::No(_)) => (Status::Refused, UNTOLD),
        Ok(_) => (Status::Done, UNTOLD),
        Err(status) => (status, UNTOLD),
    }
}

/// Tells C of an answer to a kill: the number of its status is answered.
// One call less for each kill.
#[inline(always)]
pub(crate) fn tell(
    answer: Result<Reply, Status>,
    struck: &mut u32,
    rule: &mut u32,
    named: &mut u64,
) -> u32
    ensures status { IfOk answer (λ reply. result ≡ number (status_of (Ok reply))) }
    ensures told { IfOk answer (λ reply. told_of (Ok reply)
        ≡ record { struck = struck.new; rule = rule.new; named = named.new }) }
    ensures none { IfErr answer (λ status. (result ≡ number status)
        × (untold ≡ record { struck = struck.new; rule = rule.new; named = named.new })) }
{
    let (status, told) = outcome_of(answer);
    *struck = told.struck;
    *rule = told.rule;
    *named = told.named;
    status.number()
}

/// The kind and the floor of an order, by their numbers.
///
/// # Errors
///
/// In order: `Argument` where a number is that of no kind; `Floor` where the floor is above the
/// kind.
// One call less for each kill.
#[inline(always)]
pub(crate) fn kinds_of(kind: u32, floor: u32) -> Result<(Kind, Kind), Status>
    ensures kinds { IfOk result (λ kinds. AreKinds kind floor kinds.0 kinds.1) }
    ensures none { IfErr result (NoKindAndFloor kind floor) }
{
    let Some(kind) = kind_of(kind) else {
        return Err(Status::Argument);
    };
    let Some(floor) = kind_of(floor) else {
        return Err(Status::Argument);
    };
    if floor.is_above(kind) {
        return Err(Status::Floor);
    }
    Ok((kind, floor))
}

/// An order by the numbers of its key and its kinds.
///
/// # Errors
///
/// In order: `Argument` where a number is that of no key or kind; `Name` where the value is no
/// name; `Floor` where the floor is above the kind.
fn order_of(key: u32, value: &[u8], kind: u32, floor: u32, tear: u64) -> Result<KillOrder, Status>
    ensures order { IfOk result (IsOrderOf
        (record { key = key; value = value.now; kind = kind; floor = floor; tear = tear })) }
    ensures none { IfErr result (NoOrder
        (record { key = key; value = value.now; kind = kind; floor = floor; tear = tear })) }
{
    let Some(key) = key_of(key) else {
        return Err(Status::Argument);
    };
    let Some(kind) = kind_of(kind) else {
        return Err(Status::Argument);
    };
    let Some(floor) = kind_of(floor) else {
        return Err(Status::Argument);
    };
    let Ok(value) = Name::from_bytes(value) else {
        return Err(Status::Name);
    };
    Ok(KillOrder::make(Target { key, value }, kind, floor, tear)?)
}

/// The process that an order names alone, by its name.
fn named_process(map: &Map, order: &KillOrder) -> Option<ProcId>
    ensures { IfSome result (λ process. NamesProcess map.now process.0 order.now) }
{
    let target = order.target();
    match target.key {
        Key::Process => map.find(&target.value),
        _ => None,
    }
}

/// Applies a kill by an actor to the cluster of an open guard. Where the order names a process, its
/// name is looked up once, here.
///
/// # Errors
///
/// In order: `JournalFull`, `NoMemory`. The cluster is then as it was.
fn apply_order(guard: &mut FyGuard, by: u32, order: &KillOrder) -> Result<Reply, Fault>
    requires { guard.old.at ≢ null_ptr }
    ensures open { guard.new.at ≢ null_ptr }
    ensures applied { Applies guard.old.value guard.new.value by (Kill order.now) result }
{
    match named_process(guard.cluster().config().map(), order) {
        Some(process) => apply_kill(guard, by, process, order),
        None => apply(guard, by, Act::Kill { order: *order }),
    }
}

/// Orders a kill, and applies it where an order is given.
///
/// # Errors
///
/// In order: that of the order, where none is given; `JournalFull`, `NoMemory`.
fn carry_out(
    guard: &mut FyGuard,
    actor: u32,
    order: Result<KillOrder, Status>,
) -> Result<Reply, Status>
    requires { guard.old.at ≢ null_ptr }
    ensures open { guard.new.at ≢ null_ptr }
    ensures replied { IfOk order (λ order. IfOk result (λ reply.
        IsKilled guard.old.value guard.new.value actor order
        (status_of (Ok reply)) (told_of (Ok reply)))) }
    ensures failed { IfOk order (λ order. IfErr result (λ status.
        IsKilled guard.old.value guard.new.value actor order status untold)) }
    ensures not_given { IfErr order (λ status. (guard.new.value ≡ guard.old.value)
        × (result ≡ Err status)) }
{
    Ok(apply_order(guard, actor, &order?)?)
}

/// Orders a kill by an actor: of the processes whose key has a value, by a kind or where that is
/// barred by a milder one down to the floor. The number of the kind that struck goes to `struck`,
/// or 0; that of the rule that bars the ordered kind to `rule`, or 0; and the process or the policy
/// that the rule names to `named`.
///
/// # Errors
///
/// In order: `Argument` where a number is that of no key or kind; `Name` where the value is no
/// name; `Floor` where the floor is above the kind; `JournalFull`; `NoMemory`: nothing changed
/// then. `Refused` where there is no actor with this number, and the act stands in the journal all
/// the same.
#[unsafe(no_mangle)]
pub extern "C" fn fy_kill(
    guard: &mut FyGuard,
    actor: u32,
    key: u32,
    value: &[u8],
    kind: u32,
    floor: u32,
    tear: u64,
    struck: &mut u32,
    rule: &mut u32,
    named: &mut u64,
) -> u32
    requires { guard.old.at ≢ null_ptr }
    ensures open { guard.new.at ≢ null_ptr }
    ensures killed { Answers result (Kills guard.old.value guard.new.value actor
        (record { key = key; value = value.now; kind = kind; floor = floor; tear = tear })
        (record { struck = struck.new; rule = rule.new; named = named.new })) }
{
    let order = order_of(key, value, kind, floor, tear);
    let answer = carry_out(guard, actor, order);
    tell(answer, struck, rule, named)
}

/// What a kill by an actor would get now, where an order is given.
///
/// # Errors
///
/// That of the order, where none is given.
fn expected_reply(
    cluster: &Cluster,
    actor: u32,
    order: Result<KillOrder, Status>,
) -> Result<Reply, Status>
    ensures given { IfOk order (λ order.
        result ≡ Ok (replied cluster.now actor (Kill order))) }
    ensures not_given { IfErr order (λ status. result ≡ Err status) }
{
    Ok(cluster.judge(actor, &order?))
}

/// What `fy_kill` would answer now to the same order, if the journal had room. It enters nothing,
/// and doesn't allocate. The three numbers are those of `fy_kill`.
///
/// # Errors
///
/// In order: `Argument` where a number is that of no key or kind; `Name` where the value is no
/// name; `Floor` where the floor is above the kind; `Refused` where there is no actor with this
/// number.
#[unsafe(no_mangle)]
pub extern "C" fn fy_judge(
    guard: &mut FyGuard,
    actor: u32,
    key: u32,
    value: &[u8],
    kind: u32,
    floor: u32,
    struck: &mut u32,
    rule: &mut u32,
    named: &mut u64,
) -> u32
    requires { guard.old.at ≢ null_ptr }
    ensures kept { guard.new.value ≡ guard.old.value }
    ensures place { guard.new.at ≡ guard.old.at }
    ensures judged { Answers result (Judges guard.old.value actor
        (record { key = key; value = value.now; kind = kind; floor = floor; tear = 0 })
        (record { struck = struck.new; rule = rule.new; named = named.new })) }
{
    let order = order_of(key, value, kind, floor, 0);
    let answer = expected_reply(guard.cluster(), actor, order);
    tell(answer, struck, rule, named)
}
