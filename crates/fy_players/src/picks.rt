//! What a word picks.
ghost use Rattle.std.specs.Prelude.{◌≡◌, ◌<◌, ◌≤◌, IfOk, IfSome, codes};
ghost use Rattle.fy_kinds.specs.Kinds.{rank};
ghost use Rattle.fy_players.specs.Picks.{place_of, pick, process_of, kind_of, lower, floor_of, kinds_of, key_of, value_at, target_of, bytes_of, ticks_of, tear_of};

use fy_kinds::{Kind, KindSet, Target};
use fy_locality::{Key, Map, Name, ProcId};
use std::alloc::{AllocError, Global};

/// A number that no policy, process, team, record or actor has.
pub(crate) const NOBODY: u32 = 1_000_000;

/// More ticks than the clock has.
pub(crate) const NO_TICKS: u64 = 2_199_023_255_552;

/// So many ticks pass, or are a part of a clog: a quarter of a second where a tick is a
/// millisecond.
pub(crate) const TICKS_AT_ONCE: u64 = 250;

/// One byte more than a record may have.
pub(crate) const TOO_LONG: u32 = 257;

/// A place among so many; once in 64, and where there is none, no place.
pub(crate) fn pick_place(word: u32, count: usize) -> Option<usize>
    ensures value { result ≡ place_of word count }
    ensures within { IfSome result (λ place. place < count) }
{
    if count == 0 || word % 64 == 63 {
        return None;
    }
    Some(word as usize / 64 % count)
}

/// The same of small numbers.
fn pick_number(word: u32, count: u32) -> Option<u32>
    ensures { result ≡ place_of word count }
{
    if count == 0 || word % 64 == 63 {
        return None;
    }
    Some(word / 64 % count)
}

/// A number below a count; once in 64, and where there is none, a number that nothing has.
pub(crate) fn pick(word: u32, count: u32) -> u32
    ensures { result ≡ pick word count }
{
    match pick_number(word, count) {
        Some(number) => number,
        None => NOBODY,
    }
}

/// A process; once in 64 one that isn't there.
pub(crate) fn pick_process(word: u32, map: &Map) -> ProcId
    ensures { result ≡ process_of word map.now }
{
    ProcId(pick(word, map.len()))
}

/// A kind of kill.
pub(crate) fn pick_kind(word: u32) -> Kind
    ensures { result ≡ kind_of word }
{
    let rest = word % 4;
    if rest == 0 {
        Kind::RebootProcess
    } else if rest == 1 {
        Kind::Reboot
    } else if rest == 2 {
        Kind::RebootAndDelete
    } else {
        Kind::KillInstantly
    }
}

/// The second kind, unless it is above the first.
fn lower(kind: Kind, other: Kind) -> Kind
    ensures value { result ≡ lower kind other }
    ensures below { rank result ≤ rank kind }
{
    if other.is_above(kind) { kind } else { other }
}

/// Once in four any floor that isn't above the kind, else the mildest.
pub(crate) fn pick_floor(word: u32, kind: Kind) -> Kind
    ensures value { result ≡ floor_of word kind }
    ensures below { rank result ≤ rank kind }
{
    if word % 4 == 0 {
        lower(kind, pick_kind(word / 4))
    } else {
        Kind::RebootProcess
    }
}

/// Clogging, all of them, or a kind of kill.
pub(crate) fn pick_kinds(word: u32) -> KindSet
    ensures { result ≡ kinds_of word }
{
    let rest = word % 6;
    if rest == 4 {
        KindSet::of_clog()
    } else if rest == 5 {
        KindSet::all()
    } else {
        KindSet::of(pick_kind(word / 6))
    }
}

/// A key: that of processes most often, then machines, zones, and the others now and then.
pub(crate) fn pick_key(word: u32) -> Key
    ensures { result ≡ key_of word }
{
    let k = word % 32;
    if k < 8 {
        Key::Machine
    } else if k < 12 {
        Key::Zone
    } else if k < 13 {
        Key::DataCenter
    } else if k < 14 {
        Key::DataHall
    } else {
        Key::Process
    }
}

/// A name that no process, machine or zone is likely to have.
fn nowhere() -> Name
    ensures { result ≡ codes "nowhere" }
{
    let Ok(name) = Name::make("nowhere") else {
        unreachable!();
    };
    name
}

/// The processes with one of the values of a key; once in 64 with a value that nothing has.
pub(crate) fn pick_target(word: u32, key: Key, map: &Map) -> Target
    ensures { result ≡ target_of word key map.now }
{
    target_at(pick_number(word, map.value_count(key)), key, map)
}

/// The value at this place among those of a key.
fn value_at(place: Option<u32>, key: Key, map: &Map) -> Name
    ensures { result ≡ value_at map.now key place }
{
    let Some(place) = place else {
        return nowhere();
    };
    match map.value_at(key, place) {
        Some(value) => value,
        None => nowhere(),
    }
}

/// The processes with the value at this place among those of a key.
pub(crate) fn target_at(place: Option<u32>, key: Key, map: &Map) -> Target
    ensures { result ≡ record { key = key; value = value_at map.now key place } }
{
    let value = value_at(place, key, map);
    Target { key, value }
}

/// Up to 256 bytes, all the same; once in 64 one more than a record may have.
pub(crate) fn pick_bytes(alloc: Global, word: u32) -> Result<Vec<u8>, AllocError>
    ensures { IfOk result (λ bytes. bytes.items ≡ bytes_of word) }
{
    let count = if word % 64 == 63 {
        TOO_LONG
    } else {
        word / 64 % TOO_LONG
    };
    let byte = (word % 251) as u8;
    let mut bytes = Vec::new(alloc);
    for _ in 0..count {
        bytes.push(byte)?;
    }
    Ok(bytes)
}

/// Up to 15 times so many ticks; once in 64 more than the clock has.
pub(crate) fn pick_ticks(word: u32) -> u64
    ensures { result ≡ ticks_of word }
{
    if word % 64 == 63 {
        return NO_TICKS;
    }
    TICKS_AT_ONCE * u64::from(word / 64 % 16)
}

/// A tear of two words.
pub(crate) fn pick_tear(high: u32, low: u32) -> u64
    ensures { result ≡ tear_of high low }
{
    u64::from(high) * 4_294_967_296 + u64::from(low)
}
