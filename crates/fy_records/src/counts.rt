//! How many records became of what.
ghost use Rattle.std.specs.Prelude.{◌≡◌, ◌<◌, ◌≤◌, ◌+◌, ◌^◌, ℕ, List, ◌&&◌, ◌||◌, if◌then◌else◌, length, count_by, map, filter, IfOk, is_some, nat_le, nat_lt};
ghost use Rattle.std.specs.List.Sorted.{IsPermutation, IsNonDecreasingBy};
ghost use Rattle.fy_records.specs.Found.{some_of, AreGathered};
ghost use Rattle.fy_records.specs.Founds.{is_found};
ghost use Rattle.fy_records.specs.Verdicts.{is_lost_by_store, is_lost_by_process};
ghost use Rattle.fy_records.specs.Indexed.{IsInOrder, IsIndexOf};
ghost use Rattle.fy_records.specs.Lines.{Lines};
ghost use Rattle.fy_records.specs.Counted.{is_register, open_only, of_open, is_open, is_refused, is_recovered, is_refused_and_there, is_lost_since, is_gone, is_acknowledged, is_unwritten, is_twice, is_lost, is_wrong, is_missing, is_unreadable, is_stale, is_kept, count_of, stale_time, stale_times, quantiles_of, at_percent, AreMarks, AreKeyCounts, AreAtMost, AreCounts, IsStaleness, key_counts_of};
ghost use Rattle.fy_records.specs.declared.verdict.Judged.{Judged};
ghost use Rattle.fy_records.specs.Lines.{record_of};
ghost use Rattle.fy_records.specs.Reads.{is_answered, tells};

use crate::disks::{Found, is_on_disk};
use crate::folds::first_told;
use crate::judge::{Case, acked_at, is_told_at_end, lost_by_process, lost_by_store, record_of};
use crate::seen::Seen;
use crate::{Index, Judged, Verdict};
use fy_history::{End, Place, Write};
use std::alloc::{AllocError, Global};

/// How many records have which verdict, and what else is counted.
#[derive(Clone, Copy, PartialEq, Eq, Debug)]
pub struct Counts {
    pub acknowledged: usize,
    pub lost: usize,
    pub wrong: usize,
    pub missing: usize,
    pub unreadable: usize,
    pub stale: usize,
    pub kept: usize,
    /// Keys with several writes.
    pub registers: usize,
    /// Records that weren't acknowledged, and that a read at the end told.
    pub recovered: usize,
    /// Writes to which the store said no, and whose record a read told or a disk has.
    pub refused: usize,
    /// Records that weren't acknowledged, that a read told and that are lost.
    pub gone: usize,
    /// Keys without an acknowledged record of which a read told what nobody wrote.
    pub unwritten: usize,
    /// Keys that an answer told several times.
    pub twice: usize,
    /// For how long stale records were known when a read lacked them, in nanoseconds: at 0, 50, 95,
    /// 99 and 100 percent of them.
    pub staleness: Option<[u64; 5]>,
}

/// What is counted of the keys of a history beside the verdicts of their records.
#[derive(Clone, Copy)]
struct KeyCounts {
    registers: usize,
    recovered: usize,
    refused: usize,
    gone: usize,
    unwritten: usize,
    twice: usize,
}

/// What is counted of a key beside its verdict.
#[derive(Clone, Copy)]
struct Marks {
    register: bool,
    recovered: bool,
    refused: bool,
    gone: bool,
    unwritten: bool,
    twice: bool,
}

/// Whether a write may have been done, and wasn't acknowledged.
fn is_open(write: &Write) -> bool
    ensures { result ≡ is_open write.now.end }
{
    match write.end {
        End::Open | End::Refused | End::Unknown => true,
        End::Done | End::Undone => false,
    }
}

/// Whether the store said no to a write.
fn is_refused(write: &Write) -> bool
    ensures { result ≡ is_refused write.now.end }
{
    match write.end {
        End::Refused => true,
        End::Open | End::Done | End::Undone | End::Unknown => false,
    }
}

/// A write, if it may have been done and wasn't acknowledged.
fn open_only(write: Option<Write>) -> Option<Write>
    ensures { result ≡ open_only write }
{
    match write {
        Some(write) => { if is_open(&write) { Some(write) } else { None } }
        None => None,
    }
}

/// Whether a key has several writes.
fn is_register(index: &Index, key: u32) -> bool
    requires { IsInOrder index.now }
    ensures { (h : Lines) → IsIndexOf h index.now → result ≡ is_register h key }
{
    1 < index.writes_of(key).len()
}

/// Whether a read at the end told the value of a write.
fn is_recovered(index: &Index, write: Write) -> bool
    requires { IsInOrder index.now }
    ensures { (h : Lines) → IsIndexOf h index.now → result ≡ is_recovered h write }
{
    let case = Case {
        value: write.value,
        since: write.began,
        written: index.written(),
    };
    is_told_at_end(case, index.reads_of(write.key))
}

/// Whether a read told a value.
fn is_told(reads: &[Seen], value: u32) -> bool
    ensures { result ≡ some_of reads.now (tells value) }
{
    reads.iter().any(|seen| seen.tells(value))
}

/// Whether a read told a value or a disk has it.
fn is_there(reads: &[Seen], founds: &[Found], value: u32) -> bool
    ensures { result ≡ (some_of reads.now (tells value) || is_found founds.now value) }
{
    is_told(reads, value) || is_on_disk(founds, value)
}

/// Whether a write that the store refused is there all the same.
fn is_refused_and_there(index: &Index, write: Write) -> bool
    requires { IsInOrder index.now }
    ensures { (h : Lines) → IsIndexOf h index.now → result ≡ is_refused_and_there h write }
{
    is_refused(&write)
        && is_there(
            index.reads_of(write.key),
            index.founds_of(write.key),
            write.value,
        )
}

/// Whether a record is lost by these reads.
fn is_lost_by_reads(case: Case, reads: &[Seen]) -> bool
    requires { AreGathered reads.now }
    ensures { result ≡ (is_lost_by_store (some_of reads.now) case
        || is_lost_by_process (some_of reads.now) case) }
{
    lost_by_store(case, reads).is_some() || lost_by_process(case, reads).is_some()
}

/// Whether a record is lost by its reads from a place on.
fn is_lost_since(index: &Index, write: Write, since: Place) -> bool
    requires { IsInOrder index.now }
    ensures { (h : Lines) → IsIndexOf h index.now → result ≡ is_lost_since h write since }
{
    let case = Case {
        value: write.value,
        since,
        written: index.written(),
    };
    is_lost_by_reads(case, index.reads_of(write.key))
}

/// Whether the record of a write was told, and is lost since.
fn is_gone(index: &Index, write: Write) -> bool
    requires { IsInOrder index.now }
    ensures { (h : Lines) → IsIndexOf h index.now → result ≡ is_gone h write }
{
    match first_told(index.reads_of(write.key), write.value) {
        Some(told) => is_lost_since(index, write, told),
        None => false,
    }
}

/// Whether a key has an acknowledged record.
fn is_acknowledged(index: &Index, key: u32) -> bool
    requires { IsInOrder index.now }
    ensures { (h : Lines) → IsIndexOf h index.now → result ≡ is_acknowledged h key }
{
    match record_of(index, key) {
        Some(write) => acked_at(&write).is_some(),
        None => false,
    }
}

/// Whether a read told what nobody wrote.
fn is_told_wrongly(reads: &[Seen]) -> bool
    ensures { result ≡ some_of reads.now (λ seen. seen.wrong) }
{
    reads.iter().any(|seen| seen.wrong)
}

/// Whether a read of a key without an acknowledged record told what nobody wrote.
fn is_unwritten(index: &Index, key: u32) -> bool
    requires { IsInOrder index.now }
    ensures { (h : Lines) → IsIndexOf h index.now → result ≡ is_unwritten h key }
{
    !is_acknowledged(index, key) && is_told_wrongly(index.reads_of(key))
}

/// Whether an answer told a key several times.
fn is_told_twice(reads: &[Seen]) -> bool
    ensures { result ≡ some_of reads.now (λ seen. is_answered seen && nat_le 2 seen.read.times) }
{
    reads
        .iter()
        .any(|seen| seen.is_answered() && 2 <= seen.read.times)
}

/// Whether an answer told this key several times.
fn is_twice(index: &Index, key: u32) -> bool
    requires { IsInOrder index.now }
    ensures { (h : Lines) → IsIndexOf h index.now → result ≡ is_twice h key }
{
    is_told_twice(index.reads_of(key))
}

/// What is counted of a key beside its verdict.
fn marks_of(index: &Index, key: u32) -> Marks
    requires { IsInOrder index.now }
    ensures { (h : Lines) → IsIndexOf h index.now → AreMarks h key result }
{
    let register = is_register(index, key);
    let unwritten = is_unwritten(index, key);
    let twice = is_twice(index, key);
    match open_only(record_of(index, key)) {
        Some(write) => Marks {
            register,
            recovered: is_recovered(index, write),
            refused: is_refused_and_there(index, write),
            gone: is_gone(index, write),
            unwritten,
            twice,
        },
        None => Marks {
            register,
            recovered: false,
            refused: false,
            gone: false,
            unwritten,
            twice,
        },
    }
}

/// One more, where there is a mark.
fn with_mark(count: usize, mark: bool) -> usize
    requires { count < 2 ^ 32 }
    ensures more { result ≡ count + (if mark then 1 else 0) }
    ensures within { result ≤ count + 1 }
{
    if mark { count + 1 } else { count }
}

/// Counts with the marks of one more key.
fn with_marks(counts: KeyCounts, marks: Marks, key: u32) -> KeyCounts
    requires { AreAtMost key counts }
    ensures counts { (h : Lines) → AreMarks h key marks → AreKeyCounts h key counts
        → AreKeyCounts h (key + 1) result }
    ensures most { AreAtMost (key + 1) result }
{
    KeyCounts {
        registers: with_mark(counts.registers, marks.register),
        recovered: with_mark(counts.recovered, marks.recovered),
        refused: with_mark(counts.refused, marks.refused),
        gone: with_mark(counts.gone, marks.gone),
        unwritten: with_mark(counts.unwritten, marks.unwritten),
        twice: with_mark(counts.twice, marks.twice),
    }
}

/// What is counted of the keys of a history beside the verdicts of their records.
fn count_keys(index: &Index) -> KeyCounts
    requires { IsInOrder index.now }
    ensures { (h : Lines) → IsIndexOf h index.now → AreKeyCounts h h.names result }
{
    let mut counts = KeyCounts {
        registers: 0,
        recovered: 0,
        refused: 0,
        gone: 0,
        unwritten: 0,
        twice: 0,
    };
    for key in 0..index.names() {
        counts = with_marks(counts, marks_of(index, key), key);
    }
    counts
}

/// A number of those that rise, at a percentage of them.
fn at_percent(numbers: &[u64], percent: usize) -> u64
    requires some { 0 < length numbers.now }
    requires hundred { percent ≤ 100 }
    requires few { length numbers.now < 2 ^ 50 }
    ensures { result ≡ at_percent numbers.now percent }
{
    let at = numbers.len() * percent / 100;
    numbers[at.min(numbers.len() - 1)]
}

/// The numbers at 0, 50, 95, 99 and 100 percent, of numbers that rise.
fn quantiles(numbers: &[u64]) -> Option<[u64; 5]>
    requires { length numbers.now < 2 ^ 50 }
    ensures { result ≡ quantiles_of numbers.now }
{
    if numbers.is_empty() {
        return None;
    }
    Some([
        at_percent(numbers, 0),
        at_percent(numbers, 50),
        at_percent(numbers, 95),
        at_percent(numbers, 99),
        at_percent(numbers, 100),
    ])
}

/// Whether a record is lost.
fn is_lost(judged: &Judged) -> bool
    ensures { result ≡ is_lost judged.now.verdict }
{
    match judged.verdict {
        Verdict::Lost(_) => true,
        _ => false,
    }
}

/// Whether a record was told wrongly.
fn is_wrong(judged: &Judged) -> bool
    ensures { result ≡ is_wrong judged.now.verdict }
{
    match judged.verdict {
        Verdict::Wrong => true,
        _ => false,
    }
}

/// Whether a record is missing.
fn is_missing(judged: &Judged) -> bool
    ensures { result ≡ is_missing judged.now.verdict }
{
    match judged.verdict {
        Verdict::Missing => true,
        _ => false,
    }
}

/// Whether a record is unreadable.
fn is_unreadable(judged: &Judged) -> bool
    ensures { result ≡ is_unreadable judged.now.verdict }
{
    match judged.verdict {
        Verdict::Unreadable => true,
        _ => false,
    }
}

/// Whether a record is stale.
fn is_stale(judged: &Judged) -> bool
    ensures { result ≡ is_stale judged.now.verdict }
{
    match judged.verdict {
        Verdict::Stale => true,
        _ => false,
    }
}

/// Whether a record is kept.
fn is_kept(judged: &Judged) -> bool
    ensures { result ≡ is_kept judged.now.verdict }
{
    match judged.verdict {
        Verdict::Kept => true,
        _ => false,
    }
}

/// For how long a stale record was known.
fn stale_time(judged: &Judged) -> Option<u64>
    ensures { result ≡ stale_time judged.now }
{
    if is_stale(judged) {
        Some(judged.stale_nanos)
    } else {
        None
    }
}

/// For how long each stale record was known.
fn times_of(alloc: Global, records: &[Judged]) -> Result<Vec<u64>, AllocError>
    ensures { IfOk result (λ times. times.items ≡ stale_times records.now) }
{
    records
        .iter()
        .filter_map(|judged| stale_time(judged))
        .collect(alloc)
}

/// For how long stale records were known, from the shortest time on.
fn times_in_order(alloc: Global, records: &[Judged]) -> Result<Vec<u64>, AllocError>
    ensures same { IfOk result (λ times. IsPermutation (stale_times records.now) times.items) }
    ensures order { IfOk result (λ times. IsNonDecreasingBy (λ x. x) times.items) }
    ensures few { IfOk result (λ times. length times.items ≤ length records.now) }
{
    let mut times = times_of(alloc, records)?;
    times.sort_unstable();
    Ok(times)
}

/// How many records are lost.
fn count_lost(records: &[Judged]) -> usize
    ensures { result ≡ count_of is_lost records.now }
{
    records.iter().filter(|judged| is_lost(judged)).count()
}

/// How many records were told wrongly.
fn count_wrong(records: &[Judged]) -> usize
    ensures { result ≡ count_of is_wrong records.now }
{
    records.iter().filter(|judged| is_wrong(judged)).count()
}

/// How many records are missing.
fn count_missing(records: &[Judged]) -> usize
    ensures { result ≡ count_of is_missing records.now }
{
    records.iter().filter(|judged| is_missing(judged)).count()
}

/// How many records are unreadable.
fn count_unreadable(records: &[Judged]) -> usize
    ensures { result ≡ count_of is_unreadable records.now }
{
    records
        .iter()
        .filter(|judged| is_unreadable(judged))
        .count()
}

/// How many records are stale.
fn count_stale(records: &[Judged]) -> usize
    ensures { result ≡ count_of is_stale records.now }
{
    records.iter().filter(|judged| is_stale(judged)).count()
}

/// How many records are kept.
fn count_kept(records: &[Judged]) -> usize
    ensures { result ≡ count_of is_kept records.now }
{
    records.iter().filter(|judged| is_kept(judged)).count()
}

/// What is counted of the judged records of a history, and of its other keys.
///
/// # Errors
///
/// `AllocError` where an allocation fails.
pub fn count_records(alloc: Global, index: &Index, records: &[Judged]) -> Result<Counts, AllocError>
    requires order { IsInOrder index.now }
    requires few { length records.now < 2 ^ 50 }
    ensures verdicts { IfOk result (AreCounts records.now) }
    ensures keys { IfOk result (λ counts. (h : Lines) → IsIndexOf h index.now
        → AreKeyCounts h h.names (key_counts_of counts)) }
    ensures times { IfOk result (λ counts. IsStaleness records.now counts.staleness) }
{
    let times = times_in_order(alloc, records)?;
    let keys = count_keys(index);
    Ok(Counts {
        acknowledged: records.len(),
        lost: count_lost(records),
        wrong: count_wrong(records),
        missing: count_missing(records),
        unreadable: count_unreadable(records),
        stale: count_stale(records),
        kept: count_kept(records),
        registers: keys.registers,
        recovered: keys.recovered,
        refused: keys.refused,
        gone: keys.gone,
        unwritten: keys.unwritten,
        twice: keys.twice,
        staleness: quantiles(&times),
    })
}
