//! The verdict of each acknowledged record.
ghost use Rattle.std.specs.Prelude.{◌≡◌, ◌<◌, ◌≤◌, ◌+◌, ◌^◌, ℕ, not, ◌&&◌, ◌||◌, ◌⊎◌, nat_lt, nat_le, ◌==◌, find, ◌++◌, length, take, drop, slice_get, Contains, Some, None, IfSome, IfOk, OnOk, option_map, is_some, true, false};
ghost use Rattle.std.specs.List.{list_any, prefix_len};
ghost use Rattle.fy_records.specs.declared.seen.Seen.{Seen};
ghost use Rattle.fy_records.specs.declared.TheConstants.{MINUTE_NANOS};
ghost use Rattle.fy_records.specs.Reads.{lacks, is_of_store, Reads, began_after, is_at_end, passes, tells, is_store_read, same_process, process_of, is_answered};
ghost use Rattle.fy_records.specs.Indexed.{IsInOrder, IsIndexOf};
ghost use Rattle.fy_records.specs.Lines.{Lines, only, acked_at, record_of, list_of};
ghost use Rattle.fy_records.specs.Verdicts.{IsJudged, IsJudgedKey, AreJudgedBelow, AreJudged, first_verdict, shows, shows_missing, is_missing, is_unreadable, is_told_wrongly, is_lost_on_disks, is_stale, is_last_lacking, IsLag, IsShown, IsStaleFor, shows_store_loss, is_lost_by_store, is_lost_by_process, is_told_at_end, is_answered_at_end, lacks_to_end, shows_process_loss};
ghost use Rattle.fy_records.specs.Found.{some_of, reaches, FindsOne, AreOfOne, AreApart, AreGathered};

use crate::disks::{is_on_disk, is_on_no_disk};
use crate::folds::{earliest_nanos, is_behind, known_from, latest};
use crate::seen::{Seen, Test};
use crate::{Index, Judged, Loss, MINUTE_NANOS, Verdict};
use fy_history::{End, Place, Read, Write};
use std::alloc::{AllocError, Global};

/// What a record is judged by, beside its reads.
#[derive(Clone, Copy)]
pub(crate) struct Case {
    pub(crate) value: u32,
    /// Where it was acknowledged: from there on it has to be there.
    pub(crate) since: Place,
    /// Where the reads at the end begin.
    pub(crate) written: Option<Place>,
}

/// Where a write was acknowledged.
pub(crate) fn acked_at(write: &Write) -> Option<Place>
    ensures { result ≡ acked_at write.now }
{
    match write.end {
        End::Done => write.ended,
        End::Open | End::Undone | End::Refused | End::Unknown => None,
    }
}

/// The one write of a key; none where it has several.
pub(crate) fn only_write(writes: &[Write]) -> Option<Write>
    ensures { result ≡ only writes.now }
{
    match writes {
        [write] => Some(*write),
        _ => None,
    }
}

/// The first of the reads of the store as a whole behind a line that lacks the record and began no
/// earlier than at two others.
fn lacking_from(case: Case, last: u32, told: u32, reads: &[Seen]) -> Option<Seen>
    ensures { result ≡ find (λ seen. lacks seen && is_store_read case.since.line seen
        && not (nat_lt seen.read.began.line last)
        && not (nat_lt seen.read.began.line told)) reads.now }
{
    reads.iter().copied().find(|seen| {
        seen.lacks()
            && seen.passes(Test::StoreAfter(case.since.line))
            && seen.passes(Test::From(last))
            && seen.passes(Test::From(told))
    })
}

/// The last read of the store as a whole since a record has to be there, if it lacks the record,
/// and no read told it that began later.
pub(crate) fn lost_by_store(case: Case, reads: &[Seen]) -> Option<Seen>
    ensures found { FindsOne (shows_store_loss (some_of reads.now) case) reads.now result }
    ensures whether { is_some result ≡ is_lost_by_store (some_of reads.now) case }
{
    let last = latest(reads, Test::StoreAfter(case.since.line));
    let told = latest(reads, Test::Tells(case.value));
    lacking_from(case, last, told, reads)
}

/// How many of the first reads asked a process.
pub(crate) fn count_of_process(process: u32, reads: &[Seen]) -> usize
    ensures count { result ≡ prefix_len (λ seen. process_of seen == process) reads.now }
    ensures within { result ≤ length reads.now }
{
    reads
        .iter()
        .take_while(|seen| seen.process() == process)
        .count()
}

/// Whether a read is an answer of a process at the end, and began no earlier than at a line.
fn is_last_answer(written: Option<Place>, last: u32, seen: &Seen) -> bool
    ensures { result ≡ (not (is_of_store seen.now) && is_at_end written seen.now
        && is_answered seen.now && not (nat_lt seen.now.read.began.line last)) }
{
    !seen.is_of_store()
        && seen.is_at_end(written)
        && seen.is_answered()
        && seen.passes(Test::From(last))
}

/// The first answer of a process at the end that lacks the record, began no earlier than at a line
/// and a minute or more behind a time, and passes a test.
fn lacking_late(
    written: Option<Place>,
    last: u32,
    first: Option<u64>,
    reads: &[Seen],
    test: Test,
) -> Option<Seen>
    ensures { result ≡ find (λ seen. lacks seen
        && (not (is_of_store seen) && is_at_end written seen && is_answered seen
        && not (nat_lt seen.read.began.line last))
        && reaches first MINUTE_NANOS seen.read.began.nanos && passes test seen) reads.now }
{
    reads.iter().copied().find(|seen| {
        seen.lacks()
            && is_last_answer(written, last, seen)
            && is_behind(first, MINUTE_NANOS, seen.read.began.nanos)
            && seen.passes(test)
    })
}

/// The last answer of a process at the end, of which these are the reads, if it lacks the record,
/// began a minute or more after the first and passes a test.
pub(crate) fn last_lacking(written: Option<Place>, reads: &[Seen], test: Test) -> Option<Seen>
    requires { AreOfOne reads.now }
    ensures { FindsOne (λ seen. lacks_to_end (some_of reads.now) written seen && passes test seen)
        reads.now result }
{
    let last = latest(reads, Test::AnsweredAtEnd(written));
    let first = earliest_nanos(reads, written);
    lacking_late(written, last, first, reads, test)
}

/// The reads of the process that the first read asked, and those of others behind.
pub(crate) fn split_process(reads: &[Seen]) -> (&[Seen], &[Seen])
    requires some { 0 < length reads.now }
    requires gathered { AreGathered reads.now }
    ensures whole { reads.now ≡ result.0.now ++ result.1.now }
    ensures one { AreOfOne result.0.now }
    ensures apart { AreApart result.0.now result.1.now }
    ensures shorter { length result.1.now < length reads.now }
    ensures rest { AreGathered result.1.now }
{
    let process = reads[0].process();
    reads.split_at(count_of_process(process, reads))
}

/// The last answer of a process that lacks the record to the end, if it passes a test.
pub(crate) fn lacking_to_end(written: Option<Place>, reads: &[Seen], test: Test) -> Option<Seen>
    requires { AreGathered reads.now }
    ensures { FindsOne (λ seen. lacks_to_end (some_of reads.now) written seen && passes test seen)
        reads.now result }
{
    let mut rest = reads;
    while !rest.is_empty() {
        let (process, next) = split_process(rest);
        if let Some(seen) = last_lacking(written, process, test) {
            return Some(seen);
        }
        rest = next;
    }
    None
}

/// The last answer of a process that lacks the record to the end, if no read told it that began
/// later.
fn last_untold(case: Case, reads: &[Seen]) -> Option<Seen>
    requires { AreGathered reads.now }
    ensures { FindsOne (shows_process_loss (some_of reads.now) case) reads.now result }
{
    let told = latest(reads, Test::Tells(case.value));
    lacking_to_end(case.written, reads, Test::From(told))
}

/// Whether the store as a whole answered a read since a record has to be there.
fn is_read_by_store(case: Case, reads: &[Seen]) -> bool
    ensures { result ≡ some_of reads.now (is_store_read case.since.line) }
{
    reads
        .iter()
        .any(|seen| seen.passes(Test::StoreAfter(case.since.line)))
}

/// The last answer of a process that lacks the record to the end, where the store as a whole
/// answered no read, and no read told it that began later.
pub(crate) fn lost_by_process(case: Case, reads: &[Seen]) -> Option<Seen>
    requires { AreGathered reads.now }
    ensures found { IfSome result (λ seen. FindsOne (shows_process_loss (some_of reads.now) case)
        reads.now (Some seen)) }
    ensures whether { is_some result ≡ is_lost_by_process (some_of reads.now) case }
{
    if is_read_by_store(case, reads) {
        return None;
    }
    last_untold(case, reads)
}

/// Whether a read at the end told the value.
pub(crate) fn is_told_at_end(case: Case, reads: &[Seen]) -> bool
    ensures { result ≡ is_told_at_end (some_of reads.now) case }
{
    reads.iter().any(|seen| seen.is_at_end(case.written) && seen.tells(case.value))
}

/// Whether a read at the end was answered.
fn is_answered_at_end(case: Case, reads: &[Seen]) -> bool
    ensures { result ≡ is_answered_at_end (some_of reads.now) case }
{
    reads
        .iter()
        .any(|seen| seen.is_answered() && seen.is_at_end(case.written))
}

/// Whether no read at the end was answered, and no disk has the record.
fn is_lost_on_disks(case: Case, reads: &[Seen], on_no_disk: bool) -> bool
    ensures { result ≡ is_lost_on_disks (some_of reads.now) case on_no_disk }
{
    !is_answered_at_end(case, reads) && on_no_disk
}

/// A read that told what nobody wrote.
fn wrong_read(reads: &[Seen]) -> Option<Seen>
    ensures { result ≡ find (λ seen. seen.wrong) reads.now }
{
    reads.iter().copied().find(|seen| seen.wrong)
}

/// A read that told what nobody wrote, if there is one.
fn told_wrongly(reads: &[Seen]) -> Option<Seen>
    ensures found { FindsOne (λ seen. seen.wrong) reads.now result }
    ensures whether { is_some result ≡ is_told_wrongly (some_of reads.now) }
{
    wrong_read(reads)
}

/// The last answer of a process that counts as whole, if it lacks the record to the end.
fn missing_from(case: Case, reads: &[Seen]) -> Option<Seen>
    requires { AreGathered reads.now }
    ensures found { FindsOne (shows_missing (some_of reads.now) case) reads.now result }
    ensures whether { is_some result ≡ is_missing (some_of reads.now) case }
{
    lacking_to_end(case.written, reads, Test::Whole)
}

/// Whether no read at the end told it, and no disk has it.
fn is_unreadable(case: Case, reads: &[Seen], on_disk: bool) -> bool
    ensures { result ≡ is_unreadable (some_of reads.now) case on_disk }
{
    !is_told_at_end(case, reads) && !on_disk
}

/// The first of the reads that lacks the record and began no earlier than at a line.
fn lacking_since(line: u32, reads: &[Seen]) -> Option<Seen>
    ensures { result
        ≡ find (λ seen. lacks seen && not (nat_lt seen.read.began.line line)) reads.now }
{
    reads
        .iter()
        .copied()
        .find(|seen| seen.lacks() && seen.passes(Test::From(line)))
}

/// The last read that lacked the record, where one began behind a line.
fn last_lacking_after(line: u32, reads: &[Seen]) -> Option<Seen>
    ensures found { IfSome result (λ seen.
        FindsOne (is_last_lacking (some_of reads.now)) reads.now (Some seen)) }
    ensures whether { is_some result
        ≡ list_any (λ seen. lacks seen && nat_lt line seen.read.began.line) reads.now }
{
    let last = latest(reads, Test::Lacks);
    if last <= line {
        return None;
    }
    lacking_since(last, reads)
}

/// The last read that lacked a record, and for how long it was known when that began.
#[derive(Clone, Copy)]
struct Lag {
    seen: Seen,
    nanos: u64,
}

/// The last read that lacked the record, if it began after it was known.
fn lag_of(case: Case, reads: &[Seen]) -> Option<Lag>
    ensures whether { is_some result ≡ is_stale (some_of reads.now) case }
    ensures last { IfSome result (λ lag.
        FindsOne (is_last_lacking (some_of reads.now)) reads.now (Some lag.seen)) }
    ensures lag { IfSome result (λ lag. IsLag reads.now case lag.seen.read lag.nanos) }
{
    let known = known_from(case.since, reads, case.value);
    match last_lacking_after(known.line, reads) {
        Some(seen) => {
            let nanos = seen.read.began.nanos.saturating_sub(known.nanos);
            Some(Lag { seen, nanos })
        }
        None => None,
    }
}

/// A verdict, the read that shows it, if a single one does, and for how long a stale record was
/// known when that began.
#[derive(Clone, Copy)]
struct Shown {
    verdict: Verdict,
    seen: Option<Seen>,
    stale_nanos: u64,
}

/// A verdict that a read shows.
fn shown_by(verdict: Verdict, seen: Option<Seen>) -> Shown
    ensures { result ≡ record { verdict = verdict; seen = seen; stale_nanos = 0 } }
{
    Shown {
        verdict,
        seen,
        stale_nanos: 0,
    }
}

/// The verdict of a record, by its reads and what was found on disks.
fn first_verdict(case: Case, reads: &[Seen], on_disk: bool, on_no_disk: bool) -> Shown
    requires { AreGathered reads.now }
    ensures verdict { result.verdict ≡ first_verdict (some_of reads.now) case on_disk on_no_disk }
    ensures shown { IsShown reads.now (shows (some_of reads.now) case result.verdict) result.seen }
    ensures stale { IsStaleFor reads.now case result.verdict result.seen result.stale_nanos }
{
    let by_store = lost_by_store(case, reads);
    if by_store.is_some() {
        return shown_by(Verdict::Lost(Loss::Store), by_store);
    }
    let by_process = lost_by_process(case, reads);
    if by_process.is_some() {
        return shown_by(Verdict::Lost(Loss::Process), by_process);
    }
    if is_lost_on_disks(case, reads, on_no_disk) {
        return shown_by(Verdict::Lost(Loss::Disks), None);
    }
    let wrong = told_wrongly(reads);
    if wrong.is_some() {
        return shown_by(Verdict::Wrong, wrong);
    }
    let missing = missing_from(case, reads);
    if missing.is_some() {
        return shown_by(Verdict::Missing, missing);
    }
    if is_unreadable(case, reads, on_disk) {
        return shown_by(Verdict::Unreadable, None);
    }
    match lag_of(case, reads) {
        Some(lag) => Shown {
            verdict: Verdict::Stale,
            seen: Some(lag.seen),
            stale_nanos: lag.nanos,
        },
        None => shown_by(Verdict::Kept, None),
    }
}

/// The verdict of an acknowledged record.
fn judge(index: &Index, write: Write, acked: Place) -> Judged
    requires { IsInOrder index.now }
    ensures { (h : Lines) → IsIndexOf h index.now → IsJudged h write acked result }
{
    let case = Case {
        value: write.value,
        since: acked,
        written: index.written(),
    };
    let founds = index.founds_of(write.key);
    let on_disk = is_on_disk(founds, write.value);
    let on_no_disk = is_on_no_disk(index.extents(), founds, write.value);
    let shown = first_verdict(case, index.reads_of(write.key), on_disk, on_no_disk);
    Judged {
        write,
        acked,
        verdict: shown.verdict,
        read: read_of(shown.seen),
        stale_nanos: shown.stale_nanos,
    }
}

/// The read itself.
fn read_of(seen: Option<Seen>) -> Option<Read>
    ensures { result ≡ option_map (λ (s : Seen). s.read) seen }
{
    match seen {
        Some(seen) => Some(seen.read),
        None => None,
    }
}

/// The record of a key: its write, where it has one only.
pub(crate) fn record_of(index: &Index, key: u32) -> Option<Write>
    requires { IsInOrder index.now }
    ensures { (h : Lines) → IsIndexOf h index.now → result ≡ record_of h key }
{
    only_write(index.writes_of(key))
}

/// The acknowledged record of a key, with its verdict.
fn judge_key(index: &Index, key: u32) -> Option<Judged>
    requires { IsInOrder index.now }
    ensures { (h : Lines) → IsIndexOf h index.now → IsJudgedKey h key result }
{
    match record_of(index, key) {
        Some(write) => match acked_at(&write) {
            Some(acked) => Some(judge(index, write, acked)),
            None => None,
        },
        None => None,
    }
}

/// Adds what there is to a list.
fn add(records: &mut Vec<Judged>, judged: Option<Judged>) -> Result<(), AllocError>
    ensures { OnOk result (records.new.items ≡ records.old.items ++ list_of judged) }
{
    if let Some(judged) = judged {
        records.push(judged)?;
    }
    Ok(())
}

/// The acknowledged records with their verdicts, by key.
fn judge_keys(alloc: Global, index: &Index) -> Result<Vec<Judged>, AllocError>
    requires { IsInOrder index.now }
    ensures { IfOk result (λ records. (h : Lines) → IsIndexOf h index.now
        → AreJudgedBelow h index.now.names records.items) }
{
    let mut records = Vec::new(alloc);
    for key in 0..index.names() {
        add(&mut records, judge_key(index, key))?;
    }
    Ok(records)
}

/// All acknowledged records of a history with their verdicts, in the order of their acks.
///
/// # Errors
///
/// `AllocError` where an allocation fails.
pub fn judge_records(alloc: Global, index: &Index) -> Result<Vec<Judged>, AllocError>
    requires { IsInOrder index.now }
    ensures { IfOk result (λ records. (h : Lines) → IsIndexOf h index.now
        → AreJudged h records.items) }
{
    let mut records = judge_keys(alloc, index)?;
    records.sort_by_key(|judged| judged.acked.line)?;
    Ok(records)
}
