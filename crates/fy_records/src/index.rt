//! A history's lines, sorted by key.
ghost use Rattle.std.specs.Prelude.{◌≡◌, ◌<◌, ◌+◌, ◌*◌, ◌^◌, ℕ, List, ◌==◌, ◌&&◌, ◌||◌, not, length, map, filter, filter_map, take, IfOk, OnOk};
ghost use Rattle.std.specs.List.{list_any};
ghost use Rattle.std.specs.List.Sorted.{IsPermutation, IsNonDecreasingBy};
ghost use Rattle.fy_records.specs.Found.{some_of, AreGathered};
ghost use Rattle.fy_records.specs.Founds.{is_found};
ghost use Rattle.fy_records.specs.Traces.{is_on_disk};
ghost use Rattle.fy_records.specs.Indexed.{write_key, read_key, found_key, IsInOrder, IsIndexOf};
ghost use Rattle.fy_records.specs.Lines.{Lines, some_read, is_undone, is_written, is_wrong, seen_of, seen_reads, lines_of};
ghost use Rattle.fy_records.specs.Pairs.{has_pair, ArePairs};
ghost use Rattle.fy_history.specs.declared.history.Write.{Write};

use crate::disks::{Extent, Found, extents_of, founds_by_key};
use crate::keys::range_of;
use crate::seen::Seen;
use fy_history::{Answer, End, History, Place, Read, Write};
use std::alloc::{AllocError, Global};

/// The lines of a history, sorted by key, so that those of one are found at once.
#[derive(Drop)]
pub struct Index {
    writes: Vec<Write>,
    write_keys: Vec<u32>,
    reads: Vec<Seen>,
    read_keys: Vec<u32>,
    founds: Vec<Found>,
    found_keys: Vec<u32>,
    extents: Vec<Extent>,
    written: Option<Place>,
    names: u32,
}

/// A key and its value as one number.
fn pair_of(key: u32, value: u32) -> u64
    ensures { result ≡ key * 4294967296 + value }
{
    key as u64 * 0x1_0000_0000 + value as u64
}

/// Whether a write is known not to be done.
fn is_undone(write: &Write) -> bool
    ensures { result ≡ is_undone write.now.end }
{
    match write.end {
        End::Undone => true,
        End::Open | End::Done | End::Refused | End::Unknown => false,
    }
}

/// Adds the pair of a write that may have been done.
fn add_pair(pairs: &mut Vec<u64>, write: &Write) -> Result<(), AllocError>
    ensures { OnOk result ((key value : ℕ) → value < 2 ^ 32 → has_pair pairs.new.items key value
        ≡ (has_pair pairs.old.items key value || ((write.now.key == key)
        && (write.now.value == value) && not (is_undone write.now.end)))) }
{
    if !is_undone(write) {
        pairs.push(pair_of(write.key, write.value))?;
    }
    Ok(())
}

/// The keys with the values that writes gave them, or may have given them.
fn pairs_written(alloc: Global, writes: &[Write]) -> Result<Vec<u64>, AllocError>
    ensures { IfOk result (λ pairs. ArePairs writes.now pairs.items) }
{
    let mut pairs = Vec::new(alloc);
    for write in writes {
        add_pair(&mut pairs, write)?;
    }
    Ok(pairs)
}

/// These pairs, sorted.
fn pairs_in_order(alloc: Global, writes: &[Write]) -> Result<Vec<u64>, AllocError>
    ensures pairs { IfOk result (λ pairs. ArePairs writes.now pairs.items) }
    ensures order { IfOk result (λ pairs. IsNonDecreasingBy (λ pair. pair) pairs.items) }
{
    let mut pairs = pairs_written(alloc, writes)?;
    pairs.sort_unstable();
    Ok(pairs)
}

/// Whether a number is among others.
fn is_among(numbers: &[u64], number: u64) -> bool
    requires { IsNonDecreasingBy (λ x. x) numbers.now }
    ensures { result ≡ list_any (λ x. x == number) numbers.now }
{
    match numbers.binary_search(&number) {
        Ok(_) => true,
        Err(_) => false,
    }
}

/// Whether a read told a value that isn't among those that were written.
fn is_wrong(pairs: &[u64], read: &Read) -> bool
    requires { IsNonDecreasingBy (λ x. x) pairs.now }
    ensures { (writes : List Write) → ArePairs writes pairs.now
        → result ≡ is_wrong writes read.now.key read.now.answer }
{
    match read.answer {
        Answer::Value(value) => !is_among(pairs, pair_of(read.key, value)),
        Answer::Unanswered | Answer::Nothing => false,
    }
}

/// A read as it is judged.
fn seen_of(pairs: &[u64], read: Read, whole: bool) -> Seen
    requires { IsNonDecreasingBy (λ x. x) pairs.now }
    ensures { (writes : List Write) → ArePairs writes pairs.now
        → result ≡ seen_of writes read whole }
{
    Seen {
        read,
        whole,
        wrong: is_wrong(pairs, &read),
    }
}

/// The reads of a history as they are judged.
fn seen_reads(
    alloc: Global,
    writes: &[Write],
    reads: &[Read],
    wholes: &[bool],
) -> Result<Vec<Seen>, AllocError>
    requires { length wholes.now ≡ length reads.now }
    ensures { IfOk result (λ seen. seen.items ≡ seen_reads writes.now reads.now wholes.now) }
{
    let pairs = pairs_in_order(alloc, writes)?;
    let mut seen = Vec::new(alloc);
    for i in 0..reads.len() {
        seen.push(seen_of(&pairs, reads[i], wholes[i]))?;
    }
    Ok(seen)
}

/// Writes, sorted by key.
fn writes_by_key(alloc: Global, writes: &[Write]) -> Result<Vec<Write>, AllocError>
    ensures same { IfOk result (λ sorted. IsPermutation writes.now sorted.items) }
    ensures order { IfOk result (λ sorted. IsNonDecreasingBy write_key sorted.items) }
{
    let mut sorted: Vec<Write> = writes.iter().copied().collect(alloc)?;
    sorted.sort_by_key(|write| write.key)?;
    Ok(sorted)
}

/// Reads, sorted by key, and those of a key by process.
fn sort_reads(reads: &mut Vec<Seen>) -> Result<(), AllocError>
    ensures same { OnOk result (IsPermutation reads.old.items reads.new.items) }
    ensures order { OnOk result (IsNonDecreasingBy read_key reads.new.items) }
    ensures gathered { OnOk result ((key : ℕ) →
        AreGathered (filter (λ seen. seen.read.key == key) reads.new.items)) }
{
    reads.sort_by_key(|seen| seen.process())?;
    reads.sort_by_key(|seen| seen.read.key)?;
    Ok(())
}

/// The column of the keys of writes.
fn keys_of_writes(alloc: Global, writes: &[Write]) -> Result<Vec<u32>, AllocError>
    ensures { IfOk result (λ keys. keys.items ≡ map write_key writes.now) }
{
    writes.iter().map(|write| write.key).collect(alloc)
}

/// The column of the keys of reads.
fn keys_of_reads(alloc: Global, reads: &[Seen]) -> Result<Vec<u32>, AllocError>
    ensures { IfOk result (λ keys. keys.items ≡ map read_key reads.now) }
{
    reads.iter().map(|seen| seen.read.key).collect(alloc)
}

/// The column of the keys of what was found.
fn keys_of_founds(alloc: Global, founds: &[Found]) -> Result<Vec<u32>, AllocError>
    ensures { IfOk result (λ keys. keys.items ≡ map found_key founds.now) }
{
    founds.iter().map(|found| found.key).collect(alloc)
}

impl Index {
    /// The lines of a history of so many texts and processes. `wholes` says of each read whether
    /// its process counted as whole when it answered.
    ///
    /// # Errors
    ///
    /// `AllocError` where an allocation fails.
    pub fn new(
        alloc: Global,
        history: &History,
        wholes: &[bool],
        processes: u16,
        names: u32,
    ) -> Result<Index, AllocError>
        requires { length wholes.now ≡ length history.now.reads.items }
        ensures { IfOk result (IsIndexOf (lines_of history.now wholes.now processes names)) }
    {
        let writes = writes_by_key(alloc, &history.writes)?;
        let mut reads = seen_reads(alloc, &history.writes, &history.reads, wholes)?;
        sort_reads(&mut reads)?;
        let founds = founds_by_key(alloc, &history.disks)?;
        Ok(Index {
            write_keys: keys_of_writes(alloc, &writes)?,
            writes,
            read_keys: keys_of_reads(alloc, &reads)?,
            reads,
            found_keys: keys_of_founds(alloc, &founds)?,
            founds,
            extents: extents_of(alloc, &history.disks, processes)?,
            written: history.written,
            names,
        })
    }

    /// The writes of a key.
    pub(crate) fn writes_of(&self, key: u32) -> &[Write]
        requires { IsInOrder self.now }
        ensures { result.now ≡ filter (λ write. write_key write == key) self.now.writes.items }
    {
        let (start, end) = range_of(&self.write_keys, key);
        &self.writes[start..end]
    }

    /// The reads of a key, those of each process together.
    pub(crate) fn reads_of(&self, key: u32) -> &[Seen]
        requires { IsInOrder self.now }
        ensures reads { result.now ≡ filter (λ seen. read_key seen == key) self.now.reads.items }
        ensures gathered { AreGathered result.now }
        ensures same { (h : Lines) → IsIndexOf h self.now
            → some_of result.now ≡ some_read h key }
    {
        let (start, end) = range_of(&self.read_keys, key);
        &self.reads[start..end]
    }

    /// What was found of a key on disks.
    pub(crate) fn founds_of(&self, key: u32) -> &[Found]
        requires { IsInOrder self.now }
        ensures founds { result.now
            ≡ filter (λ found. found_key found == key) self.now.founds.items }
        ensures same { (h : Lines) (value : ℕ) → IsIndexOf h self.now
            → is_found result.now value ≡ is_on_disk h.disks key value }
    {
        let (start, end) = range_of(&self.found_keys, key);
        &self.founds[start..end]
    }

    /// How far the disk of each process was looked through.
    pub(crate) fn extents(&self) -> &[Extent]
        ensures { result.now ≡ self.now.extents.items }
    {
        &self.extents
    }

    /// Where the reads at the end begin.
    pub(crate) fn written(&self) -> Option<Place>
        ensures { result ≡ self.now.written }
    {
        self.written
    }

    /// How many texts the history has.
    pub(crate) fn names(&self) -> u32
        ensures { result ≡ self.now.names }
    {
        self.names
    }
}
