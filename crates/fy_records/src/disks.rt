//! What was found on disks.
ghost use Rattle.std.specs.Prelude.{◌≡◌, false, ◌<◌, ℕ, ◌==◌, ◌&&◌, ◌||◌, not, length, slice_get, filter_map, IfOk, Some, is_none};
ghost use Rattle.std.specs.List.{list_any};
ghost use Rattle.std.specs.List.Sorted.{IsPermutation, IsNonDecreasingBy};
ghost use Rattle.fy_history.specs.declared.history.DiskLine.{DiskLine};
ghost use Rattle.fy_records.specs.declared.disks.Found.{Found};
ghost use Rattle.fy_records.specs.declared.disks.Extent.{Extent};
ghost use Rattle.fy_records.specs.Traces.{is_all, is_nothing_else, all_below};
ghost use Rattle.fy_records.specs.Founds.{found_of, has_value, is_found, is_clear_of, AreExtents, extent_with};

use fy_history::{DiskLine, Trace};
use std::alloc::{AllocError, Global};

/// What was found of a key on the disk of a process.
#[derive(Clone, Copy, PartialEq, Eq, Debug)]
pub struct Found {
    pub key: u32,
    /// The value of the record; `None` where only something of the key stands there.
    pub value: Option<u32>,
    /// The process whose disk it is.
    pub node: u16,
}

impl Found {
    /// Whether it is a record of this value.
    pub(crate) fn has(&self, value: u32) -> bool
        ensures { result ≡ has_value value self.now }
    {
        match self.value {
            Some(found) => found == value,
            None => false,
        }
    }

    /// Whether it only stands in the files of a process.
    fn stands_at(&self, node: usize) -> bool
        ensures { result ≡ ((self.now.node == node) && is_none self.now.value) }
    {
        self.node as usize == node && self.value.is_none()
    }
}

/// How far a disk was looked through.
#[derive(Clone, Copy, PartialEq, Eq, Debug)]
pub(crate) struct Extent {
    /// All of its records were told.
    pub(crate) whole: bool,
    /// Nothing of other keys stands in its files.
    pub(crate) plain: bool,
}

/// What a line says of a key.
fn found_on(line: &DiskLine) -> Option<Found>
    ensures { result ≡ found_of line.now }
{
    let node = line.node;
    match line.trace {
        Trace::Has { key, value } => Some(Found {
            key,
            value: Some(value),
            node,
        }),
        Trace::Stands { key } => Some(Found {
            key,
            value: None,
            node,
        }),
        Trace::All | Trace::Some | Trace::NothingElse => None,
    }
}

/// What was found of keys.
fn founds_on(alloc: Global, lines: &[DiskLine]) -> Result<Vec<Found>, AllocError>
    ensures { IfOk result (λ founds. founds.items ≡ filter_map found_of lines.now) }
{
    lines
        .iter()
        .filter_map(|line| found_on(line))
        .collect(alloc)
}

/// What was found of keys, sorted by them.
pub(crate) fn founds_by_key(alloc: Global, lines: &[DiskLine]) -> Result<Vec<Found>, AllocError>
    ensures same { IfOk result (λ founds.
        IsPermutation (filter_map found_of lines.now) founds.items) }
    ensures order { IfOk result (λ founds.
        IsNonDecreasingBy (λ (found : Found). found.key) founds.items) }
{
    let mut founds = founds_on(alloc, lines)?;
    founds.sort_by_key(|found| found.key)?;
    Ok(founds)
}

/// How far a disk was looked through, with one more line of it.
fn with_line(extent: Extent, line: &DiskLine) -> Extent
    ensures { result ≡ extent_with extent line.now.trace }
{
    match line.trace {
        Trace::All => Extent {
            whole: true,
            ..extent
        },
        Trace::NothingElse => Extent {
            plain: true,
            ..extent
        },
        Trace::Has { .. } | Trace::Some | Trace::Stands { .. } => extent,
    }
}

/// Notes what a line says of the disk of a process, if there is one.
fn note(extents: &mut Vec<Extent>, line: &DiskLine)
    ensures long { length extents.new.items ≡ length extents.old.items }
    ensures other { (node : ℕ) → (line.now.node == node) ≡ false
        → slice_get extents.new.items node ≡ slice_get extents.old.items node }
    ensures here { (extent : Extent) → slice_get extents.old.items line.now.node ≡ Some extent
        → slice_get extents.new.items line.now.node ≡ Some (extent_with extent line.now.trace) }
{
    let node = line.node as usize;
    if node < extents.len() {
        extents[node] = with_line(extents[node], line);
    }
}

/// How far the disk of each process was looked through.
pub(crate) fn extents_of(
    alloc: Global,
    lines: &[DiskLine],
    processes: u16,
) -> Result<Vec<Extent>, AllocError>
    ensures { IfOk result (λ extents. AreExtents lines.now processes extents.items) }
{
    let none = Extent {
        whole: false,
        plain: false,
    };
    let mut extents = vec![in alloc; none; processes as usize]?;
    for line in lines {
        note(&mut extents, line);
    }
    Ok(extents)
}

/// Whether some disk has a record of this value, among what was found of its key.
pub(crate) fn is_on_disk(founds: &[Found], value: u32) -> bool
    ensures { result ≡ is_found founds.now value }
{
    founds.iter().any(|found| found.has(value))
}

/// Whether something of the key stands in the files of a process.
fn stands_at(founds: &[Found], node: usize) -> bool
    ensures { result
        ≡ list_any (λ found. (found.node == node) && is_none found.value) founds.now }
{
    founds.iter().any(|found| found.stands_at(node))
}

/// Whether a disk was looked through for the key of which so much was found.
fn is_clear(extents: &[Extent], founds: &[Found], node: usize) -> bool
    ensures { result ≡ is_clear_of extents.now founds.now node }
{
    match extents.get(node) {
        Some(extent) => extent.whole || extent.plain && !stands_at(founds, node),
        None => false,
    }
}

/// Whether each disk was looked through for the key of which so much was found.
fn are_clear(extents: &[Extent], founds: &[Found]) -> bool
    ensures { result ≡ all_below (length extents.now) (is_clear_of extents.now founds.now) }
{
    for node in 0..extents.len() {
        if !is_clear(extents, founds, node) {
            return false;
        }
    }
    true
}

/// Whether each disk is known not to have a record of this value.
pub(crate) fn is_on_no_disk(extents: &[Extent], founds: &[Found], value: u32) -> bool
    ensures { result ≡ (not (is_found founds.now value)
        && all_below (length extents.now) (is_clear_of extents.now founds.now)) }
{
    !is_on_disk(founds, value) && are_clear(extents, founds)
}
