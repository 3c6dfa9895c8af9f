//! What is known of the operations of each value.

ghost use Rattle.std.specs.Prelude.{◌≡◌, ◌≢◌, ◌<◌, ◌≤◌, ℕ, IfOk, IfSome, IfNone, IfErr, length, vec_len, slice_index_or, Contains, All};
ghost use Rattle.fy_registers.specs.Linear.{IsHistory, IsWrittenOnce};
ghost use Rattle.fy_registers.specs.Zones.{zone_key, next_write, next_ended, AreSeen, HasRoom, IsZoneOf, IsNoZoneOf, AreFound};
ghost use Rattle.fy_registers.specs.Evidence.{IsTwice};

use crate::evidence::{Evidence, Judgement, Span};
use crate::operation::{Act, Operation};
use std::alloc::{AllocError, Global};

/// Of the operations of a value that ended.
#[derive(Clone, Copy, Debug, PartialEq, Eq)]
pub struct Ended {
    /// The one that ended first, and when.
    pub first: Operation,
    pub end: u32,
    /// The one that began last.
    pub last: Operation,
}

/// What was seen of a value.
#[derive(Clone, Copy, Debug, PartialEq, Eq)]
pub struct Seen {
    pub write: Option<Operation>,
    pub ended: Option<Ended>,
}

/// The operations of a value that was written, and that an operation wrote or answered which ended.
#[derive(Clone, Copy, Debug, PartialEq, Eq)]
pub struct Zone {
    pub value: usize,
    pub write: Operation,
    /// The one that ended first, and when.
    pub first: Operation,
    pub end: u32,
    /// The one that began last.
    pub last: Operation,
}

/// What was found of all values: a zone of each, or what ends the search.
#[derive(Drop)]
pub enum Found {
    Zones(Vec<Zone>),
    Judged(Judgement),
}

impl Zone {
    /// Where the zone begins, in halves of a place: what begins at a place stands before what ends
    /// there.
    pub fn key(self) -> u64
        ensures { result ≡ zone_key self }
    {
        (u64::from(self.end) * 2 + 1).min(u64::from(self.last.began) * 2)
    }

    /// The operations that show where it ends and where it begins.
    pub fn span(&self) -> Span
        ensures { result ≡ record { first = self.now.first; last = self.now.last } }
    {
        Span {
            first: self.first,
            last: self.last,
        }
    }
}

/// The write of a value, after an operation more of that value.
fn write_with(write: Option<Operation>, operation: Operation) -> Option<Operation>
    ensures { result ≡ next_write write operation operation.act }
{
    match operation.act {
        Act::Write(_) => Some(operation),
        Act::Read(_) => write,
    }
}

/// Those that ended, after an operation more of that value, which began last.
fn ended_with(ended: Option<Ended>, operation: Operation) -> Option<Ended>
    ensures { result ≡ next_ended ended operation operation.ended }
{
    let Some(end) = operation.ended else {
        return ended;
    };
    let alone = Ended {
        first: operation,
        end,
        last: operation,
    };
    let Some(ended) = ended else {
        return Some(alone);
    };
    if end < ended.end {
        Some(alone)
    } else {
        Some(Ended {
            first: ended.first,
            end: ended.end,
            last: operation,
        })
    }
}

/// How many values there are, where they are numbered from 0: one more than the greatest.
fn value_count(operations: &[Operation]) -> usize
    requires { IsHistory operations.now }
    ensures room { HasRoom operations.now result }
    ensures few { result ≤ length operations.now }
{
    let mut count = 0;
    for operation in operations {
        if let Some(value) = operation.value() {
            count = count.max(value as usize + 1);
        }
    }
    count
}

/// What is seen of each value.
fn seen_of(alloc: Global, operations: &[Operation]) -> Result<Vec<Seen>, AllocError>
    requires { IsHistory operations.now }
    ensures { IfOk result (λ table. AreSeen operations.now table.items) }
{
    let nothing = Seen {
        write: None,
        ended: None,
    };
    let mut table = Vec::from_elem(alloc, nothing, value_count(operations))?;
    for operation in operations {
        if let Some(value) = operation.value() {
            let seen = table[value as usize];
            table[value as usize] = Seen {
                write: write_with(seen.write, *operation),
                ended: ended_with(seen.ended, *operation),
            };
        }
    }
    Ok(table)
}

/// Two operations that write one value.
fn repeated(operations: &[Operation], table: &[Seen]) -> Option<(Operation, Operation)>
    requires { AreSeen operations.now table.now }
    ensures found { IfSome result (λ pair. IsTwice operations.now pair.0 pair.1) }
    ensures none { IfNone result (IsWrittenOnce operations.now) }
{
    for operation in operations {
        if let Act::Write(value) = operation.act {
            if let Some(write) = table[value as usize].write {
                if write != *operation {
                    return Some((*operation, write));
                }
            }
        }
    }
    None
}

/// The zone of a value. There is none where none of its operations ended.
///
/// # Errors
///
/// What shows that there is no order, of a read alone or with the write of its value.
fn zone_of(value: usize, seen: &Seen) -> Result<Option<Zone>, Evidence>
    ensures zone { IfOk result (λ zone. IsZoneOf value seen.now zone) }
    ensures none { IfErr result (IsNoZoneOf seen.now) }
{
    let Some(ended) = seen.ended else {
        return Ok(None);
    };
    let first = ended.first;
    let Some(write) = seen.write else {
        return Err(Evidence::Unwritten { read: first });
    };
    if ended.end < write.began {
        return Err(Evidence::BeforeWrite { read: first, write });
    }
    let last = if ended.last.began < write.began {
        write
    } else {
        ended.last
    };
    Ok(Some(Zone {
        value,
        write,
        first,
        end: ended.end,
        last,
    }))
}

/// The zones of a history.
///
/// # Errors
///
/// An allocation failed.
pub fn zones_of(alloc: Global, operations: &[Operation]) -> Result<Found, AllocError>
    requires { IsHistory operations.now }
    ensures { IfOk result (AreFound operations.now) }
{
    let table = seen_of(alloc, operations)?;
    if let Some((one, other)) = repeated(operations, &table) {
        return Ok(Found::Judged(Judgement::Twice { one, other }));
    }
    let mut zones = Vec::new(alloc);
    for (value, seen) in table.iter().enumerate() {
        let found = match zone_of(value, seen) {
            Ok(found) => found,
            Err(evidence) => return Ok(Found::Judged(Judgement::Not(evidence))),
        };
        if let Some(zone) = found {
            zones.push(zone)?;
        }
    }
    Ok(Found::Zones(zones))
}
