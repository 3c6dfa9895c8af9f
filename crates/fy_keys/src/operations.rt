//! The operations of the registers of a history.
ghost use Rattle.std.specs.Prelude.{◌≡◌, ◌++◌, IfOk, filter_map};
ghost use Rattle.std.specs.List.Sorted.{IsPermutation, IsNonDecreasingBy};
ghost use Rattle.fy_keys.specs.Operations.{line_of, written, answered, all_of, began_of};

use fy_history::{Answer, End, History, Place, Read, Write};
use fy_registers::{Act, Keyed, Operation};
use std::alloc::{AllocError, Global};

/// The line of a place.
fn line_of(place: Option<Place>) -> Option<u32>
    ensures { result ≡ line_of place }
{
    match place {
        Some(place) => Some(place.line),
        None => None,
    }
}

/// The operation that a write is; none where it is known not to be done.
fn write_operation(write: &Write) -> Option<Keyed>
    ensures { result ≡ written write.now }
{
    let ended = match write.end {
        End::Undone => return None,
        End::Done => line_of(write.ended),
        End::Open | End::Refused | End::Unknown => None,
    };
    Some(Keyed {
        key: write.key,
        operation: Operation {
            act: Act::Write(write.value),
            began: write.began.line,
            ended,
        },
    })
}

/// The operation that a read is; none where a process was asked, or nothing was answered.
fn read_operation(read: &Read) -> Option<Keyed>
    ensures { result ≡ answered read.now }
{
    if read.node.is_some() {
        return None;
    }
    let answer = match read.answer {
        Answer::Unanswered => return None,
        Answer::Nothing => None,
        Answer::Value(value) => Some(value),
    };
    Some(Keyed {
        key: read.key,
        operation: Operation {
            act: Act::Read(answer),
            began: read.began.line,
            ended: line_of(read.ended),
        },
    })
}

/// The operations that writes are.
fn writes_of(alloc: Global, writes: &[Write]) -> Result<Vec<Keyed>, AllocError>
    ensures { IfOk result (λ operations. operations.items ≡ filter_map written writes.now) }
{
    writes
        .iter()
        .filter_map(|write| write_operation(write))
        .collect(alloc)
}

/// The operations that reads are.
fn reads_of(alloc: Global, reads: &[Read]) -> Result<Vec<Keyed>, AllocError>
    ensures { IfOk result (λ operations. operations.items ≡ filter_map answered reads.now) }
{
    reads
        .iter()
        .filter_map(|read| read_operation(read))
        .collect(alloc)
}

/// The operations of a history in the order in which they began. Their values are the numbers of
/// texts.
pub fn operations_of(alloc: Global, history: &History) -> Result<Vec<Keyed>, AllocError>
    ensures same { IfOk result (λ operations.
        IsPermutation (all_of history.now) operations.items) }
    ensures order { IfOk result (λ operations. IsNonDecreasingBy began_of operations.items) }
{
    let mut operations = writes_of(alloc, &history.writes)?;
    let reads = reads_of(alloc, &history.reads)?;
    operations.extend_from_slice(&reads)?;
    operations.sort_by_key(|keyed| keyed.operation.began)?;
    Ok(operations)
}
