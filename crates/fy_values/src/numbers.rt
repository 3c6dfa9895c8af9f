//! Numbers from 0 on in place of values.
ghost use Rattle.std.specs.Prelude.{◌≡◌, IfOk};
ghost use Rattle.fy_values.specs.Values.{IsNumberOf, IsActOf, AreNumbered};

use fy_registers::{Act, Operation};
use indexmap::IndexSet;
use std::alloc::{AllocError, Global};

/// Operations with numbers in place of their values.
#[derive(Drop)]
pub struct Numbered {
    /// The values: the number of each is its place.
    pub values: IndexSet<u32>,
    pub operations: Vec<Operation>,
}

/// A place as a number.
fn place_number(place: usize) -> Result<u32, AllocError>
    ensures { IfOk result (λ number. number ≡ place) }
{
    match u32::try_from(place) {
        Ok(number) => Ok(number),
        Err(_) => Err(AllocError),
    }
}

/// The number of a value, which goes behind the others where it isn't there yet.
fn number(values: &mut IndexSet<u32>, value: u32) -> Result<u32, AllocError>
    ensures { IfOk result (IsNumberOf values.old.keys values.new.keys value) }
{
    match values.insert_full(value) {
        Ok((place, _)) => place_number(place),
        Err(_) => Err(AllocError),
    }
}

/// An act with a number in place of its value.
fn number_act(values: &mut IndexSet<u32>, act: Act) -> Result<Act, AllocError>
    ensures { IfOk result (IsActOf values.old.keys values.new.keys act) }
{
    match act {
        Act::Write(value) => Ok(Act::Write(number(values, value)?)),
        Act::Read(Some(value)) => Ok(Act::Read(Some(number(values, value)?))),
        Act::Read(None) => Ok(Act::Read(None)),
    }
}

/// The operations with numbers from 0 on in place of their values, in the order in which these come
/// first.
///
/// # Errors
///
/// An allocation failed.
pub fn number_values(alloc: Global, operations: &[Operation]) -> Result<Numbered, AllocError>
    ensures { IfOk result (λ numbered.
        AreNumbered operations.now numbered.values.keys numbered.operations.items) }
{
    let mut values = IndexSet::new(alloc);
    let mut numbered = Vec::with_capacity(alloc, operations.len())?;
    for operation in operations {
        let act = number_act(&mut values, operation.act)?;
        numbered.push(Operation {
            act,
            began: operation.began,
            ended: operation.ended,
        })?;
    }
    Ok(Numbered {
        values,
        operations: numbered,
    })
}
