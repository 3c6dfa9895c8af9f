//! Which machines, zones, halls and data centres may be lost whole.
ghost use Rattle.std.specs.Prelude.{◌≡◌, ◌+◌, ◌<◌, IfOk, Some, drop, length, map, slice_get};
ghost use Rattle.std.specs.Ordering.{nat_cmp};
ghost use Rattle.fy_locality.specs.Locality.{values_of};
ghost use Rattle.std.specs.FinSet as sets;
ghost use Rattle.fy_decide.specs.Safety.{with_set};
ghost use Rattle.fy_decide.specs.DeadBook.{may_lose};
ghost use Rattle.fy_tolerance.specs.Bears.{IsGroup, borne_pairs, borne_values, left_with_value};

use fy_decide::{DeadBook, Loss};
use fy_locality::{Key, Map, Name, ProcSet};
use std::alloc::{AllocError, Global};

/// Which values of a key may be lost whole, by their places.
#[derive(Drop)]
pub struct Group {
    pub key: Key,
    /// Of each value whether it may be lost.
    pub alone: Vec<bool>,
    /// Of each value, and of each value behind it, whether both may be lost together.
    pub pairs: Vec<Vec<bool>>,
}

/// The processes left that have a value of a key.
fn members_left(dead: &DeadBook, places: &Map, key: Key, value: &Name) -> ProcSet
    requires map { places.now ≡ dead.now.processes }
    ensures { sets.contains result ≡ left_with_value dead.now key value.now }
{
    dead.left().intersection(&places.members(key, value))
}

/// The processes left of each value of a key, in the order in which the values were first seen.
fn left_of_each(
    alloc: Global,
    dead: &DeadBook,
    places: &Map,
    key: Key,
) -> Result<Vec<ProcSet>, AllocError>
    requires map { places.now ≡ dead.now.processes }
    ensures { IfOk result (λ groups. map (λ set. sets.contains set) groups.items
        ≡ map (left_with_value dead.now key) (values_of dead.now.processes key)) }
{
    let mut groups = Vec::new(alloc);
    for i in 0..places.value_count(key) {
        let Some(value) = places.value_at(key, i) else {
            unreachable!();
        };
        groups.push(members_left(dead, places, key, &value))?;
    }
    Ok(groups)
}

/// Of each value of a key, in the order in which they were first seen, whether it may be lost
/// whole. The map is the one that the book was made of.
///
/// # Errors
///
/// An allocation failed.
pub fn borne_alone(
    alloc: Global,
    dead: &DeadBook,
    places: &Map,
    key: Key,
    loss: Loss,
) -> Result<Vec<bool>, AllocError>
    requires map { places.now ≡ dead.now.processes }
    ensures { IfOk result (λ borne. borne.items ≡ borne_values dead.now key loss) }
{
    let mut borne = Vec::new(alloc);
    for i in 0..places.value_count(key) {
        let Some(value) = places.value_at(key, i) else {
            unreachable!();
        };
        borne.push(dead.may_destroy(&members_left(dead, places, key, &value), loss))?;
    }
    Ok(borne)
}

/// Of each set behind a place whether it may be lost together with the one there.
fn row_of(
    alloc: Global,
    dead: &DeadBook,
    groups: &[ProcSet],
    i: usize,
    loss: Loss,
) -> Result<Vec<bool>, AllocError>
    requires { i < length groups.now }
    ensures { IfOk result (λ row. (one : sets.FinSet nat_cmp) → slice_get groups.now i ≡ Some one
        → row.items ≡ map (λ other. may_lose dead.now
        (with_set (sets.contains one) (sets.contains other)) loss) (drop (i + 1) groups.now)) }
{
    let one = groups[i];
    let mut row = Vec::new(alloc);
    for j in i + 1..groups.len() {
        row.push(dead.may_destroy(&one.union(&groups[j]), loss))?;
    }
    Ok(row)
}

/// Of each value of a key, and of each value behind it, whether both may be lost whole together;
/// the values are in the order in which they were first seen. The map is the one that the book was
/// made of.
///
/// # Errors
///
/// An allocation failed.
pub fn borne_in_pairs(
    alloc: Global,
    dead: &DeadBook,
    places: &Map,
    key: Key,
    loss: Loss,
) -> Result<Vec<Vec<bool>>, AllocError>
    requires map { places.now ≡ dead.now.processes }
    ensures { IfOk result (λ rows. map (λ row. row.items) rows.items
        ≡ borne_pairs dead.now loss
        (map (left_with_value dead.now key) (values_of dead.now.processes key))) }
{
    let groups = left_of_each(alloc, dead, places, key)?;
    let sets = groups.as_slice();
    let mut rows = Vec::new(alloc);
    for i in 0..sets.len() {
        rows.push(row_of(alloc, dead, sets, i, loss)?)?;
    }
    Ok(rows)
}

/// Which values of a key, and which pairs of them, may be lost whole. The map is the one that the
/// book was made of.
///
/// # Errors
///
/// An allocation failed.
pub(crate) fn group_of(
    alloc: Global,
    dead: &DeadBook,
    places: &Map,
    key: Key,
    loss: Loss,
) -> Result<Group, AllocError>
    requires map { places.now ≡ dead.now.processes }
    ensures { IfOk result (IsGroup dead.now key loss) }
{
    let alone = borne_alone(alloc, dead, places, key, loss)?;
    let pairs = borne_in_pairs(alloc, dead, places, key, loss)?;
    Ok(Group { key, alone, pairs })
}
