//! A policy's tree with counts, for every group of processes at once.
ghost use Rattle.std.specs.Prelude.{is_some, IfOk, IsTrue, ◌≡◌, ◌+◌, ◌^◌, ◌<◌, ◌≤◌, ℕ, Bool, true, false, ◌||◌, nat_lt, List, length, slice_index_or};
ghost use Rattle.std.specs.FinSet as sets;
ghost use Rattle.fy_locality.specs.declared.locality.Locality.{Locality};
ghost use Rattle.fy_locality.specs.Locality.{value_of};
ghost use Rattle.fy_policy.specs.Sat.{satisfies};
ghost use Rattle.fy_policy.specs.Counted.{tree_of_node, IsRepresentative, AreCountersOf, IsRecounted, recounted, group_at, within, toggled, toggled_by, CanToggle, CanToggleOne, HasGroup, HasGroups, AreCountersAt, CountsAlike};

use fy_locality::{Key, Map, ProcId, ProcSet, laws};
use std::alloc::{AllocError, Global};

/// A policy, counted for a set of processes. Each node parts the processes into groups, and each
/// group has the number of its least process; the root has one group. A node below an `Across`
/// parts them by the value of its key too.
#[derive(Drop)]
pub(crate) enum Node {
    /// For each group how many of its processes are in the set.
    One(Vec<u32>),
    /// So many groups of the node below, which parts processes by the key too.
    Across {
        /// How many of them have to be satisfied.
        wanted: u32,
        key: Key,
        /// For each process its group below.
        places: Vec<u32>,
        /// For each group of this node how many of its groups below are satisfied.
        counts: Vec<u32>,
        inner: Box<Node>,
    },
    /// Two policies at once.
    Both(Box<Node>, Box<Node>),
}

/// The count of a group, or the group below of a process.
fn count_at(counts: &[u32], group: u32) -> u32
    requires { group < length counts.now }
    ensures { result ≡ slice_index_or counts.now group 0 }
{
    counts[group as usize]
}

/// A count after one of those counted was looked at again: it counted before, and it counts after.
fn recounted(count: u32, before: bool, after: bool) -> u32
    ensures { count < 2 ^ 31 → result ≡ recounted count before after }
{
    count
        .saturating_add(u32::from(after))
        .saturating_sub(u32::from(before))
}

/// Counts one again at a group.
fn recount(counts: &mut [u32], group: u32, before: bool, after: bool)
    requires { group < length counts.old }
    ensures { IsRecounted counts.old group before after counts.new }
{
    let i = group as usize;
    counts[i] = recounted(counts[i], before, after);
}

/// Whether the set satisfies the policy at a group.
pub(crate) fn is_satisfied_at(node: &Node, group: u32) -> bool
    requires { HasGroup group node.now }
    ensures { (processes : List Locality) (at : ℕ → ℕ) (s : ℕ → Bool)
        → AreCountersOf processes at s node.now → group ≤ length processes
        → result ≡ satisfies processes (tree_of_node node.now) (within processes at group s) }
{
    match node {
        Node::One(counts) => count_at(counts, group) > 0,
        Node::Across { wanted, counts, .. } => count_at(counts, group) >= *wanted,
        Node::Both(first, second) => is_satisfied_at(first, group)
            && is_satisfied_at(second, group),
    }
}

/// Puts a process of the group into the set, or takes it out.
pub(crate) fn toggle(node: &mut Node, map: &Map, group: u32, p: ProcId, joins: bool)
    requires groups { HasGroups (length map.now) node.old }
    requires group { group ≤ length map.now }
    requires process { p.0 < length map.now }
    ensures groups { HasGroups (length map.now) node.new }
    ensures tree { tree_of_node node.new ≡ tree_of_node node.old }
    ensures right { (at : ℕ → ℕ) (s : ℕ → Bool) → AreCountersAt map.now at s group node.old
        → CanToggleOne map.now at group s p.0 joins
        → AreCountersOf map.now at (toggled s p.0 joins) node.new }
{
    match node {
        Node::One(counts) => recount(counts, group, !joins, joins),
        Node::Across {
            key,
            places,
            counts,
            inner,
            ..
        } => {
            laws::values_differ();
            laws::values_occur();
            let below = count_at(places, p.0);
            let before = is_satisfied_at(inner, below);
            toggle(inner, map, below, p, joins);
            let after = is_satisfied_at(inner, below);
            if has_key(map, p, *key) {
                recount(counts, group, before, after);
            }
        }
        Node::Both(first, second) => {
            toggle(first, map, group, p, joins);
            toggle(second, map, group, p, joins);
        }
    }
}

/// Whether the set would satisfy the policy at a group after these of its processes came or went,
/// by value after value of theirs.
pub(crate) fn satisfied_after_toggle(
    node: &Node,
    map: &Map,
    group: u32,
    those: &ProcSet,
    joins: bool,
) -> bool
    requires groups { HasGroups (length map.now) node.now }
    requires group { group ≤ length map.now }
    ensures { (at : ℕ → ℕ) (s : ℕ → Bool) → AreCountersAt map.now at s group node.now
        → CanToggle map.now at group s (sets.contains those.now) joins
        → result ≡ satisfies map.now (tree_of_node node.now)
        (within map.now at group (toggled_by s (sets.contains those.now) joins)) }
{
    match node {
        Node::One(counts) => some_after(count_at(counts, group), those, joins),
        Node::Across {
            wanted,
            key,
            places,
            counts,
            inner,
        } => {
            laws::processes_have_values();
            laws::values_differ();
            laws::values_occur();
            let mut count = count_at(counts, group);
            if is_out_of_reach(count, *wanted, those.len(), joins) {
                return !joins;
            }
            let mut rest = *those;
            while let Some(p) = rest.least() {
                let Some(peers) = map.peers(p, *key) else {
                    rest.drop_one(p);
                    continue;
                };
                let part = rest.intersection(&peers);
                rest = rest.difference(&part);
                let below = count_at(places, p.0);
                let before = is_satisfied_at(inner, below);
                let after = satisfied_after_toggle(inner, map, below, &part, joins);
                count = recounted(count, before, after);
            }
            count >= *wanted
        }
        Node::Both(first, second) => {
            satisfied_after_toggle(first, map, group, those, joins)
                && satisfied_after_toggle(second, map, group, those, joins)
        }
    }
}

/// Whether the set would satisfy the policy at a group after one process came or went. It is
/// [`satisfied_after_toggle`] for one process, of which no set need be made.
pub(crate) fn satisfied_after_one_toggle(
    node: &Node,
    map: &Map,
    group: u32,
    p: ProcId,
    joins: bool,
) -> bool
    requires groups { HasGroups (length map.now) node.now }
    requires group { group ≤ length map.now }
    ensures { (at : ℕ → ℕ) (s : ℕ → Bool) → AreCountersAt map.now at s group node.now
        → CanToggleOne map.now at group s p.0 joins
        → result ≡ satisfies map.now (tree_of_node node.now)
        (within map.now at group (toggled s p.0 joins)) }
{
    match node {
        Node::One(counts) => some_after_one(count_at(counts, group), joins),
        Node::Across {
            wanted,
            key,
            places,
            counts,
            inner,
        } => {
            laws::processes_have_values();
            laws::values_differ();
            laws::values_occur();
            let count = count_at(counts, group);
            if is_out_of_reach(count, *wanted, 1, joins) {
                return !joins;
            }
            if has_key(map, p, *key) {
                let below = count_at(places, p.0);
                let before = is_satisfied_at(inner, below);
                let after = satisfied_after_one_toggle(inner, map, below, p, joins);
                recounted(count, before, after) >= *wanted
            } else {
                count >= *wanted
            }
        }
        Node::Both(first, second) => {
            satisfied_after_one_toggle(first, map, group, p, joins)
                && satisfied_after_one_toggle(second, map, group, p, joins)
        }
    }
}

/// Whether there is somebody after one came to so many, or went from them.
fn some_after_one(count: u32, joins: bool) -> bool
    ensures { result ≡ (joins || nat_lt 1 count) }
{
    joins || count > 1
}

/// Whether there is somebody after these came to so many, or went from them.
fn some_after(count: u32, those: &ProcSet, joins: bool) -> bool
    ensures joins { joins ≡ true → result ≡ nat_lt 0 (count + sets.len those.now) }
    ensures goes { joins ≡ false → result ≡ nat_lt (sets.len those.now) count }
{
    if joins {
        count > 0 || those.len() > 0
    } else {
        count > those.len()
    }
}

/// Whether a count stays below what is wanted, however so many come, or stays there, however they
/// go: each of them changes the count by one at most.
fn is_out_of_reach(count: u32, wanted: u32, many: u32, joins: bool) -> bool
    ensures joins { IsTrue result → joins ≡ true → count + many < wanted }
    ensures goes { IsTrue result → joins ≡ false → wanted + many ≤ count }
{
    if joins {
        count.saturating_add(many) < wanted
    } else {
        count >= many && count - many >= wanted
    }
}

/// Whether a process has a value of a key.
fn has_key(map: &Map, p: ProcId, key: Key) -> bool
    ensures { result ≡ is_some (value_of map.now key p.0) }
{
    p.0 < map.len() && map.value(p, key).is_some()
}

/// The number of the group of a process where groups are parted by a key: its least process. A
/// process without the key is a group of its own.
fn representative(map: &Map, places: &[u32], p: ProcId, key: Key) -> u32
    requires process { p.0 < length map.now }
    requires places { length places.now ≡ length map.now }
    ensures { IsRepresentative map.now key (group_at places.now) p.0 result }
{
    laws::processes_have_values();
    match map.peers(p, key) {
        None => p.0,
        Some(peers) => {
            let group = count_at(places, p.0);
            let mut rest = peers;
            while let Some(q) = rest.least() {
                if count_at(places, q.0) == group {
                    return q.0;
                }
                rest.drop_one(q);
            }
            p.0
        }
    }
}

/// Of each process the number of its group, where groups are parted by a key. That number is the
/// group's least process, which represents it.
pub(crate) fn representatives_by_key(
    alloc: Global,
    map: &Map,
    places: &[u32],
    key: Key,
) -> Result<Vec<u32>, AllocError>
    requires { length places.now ≡ length map.now }
    ensures wide { IfOk result (λ below. length below.items ≡ length map.now) }
    ensures leaders { IfOk result (λ below. (p : ℕ) → p < length map.now
        → IsRepresentative map.now key (group_at places.now) p (group_at below.items p)) }
{
    let mut below = Vec::new(alloc);
    for p in 0..map.len() {
        below.push(representative(map, places, ProcId(p), key))?;
    }
    Ok(below)
}

/// A node with the same counts, in memory of its own.
///
/// # Errors
///
/// An allocation failed.
pub(crate) fn copied_node(alloc: Global, node: &Node) -> Result<Node, AllocError>
    ensures { IfOk result (CountsAlike node.now) }
{
    match node {
        Node::One(counts) => {
            let counts = Vec::from_slice(alloc, counts)?;
            Ok(Node::One(counts))
        }
        Node::Across {
            wanted,
            key,
            places,
            counts,
            inner,
        } => {
            let places = Vec::from_slice(alloc, places)?;
            let counts = Vec::from_slice(alloc, counts)?;
            let inner = copied_node(alloc, inner)?;
            let inner = Box::new(alloc, inner)?;
            Ok(Node::Across {
                wanted: *wanted,
                key: *key,
                places,
                counts,
                inner,
            })
        }
        Node::Both(first, second) => {
            let first = copied_node(alloc, first)?;
            let first = Box::new(alloc, first)?;
            let second = copied_node(alloc, second)?;
            let second = Box::new(alloc, second)?;
            Ok(Node::Both(first, second))
        }
    }
}

/// As many zeros as are asked for.
pub(crate) fn zeros(alloc: Global, count: u32) -> Result<Vec<u32>, AllocError>
    ensures wide { IfOk result (λ counts. length counts.items ≡ count) }
    ensures zeros { IfOk result (λ counts. (i : ℕ) → slice_index_or counts.items i 0 ≡ 0) }
{
    let mut counts = Vec::with_capacity(alloc, count as usize)?;
    for _ in 0..count {
        counts.push(0)?;
    }
    Ok(counts)
}
