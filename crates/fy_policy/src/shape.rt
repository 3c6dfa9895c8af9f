//! The tree of a policy.
use fy_locality::Key;

/// One process, several values of a key each with a group, or several policies at once.
#[derive(Drop)]
pub enum Shape {
    /// One process.
    One,
    /// So many values of the key, each with a group that satisfies the policy below.
    Across(u32, Key, Box<Shape>),
    /// Each of these policies.
    And(Vec<Shape>),
}
