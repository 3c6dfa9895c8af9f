//! Worked answers. Each law says of an answer that is written out that a definition accepts it, and
//! of such answers with one thing turned that it refuses them.
pub mod columns;
pub mod cut;
pub mod simulated;
pub mod tolerated;
pub mod turns;
