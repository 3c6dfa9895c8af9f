//! Worked journals. Each law says of a journal that is written out that it is legal and, beside it,
//! what it comes to; or of a wrong one that it isn't legal. `confirmed` says of what `run` and
//! `guard` write that `check` finds it legal.
pub mod blames;
pub mod confirmed;
pub mod every;
pub mod healed;
pub mod judged;
pub mod messages;
pub mod permission;
pub mod records;
pub mod refused;
pub mod replaced;
pub mod safe;
pub mod stores;
pub mod strikes;
pub mod targets;
pub mod told;
pub mod versions;
pub mod wrong;
