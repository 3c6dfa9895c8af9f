//! Fault actors: what they plan, the desk (the cluster, held by one actor at a time), and the
//! actors themselves.
#![tactic(auto)]

mod attrition;
mod desk;
mod drawn;
mod driver;
pub mod laws;
mod plans;
mod schedule;
mod seeded;
mod swizzle;

pub use attrition::{AttritionFault, attrition_acts};
pub use desk::{Desk, FaultActor, Turn};
pub use drawn::{draw_attrition, draw_swizzle, everyone};
pub use driver::{StorageDriver, next_move};
pub use plans::{AttritionPlan, PlanFault, SwizzlePlan, attrition_plan, swizzle_plan};
pub use schedule::Schedule;
pub use seeded::{generator, words};
pub use swizzle::{process_target, swizzle_acts};
