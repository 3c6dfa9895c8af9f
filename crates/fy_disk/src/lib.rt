//! Simulated disks. What is synced stays through a crash, what isn't may be torn off. All disks
//! together know the holders of each record.
#![tactic(auto)]

mod disk;
mod disks;
mod holders;
mod item;
mod payload;

pub use disk::Disk;
pub use disks::Disks;
pub use item::Item;
pub use payload::Payload;
