//! Each crate as its callers use it: a short run through its public calls. What the calls ask for
//! is proved here.
#![tactic(auto)]

#[cfg(test)]
mod actors;
#[cfg(test)]
mod acts;
#[cfg(test)]
mod asked;
#[cfg(test)]
mod audit;
#[cfg(test)]
mod by_number;
#[cfg(test)]
mod check;
#[cfg(test)]
mod check_by_rules;
#[cfg(test)]
mod cluster;
#[cfg(test)]
mod config;
#[cfg(test)]
mod decide;
#[cfg(test)]
mod disk;
#[cfg(test)]
mod disks;
#[cfg(test)]
mod events;
#[cfg(test)]
mod grants;
#[cfg(test)]
mod holders;
#[cfg(test)]
mod journal;
#[cfg(test)]
mod kinds;
#[cfg(test)]
mod lines;
#[cfg(test)]
mod locality;
#[cfg(test)]
mod net;
#[cfg(test)]
mod picture;
#[cfg(test)]
mod policy;
#[cfg(test)]
mod records;
#[cfg(test)]
mod shared;
#[cfg(test)]
mod single;
#[cfg(test)]
mod spelling;
#[cfg(test)]
mod team;
#[cfg(test)]
mod tolerance;
