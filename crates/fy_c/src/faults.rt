//! Why bytes are no cluster file, and where their first fault is.
ghost use Rattle.std.specs.Prelude.{◌≡◌};
ghost use Rattle.fy_c.specs.Faults.{part_number, part_of, place_of, Faults};
ghost use Rattle.fy_c.specs.Statuses.{Answers};

use crate::status::Status;
use fy_config::{ConfigFault, Part, read_config};
use std::alloc::Global;

/// The number by which C knows a part of a cluster file.
fn part_number(part: Part) -> u32
    ensures { result ≡ part_number part }
{
    match part {
        Part::JournalLimit => 1,
        Part::Policies => 2,
        Part::Process => 3,
        Part::Actor => 4,
        Part::Protect => 5,
        Part::Unknown => 6,
    }
}

/// The part that a fault is of, 0 where it is of the whole file.
fn part_of(fault: ConfigFault) -> u32
    ensures { result ≡ part_of fault }
{
    match fault {
        ConfigFault::Field { part }
        | ConfigFault::Limit { part }
        | ConfigFault::Name { part, .. } => part_number(part),
        ConfigFault::Policy { .. } | ConfigFault::PolicyUnmet { .. } => part_number(Part::Policies),
        ConfigFault::TooLong | ConfigFault::Toml | ConfigFault::NoMemory => 0,
    }
}

/// The place in its part that a fault names, from 0, and 0 where it names none.
fn place_of(fault: ConfigFault) -> u64
    ensures { result ≡ place_of fault }
{
    match fault {
        ConfigFault::Name { index, .. }
        | ConfigFault::Policy { index }
        | ConfigFault::PolicyUnmet { index } => index as u64,
        ConfigFault::TooLong
        | ConfigFault::Toml
        | ConfigFault::Field { .. }
        | ConfigFault::Limit { .. }
        | ConfigFault::NoMemory => 0,
    }
}

/// Why bytes are no cluster file: the status with which `fy_open` refuses them, or `Done`. The part
/// that the fault is of goes to `part`, from 1, or 0; its place there to `place`.
///
/// # Errors
///
/// `NoMemory`, and the statuses for a cluster file that is refused.
#[unsafe(no_mangle)]
pub extern "C" fn fy_config_fault(
    alloc: Global,
    config: &[u8],
    part: &mut u32,
    place: &mut u64,
) -> u32
    ensures { Answers result (Faults config.now part.new place.new) }
{
    *part = 0;
    *place = 0;
    let fault = match read_config(alloc, config) {
        Ok(_) => return Status::Done.number(),
        Err(fault) => fault,
    };
    *part = part_of(fault);
    *place = place_of(fault);
    Status::from(fault).number()
}
