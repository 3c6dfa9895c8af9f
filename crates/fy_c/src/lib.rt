//! The verdict for programs in C, and in whatever calls C: a cluster behind a handle, and one call
//! for each thing that is asked of it. `include/faultyard.h` declares all of it.
#![tactic(auto)]

mod acting;
mod asking;
mod bearing;
mod callers;
mod check_calls;
mod check_handle;
mod checking;
mod clogging;
mod entering;
mod faults;
mod handle;
mod killable;
mod killing;
mod killing_process;
pub mod laws;
mod loose;
mod making;
mod numbers;
mod opening;
mod placing;
mod planning;
mod questioning;
mod resuming;
mod rights;
mod sets;
mod status;
mod storing;
mod traffic;
