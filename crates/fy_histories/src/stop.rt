//! Why a command that judges a history stops before its work is done.
ghost use Rattle.std.specs.Prelude.{◌≡◌, OnOk, OnErr, IfErr};
ghost use Rattle.std.specs.Io.KnownBytes.{Appends};
ghost use Rattle.fy_lines.specs.Prefixes.{AppendsProperPrefix};
ghost use Rattle.fy_histories.specs.Stops.{histories_status, fault_ending, histories_text};

use fy_history::{HistoryFault, HistoryStop};
use fy_lines::OutputFault;
use fy_streams::{Stop, write_numbered, write_stop};
use std::alloc::AllocError;
use std::io::Write;

/// Why a command that judges a history stops before its work is done.
#[derive(Clone, Copy, Debug, PartialEq, Eq)]
pub enum HistoriesStop {
    /// A line of the history is refused; lines count from 1.
    Line { number: u32, fault: HistoryFault },
    /// It stops as other commands do.
    Other(Stop),
}

impl From<Stop> for HistoriesStop {
    ghost use Rattle.fy_histories.specs.declared.stop.HistoriesStop.TheVariants.{Other};

    ghost from_gives = { λ stop given. given ≡ Other stop };

    fn from(stop: Stop) -> HistoriesStop {
        HistoriesStop::Other(stop)
    }
}

impl From<AllocError> for HistoriesStop {
    ghost use Rattle.fy_streams.specs.declared.stop.Stop.TheVariants.{NoMemory};
    ghost use Rattle.fy_histories.specs.declared.stop.HistoriesStop.TheVariants.{Other};

    ghost from_gives = { λ _ given. given ≡ Other NoMemory };

    fn from(_refused: AllocError) -> HistoriesStop {
        HistoriesStop::Other(Stop::NoMemory)
    }
}

impl From<OutputFault> for HistoriesStop {
    ghost use Rattle.fy_streams.specs.declared.stop.Stop.TheVariants.{Write as write_fault};
    ghost use Rattle.fy_histories.specs.declared.stop.HistoriesStop.TheVariants.{Other};

    ghost from_gives = { λ _ given. given ≡ Other write_fault };

    fn from(_fault: OutputFault) -> HistoriesStop {
        HistoriesStop::Other(Stop::Write)
    }
}

impl From<HistoryStop> for HistoriesStop {
    ghost use Rattle.fy_histories.specs.Stops.{history_stop};

    ghost from_gives = { λ stop given. given ≡ history_stop stop };

    fn from(stop: HistoryStop) -> HistoriesStop {
        match stop {
            HistoryStop::Line { number, fault } => HistoriesStop::Line { number, fault },
            HistoryStop::Reader => HistoriesStop::Other(Stop::Read),
            HistoryStop::NoMemory => HistoriesStop::Other(Stop::NoMemory),
        }
    }
}

impl HistoriesStop {
    /// The status with which the program exits: 1 for a refused history, and else that of the stop.
    pub fn status(&self) -> u8
        ensures { result ≡ histories_status self.now }
    {
        match self {
            HistoriesStop::Line { .. } => 1,
            HistoriesStop::Other(stop) => stop.status(),
        }
    }
}

/// The end of the fault line for a fault.
fn fault_ending(fault: HistoryFault) -> &'static str
    ensures { result.now ≡ fault_ending fault }
{
    match fault {
        HistoryFault::TooLong => ": TooLong\n",
        HistoryFault::Syntax => ": Syntax\n",
        HistoryFault::Index => ": Index\n",
        HistoryFault::Time => ": Time\n",
        HistoryFault::Client => ": Client\n",
        HistoryFault::Value => ": Value\n",
        HistoryFault::Entry => ": Entry\n",
        HistoryFault::Order => ": Order\n",
        HistoryFault::Node => ": Node\n",
    }
}

/// Writes the stop's fault line with its line feed. It doesn't allocate.
///
/// # Errors
///
/// `Write` at the first call of `write` that fails or takes no byte; a front of the line is out
/// then, and never all of it.
pub fn write_histories_stop<W: Write>(stop: &HistoriesStop, writer: &mut W) -> Result<(), Stop>
    ensures ok { OnOk result
        (Appends (W.contents writer.old) (W.contents writer.new) (histories_text stop.now)) }
    ensures err { OnErr result (AppendsProperPrefix (W.contents writer.old) (W.contents writer.new)
        (histories_text stop.now)) }
    ensures fault { IfErr result (λ fault. fault ≡ Stop.Write) }
{
    match *stop {
        HistoriesStop::Line { number, fault } => {
            write_numbered(
                writer,
                "history: line ",
                u64::from(number),
                fault_ending(fault),
            )?;
            Ok(())
        }
        HistoriesStop::Other(stop) => write_stop(&stop, writer),
    }
}
