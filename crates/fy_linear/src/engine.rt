//! The engine behind `faultyard linear`.
ghost use Rattle.std.specs.Prelude.{◌≡◌, ◌≢◌, IfOk, IfErr, IfSome, Err};
ghost use Rattle.std.specs.Io.KnownBytes.{Appends};
ghost use Rattle.fy_lines.specs.Prefixes.{AppendsProperPrefix};
ghost use Rattle.fy_histories.specs.Stops.{TellsHistory, IsHistoryStop};
ghost use Rattle.fy_linear.specs.Linears.{Tells, any};

use crate::spelling::Spelling;
use fy_histories::HistoriesStop;
use fy_history::{Known, MOST_NODES, read_history};
use fy_keys::judge_history;
use fy_lines::write_bytes;
use fy_streams::Stop;
use std::alloc::Global;
use std::io::{BufRead, Write};

/// A history tells of no cluster here: each number of a process and of an entry is taken.
const ANY: Known = Known {
    processes: MOST_NODES,
    entries: u32::MAX,
};

/// Reads a history to its end, judges each key, and writes what was judged. The answer is whether
/// each key is linearizable: whether its operations have an order, with the texts that the history
/// has as values.
///
/// All is read and judged before the first byte is written.
///
/// # Errors
///
/// `Line` for the first faulty line, `Read` where the reader fails, `NoMemory` where an allocation
/// fails: nothing is written then. `Write` where the writer fails or takes no byte: a front of the
/// text is out, and never all of it.
pub fn run_linear<S: Spelling, R: BufRead, W: Write>(
    alloc: Global,
    form: &S,
    reader: &mut R,
    writer: &mut W,
) -> Result<bool, HistoriesStop>
    ensures done { IfOk result (λ done. IfSome (R.remaining reader.old) (λ bytes.
        Tells bytes (S.spells form.now) done
        (Appends (W.contents writer.old) (W.contents writer.new)))) }
    ensures refused { IfErr result (λ stop. IfSome (R.remaining reader.old) (λ bytes.
        TellsHistory any bytes stop)) }
    ensures nothing_out { IfErr result (λ stop. stop ≢ HistoriesStop.Other Stop.Write →
        W.contents writer.new ≡ W.contents writer.old) }
    ensures no_other { IfErr result IsHistoryStop }
{
    let history = read_history(alloc, ANY, reader)?;
    let judged = judge_history(alloc, &history)?;
    let text = form.spell(alloc, &history.names, &judged)?;
    write_bytes(writer, &text)?;
    Ok(judged.is_linearizable())
}
