//! Why a command stops before its work is done, the one line that says so, and the exit status.

ghost use Rattle.std.specs.Prelude.{◌≡◌, ◌++◌, OnOk, OnErr, IfErr, codes};
ghost use Rattle.std.specs.Io.KnownBytes.{Appends};
ghost use Rattle.fy_lines.specs.Prefixes.{AppendsProperPrefix};
ghost use Rattle.fy_streams.specs.Stops.{fault_word, line_word, audit_line_word, event_word, part_word, worded, numbered, config_text, script_text, audit_fault_text, events_fault_text, stop_text, stop_status};
ghost use Rattle.fy_streams.specs.declared.stop.Stop.TheVariants.{Write as write_fault};

use fy_audit::{AuditFault, AuditLineFault, LineFault, ScriptFault};
use fy_cluster::Fault;
use fy_config::{ConfigFault, Part};
use fy_events::{EventFault, EventsFault};
use fy_judge::{JudgeFault, JudgeStop};
use fy_lines::{OutputFault, write_bytes, write_parts};
use std::alloc::AllocError;
use std::io::Write;

/// Why a command stops before its work is done.
#[derive(Clone, Copy, Debug, PartialEq, Eq)]
pub enum Stop {
    /// `judge`'s input is over 1,048,576 bytes.
    JudgeTooLong,
    /// A line of `judge`'s input is refused; lines count from 1.
    JudgeLine { line: u32, fault: JudgeFault },
    /// The cluster file is refused.
    Config { fault: ConfigFault },
    /// The script is refused.
    Script { fault: ScriptFault },
    /// The script has more lines than the journal may have entries.
    JournalFull,
    /// The audit is refused.
    Audit { fault: AuditFault },
    /// The file of events is refused.
    Events { fault: EventsFault },
    /// The cluster that a swarm shared can't be closed: a seat is missing.
    SwarmClose,
    /// A call of `read` failed, or a file can't be opened.
    Read,
    /// A call of `write` failed, or took no byte.
    Write,
    /// An allocation for the work failed.
    NoMemory,
}

impl From<OutputFault> for Stop {
    ghost from_gives = { λ _ stop. stop ≡ write_fault };

    fn from(_fault: OutputFault) -> Stop {
        Stop::Write
    }
}

impl From<JudgeStop> for Stop {
    ghost use Rattle.fy_streams.specs.Stops.{judge_stop};

    ghost from_gives = { λ stopped stop. stop ≡ judge_stop stopped };

    fn from(stopped: JudgeStop) -> Stop {
        match stopped {
            JudgeStop::TooLong => Stop::JudgeTooLong,
            JudgeStop::Line { line, fault } => Stop::JudgeLine { line, fault },
            JudgeStop::Read => Stop::Read,
            JudgeStop::Write => Stop::Write,
            JudgeStop::NoMemory => Stop::NoMemory,
        }
    }
}

impl From<Fault> for Stop {
    ghost use Rattle.fy_streams.specs.Stops.{entering_stop};

    ghost from_gives = { λ fault stop. stop ≡ entering_stop fault };

    fn from(fault: Fault) -> Stop {
        match fault {
            Fault::JournalFull => Stop::JournalFull,
            Fault::NoMemory => Stop::NoMemory,
        }
    }
}

impl From<ConfigFault> for Stop {
    ghost use Rattle.fy_streams.specs.Stops.{config_stop};

    ghost from_gives = { λ fault stop. stop ≡ config_stop fault };

    fn from(fault: ConfigFault) -> Stop {
        match fault {
            ConfigFault::NoMemory => Stop::NoMemory,
            fault => Stop::Config { fault },
        }
    }
}

impl From<ScriptFault> for Stop {
    ghost use Rattle.fy_streams.specs.Stops.{script_stop};

    ghost from_gives = { λ fault stop. stop ≡ script_stop fault };

    fn from(fault: ScriptFault) -> Stop {
        match fault {
            ScriptFault::NoMemory => Stop::NoMemory,
            fault => Stop::Script { fault },
        }
    }
}

impl From<EventsFault> for Stop {
    ghost use Rattle.fy_streams.specs.Stops.{events_stop};

    ghost from_gives = { λ fault stop. stop ≡ events_stop fault };

    fn from(fault: EventsFault) -> Stop {
        match fault {
            EventsFault::NoMemory => Stop::NoMemory,
            fault => Stop::Events { fault },
        }
    }
}

impl From<AllocError> for Stop {
    ghost use Rattle.fy_streams.specs.declared.stop.Stop.TheVariants.{NoMemory};

    ghost from_gives = { λ _ stop. stop ≡ NoMemory };

    fn from(_refused: AllocError) -> Stop {
        Stop::NoMemory
    }
}

impl Stop {
    /// The status with which the program exits: 1 for a refused input and for a swarm that can't be
    /// closed, 3 for a read or write fault, 4 for an allocation failure.
    pub fn status(&self) -> u8
        ensures { result ≡ stop_status self.now }
    {
        match self {
            Stop::NoMemory => 4,
            Stop::Config {
                fault: ConfigFault::NoMemory,
            } => 4,
            Stop::Script {
                fault: ScriptFault::NoMemory,
            } => 4,
            Stop::Audit {
                fault: AuditFault::NoMemory,
            } => 4,
            Stop::Events {
                fault: EventsFault::NoMemory,
            } => 4,
            Stop::Read | Stop::Write => 3,
            Stop::JudgeTooLong | Stop::JudgeLine { .. } => 1,
            Stop::Config { .. } | Stop::Script { .. } | Stop::JournalFull => 1,
            Stop::Audit { .. } | Stop::Events { .. } | Stop::SwarmClose => 1,
        }
    }
}

/// The word for a fault of a line of `judge`'s input.
fn fault_word(fault: JudgeFault) -> &'static str
    ensures { result.now ≡ fault_word fault }
{
    match fault {
        JudgeFault::Syntax => "Syntax",
        JudgeFault::Policy => "Policy",
        JudgeFault::Twice => "Twice",
        JudgeFault::TooMany => "TooMany",
        JudgeFault::Unknown => "Unknown",
        JudgeFault::PolicyUnmet => "PolicyUnmet",
    }
}

/// The word for a fault of a line of a script.
fn line_word(fault: LineFault) -> &'static str
    ensures { result.now ≡ line_word fault }
{
    match fault {
        LineFault::TooLong => "TooLong",
        LineFault::Syntax => "Syntax",
        LineFault::Floor => "Floor",
    }
}

/// The word for a fault of a line of an audit.
fn audit_line_word(fault: AuditLineFault) -> &'static str
    ensures { result.now ≡ audit_line_word fault }
{
    match fault {
        AuditLineFault::Header => "Header",
        AuditLineFault::TooLong => "TooLong",
        AuditLineFault::Syntax => "Syntax",
    }
}

/// The word for a fault of a line of events.
fn event_word(fault: EventFault) -> &'static str
    ensures { result.now ≡ event_word fault }
{
    match fault {
        EventFault::Syntax => "Syntax",
        EventFault::Entry => "Entry",
        EventFault::Time => "Time",
        EventFault::Does => "Does",
        EventFault::Order => "Order",
    }
}

/// The word for a part of a cluster file.
fn part_word(part: Part) -> &'static str
    ensures { result.now ≡ part_word part }
{
    match part {
        Part::JournalLimit => "JournalLimit",
        Part::Policies => "Policies",
        Part::Process => "Process",
        Part::Actor => "Actor",
        Part::Protect => "Protect",
        Part::Unknown => "Unknown",
    }
}

/// Writes a line with a word in it.
fn write_worded<W: Write>(writer: &mut W, head: &str, word: &str) -> Result<(), OutputFault>
    ensures ok { OnOk result
        (Appends (W.contents writer.old) (W.contents writer.new) (worded head.now word.now)) }
    ensures err { OnErr result (AppendsProperPrefix (W.contents writer.old) (W.contents writer.new)
        (worded head.now word.now)) }
{
    write_three(writer, head, word, "\n")
}

/// Writes a line with a number in it.
///
/// # Errors
///
/// At the first call of `write` that fails or takes no byte. A front of the line is out then, and
/// never all of it.
pub fn write_numbered<W: Write>(
    writer: &mut W,
    head: &str,
    number: u64,
    ending: &str,
) -> Result<(), OutputFault>
    ensures ok { OnOk result (Appends (W.contents writer.old) (W.contents writer.new)
        (numbered head.now number ending.now)) }
    ensures err { OnErr result (AppendsProperPrefix (W.contents writer.old) (W.contents writer.new)
        (numbered head.now number ending.now)) }
{
    let mut digits = itoa::Buffer::new();
    write_three(writer, head, digits.format(number), ending)
}

/// Writes three texts, one behind the other.
fn write_three<'a, W: Write>(
    writer: &mut W,
    first: &'a str,
    second: &'a str,
    third: &'a str,
) -> Result<(), OutputFault>
    ensures ok { OnOk result (Appends (W.contents writer.old) (W.contents writer.new)
        (first.now ++ second.now ++ third.now)) }
    ensures err { OnErr result (AppendsProperPrefix (W.contents writer.old) (W.contents writer.new)
        (first.now ++ second.now ++ third.now)) }
{
    write_parts(
        writer,
        &[first.as_bytes(), second.as_bytes(), third.as_bytes()],
    )
}

/// Writes a line with two words in it.
fn write_two_words<'a, W: Write>(
    writer: &mut W,
    head: &'a str,
    first: &'a str,
    between: &'a str,
    second: &'a str,
) -> Result<(), OutputFault>
    ensures ok { OnOk result (Appends (W.contents writer.old) (W.contents writer.new)
        (head.now ++ first.now ++ between.now ++ second.now ++ codes "\n")) }
    ensures err { OnErr result (AppendsProperPrefix (W.contents writer.old) (W.contents writer.new)
        (head.now ++ first.now ++ between.now ++ second.now ++ codes "\n")) }
{
    write_parts(
        writer,
        &[
            head.as_bytes(),
            first.as_bytes(),
            between.as_bytes(),
            second.as_bytes(),
            "\n".as_bytes(),
        ],
    )
}

/// Writes the fault line of a refused line: a head, the line's number, and the fault's word.
fn write_refused_line<W: Write>(
    writer: &mut W,
    head: &str,
    number: u32,
    word: &str,
) -> Result<(), OutputFault>
    ensures ok { OnOk result (Appends (W.contents writer.old) (W.contents writer.new)
        (numbered head.now number (codes ": " ++ word.now ++ codes "\n"))) }
    ensures err { OnErr result (AppendsProperPrefix (W.contents writer.old) (W.contents writer.new)
        (numbered head.now number (codes ": " ++ word.now ++ codes "\n"))) }
{
    let mut digits = itoa::Buffer::new();
    write_two_words(writer, head, digits.format(number), ": ", word)
}

/// Writes the fault line of a bad name in a part of a cluster file.
fn write_bad_name<W: Write>(writer: &mut W, part: Part, index: usize) -> Result<(), OutputFault>
    ensures ok { OnOk result (Appends (W.contents writer.old) (W.contents writer.new)
        (numbered (codes "config: Name " ++ part_word part ++ codes " ") index (codes "\n"))) }
    ensures err { OnErr result (AppendsProperPrefix (W.contents writer.old) (W.contents writer.new)
        (numbered (codes "config: Name " ++ part_word part ++ codes " ") index (codes "\n"))) }
{
    let mut digits = itoa::Buffer::new();
    write_two_words(
        writer,
        "config: Name ",
        part_word(part),
        " ",
        digits.format(index),
    )
}

/// Writes the line for a cluster file that is refused.
fn write_config_fault<W: Write>(fault: ConfigFault, writer: &mut W) -> Result<(), OutputFault>
    ensures ok { OnOk result
        (Appends (W.contents writer.old) (W.contents writer.new) (config_text fault)) }
    ensures err { OnErr result
        (AppendsProperPrefix (W.contents writer.old) (W.contents writer.new) (config_text fault)) }
{
    match fault {
        ConfigFault::TooLong => write_bytes(writer, b"config: TooLong\n"),
        ConfigFault::Toml => write_bytes(writer, b"config: Toml\n"),
        ConfigFault::Field { part } => write_worded(writer, "config: Field ", part_word(part)),
        ConfigFault::Limit { part } => write_worded(writer, "config: Limit ", part_word(part)),
        ConfigFault::Name { part, index } => write_bad_name(writer, part, index),
        ConfigFault::Policy { index } => {
            write_numbered(writer, "config: Policy ", index as u64, "\n")
        }
        ConfigFault::PolicyUnmet { index } => {
            write_numbered(writer, "config: PolicyUnmet ", index as u64, "\n")
        }
        ConfigFault::NoMemory => write_bytes(writer, b"no memory\n"),
    }
}

/// Writes the line for a script that is refused.
fn write_script_fault<W: Write>(fault: ScriptFault, writer: &mut W) -> Result<(), OutputFault>
    ensures ok { OnOk result
        (Appends (W.contents writer.old) (W.contents writer.new) (script_text fault)) }
    ensures err { OnErr result
        (AppendsProperPrefix (W.contents writer.old) (W.contents writer.new) (script_text fault)) }
{
    match fault {
        ScriptFault::TooLong => write_bytes(writer, b"script: TooLong\n"),
        ScriptFault::Line { number, fault } => {
            write_refused_line(writer, "script: line ", number, line_word(fault))
        }
        ScriptFault::NoMemory => write_bytes(writer, b"no memory\n"),
    }
}

/// Writes the line for an audit that is refused.
fn write_audit_fault<W: Write>(fault: AuditFault, writer: &mut W) -> Result<(), OutputFault>
    ensures ok { OnOk result
        (Appends (W.contents writer.old) (W.contents writer.new) (audit_fault_text fault)) }
    ensures err { OnErr result (AppendsProperPrefix (W.contents writer.old) (W.contents writer.new)
        (audit_fault_text fault)) }
{
    match fault {
        AuditFault::TooLong => write_bytes(writer, b"audit: TooLong\n"),
        AuditFault::Line { number, fault } => {
            write_refused_line(writer, "audit: line ", number, audit_line_word(fault))
        }
        AuditFault::NoMemory => write_bytes(writer, b"no memory\n"),
    }
}

/// Writes the line for a file of events that is refused.
fn write_events_fault<W: Write>(fault: EventsFault, writer: &mut W) -> Result<(), OutputFault>
    ensures ok { OnOk result
        (Appends (W.contents writer.old) (W.contents writer.new) (events_fault_text fault)) }
    ensures err { OnErr result (AppendsProperPrefix (W.contents writer.old) (W.contents writer.new)
        (events_fault_text fault)) }
{
    match fault {
        EventsFault::TooLong => write_bytes(writer, b"events: TooLong\n"),
        EventsFault::Line { number, fault } => {
            write_refused_line(writer, "events: line ", number, event_word(fault))
        }
        EventsFault::NoMemory => write_bytes(writer, b"no memory\n"),
    }
}

/// Writes the stop's fault line with its line feed. It doesn't allocate.
///
/// # Errors
///
/// `Write` at the first call of `write` that fails or takes no byte; a front of the line is out
/// then, and never all of it.
pub fn write_stop<W: Write>(stop: &Stop, writer: &mut W) -> Result<(), Stop>
    ensures ok { OnOk result
        (Appends (W.contents writer.old) (W.contents writer.new) (stop_text stop.now)) }
    ensures err { OnErr result
        (AppendsProperPrefix (W.contents writer.old) (W.contents writer.new) (stop_text stop.now)) }
    ensures fault { IfErr result (λ fault. fault ≡ Stop.Write) }
{
    match *stop {
        Stop::JudgeTooLong => write_bytes(writer, b"judge: TooLong\n")?,
        Stop::JudgeLine { line, fault } => {
            write_refused_line(writer, "judge: line ", line, fault_word(fault))?
        }
        Stop::Config { fault } => write_config_fault(fault, writer)?,
        Stop::Script { fault } => write_script_fault(fault, writer)?,
        Stop::JournalFull => write_bytes(writer, b"script: JournalFull\n")?,
        Stop::Audit { fault } => write_audit_fault(fault, writer)?,
        Stop::Events { fault } => write_events_fault(fault, writer)?,
        Stop::SwarmClose => write_bytes(writer, b"swarm: close\n")?,
        Stop::Read => write_bytes(writer, b"read fault\n")?,
        Stop::Write => write_bytes(writer, b"write fault\n")?,
        Stop::NoMemory => write_bytes(writer, b"no memory\n")?,
    }
    Ok(())
}
