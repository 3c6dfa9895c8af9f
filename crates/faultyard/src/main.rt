//! The program `faultyard`: its command line, its files and streams, its exit statuses.
#![tactic(auto)]

ghost use Rattle.std.specs.Prelude.{◌≡◌, ◌≢◌, ◌⊎◌, IfErr};
ghost use Rattle.std.specs.Process.{exit_status};
ghost use Rattle.fy_streams.specs.Stops.{stop_status, IsConfigStop};
ghost use Rattle.clap.specs.Values.{kind_of};
ghost use Rattle.fy_histories.specs.Stops.{histories_status};
ghost use Rattle.faultyard.specs.Statuses.{done_status, outcome_status, judged_status, keys_status, told_status, printed_status, IsAnsweredStatus, IsUnreadStatus};

mod bad_entry;
mod explain;
mod task;

use explain::{Named, explain, explain_entry};
use fy_audit::AuditFault;
use fy_bears::{run_bears, run_bears_after};
use fy_check::run_check;
use fy_cluster::Config;
use fy_guard::{run_guard, run_guard_after, write_whole};
use fy_histories::{HistoriesStop, write_histories_stop};
use fy_judge::run_judge;
use fy_linear::run_linear;
use fy_players::Plan;
use fy_policy::{Policy, PolicyFault, read_policy};
use fy_run::run_script;
use fy_show::{run_show, run_show_by_time};
use fy_simulate::run_simulate;
use fy_streams::{Stop, load_config, write_stop};
use fy_swarm::run_swarm;
use fy_tolerance::Form;
use fy_verdict::{Outcome, run_verdict};
use fy_where::{Refusal, run_config};
use std::fs::File;
use std::io::{self, BufReader, ErrorKind, Seek};
use std::process::ExitCode;
use std::sync::Wait;
use std::thread::Threads;
use std::{env, fs, slice};
use task::{Task, read_task};

/// The status of a program whose words are no command.
const USAGE: u8 = 2;

/// The status of `check`, `show`, `bears`, `guard` and `verdict` where an entry isn't what the rules
/// give.
const REFUTED: u8 = 5;

/// The status of `verdict` where a record is unreadable.
const UNREADABLE: u8 = 6;

/// The status of `verdict` where a record was stale that may not be.
const STALE: u8 = 7;

/// The status of `verdict` where a read told what nobody wrote.
const WRONG: u8 = 8;

/// The status of `verdict` where a whole process lacks a record.
const MISSING: u8 = 9;

/// The status of `verdict` where a record is lost, and of `linear` where a key isn't linearizable.
const LOST: u8 = 10;

/// What is said of a plan that there isn't.
const NO_PLAN: &str = "error: invalid value for '--plan <PLAN>'
  [possible values: mixed, attrition, swizzle, rolling]

For more information, try '--help'.";

/// What is said of a text that is no policy.
const NO_POLICY: &str = "error: invalid value for '--elections <POLICY>'
  [a policy, as Across(3,processid,One())]

For more information, try '--help'.";

fn main(rt: HostRuntime) -> ExitCode {
    let words = match arguments(&rt) {
        Ok(words) => words,
        Err(status) => return status,
    };
    match read_task(rt.alloc(), words.as_slice()) {
        // Threads are main's to give.
        Ok((task, explain)) => carry_out(&rt, &rt, task, explain),
        Err(error) => answered(&rt, &error),
    }
}

/// Carries out a task, where a fault is explained or not, and gives the status to end with.
fn carry_out<R: Threads + Wait + Sync>(
    rt: &HostRuntime,
    threads: &R,
    task: Task,
    explain: bool,
) -> ExitCode {
    let named = task.named(explain);
    let done = match task {
        Task::Judge => judge_input(rt),
        Task::Run(path) => run_file(rt, path),
        Task::Check(path) => check_file(rt, path),
        Task::Simulate(path, seed, acts, Some(plan)) => simulate_file(rt, path, seed, acts, plan),
        Task::Simulate(_, _, _, None) => return unplanned(rt),
        Task::Guard(path, None, questions) => guard_file(rt, path, questions),
        Task::Guard(path, Some(after), questions) => {
            return guard_after(rt, &named, path, after, questions);
        }
        Task::Show(path, times) => show_file(rt, path, times),
        Task::Bears(path, form, after, None) => bears_file(rt, path, form, after, &[]),
        Task::Bears(path, form, after, Some(elections)) => {
            return bears_elections(rt, &named, path, form, after, elections);
        }
        Task::Verdict(path, audit, fresh) => {
            return judged(rt, &named, verdict_file(rt, path, audit), fresh);
        }
        Task::Linear => return judged_keys(rt, linear_input(rt)),
        Task::Config(path) => return told_config(rt, &named, config_file(rt, path)),
        Task::Swarm(path, seed) => swarm_file(rt, threads, path, seed),
    };
    ended(rt, &named, done)
}

/// The status that a command on these files ends with. Where it stopped, its fault line is written.
fn ended(rt: &HostRuntime, named: &Named<'_>, done: Result<bool, Stop>) -> ExitCode
    ensures { exit_status result ≡ done_status done }
{
    match done {
        Ok(true) => ExitCode::SUCCESS,
        Ok(false) => {
            explain_entry(rt, named);
            ExitCode::from(REFUTED)
        }
        Err(stop) => {
            let status = stopped(rt, stop);
            explain(rt, named, stop);
            status
        }
    }
}

/// Answers the asks on standard input.
fn judge_input(rt: &HostRuntime) -> Result<bool, Stop> {
    Ok(run_judge(rt.alloc(), &mut rt.stdin(), &mut rt.stdout())?)
}

/// Runs the script on standard input on the cluster of a file.
fn run_file(rt: &HostRuntime, path: &str) -> Result<bool, Stop> {
    let config = open_config(rt, path)?;
    run_script(rt.alloc(), &config, &mut rt.stdin(), &mut rt.stdout())
}

/// Lets the actors of the cluster of a file loose at once, each by a plan drawn from a seed.
fn swarm_file<R: Threads + Wait + Sync>(
    rt: &HostRuntime,
    threads: &R,
    path: &str,
    seed: u64,
) -> Result<bool, Stop> {
    let config = open_config(rt, path)?;
    run_swarm(threads, rt.alloc(), &config, seed, &mut rt.stdout())
}

/// Lets the actors of the cluster of a file take turns, as a seed says.
fn simulate_file(
    rt: &HostRuntime,
    path: &str,
    seed: u64,
    acts: u64,
    plan: Plan,
) -> Result<bool, Stop> {
    let config = open_config(rt, path)?;
    run_simulate(rt.alloc(), &config, seed, plan, acts, &mut rt.stdout())
}

/// Checks the audit on standard input against the cluster of a file.
fn check_file(rt: &HostRuntime, path: &str) -> Result<bool, Stop> {
    let config = open_config(rt, path)?;
    run_check(rt.alloc(), &config, &mut rt.stdin(), &mut rt.stdout())
}

/// Draws the audit on standard input on the cluster of a file, by the times of a file of events
/// where one is named.
fn show_file(rt: &HostRuntime, path: &str, times: Option<&str>) -> Result<bool, Stop> {
    let config = open_config(rt, path)?;
    let (alloc, mut input, mut output) = (rt.alloc(), rt.stdin(), rt.stdout());
    let Some(times) = times else {
        return run_show(alloc, &config, &mut input, &mut output);
    };
    let mut events = open_file(rt, times)?;
    run_show_by_time(alloc, &config, &mut input, &mut events, &mut output)
}

/// Says what the cluster of a file bears, after an audit where one is named, and by each policy of
/// elections what may forget.
fn bears_file(
    rt: &HostRuntime,
    path: &str,
    form: Form,
    after: Option<&str>,
    elections: &[Policy],
) -> Result<bool, Stop> {
    let config = open_config(rt, path)?;
    let (alloc, mut output) = (rt.alloc(), rt.stdout());
    let Some(after) = after else {
        return run_bears(alloc, &config, elections, &form, &mut output);
    };
    let mut audit = open_file(rt, after)?;
    run_bears_after(alloc, &config, elections, &form, &mut audit, &mut output)
}

/// Says so by the policy of elections that a text says, and gives the status to end with.
fn bears_elections(
    rt: &HostRuntime,
    named: &Named<'_>,
    path: &str,
    form: Form,
    after: Option<&str>,
    elections: &str,
) -> ExitCode {
    match read_policy(rt.alloc(), elections) {
        Ok(policy) => {
            let policies = slice::from_ref(&policy);
            ended(rt, named, bears_file(rt, path, form, after, policies))
        }
        Err(PolicyFault::NoMemory) => stopped(rt, Stop::NoMemory),
        Err(_) => unread_policy(rt),
    }
}

/// Answers the script on standard input, line by line, on the cluster of a file, with its questions
/// where it may have some.
fn guard_file(rt: &HostRuntime, path: &str, questions: bool) -> Result<bool, Stop> {
    let config = open_config(rt, path)?;
    let alloc = rt.alloc();
    // It holds what `read` gave beyond a line, and waits for no more than there is. Its making
    // fails by an allocation failure alone, which the type of its error doesn't say.
    let Ok(mut lines) = BufReader::new(alloc, rt.stdin()) else {
        return Err(Stop::NoMemory);
    };
    run_guard(alloc, &config, questions, &mut lines, &mut rt.stdout())
}

/// Answers that script from the end of the audit in a file on, and gives the status to end with.
fn guard_after(
    rt: &HostRuntime,
    named: &Named<'_>,
    path: &str,
    after: &str,
    questions: bool,
) -> ExitCode {
    let config = match open_config(rt, path) {
        Ok(config) => config,
        Err(stop) => return ended(rt, named, Err(stop)),
    };
    let alloc = rt.alloc();
    let Ok(mut lines) = BufReader::new(alloc, rt.stdin()) else {
        return stopped(rt, Stop::NoMemory);
    };
    let mut audit = match open_file(rt, after) {
        Ok(audit) => audit,
        Err(stop) => return ended(rt, named, Err(stop)),
    };
    // What is written may stand behind the audit, so what is found of it goes elsewhere.
    let (mut output, mut found) = (rt.stdout(), rt.stderr());
    let done = run_guard_after(
        alloc,
        &config,
        questions,
        &mut audit,
        &mut lines,
        &mut output,
        &mut found,
    );
    ended_after(rt, named, done, &mut audit)
}

/// The status that a guard behind an audit ends with. Where half a last line of the audit stopped
/// it, a second line says how many bytes are whole.
fn ended_after(
    rt: &HostRuntime,
    named: &Named<'_>,
    done: Result<bool, Stop>,
    audit: &mut File,
) -> ExitCode
    ensures { exit_status result ≡ done_status done }
{
    let status = ended(rt, named, done);
    if let Err(
        Stop::Audit {
            fault: AuditFault::Line { number, .. },
        },
    ) = done
    {
        // What can't be read again, as a pipe, can't be cut either: nothing is said of it.
        if let Ok(()) = audit.rewind() {
            let _ = write_whole(rt.alloc(), number, audit, &mut rt.stderr());
        }
    }
    status
}

/// Says what became of each record of the history on standard input, of a run on the cluster of a
/// file.
fn verdict_file(rt: &HostRuntime, path: &str, audit: &str) -> Result<Outcome, HistoriesStop> {
    let config = open_config(rt, path)?;
    let mut audit = open_file(rt, audit)?;
    let alloc = rt.alloc();
    let Ok(mut lines) = BufReader::new(alloc, rt.stdin()) else {
        return Err(HistoriesStop::Other(Stop::NoMemory));
    };
    let form = fy_verdict::Jsonl;
    run_verdict(
        alloc,
        &config,
        &form,
        &mut audit,
        &mut lines,
        &mut rt.stdout(),
    )
}

/// Says which keys of the history on standard input aren't linearizable.
fn linear_input(rt: &HostRuntime) -> Result<bool, HistoriesStop> {
    let alloc = rt.alloc();
    let Ok(mut lines) = BufReader::new(alloc, rt.stdin()) else {
        return Err(HistoriesStop::Other(Stop::NoMemory));
    };
    run_linear(alloc, &fy_linear::Jsonl, &mut lines, &mut rt.stdout())
}

/// Says how much is in a cluster file, or where its fault lies and what was expected there.
fn config_file(rt: &HostRuntime, path: &str) -> Result<(), Refusal> {
    let alloc = rt.alloc();
    match open_file(rt, path) {
        Ok(mut file) => run_config(alloc, path, &mut file, &mut rt.stdout()),
        Err(stop) => Err(Refusal::bare(alloc, stop)),
    }
}

/// The status that `config` ends with. Where it stopped, its fault line is written, and below it
/// where the fault lies and what was expected there.
fn told_config(rt: &HostRuntime, named: &Named<'_>, done: Result<(), Refusal>) -> ExitCode
    ensures { exit_status result ≡ told_status done }
{
    let Err(refusal) = done else {
        return ExitCode::SUCCESS;
    };
    let status = stopped(rt, refusal.stop);
    let why = refusal.why.as_str();
    let _ = eprint!(rt; "{why}");
    if refusal.stop == Stop::Read {
        explain(rt, named, Stop::Read);
    }
    status
}

/// The status for what became of the records of a history, where a record may be stale or not.
fn outcome_status(outcome: Outcome, fresh: bool) -> u8
    ensures { result ≡ outcome_status fresh outcome }
{
    match outcome {
        Outcome::NotLegal => REFUTED,
        Outcome::Lost => LOST,
        Outcome::Wrong => WRONG,
        Outcome::Missing => MISSING,
        Outcome::Unreadable => UNREADABLE,
        Outcome::Stale if fresh => STALE,
        Outcome::Stale => 0,
        Outcome::Kept => 0,
    }
}

/// The status that `verdict` ends with. Where it stopped, its fault line is written.
fn judged(
    rt: &HostRuntime,
    named: &Named<'_>,
    done: Result<Outcome, HistoriesStop>,
    fresh: bool,
) -> ExitCode
    ensures { exit_status result ≡ judged_status fresh done }
{
    match done {
        Ok(outcome) => {
            if let Outcome::NotLegal = outcome {
                explain_entry(rt, named);
            }
            ExitCode::from(outcome_status(outcome, fresh))
        }
        Err(stop) => {
            let status = stopped_judging(rt, stop);
            if let HistoriesStop::Other(stop) = stop {
                explain(rt, named, stop);
            }
            status
        }
    }
}

/// The status that `linear` ends with. Where it stopped, its fault line is written.
fn judged_keys(rt: &HostRuntime, done: Result<bool, HistoriesStop>) -> ExitCode
    ensures { exit_status result ≡ keys_status done }
{
    match done {
        Ok(true) => ExitCode::SUCCESS,
        Ok(false) => ExitCode::from(LOST),
        Err(stop) => stopped_judging(rt, stop),
    }
}

/// A file to read, by its path.
fn open_file(rt: &HostRuntime, path: &str) -> Result<File, Stop>
    ensures { IfErr result (λ stop. (stop ≡ Stop.Read) ⊎ (stop ≡ Stop.NoMemory)) }
{
    match fs::open(rt, path) {
        Ok(file) => Ok(file),
        Err(error) => Err(unopened(error.kind())),
    }
}

/// The stop for a file that can't be opened, by the kind of the error.
fn unopened(kind: ErrorKind) -> Stop
    ensures memory { kind ≡ ErrorKind.OutOfMemory → result ≡ Stop.NoMemory }
    ensures other { kind ≢ ErrorKind.OutOfMemory → result ≡ Stop.Read }
    ensures either { (result ≡ Stop.Read) ⊎ (result ≡ Stop.NoMemory) }
{
    match kind {
        ErrorKind::OutOfMemory => Stop::NoMemory,
        _ => Stop::Read,
    }
}

/// The configuration of a cluster file by its path.
fn open_config(rt: &HostRuntime, path: &str) -> Result<Config, Stop>
    ensures { IfErr result IsConfigStop }
{
    let mut file = open_file(rt, path)?;
    load_config(rt.alloc(), &mut file)
}

/// The words of the command line, the program's name first, or the status to end with.
fn arguments(rt: &HostRuntime) -> Result<Vec<String>, ExitCode>
    ensures { IfErr result (λ code. IsUnreadStatus (exit_status code)) }
{
    match env::args(rt) {
        Ok(words) => words
            .collect(rt.alloc())
            .map_err(|_| stopped(rt, Stop::NoMemory)),
        Err(error) if error.kind() == ErrorKind::OutOfMemory => Err(stopped(rt, Stop::NoMemory)),
        Err(_) => {
            // The command line reads texts alone.
            let _ = rt.eprintln("error: invalid UTF-8 was detected in one or more arguments");
            Err(ExitCode::from(USAGE))
        }
    }
}

/// Says that there is no plan of the name that was given. `clap` would, but its list of names has
/// no value that a contract can name.
fn unplanned(rt: &HostRuntime) -> ExitCode
    ensures { exit_status result ≡ 2 }
{
    let _ = rt.eprintln(NO_PLAN);
    ExitCode::from(USAGE)
}

/// Says that the text is no policy.
fn unread_policy(rt: &HostRuntime) -> ExitCode
    ensures { exit_status result ≡ 2 }
{
    let _ = rt.eprintln(NO_POLICY);
    ExitCode::from(USAGE)
}

/// Prints what the command line answers in place of a task: help, or what is wrong with the words.
fn answered(rt: &HostRuntime, error: &clap::Error) -> ExitCode
    ensures { IsAnsweredStatus (kind_of error.now) (exit_status result) }
{
    match error.kind() {
        clap::error::ErrorKind::OutOfMemory => stopped(rt, Stop::NoMemory),
        clap::error::ErrorKind::DisplayHelp | clap::error::ErrorKind::DisplayVersion => {
            printed(rt, error.print(rt))
        }
        _ => {
            let _ = error.print(rt);
            ExitCode::from(USAGE)
        }
    }
}

/// The status once help or the version was printed, as far as standard output took it.
fn printed(rt: &HostRuntime, done: io::Result<()>) -> ExitCode
    ensures { exit_status result ≡ printed_status done }
{
    match done {
        Ok(()) => ExitCode::SUCCESS,
        Err(_) => stopped(rt, Stop::Write),
    }
}

/// Writes the fault line, as far as standard error takes it.
fn stopped(rt: &HostRuntime, stop: Stop) -> ExitCode
    ensures { exit_status result ≡ stop_status stop }
{
    let _ = write_stop(&stop, &mut rt.stderr());
    ExitCode::from(stop.status())
}

/// Writes the fault line of a command that judges a history, as far as standard error takes it.
fn stopped_judging(rt: &HostRuntime, stop: HistoriesStop) -> ExitCode
    ensures { exit_status result ≡ histories_status stop }
{
    let _ = write_histories_stop(&stop, &mut rt.stderr());
    let status = stop.status();
    ExitCode::from(status)
}
