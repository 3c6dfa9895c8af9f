//! The program's command line.

ghost use Rattle.std.specs.Prelude.{◌≡◌, IfOk, IsSomeAnd, Some, codes, is_some, map};
ghost use Rattle.std.specs.Prelude.{option_map, string_bytes, true, false};
ghost use Rattle.clap.specs.Words.{FailsBy, app_of, fault_of, first_of, found_of, rows_of};
ghost use Rattle.clap.specs.Words.{new_app, one_of, subcommand_of, with_rule};
ghost use Rattle.clap.specs.Walk.{rule_of};
ghost use Rattle.faultyard.specs.Commands.{IsTaskOf, faultyard_command, bare_command, judge_command};
ghost use Rattle.faultyard.specs.Commands.{config_rule, run_command, check_command};
ghost use Rattle.faultyard.specs.Commands.{seed_rule, swarm_command, guard_command, show_command, IsSeed, seed_in};
ghost use Rattle.faultyard.specs.Commands.{acts_rule, plan_rule, simulate_command, IsActsOf, IsPlanOf};
ghost use Rattle.faultyard.specs.Commands.{times_rule, json_rule, after_rule, elections_rule, questions_rule, bears_command, IsFormOf};
ghost use Rattle.faultyard.specs.Commands.{audit_rule, fresh_rule, verdict_command, linear_command, config_command, IsSetOf};
ghost use Rattle.faultyard.specs.Commands.{explain_rule, explained, IsExplainOf};

use crate::explain::Named;
use clap::{Arg, ArgAction, ArgMatches, Command, value_parser};
use fy_players::Plan;
use fy_tolerance::Form;
use std::alloc::{AllocError, Global};

/// Examples, and behind them the exit statuses, which each help ends with.
macro_rules! with_statuses {
    ($example:literal) => {
        concat!(
            $example,
            "

Exit status:
  0  the work is done
  1  the input or the cluster file is refused; standard error says what and where
  2  the command line is refused
  3  a read or a write failed, or a file can't be opened
  4  memory was refused
  5  check, show, bears, guard, verdict: an entry of the audit isn't what the rules give
  6  verdict: a record is unreadable
  7  verdict --fresh: a record was stale
  8  verdict: a read told a value that nobody wrote
  9  verdict: a process that is whole lacks a record
  10 verdict: a record is lost; linear: a key isn't linearizable"
        )
    };
}

/// Lines to paste and the exit statuses, which the help of the program ends with.
const EXAMPLES: &str = with_statuses!(
    "Examples:
  faultyard judge < examples/c6.judge
  faultyard run examples/c6.toml < examples/two-zones.jsonl
  faultyard check examples/c6.toml < examples/two-zones.audit
  faultyard swarm examples/c6.toml --seed 7
  faultyard simulate examples/c6.toml --seed 7
  faultyard guard examples/c6.toml < examples/two-zones.jsonl
  faultyard show examples/c6.toml < examples/bad-day.audit > bad-day.svg
  faultyard bears examples/c6.toml
  faultyard verdict examples/c6.toml --audit examples/two-zones.audit < examples/lost.history
  faultyard linear < examples/register.history
  faultyard config examples/c6.toml"
);

/// What the program is asked to do.
#[derive(Clone, Copy, Debug, PartialEq, Eq)]
pub enum Task<'a> {
    /// `faultyard judge`: answer the asks on standard input.
    Judge,
    /// `faultyard run CONFIG`: run the script on standard input on the cluster of a file.
    Run(&'a str),
    /// `faultyard check CONFIG`: check the audit on standard input against the cluster of a file.
    Check(&'a str),
    /// `faultyard swarm CONFIG --seed N`: let every actor of the cluster of a file loose, each by
    /// a plan that is drawn from the seed.
    Swarm(&'a str, u64),
    /// `faultyard simulate CONFIG --seed N`: let the actors of the cluster of a file take turns, as
    /// the seed says, with `--acts A` so many, and with `--plan PLAN` by another plan, if there is
    /// one of that name.
    Simulate(&'a str, u64, u64, Option<Plan>),
    /// `faultyard guard CONFIG`: answer each line of the script on standard input at once, on the
    /// cluster of a file, with `--after AUDIT` from the end of an audit on, and with `--questions`
    /// questions too.
    Guard(&'a str, Option<&'a str>, bool),
    /// `faultyard show CONFIG`: draw the audit on standard input on the cluster of a file, with
    /// `--times EVENTS` by the times of a file of events.
    Show(&'a str, Option<&'a str>),
    /// `faultyard bears CONFIG`: say what the cluster of a file bears, with `--json` in that form,
    /// with `--after AUDIT` from the end of an audit on, and with `--elections POLICY` what may
    /// forget.
    Bears(&'a str, Form, Option<&'a str>, Option<&'a str>),
    /// `faultyard verdict CONFIG --audit FILE`: say what became of each record of the history on
    /// standard input, of a run on the cluster of a file with this audit, and with `--fresh` that
    /// no record may be stale.
    Verdict(&'a str, &'a str, bool),
    /// `faultyard linear`: say which keys of the history on standard input aren't linearizable.
    Linear,
    /// `faultyard config CONFIG`: say how much is in a cluster file, or where its fault lies and what
    /// was expected there.
    Config(&'a str),
}

/// Standard input by a path, which leads to its file where it is one.
const STANDARD_INPUT: &str = "/dev/stdin";

impl<'a> Task<'a> {
    /// What a fault of it may be about, and whether it is explained, whatever standard error is.
    pub fn named(&self, explain: bool) -> Named<'a> {
        Named {
            files: self.files(),
            audit: self.audit(),
            explain,
        }
    }

    /// The files that it names, the cluster file first.
    fn files(&self) -> [Option<&'a str>; 2] {
        match *self {
            Task::Judge => [None, None],
            Task::Linear => [None, None],
            Task::Run(config) => [Some(config), None],
            Task::Check(config) => [Some(config), None],
            Task::Swarm(config, _) => [Some(config), None],
            Task::Simulate(config, _, _, _) => [Some(config), None],
            Task::Config(config) => [Some(config), None],
            Task::Guard(config, after, _) => [Some(config), after],
            Task::Show(config, times) => [Some(config), times],
            Task::Bears(config, _, after, _) => [Some(config), after],
            Task::Verdict(config, audit, _) => [Some(config), Some(audit)],
        }
    }

    /// The audit whose entries it checks, if it checks one.
    fn audit(&self) -> Option<&'a str> {
        match *self {
            Task::Check(_) => Some(STANDARD_INPUT),
            Task::Show(_, _) => Some(STANDARD_INPUT),
            Task::Guard(_, after, _) => after,
            Task::Bears(_, _, after, _) => after,
            Task::Verdict(_, audit, _) => Some(audit),
            _ => None,
        }
    }
}

/// The flag that a fault is explained.
fn explain<'a>(alloc: Global) -> Arg<'a>
    ensures rule { rule_of result ≡ explain_rule }
    ensures own { result.global ≡ false }
{
    Arg::new(alloc, "explain")
        .long("explain")
        .action(ArgAction::SetTrue)
        .help("Says below a fault or a bad entry what is wrong, as on a terminal")
}

/// The subcommand with that flag besides.
fn explained<'a>(alloc: Global, command: Command<'a>) -> Result<Command<'a>, AllocError>
    ensures { IfOk result (λ with_flag. app_of with_flag ≡ explained (app_of command.entry)) }
{
    command.arg(explain(alloc))
}

/// The subcommand `judge`, with its help.
fn judge<'a>(alloc: Global) -> Command<'a>
    ensures { app_of result ≡ judge_command }
{
    Command::new(alloc, "judge")
        .about("Reads policies, processes and asks from standard input, and answers each ask")
        .after_help(with_statuses!("Example:\n  faultyard judge < examples/c6.judge"))
}

/// The word that names a cluster file.
fn config<'a>(alloc: Global) -> Arg<'a>
    ensures rule { rule_of result ≡ config_rule }
    ensures own { result.global ≡ false }
{
    Arg::new(alloc, "CONFIG")
        .required(true)
        .action(ArgAction::Set)
        .help("The cluster file")
}

/// The subcommand `run`, with its help.
fn run<'a>(alloc: Global) -> Result<Command<'a>, AllocError>
    ensures { IfOk result (λ command. app_of command ≡ run_command) }
{
    Command::new(alloc, "run")
        .about("Runs the script on standard input on the cluster of a file, and writes the audit")
        .after_help(with_statuses!(
            "Example:\n  faultyard run examples/c6.toml < examples/two-zones.jsonl"
        ))
        .arg(config(alloc))
}

/// The subcommand `check`, with its help.
fn check<'a>(alloc: Global) -> Result<Command<'a>, AllocError>
    ensures { IfOk result (λ command. app_of command ≡ check_command) }
{
    Command::new(alloc, "check")
        .about("Checks the audit on standard input: is each reply what the rules give?")
        .after_help(with_statuses!(
            "Example:\n  faultyard check examples/c6.toml < examples/two-zones.audit"
        ))
        .arg(config(alloc))
}

/// The option with the seed.
fn seed<'a>(alloc: Global) -> Arg<'a>
    ensures rule { rule_of result ≡ seed_rule }
    ensures own { result.global ≡ false }
{
    Arg::new(alloc, "seed")
        .long("seed")
        .value_name("N")
        .required(true)
        .action(ArgAction::Set)
        .value_parser(value_parser!(u64))
        .help("What the plans of the actors are drawn from, from 0 to 2^64 - 1")
}

/// The subcommand `swarm`, with its help.
fn swarm<'a>(alloc: Global) -> Result<Command<'a>, AllocError>
    ensures { IfOk result (λ command. app_of command ≡ swarm_command) }
{
    Command::new(alloc, "swarm")
        .about("Lets every actor of a cluster file loose, each on a thread, and writes the audit")
        .after_help(with_statuses!("Example:\n  faultyard swarm examples/c6.toml --seed 7"))
        .arg(config(alloc))?
        .arg(seed(alloc))
}

/// How many acts a simulation makes, where the words don't say.
const ACTS: u64 = 10_000;

/// The option with the number of acts.
fn acts<'a>(alloc: Global) -> Arg<'a>
    ensures rule { rule_of result ≡ acts_rule }
    ensures own { result.global ≡ false }
{
    Arg::new(alloc, "acts")
        .long("acts")
        .value_name("A")
        .action(ArgAction::Set)
        .value_parser(value_parser!(u64))
        .help("How many acts are made, if the journal has room for them (10000)")
}

/// The option with the plan of the fault actors.
fn plan<'a>(alloc: Global) -> Arg<'a>
    ensures rule { rule_of result ≡ plan_rule }
    ensures own { result.global ≡ false }
{
    Arg::new(alloc, "plan")
        .long("plan")
        .value_name("PLAN")
        .action(ArgAction::Set)
        .help("How kills and clogs are drawn: mixed, attrition, swizzle or rolling (mixed)")
}

/// The subcommand `simulate` with its help, and of its arguments the two that it needs.
fn simulate_by_seed<'a>(alloc: Global) -> Result<Command<'a>, AllocError>
    ensures { IfOk result (λ command. app_of command
        ≡ with_rule (with_rule (new_app (codes "simulate")) config_rule) seed_rule) }
{
    Command::new(alloc, "simulate")
        .about("Lets the actors of a cluster file take turns, as a seed says, and writes the audit")
        .after_help(with_statuses!("Example:\n  faultyard simulate examples/c6.toml --seed 7"))
        .arg(config(alloc))?
        .arg(seed(alloc))
}

/// The subcommand `simulate`, with its help.
fn simulate<'a>(alloc: Global) -> Result<Command<'a>, AllocError>
    ensures { IfOk result (λ command. app_of command ≡ simulate_command) }
{
    simulate_by_seed(alloc)?.arg(acts(alloc))?.arg(plan(alloc))
}

/// The subcommand `guard`, with its help.
fn guard<'a>(alloc: Global) -> Result<Command<'a>, AllocError>
    ensures { IfOk result (λ command. app_of command ≡ guard_command) }
{
    Command::new(alloc, "guard")
        .about("Answers each line of a script at once: what may be done to real processes?")
        .after_help(with_statuses!(
            "Example:\n  faultyard guard examples/c6.toml < examples/two-zones.jsonl"
        ))
        .arg(config(alloc))?
        .arg(after(
            alloc,
            "The audit, a file, behind whose last entry the guard goes on",
        ))?
        .arg(questions(alloc))
}

/// The flag that lines may be questions.
fn questions<'a>(alloc: Global) -> Arg<'a>
    ensures rule { rule_of result ≡ questions_rule }
    ensures own { result.global ≡ false }
{
    Arg::new(alloc, "questions")
        .long("questions")
        .action(ArgAction::SetTrue)
        .help("Answers questions too: a line {\"ask\":..} with a line {\"told\":..}")
}

/// The option with the file of events.
fn times<'a>(alloc: Global) -> Arg<'a>
    ensures rule { rule_of result ≡ times_rule }
    ensures own { result.global ≡ false }
{
    Arg::new(alloc, "times")
        .long("times")
        .value_name("EVENTS")
        .action(ArgAction::Set)
        .help("The events of the run, a file: columns are laid by their times")
}

/// The subcommand `show`, with its help.
fn show<'a>(alloc: Global) -> Result<Command<'a>, AllocError>
    ensures { IfOk result (λ command. app_of command ≡ show_command) }
{
    Command::new(alloc, "show")
        .about("Draws the audit on standard input as a picture, an SVG file")
        .after_help(with_statuses!(
            "Example:\n  faultyard show examples/c6.toml < examples/bad-day.audit > bad-day.svg"
        ))
        .arg(config(alloc))?
        .arg(times(alloc))
}

/// The flag for one JSON object.
fn json<'a>(alloc: Global) -> Arg<'a>
    ensures rule { rule_of result ≡ json_rule }
    ensures own { result.global ≡ false }
{
    Arg::new(alloc, "json")
        .long("json")
        .action(ArgAction::SetTrue)
        .help("Writes one JSON object")
}

/// The option with the audit's file, which means this.
fn after<'a>(alloc: Global, help: &'static str) -> Arg<'a>
    ensures rule { rule_of result ≡ after_rule }
    ensures own { result.global ≡ false }
{
    Arg::new(alloc, "after")
        .long("after")
        .value_name("AUDIT")
        .action(ArgAction::Set)
        .help(help)
}

/// The option with the policy of elections.
fn elections<'a>(alloc: Global) -> Arg<'a>
    ensures rule { rule_of result ≡ elections_rule }
    ensures own { result.global ≡ false }
{
    Arg::new(alloc, "elections")
        .long("elections")
        .value_name("POLICY")
        .action(ArgAction::Set)
        .help("The policy that the voters for a leader satisfy: tells what may forget")
}

/// The subcommand `bears` with its help, and of its arguments those that need no second file or
/// policy.
fn bears_in_form<'a>(alloc: Global) -> Result<Command<'a>, AllocError>
    ensures { IfOk result (λ command. app_of command
        ≡ with_rule (with_rule (new_app (codes "bears")) config_rule) json_rule) }
{
    Command::new(alloc, "bears")
        .about("Says how many processes, and which machines and zones, a cluster can lose")
        .after_help(with_statuses!(
            "Example:\n  faultyard bears examples/c6.toml --after examples/two-zones.audit"
        ))
        .arg(config(alloc))?
        .arg(json(alloc))
}

/// The subcommand `bears`, with its help.
fn bears<'a>(alloc: Global) -> Result<Command<'a>, AllocError>
    ensures { IfOk result (λ command. app_of command ≡ bears_command) }
{
    bears_in_form(alloc)?
        .arg(after(
            alloc,
            "The audit, a file, from whose last entry on losses are counted",
        ))?
        .arg(elections(alloc))
}

/// The option with the file of the audit that the history was recorded beside.
fn audit<'a>(alloc: Global) -> Arg<'a>
    ensures rule { rule_of result ≡ audit_rule }
    ensures own { result.global ≡ false }
{
    Arg::new(alloc, "audit")
        .long("audit")
        .value_name("FILE")
        .required(true)
        .action(ArgAction::Set)
        .help("The audit of the run, a file")
}

/// The flag that no record may be stale.
fn fresh<'a>(alloc: Global) -> Arg<'a>
    ensures rule { rule_of result ≡ fresh_rule }
    ensures own { result.global ≡ false }
{
    Arg::new(alloc, "fresh")
        .long("fresh")
        .action(ArgAction::SetTrue)
        .help("A record that was stale gives status 7: the store promises fresh reads")
}

/// The subcommand `verdict`, with its help.
fn verdict<'a>(alloc: Global) -> Result<Command<'a>, AllocError>
    ensures { IfOk result (λ command. app_of command ≡ verdict_command) }
{
    Command::new(alloc, "verdict")
        .about("Says what became of each record of a history, and whose fault each loss is")
        .after_help(with_statuses!(
            "Example:
  faultyard verdict examples/c6.toml --audit examples/two-zones.audit < examples/lost.history"
        ))
        .arg(config(alloc))?
        .arg(audit(alloc))?
        .arg(fresh(alloc))
}

/// The subcommand `linear`, with its help.
fn linear<'a>(alloc: Global) -> Command<'a>
    ensures { app_of result ≡ linear_command }
{
    Command::new(alloc, "linear")
        .about("Says which keys of a history aren't linearizable registers")
        .after_help(with_statuses!("Example:\n  faultyard linear < examples/register.history"))
}

/// The subcommand `config`, with its help.
fn config_check<'a>(alloc: Global) -> Result<Command<'a>, AllocError>
    ensures { IfOk result (λ command. app_of command ≡ config_command) }
{
    Command::new(alloc, "config")
        .about("Says how much is in a cluster file, or where its fault lies and what is expected")
        .after_help(with_statuses!("Example:\n  faultyard config examples/c6.toml"))
        .arg(config(alloc))
}

/// The command line without its subcommands, of which one is wanted.
fn bare<'a>(alloc: Global) -> Command<'a>
    ensures { app_of result ≡ bare_command }
{
    Command::new(alloc, "faultyard")
        .about(
            "Injects faults into a simulated storage cluster, as far as its replication bears them",
        )
        .after_help(EXAMPLES)
        .version("2.0.0")
        .subcommand_required(true)
}

/// The command line of `faultyard`: one subcommand is wanted, and each has help of its own.
fn faultyard<'a>(alloc: Global) -> Result<Command<'a>, AllocError>
    ensures { IfOk result (λ command. app_of command ≡ faultyard_command) }
{
    bare(alloc)
        .subcommand(judge(alloc))?
        .subcommand(explained(alloc, run(alloc)?)?)?
        .subcommand(explained(alloc, check(alloc)?)?)?
        .subcommand(explained(alloc, swarm(alloc)?)?)?
        .subcommand(explained(alloc, simulate(alloc)?)?)?
        .subcommand(explained(alloc, guard(alloc)?)?)?
        .subcommand(explained(alloc, show(alloc)?)?)?
        .subcommand(explained(alloc, bears(alloc)?)?)?
        .subcommand(explained(alloc, verdict(alloc)?)?)?
        .subcommand(linear(alloc))?
        .subcommand(explained(alloc, config_check(alloc)?)?)
}

/// The task that the words ask for, and whether `--explain` is among them; the first word is the
/// program's name.
///
/// # Errors
///
/// The errors of `clap`, for help and the version too, whose kinds are `DisplayHelp` and
/// `DisplayVersion`. An allocation failure has the kind `OutOfMemory`.
pub fn read_task<'a>(alloc: Global, words: &'a [String]) -> Result<(Task<'a>, bool), clap::Error>
    ensures task { IfOk result (λ read.
        IsTaskOf (subcommand_of faultyard_command (map string_bytes words.now)) read.0) }
    ensures explain { IfOk result (λ read.
        IsExplainOf (subcommand_of faultyard_command (map string_bytes words.now)) read.1) }
    ensures refused { FailsBy (fault_of faultyard_command (map string_bytes words.now)) result }
{
    let matches = faultyard(alloc)?.try_get_matches_from(words)?;
    let Some((name, given)) = matches.subcommand() else {
        unreachable!();
    };
    let explain = is_set(given, "explain");
    match name {
        "judge" => Ok((Task::Judge, explain)),
        "run" => Ok((Task::Run(config_of(given)), explain)),
        "check" => Ok((Task::Check(config_of(given)), explain)),
        "swarm" => Ok((Task::Swarm(config_of(given), seed_of(given)), explain)),
        "simulate" => Ok((
            Task::Simulate(
                config_of(given),
                seed_of(given),
                acts_of(given),
                plan_of(given),
            ),
            explain,
        )),
        "guard" => Ok((
            Task::Guard(
                config_of(given),
                after_of(given),
                is_set(given, "questions"),
            ),
            explain,
        )),
        "show" => Ok((Task::Show(config_of(given), times_of(given)), explain)),
        "bears" => Ok((
            Task::Bears(
                config_of(given),
                form_of(given),
                after_of(given),
                elections_of(given),
            ),
            explain,
        )),
        "verdict" => Ok((
            Task::Verdict(config_of(given), audit_of(given), is_set(given, "fresh")),
            explain,
        )),
        "linear" => Ok((Task::Linear, explain)),
        "config" => Ok((Task::Config(config_of(given)), explain)),
        _ => unreachable!(),
    }
}

/// The cluster file among the words of a subcommand that takes one.
fn config_of<'a>(given: &ArgMatches<'a>) -> &'a str
    requires { is_some (first_of (codes "CONFIG") (rows_of (found_of given.now))) ≡ true }
    ensures { first_of (codes "CONFIG") (rows_of (found_of given.now)) ≡ Some result.now }
{
    match given.get_str("CONFIG") {
        Some(config) => config,
        None => unreachable!(),
    }
}

/// The seed among the words of a subcommand that takes one.
fn seed_of(given: &ArgMatches<'_>) -> u64
    requires { IsSomeAnd (one_of (codes "seed") (rows_of (found_of given.now))) IsSeed }
    ensures { option_map seed_in (one_of (codes "seed") (rows_of (found_of given.now)))
        ≡ Some result }
{
    match given.get_one::<u64>("seed") {
        Some(seed) => seed,
        None => unreachable!(),
    }
}

/// The number of acts among the words of a subcommand.
fn acts_of(given: &ArgMatches<'_>) -> u64
    ensures { IsActsOf (one_of (codes "acts") (rows_of (found_of given.now))) result }
{
    given.get_one::<u64>("acts").unwrap_or(ACTS)
}

/// The plan among the words of a subcommand; `None` where no plan has the name.
fn plan_of(given: &ArgMatches<'_>) -> Option<Plan>
    ensures { IsPlanOf (first_of (codes "plan") (rows_of (found_of given.now))) result }
{
    match given.get_str("plan") {
        Some("mixed") => Some(Plan::Mixed),
        Some("attrition") => Some(Plan::Attrition),
        Some("swizzle") => Some(Plan::Swizzle),
        Some("rolling") => Some(Plan::Rolling),
        Some(_) => None,
        None => Some(Plan::Mixed),
    }
}

/// The form that the words of a subcommand ask for.
fn form_of(given: &ArgMatches<'_>) -> Form
    ensures { IsFormOf (first_of (codes "json") (rows_of (found_of given.now))) result }
{
    match given.get_str("json") {
        Some("true") => Form::Json,
        _ => Form::Text,
    }
}

/// The audit among the words of a subcommand, if one is named.
fn after_of<'a>(given: &ArgMatches<'a>) -> Option<&'a str>
    ensures { option_map (λ audit. audit.now) result
        ≡ first_of (codes "after") (rows_of (found_of given.now)) }
{
    given.get_str("after")
}

/// The policy of elections among the words of a subcommand, if one is named.
fn elections_of<'a>(given: &ArgMatches<'a>) -> Option<&'a str>
    ensures { option_map (λ policy. policy.now) result
        ≡ first_of (codes "elections") (rows_of (found_of given.now)) }
{
    given.get_str("elections")
}

/// The audit among the words of a subcommand that takes one.
fn audit_of<'a>(given: &ArgMatches<'a>) -> &'a str
    requires { is_some (first_of (codes "audit") (rows_of (found_of given.now))) ≡ true }
    ensures { first_of (codes "audit") (rows_of (found_of given.now)) ≡ Some result.now }
{
    match given.get_str("audit") {
        Some(audit) => audit,
        None => unreachable!(),
    }
}

/// Whether a flag is among the words of a subcommand.
fn is_set(given: &ArgMatches<'_>, flag: &str) -> bool
    ensures { IsSetOf (first_of flag.now (rows_of (found_of given.now))) result }
{
    match given.get_str(flag) {
        Some("true") => true,
        _ => false,
    }
}

/// The file of events among the words of a subcommand, if one is named.
fn times_of<'a>(given: &ArgMatches<'a>) -> Option<&'a str>
    ensures { option_map (λ events. events.now) result
        ≡ first_of (codes "times") (rows_of (found_of given.now)) }
{
    given.get_str("times")
}
