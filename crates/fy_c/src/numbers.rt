//! The numbers by which C knows keys, kinds, rules, processes, messages, records and states.
ghost use Rattle.std.specs.Prelude.{◌≡◌, ◌≢◌, IfSome, IfNone, if◌then◌else◌};
ghost use Rattle.fy_locality.specs.declared.key.Key.{Key};
ghost use Rattle.fy_kinds.specs.declared.kind.Kind.{Kind};
ghost use Rattle.fy_c.specs.Numbers.{key_number, kind_number, struck_number, rule_number, named_by, process_number, message_number, record_number, status_bits};

use fy_cluster::Status as ProcessStatus;
use fy_kinds::{Kind, Rule};
use fy_locality::{Key, ProcId};

/// The number for no process.
pub const NOBODY: u32 = u32::MAX;
/// The number for no record.
pub const NO_RECORD: u32 = u32::MAX;
/// The number for no message.
pub const NOTHING: u64 = u64::MAX;

/// The key that a program in C gives by its number.
pub(crate) fn key_of(number: u32) -> Option<Key>
    ensures some { IfSome result (λ key. number ≡ key_number key) }
    ensures none { IfNone result ((key : Key) → number ≢ key_number key) }
{
    match number {
        1 => Some(Key::Process),
        2 => Some(Key::Machine),
        3 => Some(Key::Zone),
        4 => Some(Key::DataHall),
        5 => Some(Key::DataCenter),
        _ => None,
    }
}

/// The kind that a program in C gives by its number.
pub(crate) fn kind_of(number: u32) -> Option<Kind>
    ensures some { IfSome result (λ kind. number ≡ kind_number kind) }
    ensures none { IfNone result ((kind : Kind) → number ≢ kind_number kind) }
{
    match number {
        1 => Some(Kind::RebootProcess),
        2 => Some(Kind::Reboot),
        3 => Some(Kind::RebootAndDelete),
        4 => Some(Kind::KillInstantly),
        _ => None,
    }
}

/// The number of a kind.
pub(crate) fn kind_number(kind: Kind) -> u32
    ensures { result ≡ kind_number kind }
{
    match kind {
        Kind::RebootProcess => 1,
        Kind::Reboot => 2,
        Kind::RebootAndDelete => 3,
        Kind::KillInstantly => 4,
    }
}

/// The number of the kind that struck, 0 where none did.
pub(crate) fn struck_number(struck: Option<Kind>) -> u32
    ensures { result ≡ struck_number struck }
{
    match struck {
        Some(kind) => kind_number(kind),
        None => 0,
    }
}

/// The number of a rule, 0 for none.
pub(crate) fn rule_number(rule: Option<Rule>) -> u32
    ensures { result ≡ rule_number rule }
{
    match rule {
        None => 0,
        Some(Rule::NoTarget) => 1,
        Some(Rule::NoGrant { .. }) => 2,
        Some(Rule::Protected { .. }) => 3,
        Some(Rule::TooManyDestroyed { .. }) => 4,
        Some(Rule::TooFewLeft { .. }) => 5,
    }
}

/// The process or the policy that a rule names, 0 where it names none.
pub(crate) fn named_by(rule: Option<Rule>) -> u64
    ensures { result ≡ named_by rule }
{
    match rule {
        None | Some(Rule::NoTarget) => 0,
        Some(Rule::NoGrant { process }) | Some(Rule::Protected { process }) => process.0 as u64,
        Some(Rule::TooManyDestroyed { policy }) | Some(Rule::TooFewLeft { policy }) => {
            policy as u64
        }
    }
}

/// The number of a process, where there is one.
pub(crate) fn process_number(process: Option<ProcId>) -> u32
    ensures { result ≡ process_number process }
{
    match process {
        Some(process) => process.0,
        None => NOBODY,
    }
}

/// The number of a message, where there is one.
pub(crate) fn message_number(message: Option<u64>) -> u64
    ensures { result ≡ message_number message }
{
    match message {
        Some(message) => message,
        None => NOTHING,
    }
}

/// The number of a record, where there is one.
pub(crate) fn record_number(rec: Option<u32>) -> u32
    ensures { result ≡ record_number rec }
{
    match rec {
        Some(rec) => rec,
        None => NO_RECORD,
    }
}

/// The value where something is so, and else 0.
pub(crate) fn bit(is: bool, value: u32) -> u32
    ensures { result ≡ (if is then value else 0) }
{
    if is { value } else { 0 }
}

/// The state of a process as bits: 1 where it is up, 2 where it is clogged, 4 where it is
/// destroyed, 8 where it is gone for good; `NOBODY` where there is no such process.
pub(crate) fn status_bits(status: Option<ProcessStatus>) -> u32
    ensures { result ≡ status_bits status }
{
    let Some(status) = status else {
        return NOBODY;
    };
    bit(status.up, 1) + bit(status.clogged, 2) + bit(status.destroyed, 4) + bit(status.gone, 8)
}
