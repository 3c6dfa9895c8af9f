//! Values in place of their numbers.
ghost use Rattle.std.specs.Prelude.{◌≡◌};
ghost use Rattle.fy_values.specs.Renumbering.{act_by, operation_by, span_by, evidence_by, judgement_by};
ghost use Rattle.fy_values.specs.Values.{value_at};

use fy_registers::{Act, Evidence, Judgement, Operation, Span};
use indexmap::IndexSet;

/// The value of a number; 0 where no value has it.
fn value_at(values: &IndexSet<u32>, number: u32) -> u32
    ensures { result ≡ value_at values.now.keys number }
{
    match values.get_index(number as usize) {
        Some(value) => *value,
        None => 0,
    }
}

/// An act with the value in place of its number.
fn act_of(values: &IndexSet<u32>, act: Act) -> Act
    ensures { result ≡ act_by (value_at values.now.keys) act }
{
    match act {
        Act::Write(number) => Act::Write(value_at(values, number)),
        Act::Read(Some(number)) => Act::Read(Some(value_at(values, number))),
        Act::Read(None) => Act::Read(None),
    }
}

/// An operation with the value in place of its number.
fn operation_of(values: &IndexSet<u32>, operation: Operation) -> Operation
    ensures { result ≡ operation_by (value_at values.now.keys) operation }
{
    Operation {
        act: act_of(values, operation.act),
        began: operation.began,
        ended: operation.ended,
    }
}

/// Two operations of a value, with it in place of its number.
fn span_of(values: &IndexSet<u32>, span: Span) -> Span
    ensures { result ≡ span_by (value_at values.now.keys) span }
{
    Span {
        first: operation_of(values, span.first),
        last: operation_of(values, span.last),
    }
}

/// Evidence with values in place of their numbers.
fn evidence_of(values: &IndexSet<u32>, evidence: Evidence) -> Evidence
    ensures { result ≡ evidence_by (value_at values.now.keys) evidence }
{
    match evidence {
        Evidence::Unwritten { read } => Evidence::Unwritten {
            read: operation_of(values, read),
        },
        Evidence::BeforeWrite { read, write } => Evidence::BeforeWrite {
            read: operation_of(values, read),
            write: operation_of(values, write),
        },
        Evidence::Nothing { ended, read } => Evidence::Nothing {
            ended: operation_of(values, ended),
            read: operation_of(values, read),
        },
        Evidence::Conflict { one, other } => Evidence::Conflict {
            one: span_of(values, one),
            other: span_of(values, other),
        },
    }
}

/// A judgement with values in place of their numbers.
pub fn judgement_of(values: &IndexSet<u32>, judgement: Judgement) -> Judgement
    ensures { result ≡ judgement_by (value_at values.now.keys) judgement }
{
    match judgement {
        Judgement::Linearizable => Judgement::Linearizable,
        Judgement::Not(evidence) => Judgement::Not(evidence_of(values, evidence)),
        Judgement::Twice { one, other } => Judgement::Twice {
            one: operation_of(values, one),
            other: operation_of(values, other),
        },
    }
}
