//! How what was judged is spelled. The engine is generic in it, so what it writes comes from what
//! was judged and from nothing else. How `linear` spells is only tested.
use fy_history::Names;
use fy_keys::Judged;
use fy_registers::{Act, Evidence, Judgement, Keyed, Operation};
use indexmap::IndexSet;
use json::Writer;
use std::alloc::{AllocError, Global};

/// A way to spell what was judged of a history. `spells` says which bytes stand for it.
pub trait Spelling {
    ghost use Rattle.std.specs.Prelude.{ℕ, List, IfOk};
    ghost use Rattle.fy_keys.specs.declared.judged.Judged.{Judged};

    ghost spells: { Self → List (List ℕ) → Judged → List ℕ → Type 0 };

    /// The bytes that stand for what was judged of a history of these names.
    ///
    /// # Errors
    ///
    /// An allocation failed.
    fn spell(&self, alloc: Global, names: &Names, judged: &Judged) -> Result<Vec<u8>, AllocError>
        ensures { IfOk result (λ text. spells self.now names.now judged.now text.items) };
}

/// A line of JSON for each key that isn't linearizable, and a line of counts.
#[derive(Clone, Copy)]
pub struct Jsonl;

/// Ends a line: its bytes, with more behind them to come.
fn end_line(mut line: Writer) -> Result<Vec<u8>, AllocError> {
    line.end_object()?;
    let mut bytes = line.into_inner();
    bytes.push(b'\n')?;
    Ok(bytes)
}

/// Writes a member whose value is a number.
fn write_count(line: &mut Writer, name: &str, count: usize) -> Result<(), AllocError> {
    line.key(name)?;
    line.u64(count as u64)
}

/// Writes an operation, whose value is the number of a text.
fn write_operation(
    line: &mut Writer,
    names: &Names,
    operation: Operation,
) -> Result<(), AllocError> {
    line.begin_object()?;
    line.key("began")?;
    line.u64(u64::from(operation.began))?;
    line.key("ended")?;
    match operation.ended {
        Some(ended) => line.u64(u64::from(ended))?,
        None => line.null()?,
    }
    line.key("f")?;
    line.string(match operation.act {
        Act::Write(_) => "write",
        Act::Read(_) => "read",
    })?;
    line.key("value")?;
    match operation.value() {
        Some(value) => line.string(names.text(value))?,
        None => line.null()?,
    }
    line.end_object()
}

/// The operations that show it: two, or twice two.
fn shown(judgement: Option<Judgement>) -> (&'static str, [Option<Operation>; 4]) {
    match judgement {
        Some(Judgement::Not(evidence)) => shown_by(evidence),
        Some(Judgement::Twice { one, other }) => ("Twice", [Some(one), Some(other), None, None]),
        Some(Judgement::Linearizable) | None => ("Unordered", [None; 4]),
    }
}

/// The operations of evidence.
fn shown_by(evidence: Evidence) -> (&'static str, [Option<Operation>; 4]) {
    match evidence {
        Evidence::Unwritten { read } => ("Unwritten", [Some(read), None, None, None]),
        Evidence::BeforeWrite { read, write } => {
            ("BeforeWrite", [Some(read), Some(write), None, None])
        }
        Evidence::Nothing { ended, read } => ("Nothing", [Some(ended), Some(read), None, None]),
        Evidence::Conflict { one, other } => (
            "Conflict",
            [
                Some(one.first),
                Some(one.last),
                Some(other.first),
                Some(other.last),
            ],
        ),
    }
}

/// Writes the line of a key that isn't linearizable.
fn write_refuted(
    bytes: Vec<u8>,
    names: &Names,
    key: u32,
    judgement: Option<Judgement>,
) -> Result<Vec<u8>, AllocError> {
    let (why, operations) = shown(judgement);
    let mut line = Writer::new(bytes);
    line.begin_object()?;
    line.key("key")?;
    line.string(names.text(key))?;
    line.key("operations")?;
    line.begin_array()?;
    for operation in operations {
        if let Some(operation) = operation {
            write_operation(&mut line, names, operation)?;
        }
    }
    line.end_array()?;
    line.key("why")?;
    line.string(why)?;
    end_line(line)
}

/// How many keys have operations.
fn count_keys(alloc: Global, operations: &[Keyed]) -> Result<usize, AllocError> {
    let mut keys: IndexSet<u32> = IndexSet::new(alloc);
    for keyed in operations {
        if keys.insert(keyed.key).is_err() {
            return Err(AllocError);
        }
    }
    Ok(keys.len())
}

impl Spelling for Jsonl {
    // No definition says what the lines are.
    ghost spells = { λ _ _ _ _. Unit };

    fn spell(&self, alloc: Global, names: &Names, judged: &Judged) -> Result<Vec<u8>, AllocError> {
        let mut bytes = Vec::new(alloc);
        let (mut key, mut not) = (0u32, 0usize);
        for judgement in &judged.judgements {
            if *judgement != Some(Judgement::Linearizable) {
                bytes = write_refuted(bytes, names, key, *judgement)?;
                not = not.saturating_add(1);
            }
            key = key.saturating_add(1);
        }
        let keys = count_keys(alloc, &judged.operations)?;
        let mut line = Writer::new(bytes);
        line.begin_object()?;
        write_count(&mut line, "keys", keys)?;
        write_count(&mut line, "linearizable", keys.saturating_sub(not))?;
        write_count(&mut line, "not", not)?;
        write_count(&mut line, "operations", judged.operations.len())?;
        end_line(line)
    }
}
