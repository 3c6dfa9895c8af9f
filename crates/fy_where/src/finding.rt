//! What is wrong with a cluster file.
use fy_places::Step;
use std::alloc::{AllocError, Global};
use toml::Value;

/// What of the place to which a way leads is at fault.
#[derive(Clone, Copy)]
pub(crate) enum Spot<'f> {
    /// The file: nothing is there to which a way could lead.
    File,
    /// The key.
    Key,
    /// The value.
    Value,
    /// These bytes of the value, a text.
    Part {
        text: &'f str,
        start: usize,
        end: usize,
    },
}

/// What is wrong, and the way to it.
#[derive(Drop)]
pub(crate) struct Finding<'f> {
    pub(crate) way: Vec<Step<'f>>,
    pub(crate) spot: Spot<'f>,
    pub(crate) text: String,
}

/// What is wrong first, if anything is.
pub(crate) type Found<'f> = Result<Option<Finding<'f>>, AllocError>;

/// What is wrong at the end of a way.
pub(crate) fn found<'f>(
    alloc: Global,
    way: &[Step<'f>],
    spot: Spot<'f>,
    text: String,
) -> Found<'f> {
    let way = Vec::from_slice(alloc, way)?;
    Ok(Some(Finding { way, spot, text }))
}

/// A way with a step more.
pub(crate) fn extended<'f>(
    alloc: Global,
    way: &[Step<'f>],
    step: Step<'f>,
) -> Result<Vec<Step<'f>>, AllocError> {
    let mut longer = Vec::from_slice(alloc, way)?;
    longer.extend_from_slice(&[step])?;
    Ok(longer)
}

/// The type of a value, for people.
fn type_of(value: &Value) -> &'static str {
    match value {
        Value::String(_) => "a text",
        Value::Integer(_) => "a whole number",
        Value::Float(_) => "a number with a point",
        Value::Boolean(_) => "true or false",
        Value::Datetime(_) => "a date or a time",
        Value::Array(_) => "an array",
        Value::Table(_) => "a table",
    }
}

/// A value has another type than it has to have.
pub(crate) fn mistyped<'f>(
    alloc: Global,
    value: &Value,
    way: &[Step<'f>],
    what: &str,
    wanted: &str,
) -> Found<'f> {
    let is = type_of(value);
    let text = format!(in alloc; "{what} has to be {wanted}, and is {is}")?;
    found(alloc, way, Spot::Value, text)
}
