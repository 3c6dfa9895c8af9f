//! What a cluster bears, as one text.
use crate::LossesSoFar;
use crate::borne::Findings;
use crate::json::write_json;
use crate::text::write_text;
use fy_locality::Map;
use fy_policy::Policy;
use std::alloc::{AllocError, Global};

/// Who reads the text.
#[derive(Clone, Copy, PartialEq, Eq, Debug)]
pub enum Form {
    /// People: some lines.
    Text,
    /// Programs: one JSON object.
    Json,
}

/// A cluster whose findings are written.
#[derive(Clone, Copy)]
pub(crate) struct Case<'a> {
    pub(crate) map: &'a Map,
    pub(crate) policies: &'a [Policy],
}

/// Writes what was found of a cluster of this map and these policies. Where there were losses
/// before, they are told too. Only the spelling is made here, and no contract says what it is.
///
/// # Errors
///
/// An allocation failed.
pub fn write_findings(
    alloc: Global,
    map: &Map,
    policies: &[Policy],
    before: Option<&LossesSoFar>,
    findings: &Findings,
    form: Form,
) -> Result<String, AllocError> {
    let case = Case { map, policies };
    match form {
        Form::Text => write_text(alloc, &case, before, findings),
        Form::Json => write_json(alloc, &case, before, findings),
    }
}
