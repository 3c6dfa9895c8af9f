//! Where a value of a document stands.
ghost use Rattle.std.specs.Prelude.{IfOk};
ghost use Rattle.fy_places.specs.Spans.{IsPlaceIn};

use crate::fault::PlaceFault;
use crate::inside::find_inside;
use crate::pieces::{after_value, header, key_equals, skip_bom};
use crate::section::Section;
use crate::span::{Place, Span};
use crate::step::{Step, behind_key};
use std::alloc::Global;
use toml_parser::text::{first, skip_blank};

/// Where the value stands in the text of a document to which a way leads.
///
/// # Errors
///
/// `Nowhere` where it leads to nothing, or the text is no document; `NoMemory` where an allocation
/// fails.
pub fn find_place(alloc: Global, text: &str, way: &[Step<'_>]) -> Result<Place, PlaceFault>
    ensures { IfOk result (IsPlaceIn text.now) }
{
    let mut section = Section::top(alloc);
    let mut here = Some(0);
    let mut rest = skip_bom(text);
    for _ in 0..text.len() {
        let front = skip_blank(rest, true);
        if first(front) == b'[' {
            let (key, many, after) = header(alloc, front)?;
            here = section.behind_header(way, &key, many)?;
            if here == Some(way.len()) {
                return Ok(Place::of(Span::between(text, front, after)));
            }
            rest = after;
        } else {
            let (key, value) = key_equals(alloc, front)?;
            if let Some(passed) = here {
                if let Some(passed) = behind_key(way, passed, &key) {
                    return find_inside(alloc, text, front, value, way, passed);
                }
            }
            rest = after_value(alloc, value)?;
        }
    }
    Err(PlaceFault::Nowhere)
}
