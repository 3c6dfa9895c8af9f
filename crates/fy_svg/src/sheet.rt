//! The whole sheet.
ghost use Rattle.std.specs.Prelude.{IfOk, OnOk, string_bytes};
ghost use Rattle.fy_svg.specs.Documents.{EndsDocument, NamesBad};

use crate::bands::{changes_of, write_bands};
use crate::drawing::Drawn;
use crate::frame::{
    write_axis, write_bad, write_head, write_last_names, write_legend, write_names, write_orders,
};
use crate::keepers::write_keepers;
use crate::lanes::Lane;
use crate::layout::y_of;
use crate::marks::write_marks;
use crate::policies::write_policies;
use crate::ups::write_ups;
use fy_cluster::Config;
use fy_locality::Map;
use fy_picture::Column;
use std::alloc::{AllocError, Global};

/// A row for each process: its names and its bands.
fn write_rows(
    alloc: Global,
    text: &mut String,
    map: &Map,
    columns: &[Column],
    lanes: &[Lane],
) -> Result<(), AllocError> {
    let changes = changes_of(alloc, columns, map.len())?;
    let mut above = None;
    for (row, lane) in lanes.iter().enumerate() {
        let process = lane.process;
        writeln!(text, "<g class=\"row\" data-process=\"{process}\">")?;
        write_names(text, map, above, *lane, row)?;
        if let Some(own) = changes.get(process as usize) {
            write_bands(text, columns, own.as_slice(), process, y_of(row))?;
        }
        text.push_str("</g>\n")?;
        above = Some(*lane);
    }
    Ok(())
}

/// Closes a document, behind the mark of a bad entry, where one follows the entries.
fn close(text: &mut String, bad: Option<u32>, columns: usize, rows: usize) -> Result<(), AllocError>
    ensures ends { OnOk result (EndsDocument (string_bytes text.new)) }
    ensures bad { OnOk result (NamesBad bad (string_bytes text.new)) }
{
    if let Some(at) = bad {
        write_bad(text, columns, at, rows)?;
    }
    text.push_str("</svg>\n")?;
    Ok(())
}

/// The SVG document of what is drawn. `bad` is the place of the first bad entry, where one follows
/// the entries.
pub(crate) fn document(
    alloc: Global,
    config: &Config,
    drawn: &Drawn,
    bad: Option<u32>,
) -> Result<String, AllocError>
    ensures ends { IfOk result (λ text. EndsDocument (string_bytes text)) }
    ensures bad { IfOk result (λ text. NamesBad bad (string_bytes text)) }
{
    let columns = drawn.picture.columns.as_slice();
    let lanes = drawn.lanes.as_slice();
    let policies = config.policies().len();
    let stepped = match drawn.rings {
        Some(_) => policies.saturating_add(1),
        None => policies,
    };
    let mut text = String::new(alloc);
    write_head(&mut text, drawn, stepped)?;
    write_legend(&mut text, drawn.width)?;
    write_axis(&mut text, columns, drawn.width, lanes.len())?;
    write_rows(alloc, &mut text, config.map(), columns, lanes)?;
    write_last_names(&mut text, lanes.len())?;
    drawn.glyphs.write(&mut text)?;
    if let Some(rings) = &drawn.rings {
        text.push_str(rings.as_str())?;
    }
    write_marks(alloc, &mut text, drawn)?;
    write_keepers(alloc, &mut text, &drawn.picture, lanes)?;
    write_policies(alloc, &mut text, config, columns)?;
    if drawn.rings.is_some() {
        write_ups(alloc, &mut text, columns, config.map().len(), policies)?;
    }
    write_orders(&mut text, &drawn.orders, lanes.len(), stepped)?;
    close(&mut text, bad, columns.len(), lanes.len())?;
    Ok(text)
}
