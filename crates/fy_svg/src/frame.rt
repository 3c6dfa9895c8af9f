//! What stands round the rows: the head with its colours, the legend, names, the axis, and orders
//! in words.
ghost use Rattle.std.specs.Prelude.{OnOk, string_bytes};
ghost use Rattle.fy_svg.specs.Documents.{AppendsMark};

use crate::drawing::{Drawn, Width};
use crate::lanes::Lane;
use crate::layout::{ASIDE, LINE, ROW, TOP, foot_of, middle_of, x_of, y_of};
use crate::otherwise::RING;
use crate::words::{write_floor, write_order};
use fy_acts::Entry;
use fy_locality::{Key, Map, ProcId};
use fy_picture::Column;
use std::alloc::AllocError;

/// Hues that the colour-blind can tell apart (Okabe and Ito), in steps of lightness: the states and
/// the paper differ in grey, every two of them, by a contrast of 1.6 (WCAG). The paper is light
/// and, where the viewer asks for it, dark. A glyph is the same on both: a filled one is black with
/// a white rim, a hollow one white with a black rim.
const STYLE: &str = "<style>
.paper { fill: #ffffff; }
text { font: 11px sans-serif; fill: #1a1a1a; }
.up { fill: #81ddb8; } .down { fill: #d99100; } .gone { fill: #7b7b7b; }
.emptied { fill: #71104e; } .clogged { fill: #005d9f; }
.order { stroke: #1a1a1a; stroke-width: 1.3; }
.filled { fill: #1a1a1a; stroke: #ffffff; stroke-width: 2.6; paint-order: stroke; }
.hollow { fill: #ffffff; }
.acked { fill: none; stroke: #0072b2; stroke-width: 2; }
.tick { stroke: #1a1a1a; } .axis { stroke: #c8c8c8; }
.policy { fill: none; stroke: #1a1a1a; stroke-width: 1.5; }
.bad { stroke: #d00000; stroke-width: 4; } .told { fill: #d00000; }
@media (prefers-color-scheme: dark) {
  .paper { fill: #161616; } text { fill: #e8e8e8; }
  .tick, .policy { stroke: #e8e8e8; }
  .gone { fill: #3b3b3b; } .emptied { fill: #c44f9a; }
  .axis { stroke: #484848; } .acked { stroke: #7cc4ee; }
}
</style>
";

/// What is drawn by the times of events alone. A ring has a rim of the paper, as a filled glyph
/// has.
const TIMED_STYLE: &str = "<style>
.otherwise { fill: #1a1a1a; stroke: #ffffff; stroke-width: 1.6; paint-order: stroke; }
.ups { fill: none; stroke: #1a1a1a; stroke-width: 1.5; }
@media (prefers-color-scheme: dark) {
  .otherwise { fill: #e8e8e8; stroke: #161616; }
  .ups { stroke: #e8e8e8; }
}
</style>
";

/// What the legend says: a class, how far from the left, and its word.
const STATES: [(&str, u64, &str); 5] = [
    ("up", 10, "up"),
    ("down", 70, "down"),
    ("gone", 140, "killed for good"),
    ("emptied", 270, "emptied, not healed (below)"),
    ("clogged", 470, "clogged (above)"),
];

/// What the first line of the legend says behind the states: the class of a mark, its outline, how
/// far from the left, and its word.
const MARKS: [(&str, &str, u64, &str); 2] = [
    ("acked", "m-4 0l3 4 6-8", 626, "a record is acknowledged"),
    ("tick", "m0-4v8", 806, "time passed"),
];

/// What the second line of the legend says, likewise of orders.
const ORDERS: [(&str, &str, u64, &str); 7] = [
    (
        "order filled",
        "m-3 0a3 3 0 1 0 6 0a3 3 0 1 0-6 0z",
        16,
        "RebootProcess",
    ),
    (
        "order filled",
        "m-4 0a4 4 0 1 0 8 0a4 4 0 1 0-8 0z",
        126,
        "Reboot",
    ),
    ("order filled", "m0-5l5 5-5 5-5-5z", 196, "RebootAndDelete"),
    ("order filled", "m-4-4h8v8h-8z", 320, "KillInstantly"),
    ("order filled", "m0-4l4 8h-8z", 420, "clog"),
    ("order filled", "m0 4l4-8h-8z", 480, "end of clogs"),
    (
        "order hollow",
        "m-4-4h8v8h-8z",
        580,
        "struck with less, or nobody",
    ),
];

/// What it says behind them where times are drawn.
const RINGS: [(&str, &str, u64, &str); 1] = [("otherwise", RING, 776, "something else was done")];

/// The head of the document, with the size of the sheet.
pub(crate) fn write_head(
    text: &mut String,
    drawn: &Drawn,
    stepped: usize,
) -> Result<(), AllocError> {
    let columns = drawn.picture.columns.len();
    let wide = x_of(columns).saturating_add(ASIDE).max(980);
    let foot = foot_of(drawn.lanes.len(), stepped, drawn.orders.len());
    let high = foot.saturating_add(LINE);
    text.push_str("<svg xmlns=\"http://www.w3.org/2000/svg\" ")?;
    write!(
        text,
        "width=\"{wide}\" height=\"{high}\" viewBox=\"0 0 {wide} {high}\" "
    )?;
    match drawn.width {
        Width::Entries(width) => write!(text, "data-width=\"{width}\" ")?,
        Width::Micros(micros) => write!(text, "data-micros=\"{micros}\" ")?,
    }
    writeln!(text, "data-columns=\"{columns}\">")?;
    text.push_str(STYLE)?;
    if let Width::Micros(_) = drawn.width {
        text.push_str(TIMED_STYLE)?;
    }
    text.push_str("<title>What a journal did to each process</title>\n")?;
    writeln!(
        text,
        "<rect class=\"paper\" width=\"{wide}\" height=\"{high}\"/>"
    )
}

/// Shapes of the legend, whose words stand on one line.
fn write_shapes(
    text: &mut String,
    shapes: &[(&str, &str, u64, &str)],
    foot: u64,
) -> Result<(), AllocError> {
    let y = foot.saturating_sub(4);
    for (class, shape, x, word) in shapes.iter().copied() {
        let beside = x.saturating_add(10);
        write!(text, "<path class=\"{class}\" d=\"M{x} {y}{shape}\"/>")?;
        writeln!(text, "<text x=\"{beside}\" y=\"{foot}\">{word}</text>")?;
    }
    Ok(())
}

/// The legend, in two lines at the head: states and marks, then orders.
pub(crate) fn write_legend(text: &mut String, width: Width) -> Result<(), AllocError> {
    text.push_str("<g class=\"legend\">\n")?;
    for (class, x, word) in STATES.iter().copied() {
        let beside = x.saturating_add(20);
        write!(
            text,
            "<rect class=\"{class}\" x=\"{x}\" y=\"8\" width=\"14\" height=\"8\"/>"
        )?;
        writeln!(text, "<text x=\"{beside}\" y=\"16\">{word}</text>")?;
    }
    write_shapes(text, &MARKS, 16)?;
    write_shapes(text, &ORDERS, 34)?;
    if let Width::Micros(_) = width {
        write_shapes(text, &RINGS, 34)?;
    }
    text.push_str("</g>\n")
}

/// The numbers of entries along the head, or seconds, at every tenth column.
pub(crate) fn write_axis(
    text: &mut String,
    columns: &[Column],
    width: Width,
    rows: usize,
) -> Result<(), AllocError> {
    let high = y_of(rows.saturating_add(2)).saturating_sub(TOP);
    let mut entry = 0;
    for (column, shown) in columns.iter().enumerate() {
        if column % 10 == 0 {
            let x = x_of(column);
            write!(text, "<path class=\"axis\" d=\"M{x} {TOP}v{high}\"/>")?;
            write!(text, "<text x=\"{x}\" y=\"54\">")?;
            match width {
                Width::Entries(_) => write!(text, "{entry}")?,
                Width::Micros(micros) => {
                    let seconds = micros.saturating_mul(column as u64) / 1_000_000;
                    write!(text, "{seconds} s")?;
                }
            }
            text.push_str("</text>\n")?;
        }
        entry = shown.end;
    }
    Ok(())
}

/// A value of a process, where it has one, so far from the left.
fn write_value(
    text: &mut String,
    map: &Map,
    p: u32,
    key: Key,
    x: u64,
    y: u64,
) -> Result<(), AllocError> {
    if p < map.len()
        && let Some(name) = map.value(ProcId(p), key)
    {
        let name = name.as_str();
        writeln!(text, "<text x=\"{x}\" y=\"{y}\">{name}</text>")?;
    }
    Ok(())
}

/// The names at the left of a row: those of its data centre, data hall and zone where they are
/// others than above.
pub(crate) fn write_names(
    text: &mut String,
    map: &Map,
    above: Option<Lane>,
    lane: Lane,
    row: usize,
) -> Result<(), AllocError> {
    let y = y_of(row).saturating_add(ROW - 6);
    let p = lane.process;
    let (data_center, hall, zone) = match above {
        Some(above) => (
            above.data_center != lane.data_center,
            above.data_center != lane.data_center || above.hall != lane.hall,
            above.data_center != lane.data_center
                || above.hall != lane.hall
                || above.zone != lane.zone,
        ),
        None => (true, true, true),
    };
    if data_center {
        write_value(text, map, p, Key::DataCenter, 6, y)?;
    }
    if hall {
        write_value(text, map, p, Key::DataHall, 66, y)?;
    }
    if zone {
        write_value(text, map, p, Key::Zone, 116, y)?;
    }
    write_value(text, map, p, Key::Process, 186, y)
}

/// The names of the two rows below the processes.
pub(crate) fn write_last_names(text: &mut String, rows: usize) -> Result<(), AllocError> {
    let nobody = y_of(rows).saturating_add(ROW - 6);
    let records = y_of(rows.saturating_add(1)).saturating_add(ROW - 6);
    writeln!(
        text,
        "<text x=\"96\" y=\"{nobody}\">orders that name nobody</text>"
    )?;
    writeln!(text, "<text x=\"96\" y=\"{records}\">acknowledged</text>")
}

/// Below the rows, in words, the first orders that struck with less or were barred.
pub(crate) fn write_orders(
    text: &mut String,
    orders: &[Entry],
    rows: usize,
    stepped: usize,
) -> Result<(), AllocError> {
    for (line, order) in orders.iter().enumerate() {
        let y = foot_of(rows, stepped, line);
        write!(text, "<text class=\"order-in-words\" x=\"10\" y=\"{y}\">")?;
        write_order(text, order)?;
        write_floor(text, order)?;
        text.push_str("</text>\n")?;
    }
    Ok(())
}

/// A red mark behind the last column, for the entry that isn't what the rules give.
pub(crate) fn write_bad(
    text: &mut String,
    columns: usize,
    at: u32,
    rows: usize,
) -> Result<(), AllocError>
    ensures { OnOk result (AppendsMark at (string_bytes text.old) (string_bytes text.new)) }
{
    let x = middle_of(columns);
    let high = y_of(rows.saturating_add(2)).saturating_sub(TOP);
    write!(text, "<path class=\"bad\" data-entry=\"{at}\"")?;
    writeln!(
        text,
        " d=\"M{x} {TOP}v{high}\"><title>entry {at} is not what the rules give</title></path>"
    )?;
    let beside = x.saturating_add(6);
    writeln!(
        text,
        "<text class=\"told\" x=\"{beside}\" y=\"66\">bad entry {at}</text>"
    )?;
    Ok(())
}
