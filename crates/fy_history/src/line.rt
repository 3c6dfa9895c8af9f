//! What a line of a history says.
ghost use Rattle.std.specs.Prelude.{◌≡◌, map, option_map, bytes_eq};
ghost use Rattle.std.specs.List.{list_any, list_all};
ghost use Rattle.json.specs.Value.{value_view, members_view};
ghost use Rattle.fy_history.specs.Lines.{has_write_names, has_read_names, read_more, begins, client_event_of, does_in, written_event};
ghost use Rattle.fy_history.specs.Lines.{are_named, has_only, text_in, half, key_in, found_in, node_in, write_in, read_in, ask_in, times_in, finds_nothing, done_in, has_error_text, is_no, undone_in, has_client_names, outcome_in, client_event, entry_event, salvage_found, plain_found, has_disk_names, disk_event, event_in, line_of};
ghost use Rattle.fy_history.specs.Views.{ask_view, outcome_view, found_view, event_view, line_view};

use crate::whole::{short_in, small_in, whole_in};
use fy_events::{Done, done_of};
use json::Value;

/// Where the numbers of clients end: 4,194,304.
pub const MOST_CLIENTS: u32 = 4_194_304;

/// Where the numbers of a cluster's processes end: 1,024.
pub const MOST_NODES: u32 = 1024;

/// What a client asks of the store, in texts of some type.
#[derive(Clone, Copy)]
pub(crate) enum Ask<T> {
    /// To write a value of a key.
    Write { key: T, value: T },
    /// The value of a key: of one process, or of the store as a whole.
    Read { key: T, node: Option<u16> },
}

/// How what was asked ended.
#[derive(Clone, Copy)]
pub(crate) enum Outcome<T> {
    /// It was done. A read found the key's value, so many times, or nothing.
    Done { found: Option<T>, times: u32 },
    /// It is known not to be done.
    Failed,
    /// The store said no, and may have done it.
    Refused,
    /// It may be done or not.
    Unknown,
}

/// What was found on a disk.
#[derive(Clone, Copy)]
pub(crate) enum Found<T> {
    /// A record.
    Has { key: T, value: T },
    /// All records were told.
    All,
    /// There may be more records.
    Some,
    /// Something of a key.
    Stands { key: T },
    /// Nothing of other keys.
    NothingElse,
}

/// What happened.
#[derive(Clone, Copy)]
pub(crate) enum Event<T> {
    Begins {
        client: u32,
        ask: Ask<T>,
    },
    Ends {
        client: u32,
        ask: Ask<T>,
        outcome: Outcome<T>,
    },
    Entry {
        entry: u32,
        does: Option<Done>,
    },
    Written,
    Disk {
        node: u16,
        found: Found<T>,
    },
}

/// A line: how many stand before it as it says, when it happened, and what.
#[derive(Clone, Copy)]
pub(crate) struct Line<T> {
    pub(crate) index: u64,
    pub(crate) nanos: u64,
    pub(crate) event: Event<T>,
}

/// Whether one of these names is this.
fn is_among(name: &str, names: &[&str]) -> bool
    ensures { result ≡ list_any (λ other. bytes_eq name.now other.now) names.now }
{
    names.iter().any(|other| name == *other)
}

/// Whether each member has one of these names.
fn are_among(members: &[(&str, Value<'_>)], names: &[&str]) -> bool
    ensures { result ≡ list_all (λ member. list_any (λ other. bytes_eq member.0.now other.now)
        names.now) members.now }
{
    members.iter().all(|member| is_among(member.0, names))
}

/// Whether each member has one of these names, member by member.
fn are_named(members: &[(&str, Value<'_>)], names: &[&str]) -> bool
    ensures { result ≡ are_named (map (λ name. name.now) names.now) (members_view members.now) }
{
    are_among(members, names)
}

/// Whether each member of an object has one of these names.
fn has_only(value: &Value<'_>, names: &[&str]) -> bool
    ensures { result ≡ has_only (map (λ name. name.now) names.now) (value_view value.now) }
{
    match value {
        Value::Object(members) => are_named(members, names),
        _ => false,
    }
}

/// The text of a member.
fn text_in<'a>(value: &Value<'a>, name: &str) -> Option<&'a str>
    ensures { option_map (λ text. text.now) result ≡ text_in name.now (value_view value.now) }
{
    value.get(name)?.as_str()
}

/// What stands at a place of the pair that is the member `value`.
fn half<'v, 'a>(value: &'v Value<'a>, at: usize) -> Option<&'v Value<'a>>
    ensures { option_map (λ found. value_view found.now) result ≡ half at (value_view value.now) }
{
    let pair = value.get("value")?;
    if pair.at(2).is_some() {
        return None;
    }
    pair.at(at)
}

/// The key, which the pair begins with.
fn key_in<'a>(value: &Value<'a>) -> Option<&'a str>
    ensures { option_map (λ key. key.now) result ≡ key_in (value_view value.now) }
{
    half(value, 0)?.as_str()
}

/// A value or null, which the pair ends with.
fn found_in<'a>(value: &Value<'a>) -> Option<Option<&'a str>>
    ensures { option_map (option_map (λ found. found.now)) result ≡ found_in (value_view value.now) }
{
    let found = half(value, 1)?;
    if found.is_null() {
        return Some(None);
    }
    Some(Some(found.as_str()?))
}

/// The process that was asked, or null.
fn node_in(value: &Value<'_>) -> Option<Option<u16>>
    ensures { result ≡ node_in (value_view value.now) }
{
    if value.get("node")?.is_null() {
        return Some(None);
    }
    Some(Some(short_in(value, "node")?))
}

/// What a write's line asks.
fn write_in<'a>(value: &Value<'a>) -> Option<Ask<&'a str>>
    ensures { option_map ask_view result ≡ write_in (value_view value.now) }
{
    let key = key_in(value)?;
    let written = found_in(value)??;
    Some(Ask::Write {
        key,
        value: written,
    })
}

/// What a read's line asks.
fn read_in<'a>(value: &Value<'a>) -> Option<Ask<&'a str>>
    ensures { option_map ask_view result ≡ read_in (value_view value.now) }
{
    let key = key_in(value)?;
    let node = node_in(value)?;
    Some(Ask::Read { key, node })
}

/// What a line asks, whatever comes of it.
fn ask_in<'a>(value: &Value<'a>) -> Option<Ask<&'a str>>
    ensures { option_map ask_view result ≡ ask_in (value_view value.now) }
{
    let f = text_in(value, "f")?;
    if f == "write" {
        write_in(value)
    } else if f == "read" {
        read_in(value)
    } else {
        None
    }
}

/// How many times a read found a value: once, if nothing is said of it.
fn times_in(value: &Value<'_>, may_be_told: bool) -> Option<u32>
    ensures { result ≡ times_in may_be_told (value_view value.now) }
{
    if value.get("times").is_none() {
        return Some(1);
    }
    let times = small_in(value, "times", u32::MAX)?;
    if may_be_told && 1 < times {
        Some(times)
    } else {
        None
    }
}

/// Whether the pair has nothing where a value would stand.
fn finds_nothing(value: &Value<'_>) -> bool
    ensures { result ≡ finds_nothing (value_view value.now) }
{
    match half(value, 1) {
        Some(found) => found.is_null(),
        None => false,
    }
}

/// How a line says that what was asked ended well.
fn done_in<'a>(value: &Value<'a>, ask: Ask<&'a str>) -> Option<Outcome<&'a str>>
    ensures { option_map outcome_view result ≡ done_in (ask_view ask.entry) (value_view value.now) }
{
    match ask {
        Ask::Write { .. } => Some(Outcome::Done {
            found: None,
            times: 1,
        }),
        Ask::Read { node, .. } => {
            let found = found_in(value)?;
            let times = times_in(value, node.is_none() && found.is_some())?;
            Some(Outcome::Done { found, times })
        }
    }
}

/// Whether `error`, where it stands, is a text.
fn has_error_text(value: &Value<'_>) -> bool
    ensures { result ≡ has_error_text (value_view value.now) }
{
    match value.get("error") {
        Some(error) => error.as_str().is_some(),
        None => true,
    }
}

/// Whether a store says no by this text.
fn is_no(error: Option<&str>) -> bool
    ensures { result ≡ is_no (option_map (λ text. text.now) error.entry) }
{
    match error {
        Some(error) => error == "no",
        None => false,
    }
}

/// How a line says that what was asked didn't end well.
fn undone_in<'a>(value: &Value<'a>, ask: Ask<&'a str>, fails: bool) -> Option<Outcome<&'a str>>
    ensures { option_map outcome_view result
        ≡ undone_in fails (ask_view ask.entry) (value_view value.now) }
{
    if !has_error_text(value) {
        return None;
    }
    if let Ask::Read { .. } = ask
        && !finds_nothing(value)
    {
        return None;
    }
    if fails {
        return Some(Outcome::Failed);
    }
    if is_no(text_in(value, "error")) {
        Some(Outcome::Refused)
    } else {
        Some(Outcome::Unknown)
    }
}

/// Whether the line of a write has no member but those of its form.
fn has_write_names(value: &Value<'_>, is_well: bool) -> bool
    ensures { result ≡ has_write_names is_well (value_view value.now) }
{
    if is_well {
        has_only(value, &["index", "time", "process", "type", "f", "value"])
    } else {
        has_only(
            value,
            &["index", "time", "process", "type", "f", "value", "error"],
        )
    }
}

/// Whether the line of a read has no member but those of its form.
fn has_read_names(value: &Value<'_>, more: &str) -> bool
    ensures { result ≡ has_read_names more.now (value_view value.now) }
{
    has_only(
        value,
        &[
            "index", "time", "process", "type", "f", "value", "node", more,
        ],
    )
}

/// The member that a read's line of a type may have beside those of each.
fn read_more(kind: &str) -> &'static str
    ensures { result.now ≡ read_more kind.now }
{
    if kind == "invoke" {
        "node"
    } else if kind == "ok" {
        "times"
    } else {
        "error"
    }
}

/// Whether the line of a client has no member but those of its form.
fn has_client_names(value: &Value<'_>, ask: Ask<&str>, kind: &str) -> bool
    ensures { result ≡ has_client_names (ask_view ask.entry) kind.now (value_view value.now) }
{
    match ask {
        Ask::Write { .. } => has_write_names(value, kind == "invoke" || kind == "ok"),
        Ask::Read { .. } => has_read_names(value, read_more(kind)),
    }
}

/// What the line of a client says that begins.
fn begins<'a>(value: &Value<'a>, client: u32, ask: Ask<&'a str>) -> Option<Event<&'a str>>
    ensures { option_map event_view result
        ≡ begins client (ask_view ask.entry) (value_view value.now) }
{
    if let Ask::Read { .. } = ask
        && !finds_nothing(value)
    {
        return None;
    }
    Some(Event::Begins { client, ask })
}

/// How the line of a client says that what was asked ended.
fn outcome_in<'a>(value: &Value<'a>, ask: Ask<&'a str>, kind: &str) -> Option<Outcome<&'a str>>
    ensures { option_map outcome_view result
        ≡ outcome_in kind.now (ask_view ask.entry) (value_view value.now) }
{
    if kind == "ok" {
        done_in(value, ask)
    } else if kind == "fail" {
        undone_in(value, ask, true)
    } else if kind == "info" {
        undone_in(value, ask, false)
    } else {
        None
    }
}

/// What the line of a client says, by its type.
fn client_event_of<'a>(
    value: &Value<'a>,
    client: u32,
    ask: Ask<&'a str>,
    kind: &str,
) -> Option<Event<&'a str>>
    ensures { option_map event_view result
        ≡ client_event_of client (ask_view ask.entry) kind.now (value_view value.now) }
{
    if !has_client_names(value, ask, kind) {
        return None;
    }
    if kind == "invoke" {
        return begins(value, client, ask);
    }
    let outcome = outcome_in(value, ask, kind)?;
    Some(Event::Ends {
        client,
        ask,
        outcome,
    })
}

/// What the line of a client says.
fn client_event<'a>(value: &Value<'a>) -> Option<Event<&'a str>>
    ensures { option_map event_view result ≡ client_event (value_view value.now) }
{
    let client = small_in(value, "process", MOST_CLIENTS)?;
    let ask = ask_in(value)?;
    let kind = text_in(value, "type")?;
    client_event_of(value, client, ask, kind)
}

/// What a line says was done for an entry, if it says so.
fn does_in(value: &Value<'_>) -> Option<Option<Done>>
    ensures { result ≡ does_in (value_view value.now) }
{
    let does = value.get("does");
    if does.is_none() {
        return Some(None);
    }
    Some(Some(done_of(does)?))
}

/// What a line says of an entry of the audit.
fn entry_event<'a>(value: &Value<'a>) -> Option<Event<&'a str>>
    ensures { option_map event_view result ≡ entry_event (value_view value.now) }
{
    if !has_only(value, &["index", "time", "f", "value", "does"]) {
        return None;
    }
    let entry = small_in(value, "value", u32::MAX)?;
    let does = does_in(value)?;
    Some(Event::Entry { entry, does })
}

/// What a line says of the records of a disk.
fn salvage_found<'a>(value: &Value<'a>, kind: &str) -> Option<Found<&'a str>>
    ensures { option_map found_view result ≡ salvage_found kind.now (value_view value.now) }
{
    if kind == "told" {
        let key = key_in(value)?;
        let written = found_in(value)??;
        return Some(Found::Has {
            key,
            value: written,
        });
    }
    if kind == "all" {
        Some(Found::All)
    } else if kind == "some" {
        Some(Found::Some)
    } else {
        None
    }
}

/// What a line says of the files of a disk.
fn plain_found<'a>(value: &Value<'a>, kind: &str) -> Option<Found<&'a str>>
    ensures { option_map found_view result ≡ plain_found kind.now (value_view value.now) }
{
    if kind == "told" {
        if !finds_nothing(value) {
            return None;
        }
        let key = key_in(value)?;
        return Some(Found::Stands { key });
    }
    if kind == "all" {
        Some(Found::NothingElse)
    } else {
        None
    }
}

/// Whether a line that tells of a disk has no member but those of its form.
fn has_disk_names(value: &Value<'_>, tells: bool) -> bool
    ensures { result ≡ has_disk_names tells (value_view value.now) }
{
    if tells {
        has_only(value, &["index", "time", "f", "type", "node", "value"])
    } else {
        has_only(value, &["index", "time", "f", "type", "node"])
    }
}

/// What a line says of a disk: of its records, or of its files.
fn disk_event<'a>(value: &Value<'a>, of_records: bool) -> Option<Event<&'a str>>
    ensures { option_map event_view result ≡ disk_event of_records (value_view value.now) }
{
    let kind = text_in(value, "type")?;
    if !has_disk_names(value, kind == "told") {
        return None;
    }
    let node = short_in(value, "node")?;
    let found = if of_records {
        salvage_found(value, kind)
    } else {
        plain_found(value, kind)
    };
    let found = found?;
    Some(Event::Disk { node, found })
}

/// What a line says that no write begins from here on.
fn written_event<'a>(value: &Value<'a>) -> Option<Event<&'a str>>
    ensures { option_map event_view result ≡ written_event (value_view value.now) }
{
    if has_only(value, &["index", "time", "f"]) {
        Some(Event::Written)
    } else {
        None
    }
}

/// What a line says happened.
fn event_in<'a>(value: &Value<'a>) -> Option<Event<&'a str>>
    ensures { option_map event_view result ≡ event_in (value_view value.now) }
{
    let f = text_in(value, "f")?;
    if f == "entry" {
        entry_event(value)
    } else if f == "written" {
        written_event(value)
    } else if f == "salvage" {
        disk_event(value, true)
    } else if f == "plain" {
        disk_event(value, false)
    } else {
        client_event(value)
    }
}

/// The line that a value is.
pub(crate) fn line_of<'a>(value: &Value<'a>) -> Option<Line<&'a str>>
    ensures { option_map line_view result ≡ line_of (value_view value.now) }
{
    let index = whole_in(value, "index")?;
    let nanos = whole_in(value, "time")?;
    let event = event_in(value)?;
    Some(Line {
        index,
        nanos,
        event,
    })
}
