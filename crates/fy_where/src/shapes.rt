//! What the tables of a cluster file hold.

/// A table of a cluster file.
#[derive(Clone, Copy, PartialEq, Eq)]
pub(crate) enum Shape {
    Process,
    Actor,
    Grant,
    Protection,
}

/// What a member has to be.
#[derive(Clone, Copy)]
pub(crate) enum Holds {
    Text,
    /// A text that is one of these.
    Word(&'static str, &'static [&'static str], &'static [(&'static str, &'static str)]),
    /// An array of kinds.
    Kinds,
    /// An array, whose elements are looked at later.
    Array,
}

/// The keys at the top of a file.
pub(crate) const TOP_KEYS: [&str; 5] = ["journal_limit", "policies", "process", "actor", "protect"];

/// Words that stand at the top of a file in place of those keys.
pub(crate) const OTHER_TOP_KEYS: [(&str, &str); 7] = [
    ("processes", "process"),
    ("actors", "actor"),
    ("policy", "policies"),
    ("protection", "protect"),
    ("protections", "protect"),
    ("limit", "journal_limit"),
    ("journal", "journal_limit"),
];

/// The keys of a process, which are those by which processes are told apart.
pub(crate) const PROCESS_KEYS: [&str; 5] = [
    "processid",
    "machineid",
    "zoneid",
    "data_hall",
    "dcid",
];

/// Words that stand in place of those keys.
pub(crate) const OTHER_PROCESS_KEYS: [(&str, &str); 15] = [
    ("id", "processid"),
    ("name", "processid"),
    ("process", "processid"),
    ("machine", "machineid"),
    ("host", "machineid"),
    ("node", "machineid"),
    ("zone", "zoneid"),
    ("rack", "zoneid"),
    ("hall", "data_hall"),
    ("datahall", "data_hall"),
    ("dc", "dcid"),
    ("datacenter", "dcid"),
    ("datacentre", "dcid"),
    ("data_center", "dcid"),
    ("region", "dcid"),
];

const ACTOR_KEYS: [&str; 2] = ["role", "grants"];

const OTHER_ACTOR_KEYS: [(&str, &str); 1] = [("grant", "grants")];

const GRANT_KEYS: [&str; 3] = ["kinds", "key", "value"];

const OTHER_GRANT_KEYS: [(&str, &str); 2] = [("kind", "kinds"), ("scope", "key")];

const PROTECTION_KEYS: [&str; 2] = ["process", "kinds"];

const OTHER_PROTECTION_KEYS: [(&str, &str); 2] = [("processid", "process"), ("kind", "kinds")];

/// The kinds of kill, and clogging.
pub(crate) const KINDS: [&str; 5] = [
    "RebootProcess",
    "Reboot",
    "RebootAndDelete",
    "KillInstantly",
    "Clog",
];

/// Words that stand in place of those.
pub(crate) const OTHER_KINDS: [(&str, &str); 4] = [
    ("kill", "KillInstantly"),
    ("delete", "RebootAndDelete"),
    ("restart", "RebootProcess"),
    ("pause", "Clog"),
];

const ROLES: [&str; 3] = ["fault", "storage", "operator"];

const OTHER_ROLES: [(&str, &str); 4] = [
    ("nemesis", "fault"),
    ("faults", "fault"),
    ("store", "storage"),
    ("admin", "operator"),
];

impl Shape {
    /// The keys that such a table may have; those that it has to have come first.
    pub(crate) fn keys(self) -> &'static [&'static str] {
        match self {
            Shape::Process => &PROCESS_KEYS,
            Shape::Actor => &ACTOR_KEYS,
            Shape::Grant => &GRANT_KEYS,
            Shape::Protection => &PROTECTION_KEYS,
        }
    }

    /// How many of them it has to have.
    pub(crate) fn needed(self) -> usize {
        match self {
            Shape::Process => 3,
            Shape::Actor | Shape::Grant => 1,
            Shape::Protection => 2,
        }
    }

    /// Words that stand in place of its keys.
    pub(crate) fn others(self) -> &'static [(&'static str, &'static str)] {
        match self {
            Shape::Process => &OTHER_PROCESS_KEYS,
            Shape::Actor => &OTHER_ACTOR_KEYS,
            Shape::Grant => &OTHER_GRANT_KEYS,
            Shape::Protection => &OTHER_PROTECTION_KEYS,
        }
    }
}

/// What the member with this key has to be, in whatever table it stands.
pub(crate) fn held_at(key: &str) -> Holds {
    match key {
        "kinds" => Holds::Kinds,
        "grants" => Holds::Array,
        "role" => Holds::Word("role", &ROLES, &OTHER_ROLES),
        "key" => Holds::Word("key", &PROCESS_KEYS, &OTHER_PROCESS_KEYS),
        _ => Holds::Text,
    }
}
