//! The five things by which processes are told apart.
ghost use Rattle.std.specs.Prelude.{◌≡◌};
ghost use Rattle.fy_locality.specs.Key.{key_text, key_named};

/// One part of a locality.
#[derive(Clone, Copy, PartialEq, Eq, Debug)]
pub enum Key {
    /// The process itself, by its id.
    Process,
    /// The machine on which it runs.
    Machine,
    /// The zone in which it is.
    Zone,
    /// Its data hall, where it has one.
    DataHall,
    /// Its data centre, where it has one.
    DataCenter,
}

/// Every key.
pub const KEYS: [Key; 5] = [
    Key::Process,
    Key::Machine,
    Key::Zone,
    Key::DataHall,
    Key::DataCenter,
];

impl Key {
    /// The key as every text of the product writes it: `processid`, `machineid`, `zoneid`,
    /// `data_hall`, `dcid`.
    pub fn text(self) -> &'static str
        ensures { result.now ≡ key_text self }
    {
        match self {
            Key::Process => "processid",
            Key::Machine => "machineid",
            Key::Zone => "zoneid",
            Key::DataHall => "data_hall",
            Key::DataCenter => "dcid",
        }
    }

    /// The key that is written so, if one is.
    pub fn named(text: &str) -> Option<Key>
        ensures { result ≡ key_named text.now }
    {
        KEYS.iter().copied().find(|key| key.text() == text)
    }
}
