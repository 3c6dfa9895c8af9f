//! Where one process stands.
use crate::name::known;
use crate::{BadName, Key, Name};

/// One process: its name, its machine and zone, and its data hall and data centre where they are
/// known.
#[derive(Clone, Copy)]
pub struct Locality {
    pub process: Name,
    pub machine: Name,
    pub zone: Name,
    pub data_hall: Option<Name>,
    pub data_center: Option<Name>,
}

impl Locality {
    ghost use Rattle.std.specs.Prelude.{◌≡◌, ◌↔◌, IsOk, IfOk, IsTrue};
    ghost use Rattle.std.specs.Option.{option_copied};
    ghost use Rattle.fy_locality.specs.Locality.{value_in, locality_of, are_names};

    /// The locality that five texts spell.
    ///
    /// # Errors
    ///
    /// `BadName` where one of them is no name.
    pub fn make(
        process: &str,
        machine: &str,
        zone: &str,
        data_hall: Option<&str>,
        data_center: Option<&str>,
    ) -> Result<Locality, BadName>
        ensures accepted { let given = locality_of process.now machine.now zone.now
            (option_copied data_hall.entry) (option_copied data_center.entry) in
            IsOk result ↔ IsTrue (are_names given) }
        ensures value { let given = locality_of process.now machine.now zone.now
            (option_copied data_hall.entry) (option_copied data_center.entry) in
            IfOk result (λ locality. locality ≡ given) }
    {
        Ok(Locality {
            process: Name::make(process)?,
            machine: Name::make(machine)?,
            zone: Name::make(zone)?,
            data_hall: known(data_hall)?,
            data_center: known(data_center)?,
        })
    }

    /// The value of a key at this process, where it has one.
    pub(crate) fn name(&self, key: Key) -> Option<&Name>
        ensures { option_copied result ≡ value_in key self.now }
    {
        match key {
            Key::Process => Some(&self.process),
            Key::Machine => Some(&self.machine),
            Key::Zone => Some(&self.zone),
            Key::DataHall => self.data_hall.as_ref(),
            Key::DataCenter => self.data_center.as_ref(),
        }
    }

    /// The value of a key at this process.
    pub fn value(&self, key: Key) -> Option<Name>
        ensures { result ≡ value_in key self.now }
    {
        self.name(key).copied()
    }
}
