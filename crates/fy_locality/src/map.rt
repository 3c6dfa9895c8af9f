//! Where each process stands.
ghost use Rattle.std.specs.Prelude.{◌≡◌, ◌<◌, ◌≤◌, ◌++◌, nat_lt, ℕ, [], ◌∷◌, Some, None, length, IfOk, OnErr, slice_get, ◌≢◌, IfSome, IfNone, IfErr, IsTrue, ◌↔◌};
ghost use Rattle.std.specs.FinSet as sets;
ghost use Rattle.std.specs.Option.{option_copied};
ghost use Rattle.std.specs.Map.{keys_of};
ghost use Rattle.indexmap.specs.IndexMap.{spare};
ghost use Rattle.fy_locality.specs.declared.key.Key.TheVariants.{Process};
ghost use Rattle.fy_locality.specs.Locality.{value_of, has_value, values_of, NamesDiffer, ArePeers, locality_of, id_refusal, refusal_of};
ghost use Rattle.fy_locality.specs.Indexed.{HasSameEntries, IsIndex, IsValueIndex, group_of};
ghost use Rattle.fy_locality.specs.Noted.{AddsToIndex};

use crate::{BadName, Key, Locality, MOST_PROCESSES, Name, ProcId, ProcSet};
use indexmap::IndexMap;
use std::alloc::{AllocError, AllocFailed, Global};
use std::marker::Model;

/// The processes in order of their numbers, and where they stand.
pub struct Map {
    processes: Vec<Locality>,
    indexes: Indexes,
    places: Vec<ValueIndexes>,
}

/// The values of a key in the order in which they were first seen, each with the processes that
/// have it.
type Index = IndexMap<Name, ProcSet>;

/// An index for each key.
struct Indexes {
    ids: Index,
    machines: Index,
    zones: Index,
    halls: Index,
    data_centers: Index,
}

// Written out and not derived: see `Drop` in docs/DECISIONS.md.
impl Drop for Indexes {
    fn drop(self) {
        let Indexes {
            ids: _,
            machines: _,
            zones: _,
            halls: _,
            data_centers: _,
        } = self;
    }
}

impl Indexes {
    /// The same values with the same processes, in memory of their own.
    ///
    /// # Errors
    ///
    /// An allocation failed.
    fn try_copy(&self) -> Result<Indexes, AllocError>
        ensures { IfOk result (HasSameEntries self.now) }
    {
        Ok(Indexes {
            ids: self.ids.clone()?,
            machines: self.machines.clone()?,
            zones: self.zones.clone()?,
            halls: self.halls.clone()?,
            data_centers: self.data_centers.clone()?,
        })
    }
}

/// Where the values of one process stand among the values of their keys, so that no name has to be
/// looked up for them. None for a key of which it has no value.
#[derive(Clone, Copy)]
struct ValueIndexes {
    machine: Option<usize>,
    zone: Option<usize>,
    data_hall: Option<usize>,
    data_center: Option<usize>,
}

impl Model for Map {
    ghost use Rattle.std.specs.Prelude.{List};
    ghost use Rattle.fy_locality.specs.declared.locality.Locality.{Locality};

    ghost Value = { List Locality };

    ghost use Rattle.fy_locality.specs.Indexed.{IsIndexed};

    ghost view = { λ m. m.processes.items };

    ghost invariant = { λ m.
        IsIndexed m.processes.items
        m.indexes.ids.entries m.indexes.machines.entries m.indexes.zones.entries
        m.indexes.halls.entries m.indexes.data_centers.entries m.places.items };
}

impl Map {
    ghost use Rattle.fy_locality.specs.declared.map.MapFault.{MapFault};
    ghost use Rattle.fy_locality.specs.declared.map.MapFault.TheVariants.{NoMemory};

    /// No process.
    pub fn make(alloc: Global) -> Self
        ensures { result ≡ [] }
    {
        Map {
            processes: Vec::new(alloc),
            indexes: Indexes {
                ids: IndexMap::new(alloc),
                machines: IndexMap::new(alloc),
                zones: IndexMap::new(alloc),
                halls: IndexMap::new(alloc),
                data_centers: IndexMap::new(alloc),
            },
            places: Vec::new(alloc),
        }
    }

    /// How many processes there are: at most 1024.
    pub fn len(&self) -> u32
        ensures count { result ≡ length self.now }
        ensures few { length self.now ≤ MOST_PROCESSES }
    {
        self.processes.len() as u32
    }

    /// Whether there is no process.
    pub fn is_empty(&self) -> bool
        ensures { IsTrue result ↔ (self.now ≡ []) }
    {
        self.processes.is_empty()
    }

    /// The values of a key, each with the processes that have it.
    fn index(&self, key: Key) -> &Index
        ensures index { IsIndex self.now key result.now.entries }
        ensures few { length self.now ≤ MOST_PROCESSES }
    {
        match key {
            Key::Process => &self.indexes.ids,
            Key::Machine => &self.indexes.machines,
            Key::Zone => &self.indexes.zones,
            Key::DataHall => &self.indexes.halls,
            Key::DataCenter => &self.indexes.data_centers,
        }
    }

    /// The value of a key at a process, where it has one.
    pub fn value(&self, p: ProcId, key: Key) -> Option<Name>
        requires { p.0 < length self.now }
        ensures { result ≡ value_of self.now key p.0 }
    {
        self.processes[p.0 as usize].value(key)
    }

    /// How many different values of a key there are.
    pub fn value_count(&self, key: Key) -> u32
        ensures { result ≡ length (values_of self.now key) }
    {
        self.index(key).len() as u32
    }

    /// A value of a key by its place, in the order in which they were first seen.
    pub fn value_at(&self, key: Key, i: u32) -> Option<Name>
        ensures { result ≡ slice_get (values_of self.now key) i }
    {
        match self.index(key).get_index(i as usize) {
            Some((name, _)) => Some(*name),
            None => None,
        }
    }

    /// The processes with a value of a key: one look-up.
    pub fn members(&self, key: Key, value: &Name) -> ProcSet
        ensures { (q : ℕ) → sets.contains result q ≡ has_value self.now key value.now q }
    {
        group(self.index(key), value)
    }

    /// The processes with the value that a process has of a key, itself among them; none where
    /// there is no such process, or where it has no value of the key. Doesn't allocate and compares
    /// no names.
    pub fn peers(&self, p: ProcId, key: Key) -> Option<ProcSet>
        ensures some { IfSome result (ArePeers self.now key p.0) }
        ensures none { IfNone result (value_of self.now key p.0 ≡ None) }
    {
        let place = self.place(p, key)?;
        match self.index(key).get_index(place) {
            Some((_, members)) => Some(*members),
            None => unreachable!(),
        }
    }

    /// Where the value of a process stands among the values of a key.
    fn place(&self, p: ProcId, key: Key) -> Option<usize>
        ensures { IsValueIndex (values_of self.now key) (value_of self.now key p.0) result }
    {
        let places = self.places.get(p.0 as usize)?;
        match key {
            Key::Process => Some(p.0 as usize),
            Key::Machine => places.machine,
            Key::Zone => places.zone,
            Key::DataHall => places.data_hall,
            Key::DataCenter => places.data_center,
        }
    }

    /// Two processes with one name are one.
    pub fn names_differ(&self)
        ensures { NamesDiffer self.now }
    {
        let _processes = &self.processes;
    }

    /// Every process.
    pub fn everyone(&self) -> ProcSet
        ensures { (q : ℕ) → sets.contains result q ≡ nat_lt q (length self.now) }
    {
        ProcSet::below(self.len())
    }

    /// The process with a name.
    pub fn find(&self, id: &Name) -> Option<ProcId>
        ensures found { IfSome result (λ p. value_of self.now Process p.0 ≡ Some id.now) }
        ensures within { IfSome result (λ p. p.0 < length self.now) }
        ensures missing { IfNone result ((p : ℕ) → value_of self.now Process p ≢ Some id.now) }
    {
        match self.indexes.ids.get_index_of(id) {
            Some(at) => Some(ProcId(at as u32)),
            None => None,
        }
    }

    /// An equal map.
    ///
    /// # Errors
    ///
    /// An allocation failed.
    pub fn try_copy(&self, alloc: Global) -> Result<Map, AllocError>
        ensures { IfOk result (λ copy. copy ≡ self.now) }
    {
        Ok(Map {
            processes: Vec::from_slice(alloc, &self.processes)?,
            indexes: self.indexes.try_copy()?,
            places: Vec::from_slice(alloc, &self.places)?,
        })
    }

    /// One more process, which gets the next number. A refused process leaves the map as it was.
    ///
    /// # Errors
    ///
    /// In this order: `Name` for a text that is no name; `Twice` for an `id` that is there already;
    /// `TooMany` where 1024 processes are there already; `NoMemory`.
    pub fn add(
        &mut self,
        id: &str,
        machine: &str,
        zone: &str,
        hall: Option<&str>,
        data_center: Option<&str>,
    ) -> Result<ProcId, MapFault>
        ensures refused { let given = locality_of id.now machine.now zone.now
            (option_copied hall.entry) (option_copied data_center.entry) in
            (fault : MapFault) → refusal_of self.old given ≡ Some fault → result ≡ Err fault }
        ensures memory { let given = locality_of id.now machine.now zone.now
            (option_copied hall.entry) (option_copied data_center.entry) in
            refusal_of self.old given ≡ None → IfErr result (λ fault. fault ≡ NoMemory) }
        ensures number { IfOk result (λ p. p.0 ≡ length self.old) }
        ensures added { let given = locality_of id.now machine.now zone.now
            (option_copied hall.entry) (option_copied data_center.entry) in
            IfOk result (λ p. self.new ≡ self.old ++ given ∷ []) }
        ensures err { OnErr result (self.new ≡ self.old) }
    {
        match Locality::make(id, machine, zone, hall, data_center) {
            Ok(locality) => self.push(locality),
            Err(BadName) => Err(MapFault::Name),
        }
    }

    /// Why a process with this name is not taken, if it isn't: the first reason in the order of
    /// `push`.
    fn refusal(&self, id: &Name) -> Option<MapFault>
        ensures { result ≡ id_refusal self.now id.now }
    {
        if self.indexes.ids.contains_key(id) {
            return Some(MapFault::Twice);
        }
        if self.processes.len() >= MOST_PROCESSES as usize {
            return Some(MapFault::TooMany);
        }
        None
    }

    /// One more process whose names are known, as `add` does.
    ///
    /// # Errors
    ///
    /// In this order: `Twice` where its name is there already; `TooMany` where 1024 processes are
    /// there already; `NoMemory`.
    pub fn push(&mut self, locality: Locality) -> Result<ProcId, MapFault>
        ensures refused { (fault : MapFault)
            → id_refusal self.old locality.process ≡ Some fault → result ≡ Err fault }
        ensures memory { id_refusal self.old locality.process ≡ None
            → IfErr result (λ fault. fault ≡ NoMemory) }
        ensures ok { IfOk result (λ p.
            (p.0 ≡ length self.old) × (self.new ≡ self.old ++ locality ∷ [])) }
        ensures err { OnErr result (self.new ≡ self.old) }
    {
        let number = ProcId(self.len());
        if let Some(fault) = self.refusal(&locality.process) {
            return Err(fault);
        }
        self.processes.reserve(1)?;
        self.indexes.ids.reserve(1)?;
        self.indexes.machines.reserve(1)?;
        self.indexes.zones.reserve(1)?;
        self.indexes.halls.reserve(1)?;
        self.indexes.data_centers.reserve(1)?;
        self.places.reserve(1)?;
        let _number = add_to_index(&mut self.indexes.ids, Some(locality.process), number);
        let places = ValueIndexes {
            machine: add_to_index(&mut self.indexes.machines, Some(locality.machine), number),
            zone: add_to_index(&mut self.indexes.zones, Some(locality.zone), number),
            data_hall: add_to_index(&mut self.indexes.halls, locality.data_hall, number),
            data_center: add_to_index(&mut self.indexes.data_centers, locality.data_center, number),
        };
        self.processes.push_reserved(locality);
        self.places.push_reserved(places);
        Ok(number)
    }
}

// Written out and not derived: see `Drop` in docs/DECISIONS.md.
impl Drop for Map {
    fn drop(self) {
        let Map {
            processes: _,
            indexes: _,
            places: _,
        } = self;
    }
}

/// Why a process was not added.
#[derive(Clone, Copy, PartialEq, Eq, Debug)]
pub enum MapFault {
    /// One of the texts is no name.
    Name,
    /// A process with this name is there already.
    Twice,
    /// 1024 processes are there already.
    TooMany,
    /// An allocation for the process failed.
    NoMemory,
}

impl From<AllocError> for MapFault {
    ghost use Rattle.fy_locality.specs.declared.map.MapFault.TheVariants.{NoMemory};
    ghost use Rattle.std.specs.Prelude.{◌≡◌};

    ghost from_gives = { λ _ e. e ≡ NoMemory };

    fn from(_: AllocError) -> MapFault {
        MapFault::NoMemory
    }
}

impl<T: Drop> From<AllocFailed<T>> for MapFault {
    ghost use Rattle.fy_locality.specs.declared.map.MapFault.TheVariants.{NoMemory};
    ghost use Rattle.std.specs.Prelude.{◌≡◌};

    ghost from_gives = { λ _ e. e ≡ NoMemory };

    fn from(_: AllocFailed<T>) -> MapFault {
        MapFault::NoMemory
    }
}

/// The processes kept for a value.
fn group(index: &Index, value: &Name) -> ProcSet
    ensures { result ≡ group_of index.now.entries value.now }
{
    match index.get(value) {
        Some(members) => *members,
        None => ProcSet::empty(),
    }
}

/// Puts a process into the set of its value, and says where that value stands; nothing where it has
/// none.
fn add_to_index(index: &mut Index, value: Option<Name>, p: ProcId) -> Option<usize>
    requires room { 0 < spare index.old }
    requires small { p.0 < MOST_PROCESSES }
    ensures notes { AddsToIndex index.old.entries value p.0 index.new.entries }
    ensures place { IsValueIndex (keys_of index.new.entries) value result }
{
    let name = value?;
    let mut members = group(index, &name);
    members.put(p);
    match index.insert_full(name, members) {
        Ok((place, _)) => Some(place),
        Err(_) => unreachable!(),
    }
}
