//! The disks of all processes.
ghost use Rattle.std.specs.Prelude.{◌≡◌, ◌<◌, ◌≤◌, ℕ, length, replicate, slice_set, IfOk, IfErr, OnOk};
ghost use Rattle.std.specs.FinSet as sets;
ghost use Rattle.fy_disk.specs.Disk.{empty_disk, written, all_synced, crashed};
ghost use Rattle.fy_disk.specs.Disks.{disk_of, has_synced, has_unsynced};

use crate::holders::{add_holder, open, remove_holder};
use crate::{Disk, Item};
use fy_locality::{MOST_PROCESSES, ProcId, ProcSet, try_copy_each};
use std::alloc::{AllocError, Global};
use std::marker::Model;

/// A disk for each process.
///
/// Two questions are answered by sets that every change keeps up to date, so neither looks through
/// the disks: `holders` has for each record the processes that have it synced, `with_unsynced` the
/// processes that have something to sync.
#[derive(Drop)]
pub struct Disks {
    disks: Vec<Disk>,
    holders: Vec<ProcSet>,
    with_unsynced: ProcSet,
}

impl Model for Disks {
    ghost use Rattle.std.specs.Prelude.{List};
    ghost use Rattle.fy_disk.specs.Disk.{Stored};
    ghost use Rattle.fy_disk.specs.Holders.{DisksInvariant};

    ghost Value = { List Stored };

    ghost view = { λ d. d.disks.items };

    ghost invariant = { λ d. DisksInvariant d.disks.items d.holders.items d.with_unsynced };
}

/// Makes an empty disk for each process.
fn blank_disks(alloc: Global, processes: u32) -> Result<Vec<Disk>, AllocError>
    ensures { IfOk result (λ disks. disks.items ≡ replicate processes empty_disk) }
{
    let mut disks = Vec::new(alloc);
    for _process in 0..processes {
        disks.push(Disk::make(alloc))?;
    }
    Ok(disks)
}

impl Disks {
    /// Makes an empty disk for each of so many processes, at most 1024.
    ///
    /// # Errors
    ///
    /// `AllocError` only if an allocation fails.
    pub fn make(alloc: Global, processes: u32) -> Result<Disks, AllocError>
        requires { processes ≤ MOST_PROCESSES }
        ensures { IfOk result (λ made. made ≡ replicate processes empty_disk) }
    {
        Ok(Disks {
            disks: blank_disks(alloc, processes)?,
            holders: Vec::new(alloc),
            with_unsynced: ProcSet::empty(),
        })
    }

    /// Equal disks, in memory of their own.
    ///
    /// # Errors
    ///
    /// `AllocError` only if an allocation fails.
    pub fn try_copy(&self, alloc: Global) -> Result<Disks, AllocError>
        ensures { IfOk result (λ copy. copy ≡ self.now) }
    {
        Ok(Disks {
            disks: try_copy_each(alloc, &self.disks)?,
            holders: Vec::from_slice(alloc, &self.holders)?,
            with_unsynced: self.with_unsynced,
        })
    }

    /// The disk of a process. There must be such a process.
    pub fn of(&self, p: ProcId) -> &Disk
        requires { p.0 < length self.now }
        ensures { result.now ≡ disk_of self.now p.0 }
    {
        &self.disks[p.0 as usize]
    }

    /// Whether a process has a record synced. There need be no such process or record.
    pub fn has_synced(&self, rec: u32, p: ProcId) -> bool
        ensures { result ≡ has_synced (disk_of self.now p.0) rec }
    {
        match self.holders.get(rec as usize) {
            Some(holders) => holders.contains(p),
            None => false,
        }
    }

    /// The processes that have a record synced.
    pub fn holders(&self, rec: u32) -> ProcSet
        ensures { (p : ℕ) → sets.contains result p ≡ has_synced (disk_of self.now p) rec }
    {
        match self.holders.get(rec as usize) {
            Some(holders) => *holders,
            None => ProcSet::empty(),
        }
    }

    /// The processes that have something to sync.
    pub fn with_unsynced(&self) -> &ProcSet
        ensures { (p : ℕ) → sets.contains result.now p ≡ has_unsynced (disk_of self.now p) }
    {
        &self.with_unsynced
    }

    /// Makes the set of a record's holders, if it isn't there yet. No disk changes.
    ///
    /// # Errors
    ///
    /// `AllocError` only if the allocation fails.
    pub fn open(&mut self, rec: u32) -> Result<(), AllocError>
        ensures { self.new ≡ self.old }
    {
        open(&mut self.holders, rec)
    }

    /// Writes an item to a process's disk, behind all others. It isn't synced yet.
    ///
    /// # Errors
    ///
    /// The item itself if the allocation for it, or for the set of its record's holders, fails. All
    /// disks then stay as they were.
    pub fn write(&mut self, p: ProcId, item: Item) -> Result<(), Item>
        requires there { p.0 < length self.old }
        ensures written { OnOk result (self.new ≡ slice_set self.old p.0
            (written item (disk_of self.old p.0))) }
        ensures refused { IfErr result (λ back. (back ≡ item) × (self.new ≡ self.old)) }
    {
        let Ok(()) = open(&mut self.holders, item.rec) else {
            return Err(item);
        };
        self.disks[p.0 as usize].write(item)?;
        self.with_unsynced.put(p);
        Ok(())
    }

    /// Syncs every unsynced item of a process and returns how many they were. Doesn't allocate.
    pub fn sync(&mut self, p: ProcId) -> usize
        requires there { p.0 < length self.old }
        ensures count { result ≡ length (disk_of self.old p.0).unsynced }
        ensures synced { self.new ≡ slice_set self.old p.0 (all_synced (disk_of self.old p.0)) }
    {
        let disk = &mut self.disks[p.0 as usize];
        add_holder(&mut self.holders, disk.unsynced_items(), p);
        self.with_unsynced.drop_one(p);
        disk.sync()
    }

    /// Crashes a process's disk, as `Disk::crash` does. Doesn't allocate.
    pub fn crash(&mut self, p: ProcId, tear: u64)
        requires there { p.0 < length self.old }
        ensures { self.new ≡ slice_set self.old p.0 (crashed tear (disk_of self.old p.0)) }
    {
        let disk = &mut self.disks[p.0 as usize];
        let before = disk.synced_len();
        disk.crash(tear);
        add_holder(&mut self.holders, &disk.synced_items()[before..], p);
        self.with_unsynced.drop_one(p);
    }

    /// Erases every item of a process. Doesn't allocate.
    pub fn wipe(&mut self, p: ProcId)
        requires there { p.0 < length self.old }
        ensures { self.new ≡ slice_set self.old p.0 empty_disk }
    {
        let disk = &mut self.disks[p.0 as usize];
        remove_holder(&mut self.holders, disk.synced_items(), p);
        disk.wipe();
        self.with_unsynced.drop_one(p);
    }
}
