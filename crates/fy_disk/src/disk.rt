//! The disk of one process.
ghost use Rattle.std.specs.Prelude.{◌≡◌, ◌≤◌, length, take, drop, slice_get, IfErr, OnOk};
ghost use Rattle.std.specs.Option.{option_copied};
ghost use Rattle.fy_disk.specs.Disk.{empty_disk, written, all_synced, crashed, outlives, survivors};

use crate::Item;
use fy_locality::{TryCopy, try_copy_each};
use std::alloc::{AllocError, Global};
use std::marker::Model;

/// The items of one process in order of writing, and how many of them, from the first on, are
/// synced.
#[derive(Drop)]
pub struct Disk {
    items: Vec<Item>,
    synced: usize,
}

impl Model for Disk {
    ghost use Rattle.std.specs.Prelude.{◌≤◌, length, take, drop};
    ghost use Rattle.fy_disk.specs.Disk.{Stored};

    ghost Value = { Stored };

    ghost view = { λ d. record {
      synced = take d.synced d.items.items;
      unsynced = drop d.synced d.items.items;
    } };

    ghost invariant = { λ d. d.synced ≤ length d.items.items };
}

impl TryCopy for Disk {
    fn try_copy(&self, alloc: Global) -> Result<Disk, AllocError> {
        Ok(Disk {
            items: try_copy_each(alloc, &self.items)?,
            synced: self.synced,
        })
    }
}

impl Disk {
    /// A disk with nothing on it.
    pub fn make(alloc: Global) -> Disk
        ensures { result ≡ empty_disk }
    {
        Disk {
            items: Vec::new(alloc),
            synced: 0,
        }
    }

    /// Writes an item behind all others. It isn't synced yet.
    ///
    /// # Errors
    ///
    /// The item itself if the allocation for it fails. The disk then stays as it was.
    pub fn write(&mut self, item: Item) -> Result<(), Item>
        ensures written { OnOk result (self.new ≡ written item self.old) }
        ensures refused { IfErr result (λ back. (back ≡ item) × (self.new ≡ self.old)) }
    {
        self.items.push(item).map_err(|refused| refused.value)
    }

    /// Syncs every unsynced item and returns how many they were.
    pub fn sync(&mut self) -> usize
        ensures count { result ≡ length self.old.unsynced }
        ensures moved { self.new ≡ all_synced self.old }
    {
        let count = self.unsynced_len();
        self.synced = self.items.len();
        count
    }

    /// Crashes. An unsynced item survives, and is synced from then on, if its place among the
    /// unsynced ones (from 0) is below 64 and the bit of `tear` at that place is 1. The others are
    /// lost.
    pub fn crash(&mut self, tear: u64)
        ensures { self.new ≡ crashed tear self.old }
    {
        let kept = gather_survivors(&mut self.items[self.synced..], tear);
        self.synced += kept;
        self.items.truncate(self.synced);
    }

    /// Erases every item.
    pub fn wipe(&mut self)
        ensures { self.new ≡ empty_disk }
    {
        self.items.clear();
        self.synced = 0;
    }

    /// The synced item at a place, from 0.
    pub fn durable(&self, place: usize) -> Option<&Item>
        ensures { option_copied result ≡ slice_get self.now.synced place }
    {
        self.synced_items().get(place)
    }

    /// The unsynced item at a place among the unsynced ones, from 0.
    pub fn pending(&self, place: usize) -> Option<&Item>
        ensures { option_copied result ≡ slice_get self.now.unsynced place }
    {
        self.unsynced_items().get(place)
    }

    /// How many items are synced.
    pub fn synced_len(&self) -> usize
        ensures { result ≡ length self.now.synced }
    {
        self.synced_items().len()
    }

    /// How many items aren't synced yet.
    pub fn unsynced_len(&self) -> usize
        ensures { result ≡ length self.now.unsynced }
    {
        self.unsynced_items().len()
    }

    /// The items that are synced, in order of writing.
    pub fn synced_items(&self) -> &[Item]
        ensures { result.now ≡ self.now.synced }
    {
        &self.items[..self.synced]
    }

    /// The items that aren't synced yet, in order of writing.
    pub fn unsynced_items(&self) -> &[Item]
        ensures { result.now ≡ self.now.unsynced }
    {
        &self.items[self.synced..]
    }
}

/// Whether the unsynced item at a place survives a crash.
fn outlives_crash(tear: u64, place: usize) -> bool
    ensures { result ≡ outlives tear place }
{
    place < 64 && (tear >> place) & 1 == 1
}

/// Moves the items that survive a crash to the front, in their order, and returns how many they
/// are.
fn gather_survivors(items: &mut [Item], tear: u64) -> usize
    ensures survivors { take result items.new ≡ survivors tear items.old }
    ensures few { result ≤ length items.old }
{
    let mut kept = 0;
    for at in 0..items.len().min(64) {
        if outlives_crash(tear, at) {
            items.swap(kept, at);
            kept += 1;
        }
    }
    kept
}
