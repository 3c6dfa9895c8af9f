//! Orders to kill.
ghost use Rattle.std.specs.Prelude.{◌≡◌, ◌↔◌, ◌<◌, ◌≤◌, IfOk, IsErr};
ghost use Rattle.fy_kinds.specs.Kinds.{rank};

use crate::Kind;
use fy_locality::{Key, Name};
use std::marker::Model;

/// The processes with one value of a key.
#[derive(Clone, Copy, PartialEq, Eq)]
pub struct Target {
    pub key: Key,
    pub value: Name,
}

/// The refusal of a floor that is above its kind.
#[derive(Clone, Copy, PartialEq, Eq, Debug)]
pub struct Floor;

/// An order to kill the processes of a target: by its kind, or where that is barred by a milder one
/// down to its floor.
#[derive(Clone, Copy, PartialEq, Eq)]
pub struct KillOrder {
    target: Target,
    kind: Kind,
    floor: Kind,
    tear: u64,
    ghost ordered: { rank floor ≤ rank kind },
}

impl Model for KillOrder {
    ghost use Rattle.fy_kinds.specs.Orders.{Order};

    ghost Value = { Order };

    ghost view = { λ o. record {
      target = o.target;
      kind = o.kind;
      floor = o.floor;
      tear = o.tear;
      ordered = o.ordered;
    } };

    ghost inverse = { λ v. record {
      target = v.target;
      kind = v.kind;
      floor = v.floor;
      tear = v.tear;
      ordered = v.ordered;
    } };
}

impl KillOrder {
    /// An order. A reboot keeps unsynced write number `i`, from 0, where `i` is below 64 and bit
    /// `i` of `tear` is 1.
    ///
    /// # Errors
    ///
    /// `Floor` where the floor is above the kind.
    pub fn make(target: Target, kind: Kind, floor: Kind, tear: u64) -> Result<KillOrder, Floor>
        ensures refused { IsErr result ↔ (rank kind < rank floor) }
        ensures target { IfOk result (λ order. order.target ≡ target) }
        ensures kind { IfOk result (λ order. order.kind ≡ kind) }
        ensures floor { IfOk result (λ order. order.floor ≡ floor) }
        ensures tear { IfOk result (λ order. order.tear ≡ tear) }
    {
        if floor.is_above(kind) {
            return Err(Floor);
        }
        Ok(KillOrder {
            target,
            kind,
            floor,
            tear,
        })
    }

    /// Whom the order is about.
    pub fn target(&self) -> Target
        ensures { result ≡ self.now.target }
    {
        self.target
    }

    /// The kind that is ordered.
    pub fn kind(&self) -> Kind
        ensures kind { result ≡ self.now.kind }
        ensures ordered { rank self.now.floor ≤ rank self.now.kind }
    {
        self.kind
    }

    /// The mildest kind that may take its place, never above it.
    pub fn floor(&self) -> Kind
        ensures floor { result ≡ self.now.floor }
        ensures ordered { rank self.now.floor ≤ rank self.now.kind }
    {
        self.floor
    }

    /// Which unsynced writes a reboot keeps: one bit for each of the first 64.
    pub fn tear(&self) -> u64
        ensures { result ≡ self.now.tear }
    {
        self.tear
    }
}
