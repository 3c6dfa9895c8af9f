//! The handle by which a program in C holds a cluster.
ghost use Rattle.std.specs.Prelude.{◌≡◌, ◌≢◌};
ghost use Rattle.std.specs.Ptr.{null_ptr};
ghost use Rattle.std.specs.contracts.alloc.Global as heap;
ghost use Rattle.std.specs.declared.alloc.Global.{Global};
ghost use Rattle.fy_cluster.specs.Execution.{Execution};
ghost use Rattle.fy_cluster.specs.contracts.cluster.Cluster as held;

use crate::loose::Loose;
use fy_cluster::Cluster;
use std::alloc::Global;
use std::marker::{Model, Send};

/// A cluster that another program holds; closed where it is null.
#[repr(C)]
#[derive(Drop)]
pub struct FyGuard {
    at: *mut u8,
    ghost alloc: { Global } by { heap.the_row.coded },
    ghost value: { Execution } by { held.the_row.coded },
}

impl Model for FyGuard {
    ghost use Rattle.std.specs.contracts.impls.GlobalAllocator.TheImpl.{ghosts};
    ghost use Rattle.std.specs.Ptr.{if_non_null};
    ghost use Rattle.std_alloc.specs.Box.Ownership.{box_owns};
    ghost use Rattle.fy_cluster.specs.Execution.{Execution};
    ghost use Rattle.fy_cluster.specs.contracts.cluster.Cluster as e;

    ghost also_owns = { λ guard. if_non_null guard.at
        (box_owns (ghosts.dealloc_token guard.alloc) e.the_row guard.at guard.value) };
}

// A guard's cluster may go to another thread, and any thread may free its block.
unsafe impl Send for FyGuard {}

impl FyGuard {
    ghost use Rattle.std.specs.Prelude.{◌≡◌, ◌≢◌};
    ghost use Rattle.std.specs.Borrow.{sem};
    ghost use Rattle.std.specs.Ptr.{null_ptr};
    ghost use Rattle.fy_c.specs.Handles.{guard_follows};

    /// The cluster of an open guard. It writes nothing.
    pub(crate) fn cluster(&mut self) -> &mut Cluster
        requires { self.old.at ≢ null_ptr }
        ensures* writes_back { sem 𝓛 (guard_follows self.entry result) }
        ensures value { result.now ≡ self.old.value }
    {
        unsafe { &mut *(self.at as *mut Cluster) }
    }
}

/// The handle of a cluster that is taken out of its box.
fn to_handle(loose: Loose<Cluster, Global>) -> FyGuard
    ensures { (result.value ≡ loose.value) × (result.at ≢ null_ptr) }
{
    let Loose { at, alloc: _ } = loose;
    FyGuard { at: at as *mut u8 }
}

/// What a handle points to, with the allocator of its box.
fn from_handle(alloc: Global, handle: FyGuard) -> Loose<Cluster, Global>
    requires { handle.at ≢ null_ptr }
    ensures { result.value ≡ handle.value }
{
    let FyGuard { at } = handle;
    Loose {
        at: at as *mut Cluster,
        alloc,
    }
}

/// The handle of a cluster, which it owns from then on.
pub(crate) fn closed_up(cluster: Box<Cluster>) -> FyGuard
    ensures value { result.value ≡ cluster.value }
    ensures open { result.at ≢ null_ptr }
{
    to_handle(Loose::of(cluster))
}

/// The cluster of a handle.
pub(crate) fn opened_up(alloc: Global, guard: FyGuard) -> Box<Cluster>
    requires { guard.at ≢ null_ptr }
    ensures { result.value ≡ guard.value }
{
    from_handle(alloc, guard).into_box()
}
