//! The handle by which a program in C holds an audit that is being checked.
// As `handle.rt`, for a check. One generic handle is refused, [unsupported-generic-in-c]: "a struct
// with type or const arguments .. is not supported yet in the signature of an exported function".
ghost use Rattle.std.specs.Prelude.{◌≡◌, ◌≢◌};
ghost use Rattle.std.specs.Ptr.{null_ptr};
ghost use Rattle.std.specs.contracts.alloc.Global as heap;
ghost use Rattle.std.specs.declared.alloc.Global.{Global};
ghost use Rattle.fy_c.specs.declared.checking.Check.{Check};
ghost use Rattle.fy_c.specs.contracts.checking.Check as held;

use crate::checking::Check;
use crate::loose::Loose;
use std::alloc::Global;
use std::marker::{Model, Send};

/// An audit that is being checked, which another program holds; closed where it is null.
#[repr(C)]
#[derive(Drop)]
pub struct FyCheck {
    at: *mut u8,
    ghost alloc: { Global } by { heap.the_row.coded },
    ghost value: { Check } by { held.the_row.coded },
}

impl Model for FyCheck {
    ghost use Rattle.std.specs.contracts.impls.GlobalAllocator.TheImpl.{ghosts};
    ghost use Rattle.std.specs.Ptr.{if_non_null};
    ghost use Rattle.std_alloc.specs.Box.Ownership.{box_owns};
    ghost use Rattle.fy_c.specs.declared.checking.Check.{Check};
    ghost use Rattle.fy_c.specs.contracts.checking.Check as e;

    ghost also_owns = { λ check. if_non_null check.at
        (box_owns (ghosts.dealloc_token check.alloc) e.the_row check.at check.value) };
}

// What a check holds may go to another thread, and any thread may free its block.
unsafe impl Send for FyCheck {}

impl FyCheck {
    ghost use Rattle.std.specs.Prelude.{◌≡◌, ◌≢◌};
    ghost use Rattle.std.specs.Borrow.{sem};
    ghost use Rattle.std.specs.Ptr.{null_ptr};
    ghost use Rattle.fy_c.specs.CheckHandles.{check_follows};

    /// What an open handle holds. It writes nothing.
    pub(crate) fn held(&mut self) -> &mut Check
        requires { self.old.at ≢ null_ptr }
        ensures* writes_back { sem 𝓛 (check_follows self.entry result) }
        ensures value { result.now ≡ self.old.value }
    {
        unsafe { &mut *(self.at as *mut Check) }
    }
}

/// The handle of a check that is taken out of its box.
fn to_handle(loose: Loose<Check, Global>) -> FyCheck
    ensures { (result.value ≡ loose.value) × (result.at ≢ null_ptr) }
{
    let Loose { at, alloc: _ } = loose;
    FyCheck { at: at as *mut u8 }
}

/// What a handle points to, with the allocator of its box.
fn from_handle(alloc: Global, handle: FyCheck) -> Loose<Check, Global>
    requires { handle.at ≢ null_ptr }
    ensures { result.value ≡ handle.value }
{
    let FyCheck { at } = handle;
    Loose {
        at: at as *mut Check,
        alloc,
    }
}

/// The handle of a check, which it owns from then on.
pub(crate) fn closed_up(check: Box<Check>) -> FyCheck
    ensures value { result.value ≡ check.value }
    ensures open { result.at ≢ null_ptr }
{
    to_handle(Loose::of(check))
}

/// The check of a handle.
pub(crate) fn opened_up(alloc: Global, check: FyCheck) -> Box<Check>
    requires { check.at ≢ null_ptr }
    ensures { result.value ≡ check.value }
{
    from_handle(alloc, check).into_box()
}
