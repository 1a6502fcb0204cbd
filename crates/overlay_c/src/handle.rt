// A handle.
ghost use Rattle.std.specs.Prelude.{◌≡◌, true, Some, None, IsSome};
ghost use Rattle.std.specs.declared.option.Option.{Option};
ghost use Rattle.overlay_c.specs.Owned.{held};
ghost use Rattle.overlay_c.specs.declared.engine.Engine.{Engine};
ghost use Rattle.overlay_c.specs.contracts.engine.Engine.{the_row};

use crate::engine::Engine;
use crate::raw_box::RawBox;
use std::alloc::Global;
use std::marker::Model;

/// The place of an engine. It may go to another thread, for one call at a time.
#[repr(C)]
#[derive(Drop)]
pub struct Handle {
    at: *mut u8,
    alloc: Global,
    pub ghost engine: { Option Engine },
}

impl Model for Handle {
    ghost also_owns = { λ h. held the_row h.alloc h.at h.engine };
}

// What it owns is the same to every thread.
unsafe impl Send for Handle {}

/// Takes the engine out.
pub(crate) fn take(alloc: Global, handle: &mut Handle) -> Box<Engine>
    requires { IsSome handle.old.engine }
    ensures engine { handle.old.engine ≡ Some result.value }
    ensures none { handle.new.engine ≡ None }
{
    let full = std::mem::replace(handle, empty(alloc));
    full_raw_box(full).into_box()
}

/// Puts an engine in.
pub(crate) fn put(handle: &mut Handle, engine: Box<Engine>)
    ensures { handle.new.engine ≡ Some engine.value }
{
    *handle = of_raw_box(RawBox::of(engine));
}

/// A handle of no engine.
fn empty(alloc: Global) -> Handle
    ensures { result.engine ≡ None }
{
    Handle {
        at: std::ptr::null_mut(),
        alloc,
    }
}

/// The handle of an engine whose box was taken apart.
fn of_raw_box(raw_box: RawBox<Engine, Global>) -> Handle
    ensures { result.engine ≡ Some raw_box.value }
{
    let RawBox { at, alloc } = raw_box;
    Handle {
        at: at as *mut u8,
        alloc,
    }
}

/// The engine of a handle that has one, as a box that was taken apart.
fn full_raw_box(handle: Handle) -> RawBox<Engine, Global>
    requires { IsSome handle.engine }
    ensures { handle.engine ≡ Some result.value }
{
    let Handle { at, alloc } = handle;
    RawBox {
        at: at as *mut Engine,
        alloc,
    }
}
