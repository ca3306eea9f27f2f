//! A handle, as C has it.

ghost use Rattle.std.specs.Prelude.{◌≡◌, is_some};

use crate::held::Held;
use std::alloc::Global;

/// A handle: what it holds, and whether that is a session.
#[repr(C)]
#[derive(Drop)]
pub struct Handle {
    pub(crate) held: Held,
    /// Whether it holds a session.
    pub live: bool,
    pub(crate) alloc: Global,
    ghost full: { live ≡ is_some held.home },
}
