//! A handle, as C holds it.
ghost use Rattle.std.specs.Prelude.{Option};
ghost use Rattle.th_c.specs.Held.{content_coded, held};
ghost use Rattle.th_c.specs.declared.content.Content.{Content};

use std::alloc::Global;
use std::marker::Model;

/// One pointer, for C. It stands for what it owns; it is null where that is nothing.
#[repr(C)]
#[derive(Drop)]
pub struct Handle {
    pub(crate) at: *mut u8,
    pub(crate) alloc: Global,
    pub ghost value: { Option Content } by { content_coded },
}

impl Model for Handle {
    ghost also_owns = { λ h. held h.alloc h.at h.value };
}

// It may go from thread to thread, since a box of its content may.
unsafe impl Send for Handle {}
