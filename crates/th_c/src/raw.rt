//! Handles, made and taken apart. Only here is their pointer touched.
ghost use Rattle.std.specs.Prelude.{◌≡◌, Some, None};
ghost use Rattle.std.specs.Option.{option_map};

use crate::content::Content;
use crate::handle::Handle;
use crate::parts::Parts;
use std::alloc::Global;
use std::mem;
use std::ptr::null_mut;

// A handle that stands for nothing.
fn nothing(alloc: Global) -> Handle
    ensures { result.value ≡ None }
{
    Handle {
        at: null_mut(),
        alloc,
    }
}

// A handle of this content.
fn sealed(parts: Parts<Content, Global>) -> Handle
    ensures { result.value ≡ Some parts.value }
{
    let Parts { at, alloc } = parts;
    Handle {
        at: at as *mut u8,
        alloc,
    }
}

// The content of a handle.
fn unsealed(handle: Handle) -> Option<Parts<Content, Global>>
    ensures { option_map (λ p. p.value) result ≡ handle.value }
{
    let Handle { at, alloc } = handle;
    if at.is_null() {
        None
    } else {
        Some(Parts {
            at: at as *mut Content,
            alloc,
        })
    }
}

/// Takes the content out of a handle, which then stands for nothing.
#[inline(always)]
pub(crate) fn take(alloc: Global, handle: &mut Handle) -> Option<Box<Content>>
    ensures content { option_map (λ b. b.value) result ≡ handle.old.value }
    ensures nothing { handle.new.value ≡ None }
{
    match unsealed(mem::replace(handle, nothing(alloc))) {
        Some(parts) => Some(parts.into_box()),
        None => None,
    }
}

/// Puts content into a handle, which stood for nothing.
#[inline(always)]
pub(crate) fn put(handle: &mut Handle, content: Box<Content>)
    requires { handle.old.value ≡ None }
    ensures { handle.new.value ≡ Some content.value }
{
    *handle = sealed(Parts::of(content));
}
