//! The products of a stream behind a pointer that C may keep.
ghost use Rattle.std.specs.Prelude.{◌≡◌, Option, Some, None, IsSome, IsTrue};
ghost use Rattle.std.specs.contracts.impls.GlobalAllocator.TheImpl.{ghosts};
ghost use Rattle.warn_codes_c.specs.Kept.{kept, is_known};
ghost use Rattle.warn_codes_c.specs.contracts.archive.Archive.{the_row};
ghost use Rattle.warn_codes_c.specs.declared.archive.Archive.{Archive as Products};

use crate::archive::Archive;
use crate::loose::Loose;
use std::alloc::Global;
use std::marker::Model;
use std::ptr::null_mut;

/// A pointer, without its type, to the products that it owns; or null, which owns nothing.
#[repr(C)]
#[derive(Drop)]
pub struct Handle {
    at: *mut (),
    alloc: Global,
    pub ghost value: { Option Products },
}

impl Model for Handle {
    ghost also_owns = { λ h. kept (ghosts.dealloc_token h.alloc) the_row h.at h.value };
}

impl Handle {
    /// Returns a handle that owns the archive whose box was taken apart into the pointer and the
    /// allocator in `loose`.
    pub fn of(loose: Loose<Archive, Global>) -> Handle
        ensures { result.value ≡ Some loose.value }
    {
        let Loose { ptr, alloc } = loose;
        Handle {
            at: ptr as *mut (),
            alloc,
        }
    }

    /// Returns the pointer and the allocator of the box of the archive that the handle owns; they
    /// own it from then on. The handle must own one.
    pub fn into_loose(self) -> Loose<Archive, Global>
        requires { IsSome self.value }
        ensures { Some result.value ≡ self.value }
    {
        let Handle { at, alloc } = self;
        Loose {
            ptr: at as *mut Archive,
            alloc,
        }
    }

    /// Returns a handle that owns nothing.
    pub fn closed(alloc: Global) -> Handle
        ensures { result.value ≡ None }
    {
        Handle {
            at: null_mut(),
            alloc,
        }
    }
}

/// A reader of a stream of products; zeros are a closed one. C changes it by calls alone, and does
/// not go on with a copy.
///
/// Source: docs/DECISIONS.md, "The library for C".
#[repr(C)]
#[derive(Drop)]
pub struct ReaderFields {
    pub handle: Handle,
    /// 1 if the reader is open.
    pub is_open: u32,
    ghost known: { IsTrue (is_known is_open handle.value) },
}

unsafe impl Send for Handle {}
