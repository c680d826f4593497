//! A box taken apart into its pointer and its allocator.
ghost use Rattle.std.specs.Prelude.{◌≡◌};
ghost use Rattle.std.specs.Box.Ownership.{box_owns};

use std::alloc::Allocator;
use std::marker::Model;

/// A box as its pointer and its allocator. It owns what the box owned.
pub struct Loose<T, A: Allocator> {
    pub ptr: *mut T,
    pub alloc: A,
    pub ghost value: { T },
}

impl<T, A: Allocator> Model for Loose<T, A> {
    ghost also_owns = { λ l. box_owns (A.dealloc_token l.alloc) T.row l.ptr l.value };
}

impl<T, A: Allocator> Loose<T, A> {
    /// Returns the pointer and the allocator of a box, which own what the box owned.
    pub fn of(value: Box<T, A>) -> Loose<T, A>
    where
        T: Drop,
        ensures { result.value ≡ value.value }
    {
        let (ptr, alloc) = Box::into_raw_with_allocator(value);
        Loose { ptr, alloc }
    }

    /// Returns the box whose pointer and allocator these are.
    pub fn into_box(self) -> Box<T, A>
        ensures { result.value ≡ self.value }
    {
        let Loose { ptr, alloc } = self;
        unsafe { Box::from_raw(alloc, ptr) }
    }
}
