//! A box with its fields in sight.
ghost use Rattle.std.specs.Prelude.{◌≡◌};
ghost use Rattle.std.specs.Box.Ownership.{box_owns};

use std::alloc::Allocator;
use std::marker::Model;

/// The pointer and the allocator of a box, which own what the box owned.
pub struct Parts<T, A: Allocator> {
    pub(crate) ptr: *mut T,
    pub(crate) alloc: A,
    pub ghost value: { T },
}

impl<T, A: Allocator> Model for Parts<T, A> {
    ghost also_owns = { λ p. box_owns (A.dealloc_token p.alloc) T.row p.ptr p.value };
}

impl<T, A: Allocator> Parts<T, A> {
    /// Those of a box.
    pub(crate) fn of(whole: Box<T, A>) -> Parts<T, A>
    where
        T: Drop,
        ensures value { result.value ≡ whole.value }
    {
        let (ptr, alloc) = Box::into_raw_with_allocator(whole);
        Parts { ptr, alloc }
    }

    /// The box again.
    pub(crate) fn into_box(self) -> Box<T, A>
        ensures value { result.value ≡ self.value }
    {
        let Parts { ptr, alloc } = self;
        unsafe { Box::from_raw(alloc, ptr) }
    }
}
