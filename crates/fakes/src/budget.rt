//! An allocator with a budget of allocations.
use std::alloc::{AllocError, Allocator};
use std::cell::Cell;

/// An allocator that passes on as many requests for a block as are left, and fails those after them.
///
/// Borrowed as `&budget`, it makes each allocation of a call fail in turn.
pub struct Budget<A: Allocator> {
    inner: A,
    left: Cell<u32>,
}

impl<A: Allocator> Budget<A> {
    /// A budget of this many blocks of `inner`.
    pub fn new(inner: A, growths: u32) -> Budget<A> {
        Budget {
            inner,
            left: Cell::new(growths),
        }
    }

    /// Passes on this many requests from now on, whatever was left.
    pub fn allow(&self, growths: u32) {
        self.left.set(growths);
    }
}

impl<A: Allocator> Drop for Budget<A> {
    fn drop(self) {
        let Self { inner: _, left: _ } = self;
    }
}

// Returns whether nothing is left, and otherwise takes one from it.
fn is_spent(left: &Cell<u32>) -> bool {
    match left.get().checked_sub(1) {
        Some(fewer) => {
            left.set(fewer);
            false
        }
        None => true,
    }
}

unsafe impl<A: Allocator> Allocator for Budget<A> {
    ghost dealloc_token = { λ budget ty ptr. A.dealloc_token budget.inner ty ptr };

    fn allocate(&self, size: usize, align: usize) -> Result<*mut u8, AllocError> {
        if is_spent(&self.left) {
            return Err(AllocError);
        }
        self.inner.allocate(size, align)
    }

    unsafe fn deallocate(&self, ptr: *mut u8, size: usize, align: usize) {
        self.inner.deallocate(ptr, size, align);
    }
}
