ghost use Rattle.std.specs.Prelude.{◌≡◌, IfOk};
ghost use Rattle.std.proofs.Common.{rules};

use crate::memory::Memory;
use std::alloc::{AllocError, Global};

/// Data that can be copied.
///
/// Every type that only holds data has it: derive `Clone`, and write `impl Copied` with the law, which
/// `Prim.search rules` proves for a derived clone.
pub trait Copied: Clone {
    /// A copy, which equals what it copies.
    final fn copy(&self) -> Result<Self, Memory>
        ensures { IfOk result (λ it. it ≡ self.now) }
    {
        Ok(self.clone()?)
    }

    /// Copies of all elements in their order, which equal them by the law. Plain numbers are copied as one
    /// block.
    fn copy_all(alloc: Global, items: &[Self]) -> Result<Vec<Self>, AllocError>
        ensures { IfOk result (λ copies. ((x y : Self) → Self.is_clone x y → y ≡ x) → copies.items ≡ items.now) }
    {
        Vec::from_clones(alloc, items)
    }

    ghost same: { (x y : Self) → Self.is_clone x y → y ≡ x };
}

impl Copied for u8 {
    ghost same = { Prim.search rules };

    fn copy_all(alloc: Global, items: &[u8]) -> Result<Vec<u8>, AllocError> {
        Vec::from_slice(alloc, items)
    }
}

impl Copied for u16 {
    ghost same = { Prim.search rules };

    fn copy_all(alloc: Global, items: &[u16]) -> Result<Vec<u16>, AllocError> {
        Vec::from_slice(alloc, items)
    }
}

impl Copied for u32 {
    ghost same = { Prim.search rules };

    fn copy_all(alloc: Global, items: &[u32]) -> Result<Vec<u32>, AllocError> {
        Vec::from_slice(alloc, items)
    }
}

impl Copied for u64 {
    ghost same = { Prim.search rules };

    fn copy_all(alloc: Global, items: &[u64]) -> Result<Vec<u64>, AllocError> {
        Vec::from_slice(alloc, items)
    }
}

impl Copied for u128 {
    ghost same = { Prim.search rules };

    fn copy_all(alloc: Global, items: &[u128]) -> Result<Vec<u128>, AllocError> {
        Vec::from_slice(alloc, items)
    }
}

impl Copied for bool {
    ghost same = { Prim.search rules };

    fn copy_all(alloc: Global, items: &[bool]) -> Result<Vec<bool>, AllocError> {
        Vec::from_slice(alloc, items)
    }
}

impl<A: Copied, B: Copied> Copied for (A, B) {
    ghost same = { Prim.search rules };
}

impl<T: Copied> Copied for Option<T> {
    ghost same = { Prim.search rules };
}
