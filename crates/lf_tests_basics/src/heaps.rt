//! Heaps that refuse allocations.

use linked_list_allocator::LocalHeap;
use std::alloc::{AllocError, Global};

/// Allocates all memory that is left in the heap. It is freed when the blocks are dropped. The list
/// of the blocks is not in the heap.
pub fn take_all(alloc: Global, heap: &LocalHeap) -> Result<Vec<Vec<u8, &LocalHeap>>, AllocError> {
    let mut blocks = Vec::with_capacity(alloc, 32)?;
    for size in [2048usize, 1024, 512, 256, 128, 64, 32, 16] {
        for _ in 0..4 {
            if let Ok(block) = Vec::with_capacity(heap, size) {
                blocks.push(block)?;
            }
        }
    }
    Ok(blocks)
}
