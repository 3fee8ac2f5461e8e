use std::alloc::Global;

// In bytes. glibc keeps up to twice as much freed memory as the largest block that it had mapped by itself and was
// given back, if that was no larger than 32 MiB.
const LEARNT: usize = 31 * 1024 * 1024;

/// Lets freed memory stay with the process, so that a crew takes the pages of the text that was read, and a round's table
/// those of the one before. The block that this takes and gives back is not touched; where it cannot be had, or the
/// allocator is another one, nothing changes.
pub(crate) fn keep_freed_memory(alloc: Global) {
    let _ = Vec::<u64>::with_capacity(alloc, LEARNT / 8);
}
