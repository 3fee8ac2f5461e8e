//! Structures that transactions change together with cells: a queue, a map, an ordered map, an ordered set and a pool of cells
//! in the cells of a memory. Whoever uses them states no law and proves nothing.
#![tactic(auto)]

mod between;
mod cells;
mod law;
mod listing;
mod looks;
mod map;
mod order;
mod ordered;
mod pool;
mod queue;
mod set;
mod tips;
mod updating;
mod walks;

pub use law::{height_is_within_bits, map_has_room, ordered_map_has_room, set_has_room};
pub use map::{HashMap, Placed};
pub use ordered::OrderedMap;
pub use pool::Pool;
pub use queue::Queue;
pub use set::{Inserted, OrderedSet};
