//! The set of keys as a linked list on a region of a memory, such as that of a layout's list: a head with the
//! number of the first node, nodes with a key and the number of the next, in rising order of the keys, and a chain
//! of the nodes that are free.
#![tactic(auto)]

mod edit;
mod layout;
mod node;
mod object;
mod region;
mod walk;

pub use edit::{insert_at, member_at, remove_at};
pub use layout::{insert, member, node_object, remove};
pub use node::Node;
pub use object::node_object_in;
pub use region::{insert_in, member_in, remove_in};
pub use walk::{Place, find, place_before};
