//! A map from keys to values as a red-black tree, on a region of a memory, such as the one of a layout's tree.
#![tactic(auto)]

mod balance;
mod cells;
mod find;
mod law;
mod layout;
mod node;
mod place;
mod removal;
mod side;

pub use cells::node_object_in;
pub use find::{get_in, member_in};
pub use law::height_is_logarithmic;
pub use layout::{get, insert, member, node_object, put, remove, root_object};
pub use node::Node;
pub use place::{insert_in, put_in};
pub use removal::remove_in;
