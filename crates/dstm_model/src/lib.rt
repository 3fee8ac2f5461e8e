//! What a transactional memory holds and what one thread would make of it: values, laws on maps,
//! layouts, operations with their replies, and the plain store that every run is measured against.
#![tactic(auto)]

mod answers;
mod job;
mod layout;
mod listed;
mod op;
mod reply;
mod state;
mod store;
mod value;

pub use answers::callers_tell_all;
pub use job::{Ops, Replies};
pub use layout::{
    AMOUNT_LIMIT, KEY_LIMIT, Layout, MAX_ACCOUNTS, MAX_LIST_NODES, MAX_OPENING, MAX_TREE_NODES,
};
pub use listed::{Few, Listed};
pub use op::{Cond, Op, Which};
pub use reply::Reply;
pub use state::{Item, Items, Numbers, State};
pub use store::{PlainStore, first_branch};
pub use value::{AnyLaw, Law, Val};
