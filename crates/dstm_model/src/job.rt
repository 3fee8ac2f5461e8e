use crate::listed::Few;
use crate::op::Op;
use crate::reply::Reply;

/// The operations of a job, at most 8, in order.
pub type Ops = Few<Op>;

/// The replies of a job, at most 8, in the order of its operations.
pub type Replies = Few<Reply>;
