//! The tables that fonts with either kind of outlines have.

pub(crate) mod head;
pub(crate) mod hmtx;
pub(crate) mod maxp;
pub(crate) mod name;
pub(crate) mod post;
pub(crate) mod shared;
