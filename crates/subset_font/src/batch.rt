//! Many requests in one run, a line each (`--batch`).

pub(crate) mod making;
pub(crate) mod running;
