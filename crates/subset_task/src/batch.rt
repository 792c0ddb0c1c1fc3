//! Many requests in one run, a line each (`--batch`).

pub mod answers;
pub mod orders;
pub mod requests;
