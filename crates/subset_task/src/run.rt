//! A run of the program.

pub mod request;
