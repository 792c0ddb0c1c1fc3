//! A file that is made by its first write, and bears its name when it is whole.
//!
//! [`LateFile`] is a writer. Its first write makes a file under another name beside its own, and `flush` renames that.
//! Where none can be made it writes in place, but for want of room, which is an error. Of several under one name the last that is
//! flushed has it. Files have no contract, so what it does
//! to them is tested and not proved.
//!
//! ```text
//! let mut out = LateFile::new(rt, alloc, "subset.ttf");
//! out.write_all(&font)?;
//! out.flush()?;
//! ```
#![tactic(auto)]

mod late;
mod temporary;

pub use late::LateFile;
