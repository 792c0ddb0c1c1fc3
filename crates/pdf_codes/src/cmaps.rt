//! The CMaps of codes: the texts that they have, and the CIDs that they lead to.

pub(crate) mod leading;
pub(crate) mod texts;
