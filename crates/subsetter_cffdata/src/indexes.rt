//! INDEX structures (Technical Note 5176, section 5).

pub mod index;
pub(crate) mod index_iter;
pub(crate) mod index_size;
pub(crate) mod index_view;
pub(crate) mod offset_size;
pub(crate) mod reading_index;
pub(crate) mod writing_index;
