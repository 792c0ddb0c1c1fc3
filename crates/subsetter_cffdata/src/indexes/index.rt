//! INDEX structures (Technical Note 5176, section 5 "INDEX Data").

pub use crate::indexes::index_iter::IndexIter;
pub use crate::indexes::index_size::IndexSize;
pub use crate::indexes::index_view::{Index, VarOffsets};
pub use crate::indexes::offset_size::OffsetSize;
pub use crate::indexes::reading_index::{parse_index, skip_index};
pub use crate::indexes::writing_index::{
    OwnedIndex, create_index, index_size, put_front, put_number, size_of_offset, write_index,
};
