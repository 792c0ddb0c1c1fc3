//! FDArray and FDSelect: font dicts with their private dicts (Technical Note 5176, sections 15, 16, 18 and 19).

pub(crate) mod fd_select;
pub(crate) mod font_dict;
pub(crate) mod font_dict_entries;
pub(crate) mod font_dict_list;
pub(crate) mod private;
pub(crate) mod ranges;
pub(crate) mod subr_offsets;
