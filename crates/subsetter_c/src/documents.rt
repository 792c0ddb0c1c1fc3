//! Fonts and files for PDF, handed to C.

pub(crate) mod codes;
pub(crate) mod parts;
pub(crate) mod pdf_calls;
pub(crate) mod pdf_files;
pub(crate) mod pdf_fonts;
pub(crate) mod pdf_options;
pub(crate) mod reading;
pub(crate) mod runs;
pub(crate) mod text_fonts;
pub(crate) mod text_kept;
pub(crate) mod texts;
pub(crate) mod whole;
