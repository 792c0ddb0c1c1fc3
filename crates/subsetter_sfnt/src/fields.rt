//! Fields of tables, each read here alone. A table that is an `Option` may be missing; a field that is cut isn't there.

pub mod head;
pub mod hhea;
pub mod hmtx;
pub mod loca;
pub mod maxp;
pub mod name;
pub mod os2;
pub mod post;
