//! The header of `fvar` (OpenType, "fvar").

ghost use Rattle.std.specs.Prelude.{◌≡◌};
ghost use Rattle.subsetter_base.specs.Bytes.{number};

use subsetter_base::read::Reader;

/// axesArrayOffset, two bytes.
const AXES_ARRAY_OFFSET: usize = 4;
/// axisCount, two bytes.
const AXIS_COUNT: usize = 8;
/// axisSize, two bytes.
const AXIS_SIZE: usize = 10;
/// instanceCount, two bytes.
const INSTANCE_COUNT: usize = 12;
/// instanceSize, two bytes.
const INSTANCE_SIZE: usize = 14;

/// axesArrayOffset: where the records of axes begin.
pub fn axes_array_offset(fvar: &[u8]) -> Option<u16>
    ensures { result ≡ number fvar.now 4 2 }
{
    Reader::new_at(fvar, AXES_ARRAY_OFFSET).read::<u16>()
}

/// axisCount.
pub fn axis_count(fvar: &[u8]) -> Option<u16>
    ensures { result ≡ number fvar.now 8 2 }
{
    Reader::new_at(fvar, AXIS_COUNT).read::<u16>()
}

/// axisSize: how many bytes the record of an axis has.
pub fn axis_size(fvar: &[u8]) -> Option<u16>
    ensures { result ≡ number fvar.now 10 2 }
{
    Reader::new_at(fvar, AXIS_SIZE).read::<u16>()
}

/// instanceCount. The records of instances are after those of axes.
pub fn instance_count(fvar: &[u8]) -> Option<u16>
    ensures { result ≡ number fvar.now 12 2 }
{
    Reader::new_at(fvar, INSTANCE_COUNT).read::<u16>()
}

/// instanceSize: how many bytes the record of an instance has.
pub fn instance_size(fvar: &[u8]) -> Option<u16>
    ensures { result ≡ number fvar.now 14 2 }
{
    Reader::new_at(fvar, INSTANCE_SIZE).read::<u16>()
}
