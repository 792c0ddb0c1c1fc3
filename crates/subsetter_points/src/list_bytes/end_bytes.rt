//! The last points of contours, written.

ghost use Rattle.std.specs.Prelude.{◌≡◌, ◌++◌, OnOk, IfErr};
ghost use Rattle.subsetter_base.specs.declared.error.Error.TheVariants.{OutOfMemory};
ghost use Rattle.subsetter_points.specs.Simple.{end_bytes};

use subsetter_base::Error;

/// Writes the last points of contours as uint16.
pub fn write_ends(out: &mut Vec<u8>, ends: &[u16]) -> Result<(), Error>
    ensures ok { OnOk result (out.new.items ≡ out.old.items ++ end_bytes ends.now) }
    ensures err { IfErr result (λ e. e ≡ OutOfMemory) }
{
    for end in ends {
        out.extend_from_slice(&end.to_be_bytes())?;
    }
    Ok(())
}
