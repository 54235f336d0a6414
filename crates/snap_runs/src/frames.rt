//! How the frames of hops are told.

ghost use Rattle.std.specs.Prelude.{◌≡◌, ◌++◌, OnOk};
ghost use Rattle.snap_runs.specs.Reports.{lead_of};

use snap_core::NoMemory;

/// How the frames of hops are told.
#[derive(Clone, Copy)]
pub enum Frames {
    /// As they are.
    Plain,
    /// Each behind the number of its packet, in 8 bytes.
    Numbered,
}

/// Puts what is told before the frames of the packet with this number, counted from 0.
pub(crate) fn put_lead(out: &mut Vec<u8>, frames: Frames, number: u64) -> Result<(), NoMemory>
    ensures { OnOk result (out.new.items ≡ out.old.items ++ lead_of frames number) }
{
    match frames {
        Frames::Plain => Ok(()),
        Frames::Numbered => {
            out.extend_from_slice(&number.to_be_bytes())?;
            Ok(())
        }
    }
}
