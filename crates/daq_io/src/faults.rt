use crate::folder::NameRefused;

/// A call on the outside failed. The object's count of faults rose in that call.
#[derive(Clone, Copy, Debug, PartialEq, Eq)]
pub struct Failed;

impl From<Failed> for NameRefused {
    ghost use Rattle.std.specs.Prelude.{◌≡◌};
    ghost use Rattle.daq_io.specs.declared.folder.NameRefused.TheVariants.{Failed as NameRefusedFailed};

    ghost from_gives = { λ _ refused. refused ≡ NameRefusedFailed };

    fn from(_failed: Failed) -> NameRefused {
        NameRefused::Failed
    }
}
