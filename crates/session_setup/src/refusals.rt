ghost use Rattle.std.specs.Prelude.{◌≡◌};
ghost use Rattle.session_setup.specs.Refusals.{first_setup_refusal, refused_if};

use daq_types::NameRefusal;

/// Why a line that declares something is refused. The order of the variants is no order of tests.
#[derive(Clone, Copy, Debug, PartialEq, Eq)]
pub enum SetupRefusal {
    /// The session was opened, by its first start.
    Opened,
    /// The text is no name.
    BadName(NameRefusal),
    /// A buffer of this name is there.
    Exists,
    /// The size is no multiple of 8, or not from 256 to 268,435,456.
    BadBufferSize,
    /// There would be more than so many: buffers, front-ends, analyzers, or bytes of all buffers together.
    TooMany { most: u32 },
    /// A member of this name is there.
    SameName,
    /// The id is not from 1 to 32,767.
    BadId,
    /// Another front-end's events have this id.
    SameId,
    /// No buffer has this name.
    NoBuffer,
    /// The channel's number is above 15.
    BadChannel,
    /// A channel of this number is there.
    SameChannel,
    /// The text is no pattern for names of run files.
    BadPattern,
    /// The names would be those of compressed files.
    Compressed,
}

/// The refusal, if the test holds.
pub(crate) fn refused_if(test: bool, refusal: SetupRefusal) -> Option<SetupRefusal>
    ensures { result ≡ refused_if test refusal }
{
    if test { Some(refusal) } else { None }
}

/// The first refusal of the list.
pub(crate) fn first_refusal(refusals: &[Option<SetupRefusal>]) -> Option<SetupRefusal>
    ensures { result ≡ first_setup_refusal refusals.now }
{
    for refusal in refusals {
        if refusal.is_some() {
            return *refusal;
        }
    }
    None
}
