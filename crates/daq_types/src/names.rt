ghost use Rattle.std.specs.Prelude.{◌≡◌, ◌<◌, ◌↔◌, IfOk, IfErr, IsTrue};
ghost use Rattle.daq_types.specs.Names.{IsName, IsSameName, breaks_name};
ghost use Rattle.daq_types.specs.NameFaults.{IsNameFault};

use crate::padding::padded;
use std::marker::Model;

/// The longest name of a client or a key, in bytes.
pub const NAME_BYTES: usize = 31;

/// A name of a client or of a key of the online database: 1 to 31 bytes of printable ASCII without `/`, `[`, `]`,
/// `"` and `=`, with no blank at either end and no `;` in front.
#[derive(Clone, Copy, Debug)]
pub struct Name {
    bytes: [u8; 31],
    len: usize,
}

/// Why a text is no name.
#[derive(Clone, Copy, Debug, PartialEq, Eq)]
pub enum NameRefusal {
    /// The text is empty.
    EmptyName,
    /// The text has more than 31 bytes.
    LongName,
    /// A byte breaks the rule; `at` is the least place of such a byte in the text.
    BadByte { at: u32 },
}

impl Model for Name {
    ghost use Rattle.std.specs.Prelude.{List, ℕ, take};

    ghost Value = { List ℕ };

    ghost use Rattle.daq_types.specs.NameBack.{IsStoredName, stored_name, stored_name_back};

    ghost view = { λ n. take n.len n.bytes };

    ghost invariant = { IsStoredName };

    ghost inverse = { stored_name };

    ghost inverse_ok = { stored_name_back };
}

/// Whether this byte, at this place of a name of this many bytes, breaks the rule.
fn breaks(size: usize, place: usize, byte: u8) -> bool
    requires { place < size }
    ensures { result ≡ breaks_name size place byte }
{
    let outside = byte < 32 || 126 < byte || matches!(byte, b'/' | b'[' | b']' | b'"' | b'=');
    let first = place == 0;
    outside || byte == b' ' && (first || place + 1 == size) || byte == b';' && first
}

impl Name {
    /// The name with this text, exactly where the text is a name; else the first refusal in the order of
    /// `NameRefusal`.
    pub fn new(text: &[u8]) -> Result<Name, NameRefusal>
        ensures name { IfOk result (λ name. name ≡ text.now) }
        ensures is_name { IfOk result (λ _. IsName text.now) }
        ensures refused { IfErr result (IsNameFault text.now) }
    {
        if text.is_empty() {
            return Err(NameRefusal::EmptyName);
        }
        if text.len() > NAME_BYTES {
            return Err(NameRefusal::LongName);
        }
        for (place, byte) in text.iter().enumerate() {
            if breaks(text.len(), place, *byte) {
                return Err(NameRefusal::BadByte { at: place as u32 });
            }
        }
        Ok(Name {
            bytes: padded(text),
            len: text.len(),
        })
    }

    /// The bytes of the name.
    pub fn as_slice(&self) -> &[u8]
        ensures bytes { result.now ≡ self.now }
        ensures is_name { IsName self.now }
    {
        &self.bytes[..self.len]
    }

    /// Whether the names agree but for the case of their letters. Clients, keys, buffers and members of a session with
    /// such names are the same.
    pub fn same_as(&self, other: &Name) -> bool
        ensures { IsTrue result ↔ IsSameName self.now other.now }
    {
        self.as_slice().eq_ignore_ascii_case(other.as_slice())
    }
}
