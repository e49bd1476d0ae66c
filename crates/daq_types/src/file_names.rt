ghost use Rattle.std.specs.Prelude.{◌≡◌, ◌↔◌, IsOk, IfOk};
ghost use Rattle.daq_types.specs.Names.{IsFileName, is_compressed};

use crate::padding::padded;
use std::marker::Model;

/// The longest name of a file, in bytes.
pub const FILE_NAME_BYTES: usize = 255;

/// A name of a file: 1 to 255 bytes from 0x21 to 0x7E. Names are compared byte by byte.
#[derive(Clone, Copy, Debug, PartialEq, Eq)]
pub struct FileName {
    bytes: [u8; 255],
    len: usize,
}

/// The text is not the name of a file.
#[derive(Clone, Copy, Debug, PartialEq, Eq)]
pub struct BadFileName;

impl Model for FileName {
    ghost use Rattle.std.specs.Prelude.{List, ℕ, take};

    ghost Value = { List ℕ };

    ghost use Rattle.daq_types.specs.FileNameBack.{IsStoredFileName, stored_file_name, stored_file_name_back};

    ghost view = { λ n. take n.len n.bytes };

    ghost invariant = { IsStoredFileName };

    ghost inverse = { stored_file_name };

    ghost inverse_ok = { stored_file_name_back };
}

impl FileName {
    /// The name with this text, exactly where the text is a name of a file.
    pub fn new(text: &str) -> Result<FileName, BadFileName>
        ensures exact { IsOk result ↔ IsFileName text.now }
        ensures text { IfOk result (λ name. name ≡ text.now) }
    {
        FileName::from_bytes(text.as_bytes())
    }

    /// The name with these bytes, exactly where they are a name of a file.
    pub fn from_bytes(bytes: &[u8]) -> Result<FileName, BadFileName>
        ensures exact { IsOk result ↔ IsFileName bytes.now }
        ensures bytes { IfOk result (λ name. name ≡ bytes.now) }
    {
        if bytes.is_empty()
            || bytes.len() > FILE_NAME_BYTES
            || !bytes.iter().all(|b| 33 <= *b && *b <= 126)
        {
            return Err(BadFileName);
        }
        Ok(FileName {
            bytes: padded(bytes),
            len: bytes.len(),
        })
    }

    /// The bytes of the name.
    pub fn as_slice(&self) -> &[u8]
        ensures bytes { result.now ≡ self.now }
        ensures is_name { IsFileName self.now }
    {
        &self.bytes[..self.len]
    }

    /// Whether the name ends as those of compressed files do: `.lz4`, `.gz` or `.bz2`.
    pub fn compressed(&self) -> bool
        ensures { result ≡ is_compressed self.now }
    {
        let name = self.as_slice();
        name.ends_with(b".lz4") || name.ends_with(b".gz") || name.ends_with(b".bz2")
    }
}
