ghost use Rattle.std.specs.Prelude.{◌≡◌, ◌≤◌, List, ℕ, [], ◌∷◌, length, take, nat_eq};
ghost use Rattle.std.proofs.Common.{ap};
ghost use Rattle.std.specs.Cmp.{partial_equiv_from_equiv};
ghost use Rattle.std.specs.Cmp.Lexicographic.{pointwise, bytes_decides, nat_list_eq_equiv};
ghost use Rattle.std.specs.Int.{w64, from_le_bytes};
ghost use Rattle.odb_arena.specs.Names.{folded};

use daq_types::Name;
use std::hash::{Hash, Hasher};
use std::marker::Model;

/// The bytes of the longest name and one more, which make four words of a processor.
const WIDTH: usize = 32;

/// A name without the case of its letters, by which it is looked up: its bytes in lower case, and zeros behind them. They
/// are hashed in one step, and compared in words.
#[derive(Clone, Copy)]
pub struct Folded {
    bytes: [u8; WIDTH],
}

impl Model for Folded {
    ghost use Rattle.std.specs.Prelude.{List, ℕ};

    ghost Value = { List ℕ };

    ghost view = { λ f. f.bytes };

    ghost inverse = { λ bytes. record { bytes = bytes } };
}

impl Folded {
    /// The name without the case of its letters. Takes no memory.
    pub fn of(name: &Name) -> Folded
        ensures { result ≡ folded name.now }
    {
        let name = name.as_slice();
        let mut bytes = [0; WIDTH];
        for i in 0..name.len() {
            bytes[i] = name[i].to_ascii_lowercase();
        }
        Folded { bytes }
    }
}

/// The first eight of these bytes as one number.
fn word(bytes: &[u8]) -> u64
    requires { 8 ≤ length bytes.now }
    ensures { result ≡ from_le_bytes w64 (take 8 bytes.now) }
{
    u64::from_le_bytes([
        bytes[0], bytes[1], bytes[2], bytes[3], bytes[4], bytes[5], bytes[6], bytes[7],
    ])
}

/// Whether the bytes, 32 on each side, are the same.
fn same_bytes(own: &[u8], others: &[u8]) -> bool
    requires own { length own.now ≡ 32 }
    requires others { length others.now ≡ 32 }
    ensures { result ≡ pointwise nat_eq own.now others.now }
{
    (word(own) == word(others))
        & (word(&own[8..]) == word(&others[8..]))
        & (word(&own[16..]) == word(&others[16..]))
        & (word(&own[24..]) == word(&others[24..]))
}

impl PartialEq for Folded {
    ghost eq = { pointwise nat_eq };

    ghost laws = { partial_equiv_from_equiv nat_list_eq_equiv };

    fn eq(&self, other: &Folded) -> bool {
        same_bytes(&self.bytes, &other.bytes)
    }
}

impl Eq for Folded {
    ghost laws = { nat_list_eq_equiv };
}

impl Hash for Folded {
    ghost hash_input = { λ bytes. bytes ∷ [] };

    ghost respects_eq = { λ x y same. ap (λ (bytes : List ℕ). bytes ∷ []) ((bytes_decides x y).0 same) };

    fn hash<H: Hasher>(&self, state: &mut H) {
        state.write(&self.bytes);
    }
}
