ghost use Rattle.std.specs.Prelude.{◌≡◌, ◌≤◌, ◌-◌, length, take};
ghost use Rattle.daq_types.specs.Names.{IsPadded};

/// The text in an array, with zeros behind it.
pub fn padded<const N: usize>(text: &[u8]) -> [u8; N]
    requires { length text.now ≤ N }
    ensures padded { IsPadded N result (length text.now) }
    ensures text { take (length text.now) result ≡ text.now }
{
    let mut bytes = [0; N];
    for (place, byte) in text.iter().enumerate() {
        bytes[place] = *byte;
    }
    bytes
}
