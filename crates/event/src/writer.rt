ghost use Rattle.std.specs.Prelude.{◌≡◌, length};

/// Writes an event's data into the room for it, and leads a state on by that.
pub trait DataWriter<S> {
    ghost use Rattle.std.specs.Prelude.{ℕ, List};

    ghost gives: { Self → List ℕ };

    ghost leads: { S → S → Type 0 };

    /// Writes the data over these bytes, which are as many.
    fn write(&self, into: &mut [u8], state: &mut S)
        requires { length into.old ≡ length (gives self.now) }
        ensures written { into.new ≡ gives self.now }
        ensures led { leads state.old state.new };
}
