ghost use Rattle.std.specs.Prelude.{◌≡◌, ◌++◌, ◌∷◌, [], length};
ghost use Rattle.event.specs.Headers.{event_of};
ghost use Rattle.mid_format.specs.AtHand.{MayTake};

use event::Header;

/// Takes in events, one after the other, without keeping their data.
pub trait EventTaker {
    ghost use Rattle.std.specs.Prelude.{List};
    ghost use Rattle.daq_types.specs.declared.events.Event.{Event};

    /// Which events it may have taken.
    ghost has_taken: { Self → List Event → Type 0 };

    /// Takes in the event with this header and this data. Takes no memory.
    fn take(&mut self, header: &Header, body: &[u8])
        requires stated { header.now.data_size ≡ length body.now }
        requires room { MayTake (has_taken self.old) (event_of header.now body.now) }
        ensures { (events : List Event) → has_taken self.old events
            → has_taken self.new (events ++ event_of header.now body.now ∷ []) };
}
