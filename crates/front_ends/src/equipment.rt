ghost use Rattle.std.specs.Prelude.{◌≡◌, ◌≤◌};

use daq_types::Order;
use event::EventBuf;

/// What a front-end reads out: it makes the events of a run, one at a time.
pub trait Equipment: Drop {
    ghost use Rattle.std.specs.Prelude.{◌≡◌, ◌≤◌, ℕ, Bool, length, false};
    ghost use Rattle.event.specs.Events.{is_reserved};
    ghost use Rattle.daq_types.specs.declared.events.Event.{Event};
    ghost use Rattle.daq_types.specs.declared.runs.Order.{Order as RunOrder};
    ghost use Rattle.front_ends.specs.FrontIds.{event_room};

    // What an equipment has to be.
    ghost fit: { Self → Type 0 };

    // Whether it takes part in a run of this order.
    ghost takes: { Self → RunOrder → Bool };

    // The event of this number in a run of this order.
    ghost makes: { Self → RunOrder → (number : ℕ) → Event };

    /// Whether it takes part in a run of this order. A front-end refuses the start where it does not.
    fn check(&self, order: &Order) -> bool
        ensures { result ≡ takes self.now order.now };

    /// Puts event k of a run of this order into the room. The events of a run are numbered from 1. It has at most
    /// `EVENT_ROOM` bytes of data, and its id is not that of a run record or of a fragment.
    fn event(&mut self, order: &Order, k: u32, into: &mut EventBuf)
        requires fit { fit self.old }
        requires k { 1 ≤ k }
        requires room { event_room ≤ into.old.room }
        ensures event { into.new.event ≡ makes self.old order.now k }
        ensures room { into.new.room ≡ into.old.room }
        ensures fit { fit self.new }
        ensures takes { takes self.new ≡ takes self.old }
        ensures makes { makes self.new ≡ makes self.old };

    ghost small: { (e : Self) → fit e → (order : RunOrder) → (k : ℕ) →
        length (makes e order k).body ≤ event_room };

    ghost free: { (e : Self) → fit e → (order : RunOrder) → (k : ℕ) →
        is_reserved (makes e order k).id ≡ false };
}
