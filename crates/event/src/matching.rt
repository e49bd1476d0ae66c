ghost use Rattle.std.specs.Prelude.{◌≡◌};
ghost use Rattle.daq_types.specs.declared.events.Event.{Event};
ghost use Rattle.event.specs.Events.{matches as is_match};

/// An event id or a trigger mask in a request that every event matches.
pub const ANY: u16 = 0xFFFF;

/// Whether a request for this id and mask matches an event: the id is 0xFFFF or the event's, and the mask is 0xFFFF or
/// has a bit in common with the event's.
#[tactic(auto, unfolding(crate::specs::Events::matches))]
pub fn matches(id: u16, mask: u16, event_id: u16, event_mask: u16) -> bool
    ensures { (e : Event) → e.id ≡ event_id → e.mask ≡ event_mask → result ≡ is_match id mask e }
{
    (id == ANY || id == event_id) && (mask == ANY || mask & event_mask != 0)
}
