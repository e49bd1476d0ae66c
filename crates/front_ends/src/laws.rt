//! Laws of what a front-end keeps: each function does nothing, and its contract is the law.

ghost use Rattle.std.specs.Prelude.{◌≡◌};
ghost use Rattle.frontend_kit.specs.declared.generator.TheConstants.{EVENT_ROOM};
ghost use Rattle.front_ends.specs.FrontIds.{event_room};
ghost use Rattle.front_ends.specs.FrontKept.{SentAtPauses};

/// By its answer to a pause a front-end had sent in the run just what it had sent when it answered its next turn.
pub fn sent_at_pauses()
    ensures { SentAtPauses }
{}

/// The constant `EVENT_ROOM` is the most bytes of data that an event of a front-end has.
pub fn most_data()
    ensures { EVENT_ROOM ≡ event_room }
{}
