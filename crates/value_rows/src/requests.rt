//! Requests, and the events that they match.
use event::matches;

/// An event id or a trigger mask in a request that every event matches.
const ANY: u16 = 0xFFFF;

/// The id and the mask of a request, those of an event, and whether they match.
const ROWS: &[(u16, u16, u16, u16, bool)] = &[
    (ANY, ANY, 1, 0, true),
    (1, ANY, 1, 0, true),
    (2, ANY, 1, 0, false),
    (ANY, 1, 1, 2, false),
    (ANY, 3, 1, 2, true),
    (ANY, 0, 1, ANY, false),
];

#[test]
fn matches_by_the_rule(rt: HostRuntime) {
    for (id, mask, event_id, event_mask, matched) in ROWS {
        let is_right = matches(*id, *mask, *event_id, *event_mask) == *matched;
        assert!(rt; is_right, "{id} {mask} {event_id} {event_mask}");
    }
}
