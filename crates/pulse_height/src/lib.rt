//! An example of an equipment of one's own: a detector that gives pulse heights, from a table. The trait asks that event k
//! is known from the equipment, the order and k, so values that are only known once they are read do not meet it. A
//! front-end with it takes part in runs and sends its events, and what is proved of every front-end holds of it.
#![tactic(auto)]

use daq_types::Order;
use event::{EventBuf, Header};
use front_ends::Equipment;

/// How many heights the table has.
const HEIGHTS: u32 = 8;

/// The bytes of a height.
const HEIGHT_BYTES: u32 = 2;

/// A detector that gives the pulse heights of a table in turn, one an event.
#[derive(Drop)]
pub struct PulseHeight {
    /// The id of its events, 1 to 32,767.
    pub id: u16,
    /// The heights, in channels of the converter.
    pub heights: [u16; 8],
}

impl Equipment for PulseHeight {
    ghost use Rattle.std.specs.Prelude.{true, refl};
    ghost use Rattle.std.proofs.Common.{arith};
    ghost use Rattle.frontend_kit.proofs.FrontIds.{front_id_is_free};
    ghost use Rattle.front_ends.specs.FrontIds.{IsFrontId};
    ghost use Rattle.pulse_height.specs.Pulses.{pulse_event};

    // Its id is one that a front-end may have.
    ghost fit = { λ p. IsFrontId p.id };

    // It takes part in every run.
    ghost takes = { λ p order. true };

    ghost makes = { λ p order k. pulse_event p.id p.heights order.time k };

    fn check(&self, _order: &Order) -> bool {
        true
    }

    fn event(&mut self, order: &Order, k: u32, into: &mut EventBuf) {
        let header = Header {
            event_id: self.id,
            trigger_mask: 1,
            serial_number: k,
            time_stamp: order.time,
            data_size: HEIGHT_BYTES,
        };
        let height = self.heights[((k - 1) % HEIGHTS) as usize];
        let _ = into.fill(&header, &height.to_le_bytes());
    }

    ghost small = { λ p fit order k. Prim.omega arith };

    ghost free = { λ p fit order k. front_id_is_free p.id fit.most };
}

#[cfg(test)]
mod tests;
