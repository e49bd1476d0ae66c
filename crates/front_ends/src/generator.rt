use crate::equipment::Equipment;
use daq_types::Order;
use event::EventBuf;
use frontend_kit::Generator;

impl Equipment for Generator {
    ghost use Rattle.std.specs.Prelude.{nat_le};
    ghost use Rattle.event.specs.Generator.{generated_event};
    ghost use Rattle.event.proofs.GeneratorLaws.{generated_body_is_small};
    ghost use Rattle.frontend_kit.proofs.FrontIds.{front_id_is_free};
    ghost use Rattle.front_ends.specs.FrontIds.{IsFrontId};

    // Its id is one that a front-end may have.
    ghost fit = { λ g. IsFrontId g.id };

    ghost takes = { λ g order. nat_le order.quota g.limit };

    ghost makes = { λ g order k. generated_event order g.id g.mask k };

    fn check(&self, order: &Order) -> bool {
        Generator::check(self, order)
    }

    fn event(&mut self, order: &Order, k: u32, into: &mut EventBuf) {
        Generator::event(self, order, k, into);
    }

    ghost small = { λ g fit order k. generated_body_is_small g.id order.start k };

    ghost free = { λ g fit order k. front_id_is_free g.id fit.most };
}
