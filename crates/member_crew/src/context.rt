use crate::activity::Activity;
use crate::return_flag::ReturnFlag;

/// What members go by in their turns, beside their own: the gate that they pass, what they see of one another's work, and which
/// of them is to come back from its thread at once.
#[derive(Drop)]
pub(crate) struct TurnContext<'a, G> {
    pub(crate) gate: &'a G,
    pub(crate) activity: Activity,
    pub(crate) return_flag: ReturnFlag,
}

impl<'a, G> TurnContext<'a, G> {
    /// Members that pass this gate, none of which worked yet or is to come back.
    pub(crate) fn new(gate: &'a G) -> TurnContext<'a, G> {
        TurnContext {
            gate,
            activity: Activity::new(),
            return_flag: ReturnFlag::new(),
        }
    }
}
