use console::LineLoop;

/// A script: how far it was read, its source, and the sink of its console text.
#[derive(Drop)]
pub struct Script<S, O> {
    pub line_loop: LineLoop,
    pub src: S,
    pub out: O,
}
