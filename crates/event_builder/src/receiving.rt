//! One receive on one input of a builder.

ghost use Rattle.std.specs.Prelude.{◌≡◌, ◌<◌, length, Some};
ghost use Rattle.event_builder.specs.Inputs.{ReceivesInput, PortStep, OneStep, drains as drains_at, is_of_run, stop_behind};

use crate::inputs::{BuilderInput, InputRequest, InputStop, Inputs, Ports};
use buffer_core::{BufferPort, Received};
use std::sync::Wait;

/// Whether this reply says that nothing is left of so many events.
fn drains(accepted: u64, reply: Received) -> bool
    ensures { result ≡ drains_at accepted reply }
{
    match reply {
        Received::Got { place, .. } => accepted <= place,
        Received::Empty { .. } => true,
        Received::NoClient | Received::SmallBuf { .. } => false,
    }
}

/// How far the run is read behind a receive with this reply.
fn stop_after(stop: InputStop, reply: Received) -> InputStop
    ensures { result ≡ stop_behind stop reply }
{
    match stop {
        InputStop::Open => InputStop::Open,
        InputStop::Stopped { accepted } if drains(accepted, reply) => InputStop::Drained,
        InputStop::Stopped { accepted } => InputStop::Stopped { accepted },
        InputStop::Drained => InputStop::Drained,
    }
}

/// Whether this reply gave an event of the run with this start number.
pub fn is_own(start: u32, reply: Received) -> bool
    ensures { result ≡ is_of_run start reply }
{
    match reply {
        Received::Got { start: sent, .. } => start == sent,
        _ => false,
    }
}

/// Receives once by this request, and holds what it gets, where that is of the run with this start number.
fn receive_input<R: Wait, P: BufferPort>(
    rt: &R,
    input: &mut BuilderInput,
    port: &mut P,
    request: InputRequest,
    start: u32,
) -> Received
    ensures { PortStep P.access (ReceivesInput start request result) input.old port.old input.new port.new }
{
    let reply = port.receive(rt, request.client, &mut input.event);
    input.held = is_own(start, reply);
    input.stop = stop_after(input.stop, reply);
    reply
}

/// Receives once on the input of this number by this request.
pub fn receive_at<R: Wait, P: BufferPort>(
    rt: &R,
    inputs: &mut Inputs,
    ports: &mut Ports<P>,
    number: usize,
    request: InputRequest,
    start: u32,
) -> Received
    requires input { number < length inputs.old }
    requires port { number < length ports.old }
    ensures reads { OneStep P.access (ReceivesInput start request result) number
        inputs.old ports.old inputs.new ports.new }
    ensures many { length ports.new ≡ length ports.old }
{
    let Some(input) = inputs.get_mut(number) else {
        unreachable!()
    };
    let Some(port) = ports.get_mut(number) else {
        unreachable!()
    };
    receive_input(rt, input, port, request, start)
}
