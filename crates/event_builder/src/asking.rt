//! The requests of a builder's inputs: they are made at a start, and cancelled at its end; and a stop of the run.

ghost use Rattle.std.specs.Prelude.{◌≡◌, ◌≤◌, ◌<◌, codes, length, OnOk, OnErr, IfErr};
ghost use Rattle.event_builder.specs.Inputs.{GetsInputClient, AsksInput, RefusesInput, CancelsInput, StopsInput, StepsBelow, EachInput, PortStep, OneStep, InputsStep};
ghost use Rattle.event_builder.specs.BuilderTurns.{FirstRefused, RefusesSome};

use crate::inputs::{BuilderInput, InputRequest, InputStop, Inputs, Ports};
use buffer_core::BufferPort;
use daq_types::{Kind, Name};
use std::sync::Wait;

/// The buffer refused an input its client or its request.
#[derive(Clone, Copy)]
pub struct NotAsked;

/// The name under which builders attach their clients.
fn client_name() -> Name
    ensures { result ≡ codes "Builder" }
{
    match Name::new(b"Builder") {
        Ok(name) => name,
        Err(_) => unreachable!(),
    }
}

/// The client, or where there is none, one that is attached now, unless that is refused.
fn attached<R: Wait, P: BufferPort>(rt: &R, port: &mut P, client: Option<u32>) -> Option<u32>
    ensures { GetsInputClient client result (P.access port.old) (P.access port.new) }
{
    if client.is_some() {
        return client;
    }
    port.attach(rt, client_name()).ok()
}

/// Gets the input a client, if it has none, and makes its request.
fn ask_input<R: Wait, P: BufferPort>(
    rt: &R,
    input: &mut BuilderInput,
    port: &mut P,
) -> Result<(), NotAsked>
    ensures asks { OnOk result (PortStep P.access AsksInput input.old port.old input.new port.new) }
    ensures refuses { OnErr result (PortStep P.access RefusesInput input.old port.old input.new port.new) }
{
    input.client = attached(rt, port, input.client);
    let Some(client) = input.client else {
        return Err(NotAsked);
    };
    match port.request(rt, client, input.front, 65_535, Kind::All) {
        Ok(number) => {
            input.request = Some(InputRequest { client, number });
            input.stop = InputStop::Open;
            Ok(())
        }
        Err(_) => Err(NotAsked),
    }
}

/// Gets the input of this number a client, if it has none, and makes its request.
fn ask_at<R: Wait, P: BufferPort>(
    rt: &R,
    inputs: &mut Inputs,
    ports: &mut Ports<P>,
    number: usize,
) -> Result<(), NotAsked>
    requires input { number < length inputs.old }
    requires port { number < length ports.old }
    ensures asks { OnOk result (OneStep P.access AsksInput number
        inputs.old ports.old inputs.new ports.new) }
    ensures refuses { OnErr result (OneStep P.access RefusesInput number
        inputs.old ports.old inputs.new ports.new) }
    ensures many { length ports.new ≡ length ports.old }
{
    let Some(input) = inputs.get_mut(number) else {
        unreachable!()
    };
    let Some(port) = ports.get_mut(number) else {
        unreachable!()
    };
    ask_input(rt, input, port)
}

/// Cancels the request of the input, if it lives, and lets go of what it holds.
fn cancel_input<R: Wait, P: BufferPort>(rt: &R, input: &mut BuilderInput, port: &mut P)
    ensures { PortStep P.access CancelsInput input.old port.old input.new port.new }
{
    input.held = false;
    if let Some(request) = input.request.take() {
        let _ = port.cancel(rt, request.client, request.number);
    }
}

/// Cancels the request of the input of this number, if it lives, and lets go of what it holds.
fn cancel_at<R: Wait, P: BufferPort>(
    rt: &R,
    inputs: &mut Inputs,
    ports: &mut Ports<P>,
    number: usize,
)
    requires input { number < length inputs.old }
    requires port { number < length ports.old }
    ensures cancels { OneStep P.access CancelsInput number
        inputs.old ports.old inputs.new ports.new }
    ensures many { length ports.new ≡ length ports.old }
{
    let Some(input) = inputs.get_mut(number) else {
        unreachable!()
    };
    let Some(port) = ports.get_mut(number) else {
        unreachable!()
    };
    cancel_input(rt, input, port);
}

/// Cancels the requests of the first inputs, so many, and lets go of what they hold.
pub fn cancel_first<R: Wait, P: BufferPort>(
    rt: &R,
    inputs: &mut Inputs,
    ports: &mut Ports<P>,
    count: usize,
)
    requires ports { length ports.old ≡ length inputs.old }
    requires within { count ≤ length inputs.old }
    ensures { InputsStep P.access (StepsBelow CancelsInput count)
        inputs.old ports.old inputs.new ports.new }
{
    for number in 0..count {
        cancel_at(rt, inputs, ports, number);
    }
}

/// Makes the requests of all inputs, in order, up to the first that is refused; answers the number of that.
fn ask_first<R: Wait, P: BufferPort>(
    rt: &R,
    inputs: &mut Inputs,
    ports: &mut Ports<P>,
) -> Result<(), usize>
    requires ports { length ports.old ≡ length inputs.old }
    ensures asks { OnOk result (InputsStep P.access (EachInput AsksInput)
        inputs.old ports.old inputs.new ports.new) }
    ensures refuses { IfErr result (FirstRefused P.access inputs.old ports.old inputs.new ports.new) }
    ensures inputs_many { length inputs.new ≡ length inputs.old }
    ensures ports_many { length ports.new ≡ length ports.old }
{
    for number in 0..inputs.len() {
        match ask_at(rt, inputs, ports, number) {
            Ok(()) => {}
            Err(NotAsked) => return Err(number),
        }
    }
    Ok(())
}

/// Makes the requests of all inputs, in order. At the first that is refused, those before it are undone.
pub fn ask_all<R: Wait, P: BufferPort>(
    rt: &R,
    inputs: &mut Inputs,
    ports: &mut Ports<P>,
) -> Result<(), NotAsked>
    requires ports { length ports.old ≡ length inputs.old }
    ensures asks { OnOk result (InputsStep P.access (EachInput AsksInput)
        inputs.old ports.old inputs.new ports.new) }
    ensures refuses { OnErr result (InputsStep P.access RefusesSome
        inputs.old ports.old inputs.new ports.new) }
{
    match ask_first(rt, inputs, ports) {
        Ok(()) => Ok(()),
        Err(number) => {
            cancel_first(rt, inputs, ports, number);
            Err(NotAsked)
        }
    }
}

/// Stops the run for the input: it is to be read as far as its buffer has taken events.
fn stop_input<R: Wait, P: BufferPort>(rt: &R, input: &mut BuilderInput, port: &mut P)
    ensures { PortStep P.access StopsInput input.old port.old input.new port.new }
{
    if let InputStop::Open = input.stop {
        input.stop = InputStop::Stopped {
            accepted: port.accepted(rt),
        };
    }
}

/// Stops the run for the input of this number.
fn stop_at<R: Wait, P: BufferPort>(rt: &R, inputs: &mut Inputs, ports: &mut Ports<P>, number: usize)
    requires input { number < length inputs.old }
    requires port { number < length ports.old }
    ensures stops { OneStep P.access StopsInput number
        inputs.old ports.old inputs.new ports.new }
    ensures many { length ports.new ≡ length ports.old }
{
    let Some(input) = inputs.get_mut(number) else {
        unreachable!()
    };
    let Some(port) = ports.get_mut(number) else {
        unreachable!()
    };
    stop_input(rt, input, port);
}

/// Stops the run for all inputs.
pub fn stop_all<R: Wait, P: BufferPort>(rt: &R, inputs: &mut Inputs, ports: &mut Ports<P>)
    requires ports { length ports.old ≡ length inputs.old }
    ensures { InputsStep P.access (EachInput StopsInput)
        inputs.old ports.old inputs.new ports.new }
{
    for number in 0..inputs.len() {
        stop_at(rt, inputs, ports, number);
    }
}
