ghost use Rattle.std.specs.Prelude.{◌≡◌, ◌≤◌, ◌<◌, length, map, IfOk, None, Some};
ghost use Rattle.event.specs.Events.{event_limit, slot_of_length};
ghost use Rattle.daq_types.specs.declared.runs.Transition.TheVariants.{Stop};
ghost use Rattle.transitions.specs.declared.answers.Answer.TheVariants.{Yes};
ghost use Rattle.transitions.specs.declared.answers.Tally.TheVariants.{Plain};
ghost use Rattle.event_builder.specs.Inputs.{EachInput, InputsStep, CancelsInput, new_input as an_input};
ghost use Rattle.event_builder.specs.Builders.{built_answer, run_told, fault_in as the_fault_in, at_call, new_builder};
ghost use Rattle.event_builder.specs.BuilderTurns.{TurnsOver, StartsBuilder, StopsRun};
ghost use Rattle.event_builder.specs.BuilderPulls.{PullsOver, pull_answer};
ghost use Rattle.event_builder.specs.BuilderSends.{StepsOver};

use crate::answers::{BuildPull, BuildStep};
use crate::asking::{NotAsked, ask_all, stop_all};
use crate::build_run::{BuildFault, BuildRun, BuiltEnd, BuiltRun};
use crate::ending::{cancel_all, end_by, end_run, end_send};
use crate::faults::{are_held, fault_of};
use crate::front_ids::FrontIds;
use crate::inputs::{BuilderInput, InputStop, Inputs, Ports};
use crate::receiving::{is_own, receive_at};
use bank_format::{BankWriter, Format};
use buffer_core::{BufferPort, Received};
use daq_types::{NoMemory, Order, RunState, Transition, Why};
use event::{EventBuf, Header};
use member_model::{Answer, Tally};
use std::alloc::Global;
use std::marker::Model;
use std::sync::Wait;

/// What a builder builds.
#[derive(Drop)]
pub struct BuilderSpec {
    /// The id of the built events.
    pub id: u16,
    /// Their trigger mask.
    pub mask: u16,
    /// The ids of the front-ends' events, in order.
    pub fronts: FrontIds,
    /// How many bytes of data an event of a front-end may have.
    pub room: u32,
    /// How many a built event may have.
    pub limit: u32,
}

/// An event builder: it takes part in runs by its turns, reads the events of its front-ends, one a pull, and sends one event
/// with the banks of all, one a step. Only `new` takes memory.
#[derive(Drop)]
pub struct Builder {
    id: u16,
    mask: u16,
    limit: u32,
    inputs: Inputs,
    body: BankWriter,
    run: Option<BuildRun>,
}

impl Model for Builder {
    ghost use Rattle.event_builder.specs.Builders.{BuilderState as State};

    ghost Value = { State };

    ghost use Rattle.event_builder.specs.Builders.{IsBuilderReady};

    ghost view = { λ b. record {
      id = b.id;
      mask = b.mask;
      limit = b.limit;
      inputs = b.inputs;
      run = b.run;
    } };

    ghost invariant = { λ b. IsBuilderReady b.id b.limit b.inputs b.run b.body };
}

/// What a turn is answered that needs no more.
fn plain() -> Answer
    ensures { result ≡ Yes Plain }
{
    Answer::Yes(Tally::Plain)
}

/// An input that was never read.
fn new_input(alloc: Global, room: u32, front: u16) -> Result<BuilderInput, NoMemory>
    ensures { IfOk result (λ input. input ≡ an_input room front) }
{
    let event = EventBuf::new(alloc, room)?;
    Ok(BuilderInput {
        front,
        client: None,
        request: None,
        held: false,
        stop: InputStop::Open,
        event,
    })
}

/// An input for each front-end, with room for so many bytes of data.
fn new_inputs(alloc: Global, room: u32, fronts: &FrontIds, count: usize) -> Result<Inputs, NoMemory>
    requires all { count ≡ length fronts.now }
    requires few { count ≤ 8 }
    ensures { IfOk result (λ inputs. inputs ≡ map (an_input room) fronts.now) }
{
    let mut inputs = Inputs::new(alloc)?;
    for place in 0..count {
        let Some(front) = fronts.get(place) else {
            unreachable!()
        };
        inputs.push(new_input(alloc, room, front)?);
    }
    Ok(inputs)
}

/// The answer to a pull, by the start number of the run, the reply of the receive, and the fault.
fn answer_of(start: u32, reply: Received, fault: Option<BuildFault>) -> BuildPull
    ensures { result ≡ pull_answer start reply fault }
{
    if fault.is_some() {
        return BuildPull::Failed;
    }
    match reply {
        Received::Got { place, start: sent } if start == sent => BuildPull::Took { place },
        Received::Got { place, .. } => BuildPull::Dropped { place },
        _ => BuildPull::Nothing,
    }
}

/// The fault that came in this run, if one did.
fn fault_in(run: Option<BuildRun>) -> Option<BuildFault>
    ensures { result ≡ the_fault_in run }
{
    match run?.ended {
        Some(BuiltEnd::Fault(fault)) => Some(fault),
        _ => None,
    }
}

/// What is told of the run, once it was stopped and has ended.
fn told_of(run: Option<BuildRun>) -> Option<BuiltRun>
    ensures { result ≡ built_answer run }
{
    let run = run?;
    if !run.stopped {
        return None;
    }
    let ended = run.ended?;
    Some(BuiltRun {
        sent: u64::from(run.sent),
        ended,
    })
}

impl Builder {
    /// A builder in no run.
    pub fn new(alloc: Global, spec: BuilderSpec) -> Result<Builder, NoMemory>
        requires id_some { 0 < spec.id }
        requires id_free { spec.id < 32768 }
        requires least { 8 ≤ spec.limit }
        requires most { spec.limit ≤ event_limit }
        ensures made { IfOk result (λ builder. builder ≡ new_builder spec.id spec.mask spec.limit spec.room spec.fronts) }
    {
        let count = spec.fronts.len();
        let inputs = new_inputs(alloc, spec.room, &spec.fronts, count)?;
        let body = BankWriter::new(alloc, Format::Bank32A, spec.limit)?;
        Ok(Builder {
            id: spec.id,
            mask: spec.mask,
            limit: spec.limit,
            inputs,
            body,
            run: None,
        })
    }

    /// Takes a start turn.
    fn take_start<R: Wait, P: BufferPort>(
        &mut self,
        rt: &R,
        ports: &mut Ports<P>,
        start: u32,
    ) -> Answer
        requires ports { length ports.old ≡ length self.old.inputs }
        ensures same { self.new ≡ record self.old { inputs = self.new.inputs; run = self.new.run } }
        ensures asks { StartsBuilder start (at_call P.access self.old ports.old)
            (at_call P.access self.new ports.new) result }
    {
        cancel_all(rt, &mut self.inputs, ports);
        match ask_all(rt, &mut self.inputs, ports) {
            Ok(()) => {
                self.run = Some(BuildRun {
                    start,
                    sent: 0,
                    stopped: false,
                    ended: None,
                });
                plain()
            }
            Err(NotAsked) => {
                self.run = None;
                Answer::No(Why::BufferRefused)
            }
        }
    }

    /// Stops this run, which is that of the builder.
    fn stop_run<R: Wait, P: BufferPort>(
        &mut self,
        rt: &R,
        ports: &mut Ports<P>,
        run: BuildRun,
        from: RunState,
    )
        requires ports { length ports.old ≡ length self.old.inputs }
        requires run { self.old.run ≡ Some run }
        ensures same { self.new ≡ record self.old { inputs = self.new.inputs; run = self.new.run } }
        ensures stop { StopsRun run.ended from run (at_call P.access self.old ports.old)
            (at_call P.access self.new ports.new) }
    {
        let stopped = BuildRun {
            stopped: true,
            ..run
        };
        self.run = Some(stopped);
        if run.ended.is_some() {
            return;
        }
        match from {
            RunState::Paused => {
                let ended = end_run(rt, &mut self.inputs, ports, stopped, BuiltEnd::Paused);
                self.run = Some(ended);
            }
            RunState::Stopped | RunState::Running => stop_all(rt, &mut self.inputs, ports),
        }
    }

    /// Takes a stop turn.
    fn take_stop<R: Wait, P: BufferPort>(
        &mut self,
        rt: &R,
        ports: &mut Ports<P>,
        order: &Order,
    ) -> Option<Answer>
        requires ports { length ports.old ≡ length self.old.inputs }
        ensures same { self.new ≡ record self.old { inputs = self.new.inputs; run = self.new.run } }
        ensures stops { TurnsOver P.access Stop order.now
            self.old ports.old self.new ports.new result }
    {
        match self.run {
            Some(run) if run.start == order.start => {
                self.stop_run(rt, ports, run, order.from);
                None
            }
            _ => Some(plain()),
        }
    }

    /// Calls off the run.
    fn drop_run<R: Wait, P: BufferPort>(&mut self, rt: &R, ports: &mut Ports<P>)
        requires ports { length ports.old ≡ length self.old.inputs }
        ensures same { self.new ≡ record self.old { inputs = self.new.inputs; run = None } }
        ensures cancels { InputsStep P.access (EachInput CancelsInput)
            self.old.inputs ports.old self.new.inputs ports.new }
    {
        cancel_all(rt, &mut self.inputs, ports);
        self.run = None;
    }

    /// Takes a turn.
    fn take_turn<R: Wait, P: BufferPort>(
        &mut self,
        rt: &R,
        ports: &mut Ports<P>,
        transition: Transition,
        order: &Order,
    ) -> Option<Answer>
        requires ports { length ports.old ≡ length self.old.inputs }
        ensures same { self.new ≡ record self.old { inputs = self.new.inputs; run = self.new.run } }
        ensures turns { TurnsOver P.access transition order.now
            self.old ports.old self.new ports.new result }
    {
        match transition {
            Transition::Start => Some(self.take_start(rt, ports, order.start)),
            Transition::Stop => self.take_stop(rt, ports, order),
            Transition::Pause | Transition::Resume => Some(plain()),
            Transition::StartAbort => {
                self.drop_run(rt, ports);
                Some(plain())
            }
        }
    }

    /// Takes a turn. A start drops a run that is still there, and makes one request an input, for all events of its
    /// front-end; at the first that the buffer refuses, those before it are cancelled, and the start is refused. A stop of
    /// the run of which events are built is answered None; `finish` gives the answer later. Between two turns the answer
    /// to the first was given.
    pub fn on_turn<R: Wait, P: BufferPort>(
        &mut self,
        rt: &R,
        ports: &mut Ports<P>,
        transition: Transition,
        order: &Order,
    ) -> Option<Answer>
        requires ports { length ports.old ≡ length self.old.inputs }
        ensures same { self.new ≡ record self.old { inputs = self.new.inputs; run = self.new.run } }
        ensures turns { TurnsOver P.access transition order.now
            self.old ports.old self.new ports.new result }
        ensures inputs { length self.new.inputs ≡ length self.old.inputs }
        ensures ports { length ports.new ≡ length ports.old }
    {
        self.take_turn(rt, ports, transition, order)
    }

    /// Pulls once.
    fn pull_once<R: Wait, P: BufferPort>(
        &mut self,
        rt: &R,
        ports: &mut Ports<P>,
        input: u32,
    ) -> BuildPull
        requires ports { length ports.old ≡ length self.old.inputs }
        requires input { input < length self.old.inputs }
        ensures same { self.new ≡ record self.old { inputs = self.new.inputs; run = self.new.run } }
        ensures pulls { PullsOver P.access input
            self.old ports.old self.new ports.new result }
    {
        let Some(run) = self.run else {
            return BuildPull::Nothing;
        };
        let at = &self.inputs.as_slice()[input as usize];
        let (asked, held) = (at.request, at.held);
        let Some(request) = asked else {
            return BuildPull::Nothing;
        };
        if held {
            return BuildPull::Waiting;
        }
        let number = input as usize;
        let reply = receive_at(rt, &mut self.inputs, ports, number, request, run.start);
        let inputs = self.inputs.as_slice();
        let k = u64::from(run.sent) + 1;
        let fault = fault_of(
            inputs,
            &mut self.body,
            input,
            k,
            run.start,
            reply,
            self.limit,
        );
        let later = end_by(rt, &mut self.inputs, ports, run, fault);
        self.run = Some(later);
        answer_of(run.start, reply, fault)
    }

    /// Receives once on this input, where it is read and no event of it is held.
    pub fn pull<R: Wait, P: BufferPort>(
        &mut self,
        rt: &R,
        ports: &mut Ports<P>,
        input: u32,
    ) -> BuildPull
        requires ports { length ports.old ≡ length self.old.inputs }
        requires input { input < length self.old.inputs }
        ensures same { self.new ≡ record self.old { inputs = self.new.inputs; run = self.new.run } }
        ensures pulls { PullsOver P.access input
            self.old ports.old self.new ports.new result }
        ensures inputs { length self.new.inputs ≡ length self.old.inputs }
        ensures ports { length ports.new ≡ length ports.old }
    {
        self.pull_once(rt, ports, input)
    }

    /// Sends once.
    fn step_once<R: Wait, P: BufferPort, Q: BufferPort>(
        &mut self,
        rt: &R,
        ports: &mut Ports<P>,
        output: &mut Q,
    ) -> BuildStep
        requires ports { length ports.old ≡ length self.old.inputs }
        requires size { slot_of_length self.old.limit ≤ (Q.access output.old).size }
        ensures same { self.new ≡ record self.old { inputs = self.new.inputs; run = self.new.run } }
        ensures steps { StepsOver P.access Q.access self.old ports.old output.old
            self.new ports.new output.new result }
    {
        let Some(run) = self.run else {
            return BuildStep::NoWork;
        };
        if !are_held(self.inputs.as_slice()) {
            return BuildStep::NoWork;
        }
        let first = self.inputs.as_slice()[0].event.header();
        let body = self.body.finish();
        let header = Header {
            event_id: self.id,
            trigger_mask: self.mask,
            serial_number: first.serial_number,
            time_stamp: first.time_stamp,
            data_size: body.len() as u32,
        };
        let reply = output.send_in_run(rt, run.start, &header, body);
        let (later, answer) = end_send(rt, &mut self.inputs, ports, run, reply);
        self.run = Some(later);
        answer
    }

    /// Sends the event built of those that are held, where each input holds one.
    pub fn step<R: Wait, P: BufferPort, Q: BufferPort>(
        &mut self,
        rt: &R,
        ports: &mut Ports<P>,
        output: &mut Q,
    ) -> BuildStep
        requires ports { length ports.old ≡ length self.old.inputs }
        requires size { slot_of_length self.old.limit ≤ (Q.access output.old).size }
        ensures same { self.new ≡ record self.old { inputs = self.new.inputs; run = self.new.run } }
        ensures steps { StepsOver P.access Q.access self.old ports.old output.old
            self.new ports.new output.new result }
        ensures inputs { length self.new.inputs ≡ length self.old.inputs }
        ensures ports { length ports.new ≡ length ports.old }
        ensures output { (Q.access output.new).size ≡ (Q.access output.old).size }
    {
        self.step_once(rt, ports, output)
    }

    /// What is told of the run, as the answer to the stop that waits, once the run has ended. None exactly where no stop
    /// waits, or the builder still goes on.
    pub fn finish(&mut self) -> Option<BuiltRun>
        ensures answer { result ≡ built_answer self.old.run }
        ensures after { self.new ≡ record self.old { run = run_told self.old.run result } }
    {
        let told = told_of(self.run);
        if told.is_some() {
            self.run = None;
        }
        told
    }

    /// The fault that came in the run that is there, if one did.
    pub fn fault(&self) -> Option<BuildFault>
        ensures { result ≡ the_fault_in self.now.run }
    {
        fault_in(self.run)
    }
}
