// A port that owns its buffer.
ghost use Rattle.std.specs.Prelude.{◌≡◌, [], None, IfOk};
ghost use Rattle.turn_lock.specs.Passes.{held_by, IsOf};
ghost use Rattle.buffer_lock.specs.SharedBuffers.{lock_of};

use buffer_core::{
    BufferEntry, BufferPort, EventBuffer, MarkRefusal, NoClient, NoSlot, Received, RequestRefusal,
    SendRefusal,
};
use buffer_lock::{BufferPass, Locked, SharedBuffer, WindowSeen, calls};
use daq_types::{Kind, Name, NoMemory};
use event::{EventBuf, Header};
use std::alloc::Global;
use std::sync::Wait;
use turn_lock::Machine;

/// The port of the one caller of a buffer, which it owns. Its calls take no memory.
#[derive(Drop)]
pub struct OwningPort<B: EventBuffer>
where
    Locked<B>: Machine<State = WindowSeen, Entry = BufferEntry>,
{
    buffer: SharedBuffer<B>,
    pass: BufferPass<B>,
    ghost own: { IsOf (lock_of buffer) pass },
    ghost idle: { held_by pass ≡ None },
}

impl<B: EventBuffer + Drop> OwningPort<B> {
    ghost use Rattle.plain_buffer.specs.OwningPorts.{owned_access};

    /// A port to this buffer, by which no call was made. Its caller has number 0. The memory is taken here; where there is
    /// none the buffer is dropped.
    pub fn new(alloc: Global, buffer: B) -> Result<OwningPort<B>, NoMemory>
        ensures size { IfOk result (λ port. (owned_access B.window port).size
            ≡ (B.window buffer).size) }
        ensures calls { IfOk result (λ port. (owned_access B.window port).own ≡ []) }
        ensures got { IfOk result (λ port. (owned_access B.window port).got ≡ []) }
    {
        let (buffer, mut passes) = SharedBuffer::new(alloc, buffer, 1)?;
        let Some(pass) = passes.pop() else {
            unreachable!()
        };
        Ok(OwningPort { buffer, pass })
    }
}

impl<B: EventBuffer> BufferPort for OwningPort<B> {
    ghost use Rattle.plain_buffer.specs.OwningPorts.{owned_access};

    ghost access = { owned_access B.window };

    ghost use Rattle.turn_lock.specs.Passes.{number_of, seen_by};
    ghost use Rattle.buffer_lock.specs.SharedBuffers.{first_buffer};
    ghost use Rattle.buffer_core.proofs.GotNames.{named_in};

    ghost named = { λ port. named_in (number_of port.pass) (B.window (first_buffer port.buffer))
        (seen_by port.pass) };

    fn attach<R: Wait>(&mut self, rt: &R, name: Name) -> Result<u32, NoSlot> {
        self.buffer
            .call(rt, &mut self.pass, calls::Attach { name }, &mut ())
    }

    fn detach<R: Wait>(&mut self, rt: &R, client: u32) -> Result<(), NoClient> {
        self.buffer
            .call(rt, &mut self.pass, calls::Detach { client }, &mut ())
    }

    fn request<R: Wait>(
        &mut self,
        rt: &R,
        client: u32,
        id: u16,
        mask: u16,
        kind: Kind,
    ) -> Result<u32, RequestRefusal> {
        let call = calls::Request {
            client,
            id,
            mask,
            kind,
        };
        self.buffer.call(rt, &mut self.pass, call, &mut ())
    }

    fn cancel<R: Wait>(&mut self, rt: &R, client: u32, request: u32) -> Result<(), RequestRefusal> {
        self.buffer.call(
            rt,
            &mut self.pass,
            calls::Cancel { client, request },
            &mut (),
        )
    }

    fn send<R: Wait>(&mut self, rt: &R, header: &Header, body: &[u8]) -> Result<u64, SendRefusal> {
        self.buffer
            .call(rt, &mut self.pass, calls::Send { header, body }, &mut ())
    }

    fn send_in_run<R: Wait>(
        &mut self,
        rt: &R,
        start: u32,
        header: &Header,
        body: &[u8],
    ) -> Result<u64, SendRefusal> {
        let call = calls::SendInRun {
            start,
            header,
            body,
        };
        self.buffer.call(rt, &mut self.pass, call, &mut ())
    }

    fn receive<R: Wait>(&mut self, rt: &R, client: u32, into: &mut EventBuf) -> Received {
        self.buffer
            .call(rt, &mut self.pass, calls::Receive { client }, into)
    }

    fn begin<R: Wait>(&mut self, rt: &R, start: u32) -> Result<u64, MarkRefusal> {
        self.buffer
            .call(rt, &mut self.pass, calls::Begin { start }, &mut ())
    }

    fn pause<R: Wait>(&mut self, rt: &R, start: u32) -> Result<u64, MarkRefusal> {
        self.buffer
            .call(rt, &mut self.pass, calls::Pause { start }, &mut ())
    }

    fn resume<R: Wait>(&mut self, rt: &R, start: u32) -> Result<u64, MarkRefusal> {
        self.buffer
            .call(rt, &mut self.pass, calls::Resume { start }, &mut ())
    }

    fn end<R: Wait>(&mut self, rt: &R, start: u32) -> Result<u64, MarkRefusal> {
        self.buffer
            .call(rt, &mut self.pass, calls::End { start }, &mut ())
    }

    fn level<R: Wait>(&mut self, rt: &R) -> u64 {
        self.buffer.call(rt, &mut self.pass, calls::Level, &mut ())
    }

    fn accepted<R: Wait>(&mut self, rt: &R) -> u64 {
        self.buffer
            .call(rt, &mut self.pass, calls::Accepted, &mut ())
    }
}
