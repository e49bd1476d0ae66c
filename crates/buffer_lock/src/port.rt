// A port to a shared buffer.
ghost use Rattle.std.specs.Prelude.{◌≡◌, None};
ghost use Rattle.turn_lock.specs.Passes.{held_by, IsOf};
ghost use Rattle.buffer_lock.specs.SharedBuffers.{lock_of, first_buffer};

use crate::calls;
use crate::locked::{Locked, WindowSeen};
use crate::shared::{BufferPass, SharedBuffer};
use buffer_core::{
    BufferEntry, BufferPort, EventBuffer, MarkRefusal, NoClient, NoSlot, Received, RequestRefusal,
    SendRefusal,
};
use daq_types::{Kind, Name};
use event::{EventBuf, Header};
use std::sync::Wait;
use turn_lock::Machine;
use turn_lock::laws::same_lock;

/// One caller's access to a shared buffer, by a pass. The caller's number is the pass's, and its own calls are the
/// pass's entries.
#[derive(Drop)]
pub struct SharedPort<'a, B: EventBuffer>
where
    Locked<B>: Machine<State = WindowSeen, Entry = BufferEntry>,
{
    shared: &'a SharedBuffer<B>,
    pass: BufferPass<B>,
    ghost own: { IsOf (lock_of shared.now) pass },
    ghost idle: { held_by pass ≡ None },
}

impl<'a, B: EventBuffer> SharedPort<'a, B> {
    ghost use Rattle.buffer_lock.specs.SharedPorts.{pass_of, buffer_of, access_by, identity_by};

    /// A port to this buffer, by a pass of it that holds nothing. Takes no memory.
    pub fn new(buffer: &'a SharedBuffer<B>, pass: BufferPass<B>) -> SharedPort<'a, B>
        requires own { IsOf (lock_of buffer.now) pass }
        requires idle { held_by pass ≡ None }
        ensures pass { pass_of result ≡ pass }
        ensures buffer { buffer_of result ≡ buffer.now }
    {
        SharedPort {
            shared: buffer,
            pass,
        }
    }

    /// Gives the pass back. It is one of each buffer that is the one which the port tells.
    pub fn into_pass(self) -> BufferPass<B>
        ensures pass { result ≡ pass_of self.entry }
        ensures own { IsOf (lock_of (buffer_of self.entry)) result }
        ensures told { (shared : _) → (access_by B.window self.entry).buffer
            ≡ identity_by B.window shared → IsOf (lock_of shared) result }
        ensures idle { held_by result ≡ None }
    {
        let SharedPort { shared: _, pass } = self;
        same_lock(&pass);
        pass
    }
}

impl<'a, B: EventBuffer> BufferPort for SharedPort<'a, B> {
    ghost use Rattle.buffer_lock.specs.SharedPorts.{access_by};

    ghost access = { access_by B.window };

    ghost use Rattle.buffer_lock.specs.SharedPorts.{caller_of, buffer_of, history_by};
    ghost use Rattle.buffer_core.proofs.GotNames.{named_in};

    ghost named = { λ port. named_in (caller_of port)
        (B.window (first_buffer (buffer_of port))) (history_by port) };

    fn attach<R: Wait>(&mut self, rt: &R, name: Name) -> Result<u32, NoSlot> {
        self.shared
            .call(rt, &mut self.pass, calls::Attach { name }, &mut ())
    }

    fn detach<R: Wait>(&mut self, rt: &R, client: u32) -> Result<(), NoClient> {
        self.shared
            .call(rt, &mut self.pass, calls::Detach { client }, &mut ())
    }

    fn request<R: Wait>(
        &mut self,
        rt: &R,
        client: u32,
        id: u16,
        mask: u16,
        kind: Kind,
    ) -> Result<u32, RequestRefusal> {
        let call = calls::Request {
            client,
            id,
            mask,
            kind,
        };
        self.shared.call(rt, &mut self.pass, call, &mut ())
    }

    fn cancel<R: Wait>(&mut self, rt: &R, client: u32, request: u32) -> Result<(), RequestRefusal> {
        self.shared.call(
            rt,
            &mut self.pass,
            calls::Cancel { client, request },
            &mut (),
        )
    }

    fn send<R: Wait>(&mut self, rt: &R, header: &Header, body: &[u8]) -> Result<u64, SendRefusal> {
        self.shared
            .call(rt, &mut self.pass, calls::Send { header, body }, &mut ())
    }

    fn send_in_run<R: Wait>(
        &mut self,
        rt: &R,
        start: u32,
        header: &Header,
        body: &[u8],
    ) -> Result<u64, SendRefusal> {
        let call = calls::SendInRun {
            start,
            header,
            body,
        };
        self.shared.call(rt, &mut self.pass, call, &mut ())
    }

    fn receive<R: Wait>(&mut self, rt: &R, client: u32, into: &mut EventBuf) -> Received {
        self.shared
            .call(rt, &mut self.pass, calls::Receive { client }, into)
    }

    fn begin<R: Wait>(&mut self, rt: &R, start: u32) -> Result<u64, MarkRefusal> {
        self.shared
            .call(rt, &mut self.pass, calls::Begin { start }, &mut ())
    }

    fn pause<R: Wait>(&mut self, rt: &R, start: u32) -> Result<u64, MarkRefusal> {
        self.shared
            .call(rt, &mut self.pass, calls::Pause { start }, &mut ())
    }

    fn resume<R: Wait>(&mut self, rt: &R, start: u32) -> Result<u64, MarkRefusal> {
        self.shared
            .call(rt, &mut self.pass, calls::Resume { start }, &mut ())
    }

    fn end<R: Wait>(&mut self, rt: &R, start: u32) -> Result<u64, MarkRefusal> {
        self.shared
            .call(rt, &mut self.pass, calls::End { start }, &mut ())
    }

    fn level<R: Wait>(&mut self, rt: &R) -> u64 {
        self.shared.call(rt, &mut self.pass, calls::Level, &mut ())
    }

    fn accepted<R: Wait>(&mut self, rt: &R) -> u64 {
        self.shared
            .call(rt, &mut self.pass, calls::Accepted, &mut ())
    }
}
