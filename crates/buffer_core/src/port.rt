ghost use Rattle.std.specs.Prelude.{◌≡◌, ◌-◌, ◌^◌, ◌≤◌, ℕ, map, min, IfOk, IfErr};
ghost use Rattle.event.specs.Events.{event_limit};
ghost use Rattle.event.specs.Headers.{event_of};
ghost use Rattle.buffer_core.specs.declared.entry.BufferEntry.TheVariants.{Attach, Detach, Request, Cancel, Send, SendInRun, Begin, Pause, Resume, End, Level, Accepted};
ghost use Rattle.buffer_core.specs.Ports.{Calls, Receives, KeepsUnlessGot, GivesSound, IsSmallBuf, IsSendFault, IsRunSendFault, IsNewNumber, knowing, slots_got, name_of, names_given};

use crate::replies::{MarkRefusal, NoClient, NoSlot, Received, RequestRefusal, SendRefusal};
use daq_types::{Kind, Name};
use event::{EventBuf, Header};
use std::sync::Wait;

/// One caller's access to a buffer, by the calls of `EventBuffer`. Each is one call of the caller.
pub trait BufferPort {
    ghost use Rattle.buffer_core.specs.Ports.{Access};

    ghost access: { Self → Access };

    /// As `EventBuffer::attach`. The number is not that of a client that the caller has: of one
    /// that an attach by this port gave, and that no detach took back since, be it by this port or,
    /// as the port then knows, by another caller.
    fn attach<R: Wait>(&mut self, rt: &R, name: Name) -> Result<u32, NoSlot>
        ensures called { Calls (access self.old) (access self.new) (Attach name result) }
        ensures number { IfOk result (IsNewNumber (knowing (access self.old) (access self.new))) };

    /// As `EventBuffer::detach`.
    fn detach<R: Wait>(&mut self, rt: &R, client: u32) -> Result<(), NoClient>
        ensures { Calls (access self.old) (access self.new) (Detach client result) };

    /// As `EventBuffer::request`.
    fn request<R: Wait>(
        &mut self,
        rt: &R,
        client: u32,
        id: u16,
        mask: u16,
        kind: Kind,
    ) -> Result<u32, RequestRefusal>
        ensures { Calls (access self.old) (access self.new) (Request client id mask kind result) };

    /// As `EventBuffer::cancel`.
    fn cancel<R: Wait>(&mut self, rt: &R, client: u32, request: u32) -> Result<(), RequestRefusal>
        ensures { Calls (access self.old) (access self.new) (Cancel client request result) };

    /// As `EventBuffer::send`.
    fn send<R: Wait>(&mut self, rt: &R, header: &Header, body: &[u8]) -> Result<u64, SendRefusal>
        ensures called { Calls (access self.old) (access self.new)
            (Send header.now.data_size (event_of header.now body.now) result) }
        ensures refused { IfErr result (IsSendFault (access self.old).size header.now.data_size
            (event_of header.now body.now)) };

    /// As `EventBuffer::send_in_run`.
    fn send_in_run<R: Wait>(
        &mut self,
        rt: &R,
        start: u32,
        header: &Header,
        body: &[u8],
    ) -> Result<u64, SendRefusal>
        ensures called { Calls (access self.old) (access self.new)
            (SendInRun start header.now.data_size (event_of header.now body.now) result) }
        ensures refused { IfErr result (IsRunSendFault (access self.old).size header.now.data_size
            (event_of header.now body.now)) };

    /// As `EventBuffer::receive`.
    fn receive<R: Wait>(&mut self, rt: &R, client: u32, into: &mut EventBuf) -> Received
        ensures called { Receives (access self.old) (access self.new) client into.old.room result
            into.new.event }
        ensures room { into.new.room ≡ into.old.room }
        ensures kept { KeepsUnlessGot result into.old.event into.new.event }
        ensures whole { min event_limit ((access self.old).size - 24) ≤ into.old.room
            → ¬ (IsSmallBuf result) }
        ensures sound { GivesSound result into.new.event }
        ensures few { (number : ℕ) → slots_got number (access self.new).got ≤ 2 ^ 62 };

    /// As `EventBuffer::begin`.
    fn begin<R: Wait>(&mut self, rt: &R, start: u32) -> Result<u64, MarkRefusal>
        ensures { Calls (access self.old) (access self.new) (Begin start result) };

    /// As `EventBuffer::pause`.
    fn pause<R: Wait>(&mut self, rt: &R, start: u32) -> Result<u64, MarkRefusal>
        ensures { Calls (access self.old) (access self.new) (Pause start result) };

    /// As `EventBuffer::resume`.
    fn resume<R: Wait>(&mut self, rt: &R, start: u32) -> Result<u64, MarkRefusal>
        ensures { Calls (access self.old) (access self.new) (Resume start result) };

    /// As `EventBuffer::end`.
    fn end<R: Wait>(&mut self, rt: &R, start: u32) -> Result<u64, MarkRefusal>
        ensures { Calls (access self.old) (access self.new) (End start result) };

    /// As `EventBuffer::level`.
    fn level<R: Wait>(&mut self, rt: &R) -> u64
        ensures { Calls (access self.old) (access self.new) (Level result) };

    /// As `EventBuffer::accepted`.
    fn accepted<R: Wait>(&mut self, rt: &R) -> u64
        ensures { Calls (access self.old) (access self.new) (Accepted result) };

    // The events got are those that the own calls gave, one for one: who called nothing got
    // nothing.
    ghost named: { (port : Self) → map name_of (access port).got ≡ names_given (access port).own };
}
