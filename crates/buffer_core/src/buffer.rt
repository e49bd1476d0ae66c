ghost use Rattle.std.specs.Prelude.{◌≡◌};
ghost use Rattle.event.specs.Headers.{event_of};
ghost use Rattle.buffer_core.specs.declared.entry.BufferEntry.TheVariants.{Attach, Detach, Request, Cancel, Send, SendInRun, Receive, Begin, Pause, Resume, End, Level, Accepted};
ghost use Rattle.buffer_core.specs.Window.{IsWindow};
ghost use Rattle.buffer_core.specs.Calls.{IsReply, window_after, event_after};

use crate::replies::{MarkRefusal, NoClient, NoSlot, Received, RequestRefusal, SendRefusal};
use daq_types::{Kind, Name};
use event::{EventBuf, Header};

/// An event buffer, seen as a window. Each call replies what `IsReply` says of the window before it, and leaves
/// `window_after` of that window. No call takes memory.
pub trait EventBuffer {
    ghost use Rattle.buffer_core.specs.Window.{Window};

    ghost window: { Self → Window };

    /// Attaches a client and answers its number, the least that is free. It gets events that are sent from now on,
    /// once it requests them. Two clients may have one name.
    fn attach(&mut self, name: Name) -> Result<u32, NoSlot>
        ensures reply { IsReply (window self.old) (Attach name result) }
        ensures after { window self.new ≡ window_after (window self.old) (Attach name result) };

    /// Detaches a client, with all its requests. Its number is free again.
    fn detach(&mut self, client: u32) -> Result<(), NoClient>
        ensures reply { IsReply (window self.old) (Detach client result) }
        ensures after { window self.new ≡ window_after (window self.old) (Detach client result) };

    /// Requests the events of this id and mask that are sent from now on, and answers the request's number, the
    /// client's least that is free.
    fn request(
        &mut self,
        client: u32,
        id: u16,
        mask: u16,
        kind: Kind,
    ) -> Result<u32, RequestRefusal>
        ensures reply { IsReply (window self.old) (Request client id mask kind result) }
        ensures after { window self.new ≡ window_after (window self.old)
            (Request client id mask kind result) };

    /// Takes back a request. An event that no other request of the client wants is neither owed nor given any more.
    fn cancel(&mut self, client: u32, request: u32) -> Result<(), RequestRefusal>
        ensures reply { IsReply (window self.old) (Cancel client request result) }
        ensures after { window self.new ≡ window_after (window self.old)
            (Cancel client request result) };

    /// Sends an event of no run, and answers its place.
    fn send(&mut self, header: &Header, body: &[u8]) -> Result<u64, SendRefusal>
        ensures reply { IsReply (window self.old) (Send header.now.data_size
            (event_of header.now body.now) result) }
        ensures after { window self.new ≡ window_after (window self.old)
            (Send header.now.data_size (event_of header.now body.now) result) };

    /// Sends an event of the run with this start number, and answers its place.
    fn send_in_run(&mut self, start: u32, header: &Header, body: &[u8]) -> Result<u64, SendRefusal>
        ensures reply { IsReply (window self.old) (SendInRun start header.now.data_size
            (event_of header.now body.now) result) }
        ensures after { window self.new ≡ window_after (window self.old)
            (SendInRun start header.now.data_size (event_of header.now body.now) result) };

    /// Gives the client the next kept event that one of its requests matches.
    fn receive(&mut self, client: u32, into: &mut EventBuf) -> Received
        ensures reply { IsReply (window self.old) (Receive client into.old.room result) }
        ensures after { window self.new ≡ window_after (window self.old)
            (Receive client into.old.room result) }
        ensures event { into.new.event ≡ event_after into.old.event (window self.old) result }
        ensures room { into.new.room ≡ into.old.room };

    /// Opens the gate for the run of this start number, and answers how many events were accepted so far.
    fn begin(&mut self, start: u32) -> Result<u64, MarkRefusal>
        ensures reply { IsReply (window self.old) (Begin start result) }
        ensures after { window self.new ≡ window_after (window self.old) (Begin start result) };

    /// Pauses the run of this start number, and answers how many events were accepted so far.
    fn pause(&mut self, start: u32) -> Result<u64, MarkRefusal>
        ensures reply { IsReply (window self.old) (Pause start result) }
        ensures after { window self.new ≡ window_after (window self.old) (Pause start result) };

    /// Resumes the paused run of this start number, and answers how many events were accepted so far.
    fn resume(&mut self, start: u32) -> Result<u64, MarkRefusal>
        ensures reply { IsReply (window self.old) (Resume start result) }
        ensures after { window self.new ≡ window_after (window self.old) (Resume start result) };

    /// Shuts the gate behind the run of this start number, which may be paused, and answers how many events were
    /// accepted so far.
    fn end(&mut self, start: u32) -> Result<u64, MarkRefusal>
        ensures reply { IsReply (window self.old) (End start result) }
        ensures after { window self.new ≡ window_after (window self.old) (End start result) };

    /// The room that the kept events take, in bytes.
    fn level(&self) -> u64
        ensures reply { IsReply (window self.now) (Level result) };

    /// How many events were ever accepted. The window meets what every window meets.
    fn accepted(&self) -> u64
        ensures reply { IsReply (window self.now) (Accepted result) }
        ensures window { IsWindow (window self.now) };
}
