//! The calls on a shared buffer, each with its arguments. Each is the call of `EventBuffer` of that name.
ghost use Rattle.std.specs.Prelude.{◌≡◌};
ghost use Rattle.event.specs.Headers.{event_of};
ghost use Rattle.buffer_core.specs.declared.entry.BufferEntry.TheVariants.{Attach as attach_of, Detach as detach_of, Request as request_of, Cancel as cancel_of, Send as send_of, SendInRun as send_in_run_of, Receive as receive_of, Begin as begin_of, Pause as pause_of, Resume as resume_of, End as end_of, Level as level_of, Accepted as accepted_of};
ghost use Rattle.buffer_core.specs.Calls.{event_after};

use crate::locked::Locked;
use buffer_core::{
    EventBuffer, MarkRefusal, NoClient, NoSlot, Received, RequestRefusal, SendRefusal,
};
use daq_types::{Kind, Name};
use event::{EventBuf, Header};
use turn_lock::Call;

#[derive(Drop)]
pub struct Attach {
    pub name: Name,
}

impl<B: EventBuffer> Call<Locked<B>> for Attach {
    type Reply = Result<u32, NoSlot>;

    type Into = ();

    ghost entry = { λ call _ reply _. attach_of call.name reply };

    fn make(self, value: &mut Locked<B>, _into: &mut ()) -> Result<u32, NoSlot> {
        value.buffer.attach(self.name)
    }
}

#[derive(Drop)]
pub struct Detach {
    pub client: u32,
}

impl<B: EventBuffer> Call<Locked<B>> for Detach {
    type Reply = Result<(), NoClient>;

    type Into = ();

    ghost entry = { λ call _ reply _. detach_of call.client reply };

    fn make(self, value: &mut Locked<B>, _into: &mut ()) -> Result<(), NoClient> {
        value.buffer.detach(self.client)
    }
}

#[derive(Drop)]
pub struct Request {
    pub client: u32,
    pub id: u16,
    pub mask: u16,
    pub kind: Kind,
}

impl<B: EventBuffer> Call<Locked<B>> for Request {
    type Reply = Result<u32, RequestRefusal>;

    type Into = ();

    ghost entry = { λ call _ reply _. request_of call.client call.id call.mask call.kind reply };

    fn make(self, value: &mut Locked<B>, _into: &mut ()) -> Result<u32, RequestRefusal> {
        value
            .buffer
            .request(self.client, self.id, self.mask, self.kind)
    }
}

#[derive(Drop)]
pub struct Cancel {
    pub client: u32,
    pub request: u32,
}

impl<B: EventBuffer> Call<Locked<B>> for Cancel {
    type Reply = Result<(), RequestRefusal>;

    type Into = ();

    ghost entry = { λ call _ reply _. cancel_of call.client call.request reply };

    fn make(self, value: &mut Locked<B>, _into: &mut ()) -> Result<(), RequestRefusal> {
        value.buffer.cancel(self.client, self.request)
    }
}

#[derive(Drop)]
pub struct Send<'a> {
    pub header: &'a Header,
    pub body: &'a [u8],
}

impl<'a, B: EventBuffer> Call<Locked<B>> for Send<'a> {
    type Reply = Result<u64, SendRefusal>;

    type Into = ();

    ghost entry = { λ call _ reply _. send_of call.header.now.data_size
        (event_of call.header.now call.body.now) reply };

    fn make(self, value: &mut Locked<B>, _into: &mut ()) -> Result<u64, SendRefusal> {
        value.buffer.send(self.header, self.body)
    }
}

#[derive(Drop)]
pub struct SendInRun<'a> {
    pub start: u32,
    pub header: &'a Header,
    pub body: &'a [u8],
}

impl<'a, B: EventBuffer> Call<Locked<B>> for SendInRun<'a> {
    type Reply = Result<u64, SendRefusal>;

    type Into = ();

    ghost entry = { λ call _ reply _. send_in_run_of call.start call.header.now.data_size
        (event_of call.header.now call.body.now) reply };

    fn make(self, value: &mut Locked<B>, _into: &mut ()) -> Result<u64, SendRefusal> {
        value.buffer.send_in_run(self.start, self.header, self.body)
    }
}

/// It writes the event that it gives.
#[derive(Drop)]
pub struct Receive {
    pub client: u32,
}

impl<B: EventBuffer> Call<Locked<B>> for Receive {
    type Reply = Received;

    type Into = EventBuf;

    ghost entry = { λ call before reply _. receive_of call.client before.room reply };

    // A receive leaves the kept events as they were, so the event is read off the window behind it.
    ghost tells = { λ _ before reply after last.
        (after.event ≡ event_after before.event last reply) × (after.room ≡ before.room) };

    fn make(self, value: &mut Locked<B>, into: &mut EventBuf) -> Received {
        value.buffer.receive(self.client, into)
    }
}

#[derive(Drop)]
pub struct Begin {
    pub start: u32,
}

impl<B: EventBuffer> Call<Locked<B>> for Begin {
    type Reply = Result<u64, MarkRefusal>;

    type Into = ();

    ghost entry = { λ call _ reply _. begin_of call.start reply };

    fn make(self, value: &mut Locked<B>, _into: &mut ()) -> Result<u64, MarkRefusal> {
        value.buffer.begin(self.start)
    }
}

#[derive(Drop)]
pub struct Pause {
    pub start: u32,
}

impl<B: EventBuffer> Call<Locked<B>> for Pause {
    type Reply = Result<u64, MarkRefusal>;

    type Into = ();

    ghost entry = { λ call _ reply _. pause_of call.start reply };

    fn make(self, value: &mut Locked<B>, _into: &mut ()) -> Result<u64, MarkRefusal> {
        value.buffer.pause(self.start)
    }
}

#[derive(Drop)]
pub struct Resume {
    pub start: u32,
}

impl<B: EventBuffer> Call<Locked<B>> for Resume {
    type Reply = Result<u64, MarkRefusal>;

    type Into = ();

    ghost entry = { λ call _ reply _. resume_of call.start reply };

    fn make(self, value: &mut Locked<B>, _into: &mut ()) -> Result<u64, MarkRefusal> {
        value.buffer.resume(self.start)
    }
}

#[derive(Drop)]
pub struct End {
    pub start: u32,
}

impl<B: EventBuffer> Call<Locked<B>> for End {
    type Reply = Result<u64, MarkRefusal>;

    type Into = ();

    ghost entry = { λ call _ reply _. end_of call.start reply };

    fn make(self, value: &mut Locked<B>, _into: &mut ()) -> Result<u64, MarkRefusal> {
        value.buffer.end(self.start)
    }
}

#[derive(Drop)]
pub struct Level;

impl<B: EventBuffer> Call<Locked<B>> for Level {
    type Reply = u64;

    type Into = ();

    ghost entry = { λ _ _ reply _. level_of reply };

    fn make(self, value: &mut Locked<B>, _into: &mut ()) -> u64 {
        value.buffer.level()
    }
}

#[derive(Drop)]
pub struct Accepted;

impl<B: EventBuffer> Call<Locked<B>> for Accepted {
    type Reply = u64;

    type Into = ();

    ghost entry = { λ _ _ reply _. accepted_of reply };

    fn make(self, value: &mut Locked<B>, _into: &mut ()) -> u64 {
        value.buffer.accepted()
    }
}
