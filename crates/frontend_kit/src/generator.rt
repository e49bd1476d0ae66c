ghost use Rattle.std.specs.Prelude.{◌≡◌, ◌≤◌, ◌+◌, ◌*◌, ◌-◌, ◌++◌, ◌↔◌, IsTrue, ℕ, length};
ghost use Rattle.arrayvec.specs.ArrayVec.{array_vec_len};
ghost use Rattle.event.specs.Generator.{generated_body, generated_event, next_state, generated_words, words_encoded};
ghost use Rattle.frontend_kit.specs.BankHeads.{heads};

use arrayvec::ArrayVec;
use daq_types::Order;
use event::{EventBuf, Header};

/// The most bytes of data that an event of a front-end has. An event of the generator has at most as many.
pub const EVENT_ROOM: u32 = 80;

/// A front-end that generates its data. It needs no memory.
#[derive(Clone, Copy, Debug, PartialEq, Eq)]
pub struct Generator {
    /// The id of its events, 1 to 32,767.
    pub id: u16,
    /// The trigger mask of its events.
    pub mask: u16,
    /// The most events of a run that it sends.
    pub limit: u32,
}

impl Generator {
    /// Whether it can send as many events as a run of this order wants.
    pub fn check(&self, order: &Order) -> bool
        ensures { IsTrue result ↔ (order.now.quota ≤ self.now.limit) }
    {
        order.quota <= self.limit
    }

    /// Puts event k of a run of this order into the room. The events of a run are numbered from 1.
    pub fn event(&self, order: &Order, k: u32, into: &mut EventBuf)
        requires id { 1 ≤ self.now.id }
        requires k { 1 ≤ k }
        requires room { EVENT_ROOM ≤ into.old.room }
        ensures event { into.new.event ≡ generated_event order.now self.now.id self.now.mask k }
        ensures room { into.new.room ≡ into.old.room }
    {
        let mut body = ArrayVec::new();
        write_body(&mut body, self.id, order.start, k);
        let header = Header {
            event_id: self.id,
            trigger_mask: self.mask,
            serial_number: k,
            time_stamp: order.time,
            data_size: body.len() as u32,
        };
        let _ = into.fill(&header, body.as_slice());
    }
}

/// The room for the data of an event while they are written.
const BODY_ROOM: usize = EVENT_ROOM as usize;

/// The data of an event while they are written.
type Body = ArrayVec<u8, BODY_ROOM>;

/// Puts these bytes behind those that are there.
fn append(body: &mut Body, bytes: &[u8])
    requires { array_vec_len body.old + length bytes.now ≤ EVENT_ROOM }
    ensures items { body.new.items ≡ body.old.items ++ bytes.now }
    ensures length { array_vec_len body.new ≡ array_vec_len body.old + length bytes.now }
{
    let _ = body.try_extend_from_slice(bytes);
}

/// Writes the data of an event: a bank area with one bank of words.
fn write_body(body: &mut Body, id: u16, start: u32, k: u32)
    requires id { 1 ≤ id }
    requires k { 1 ≤ k }
    ensures bytes { body.new.items ≡ generated_body id start k }
    ensures length { array_vec_len body.new ≤ EVENT_ROOM }
{
    let count = 1 + (k - 1) % 16;
    write_heads(body, 4 * count);
    append_words(
        body,
        4_294_967_296 * (id as u64 - 1) + start as u64 + (k as u64 - 1),
        count,
    );
    let zeros = [0; 4];
    append(body, &zeros[..(4 * (count % 2)) as usize]);
}

/// Writes the heads of a bank area with one bank of so many bytes: the length and the flags of the area, and the
/// bank's name, type and length.
fn write_heads(body: &mut Body, size: u32)
    requires size { size ≤ 64 }
    ensures bytes { body.new.items ≡ heads size }
    ensures length { array_vec_len body.new ≡ 16 }
{
    body.clear();
    append(body, &(8 + (size + 7) / 8 * 8).to_le_bytes());
    append(body, &1u32.to_le_bytes());
    append(body, b"GEN0");
    append(body, &6u16.to_le_bytes());
    append(body, &(size as u16).to_le_bytes());
}

/// Appends so many words: the upper halves of the states of a linear congruential generator behind this state.
fn append_words(body: &mut Body, state: u64, count: u32)
    requires room { array_vec_len body.old + 4 * count ≤ EVENT_ROOM }
    ensures bytes { body.new.items ≡ body.old.items ++ words_encoded (generated_words count state) }
    ensures length { array_vec_len body.new ≡ array_vec_len body.old + 4 * count }
{
    let mut x = state;
    for _made in 0..count {
        x = advanced(x);
        append(body, &((x >> 32) as u32).to_le_bytes());
    }
}

/// The state behind this one.
#[tactic(auto, unfolding(event::specs::Generator::next_state))]
fn advanced(state: u64) -> u64
    ensures { result ≡ next_state state }
{
    state
        .wrapping_mul(6_364_136_223_846_793_005)
        .wrapping_add(1_442_695_040_888_963_407)
}
