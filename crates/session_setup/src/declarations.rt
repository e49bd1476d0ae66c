ghost use Rattle.std.specs.Prelude.{◌≡◌, ◌++◌, ◌∷◌, [], length, codes, IfOk, OnOk, OnErr};
ghost use Rattle.session_setup.specs.Setup.{AreSound, lists_declared, nothing_declared, system_name, total_size, has_buffer, is_declared_name, is_member_name};
ghost use Rattle.session_setup.specs.Refusals.{IsNameRead, name_refusal, ok_unless};
ghost use Rattle.session_setup.specs.SetupLines.{buffers_with, is_taken_name, buffer_refusal, with_buffer, equip_refusal, with_front, is_limited, IsPatternRead, channel_refusal, with_channel, analyzer_refusal, with_analyzer, number_of_buffer, or_default, default_front, default_channel, opened_with_defaults};

use crate::checks;
use crate::declared::{AnalyzerDeclared, BufferDeclared, DeclaredLists, FrontDeclared};
use crate::refusals::{SetupRefusal, first_refusal, refused_if};
use daq_types::{BoundedList, Kind, Name, NameRefusal, NoMemory};
use mid_logger::{ChannelSpec, Pattern};
use std::alloc::Global;
use std::marker::Model;

/// The size of `SYSTEM` at first, in bytes.
const SYSTEM_BYTES: u32 = 1_048_576;

/// The most bytes that all buffers have together.
const MOST_BUFFER_BYTES: u64 = 1_073_741_824;

/// The id and the mask with which a channel asks for all events.
const ANY: u16 = 0xFFFF;

/// What a session has before it opens: buffers, of which `SYSTEM` is there from the beginning, front-ends, the channels
/// of its logger, and analyzers. The room for all that can be declared is taken once.
#[derive(Drop)]
pub struct Declarations {
    opened: bool,
    buffers: BoundedList<BufferDeclared, 8>,
    fronts: BoundedList<FrontDeclared, 32>,
    channels: BoundedList<ChannelSpec, 16>,
    analyzers: BoundedList<AnalyzerDeclared, 8>,
}

impl Model for Declarations {
    ghost use Rattle.session_setup.specs.Setup.{Declared, AreSound};

    ghost Value = { Declared };

    ghost view = { λ d. record {
      opened = d.opened;
      buffers = d.buffers;
      fronts = d.fronts;
      channels = d.channels;
      analyzers = d.analyzers;
    } };

    ghost invariant = { λ d. AreSound (record {
      opened = d.opened;
      buffers = d.buffers;
      fronts = d.fronts;
      channels = d.channels;
      analyzers = d.analyzers;
    }) };
}

/// The refusal of a text that is no name.
fn name_refusal(read: &Result<Name, NameRefusal>) -> Option<SetupRefusal>
    ensures { result ≡ name_refusal read.now }
{
    match read {
        Ok(_) => None,
        Err(refusal) => Some(SetupRefusal::BadName(*refusal)),
    }
}

/// The name of the buffer that is there from the beginning.
fn system_name() -> Name
    ensures { result ≡ system_name }
{
    match Name::new(b"SYSTEM") {
        Ok(name) => name,
        Err(_) => unreachable!(),
    }
}

/// The name of the front-end of a session that declares none.
fn default_name() -> Name
    ensures { result ≡ codes "FE" }
{
    match Name::new(b"FE") {
        Ok(name) => name,
        Err(_) => unreachable!(),
    }
}

impl Declarations {
    /// `SYSTEM` alone is declared, with 1,048,576 bytes. All room is taken here, and by no other call.
    pub fn new(alloc: Global) -> Result<Declarations, NoMemory>
        ensures { IfOk result (λ made. made ≡ nothing_declared) }
    {
        let mut buffers = BoundedList::new(alloc)?;
        let fronts = BoundedList::new(alloc)?;
        let channels = BoundedList::new(alloc)?;
        let analyzers = BoundedList::new(alloc)?;
        buffers.push(BufferDeclared {
            name: system_name(),
            size: SYSTEM_BYTES,
        });
        Ok(Declarations {
            opened: false,
            buffers,
            fronts,
            channels,
            analyzers,
        })
    }

    /// The buffers, in the order of their declaration. A buffer's number is its place.
    pub fn buffers(&self) -> &[BufferDeclared]
        ensures list { result.now ≡ self.now.buffers }
        ensures sound { AreSound self.now }
    {
        self.buffers.as_slice()
    }

    /// The front-ends, in the order of their declaration.
    pub fn fronts(&self) -> &[FrontDeclared]
        ensures list { result.now ≡ self.now.fronts }
        ensures sound { AreSound self.now }
    {
        self.fronts.as_slice()
    }

    /// The channels, in the order of their declaration.
    pub fn channels(&self) -> &[ChannelSpec]
        ensures list { result.now ≡ self.now.channels }
        ensures sound { AreSound self.now }
    {
        self.channels.as_slice()
    }

    /// The analyzers, in the order of their declaration.
    pub fn analyzers(&self) -> &[AnalyzerDeclared]
        ensures list { result.now ≡ self.now.analyzers }
        ensures sound { AreSound self.now }
    {
        self.analyzers.as_slice()
    }

    /// The lists, for themselves, each in its room.
    pub fn into_lists(self) -> DeclaredLists
        ensures lists { result ≡ lists_declared self }
        ensures sound { AreSound self }
    {
        let Declarations {
            opened: _,
            buffers,
            fronts,
            channels,
            analyzers,
        } = self;
        DeclaredLists {
            buffers,
            fronts,
            channels,
            analyzers,
        }
    }

    /// Whether the session was opened.
    pub fn is_opened(&self) -> bool
        ensures { result ≡ self.now.opened }
    {
        self.opened
    }

    /// `buffer NAME SIZE`: one more buffer, or another size of `SYSTEM`. A refusal leaves all as it was.
    pub fn buffer(&mut self, name: &[u8], size: u32) -> Result<(), SetupRefusal>
        ensures answer { (read : _) × IsNameRead name.now read
            × (result ≡ ok_unless (buffer_refusal self.old read name.now size)) }
        ensures added { OnOk result (self.new ≡ with_buffer self.old name.now size) }
        ensures same { OnErr result (self.new ≡ self.old) }
    {
        let read = Name::new(name);
        if let Some(refusal) = self.buffer_refusal(&read, name, size) {
            return Err(refusal);
        }
        let Ok(name) = read else { unreachable!() };
        self.add_buffer(name, size);
        Ok(())
    }

    /// `equip NAME ID MASK BUFFER LIMIT`: one more front-end. A refusal leaves all as it was.
    pub fn equip(
        &mut self,
        name: &[u8],
        id: u32,
        mask: u16,
        buffer: &[u8],
        limit: u32,
    ) -> Result<(), SetupRefusal>
        ensures answer { (read : _) × IsNameRead name.now read
            × (result ≡ ok_unless (equip_refusal self.old read name.now id buffer.now)) }
        ensures added { OnOk result (self.new
            ≡ with_front self.old name.now id mask buffer.now limit) }
        ensures same { OnErr result (self.new ≡ self.old) }
    {
        let read = Name::new(name);
        if let Some(refusal) = self.equip_refusal(&read, name, id, buffer) {
            return Err(refusal);
        }
        let Ok(name) = read else { unreachable!() };
        let buffer = self.number_of_buffer(buffer);
        let id = checks::narrowed(id);
        self.add_front(FrontDeclared {
            name,
            id,
            mask,
            buffer,
            limit,
        });
        Ok(())
    }

    /// `channel N PATTERN BUFFER ID MASK SUBBYTES`: one more channel of the logger. A refusal leaves all as it was.
    pub fn channel(
        &mut self,
        number: u32,
        pattern: &[u8],
        buffer: &[u8],
        id: u16,
        mask: u16,
        sub_bytes: u32,
    ) -> Result<(), SetupRefusal>
        ensures answer { (read : _) × IsPatternRead pattern.now (is_limited sub_bytes) read
            × (result ≡ ok_unless (channel_refusal self.old number read pattern.now buffer.now)) }
        ensures added { OnOk result ((read : _)
            × IsPatternRead pattern.now (is_limited sub_bytes) (Some read)
            × (self.new ≡ with_channel self.old number read buffer.now id mask sub_bytes)) }
        ensures same { OnErr result (self.new ≡ self.old) }
    {
        let read = Pattern::from_bytes(pattern, 0 < sub_bytes).ok();
        if let Some(refusal) = self.channel_refusal(number, &read, pattern, buffer) {
            return Err(refusal);
        }
        let Some(pattern) = read else { unreachable!() };
        let buffer = self.number_of_buffer(buffer);
        self.add_channel(ChannelSpec {
            number,
            pattern,
            buffer,
            id,
            mask,
            sub_bytes,
        });
        Ok(())
    }

    /// `analyzer NAME BUFFER ID MASK all` or `some`: one more analyzer. A refusal leaves all as it was.
    pub fn analyzer(
        &mut self,
        name: &[u8],
        buffer: &[u8],
        id: u16,
        mask: u16,
        kind: Kind,
    ) -> Result<(), SetupRefusal>
        ensures answer { (read : _) × IsNameRead name.now read
            × (result ≡ ok_unless (analyzer_refusal self.old read name.now buffer.now)) }
        ensures added { OnOk result (self.new
            ≡ with_analyzer self.old name.now buffer.now id mask kind) }
        ensures same { OnErr result (self.new ≡ self.old) }
    {
        let read = Name::new(name);
        if let Some(refusal) = self.analyzer_refusal(&read, name, buffer) {
            return Err(refusal);
        }
        let Ok(name) = read else { unreachable!() };
        let buffer = self.number_of_buffer(buffer);
        self.add_analyzer(AnalyzerDeclared {
            name,
            buffer,
            id,
            mask,
            kind,
        });
        Ok(())
    }

    /// Opens the session: from here on nothing can be declared. Where no front-end was declared there is one, `FE`,
    /// whose events have id 1; and where no channel was, there is channel 0, for all events of `SYSTEM`.
    pub fn open(&mut self)
        ensures { self.new ≡ opened_with_defaults self.old }
    {
        self.default_front();
        self.default_channel();
        self.opened = true;
    }

    /// The first refusal of `buffer`.
    fn buffer_refusal(
        &self,
        read: &Result<Name, NameRefusal>,
        name: &[u8],
        size: u32,
    ) -> Option<SetupRefusal>
        ensures answer { result ≡ buffer_refusal self.now read.now name.now size }
        ensures sound { AreSound self.now }
    {
        let is_taken = self.is_taken(name);
        let (count, total) = self.sizes_with(name, size);
        first_refusal(&[
            refused_if(self.opened, SetupRefusal::Opened),
            name_refusal(read),
            refused_if(is_taken, SetupRefusal::Exists),
            refused_if(!checks::is_buffer_size(size), SetupRefusal::BadBufferSize),
            refused_if(8 < count, SetupRefusal::TooMany { most: 8 }),
            refused_if(
                MOST_BUFFER_BYTES < total,
                SetupRefusal::TooMany {
                    most: MOST_BUFFER_BYTES as u32,
                },
            ),
        ])
    }

    /// The first refusal of `equip`.
    fn equip_refusal(
        &self,
        read: &Result<Name, NameRefusal>,
        name: &[u8],
        id: u32,
        buffer: &[u8],
    ) -> Option<SetupRefusal>
        ensures answer { result ≡ equip_refusal self.now read.now name.now id buffer.now }
        ensures sound { AreSound self.now }
    {
        let is_member = self.is_member(name);
        let has_id = checks::has_front_id(self.fronts.as_slice(), id);
        let has_buffer = self.has_buffer(buffer);
        first_refusal(&[
            refused_if(self.opened, SetupRefusal::Opened),
            name_refusal(read),
            refused_if(is_member, SetupRefusal::SameName),
            refused_if(!checks::is_front_id(id), SetupRefusal::BadId),
            refused_if(has_id, SetupRefusal::SameId),
            refused_if(!has_buffer, SetupRefusal::NoBuffer),
            refused_if(32 <= self.fronts.len(), SetupRefusal::TooMany { most: 32 }),
        ])
    }

    /// The first refusal of `channel`.
    fn channel_refusal(
        &self,
        number: u32,
        read: &Option<Pattern>,
        pattern: &[u8],
        buffer: &[u8],
    ) -> Option<SetupRefusal>
        ensures answer { result ≡ channel_refusal self.now number read.now pattern.now buffer.now }
        ensures sound { AreSound self.now }
    {
        let has_channel = checks::has_channel(self.channels.as_slice(), number);
        let has_buffer = self.has_buffer(buffer);
        first_refusal(&[
            refused_if(self.opened, SetupRefusal::Opened),
            refused_if(15 < number, SetupRefusal::BadChannel),
            refused_if(has_channel, SetupRefusal::SameChannel),
            refused_if(read.is_none(), SetupRefusal::BadPattern),
            refused_if(checks::is_compressed(pattern), SetupRefusal::Compressed),
            refused_if(!has_buffer, SetupRefusal::NoBuffer),
        ])
    }

    /// The first refusal of `analyzer`.
    fn analyzer_refusal(
        &self,
        read: &Result<Name, NameRefusal>,
        name: &[u8],
        buffer: &[u8],
    ) -> Option<SetupRefusal>
        ensures answer { result ≡ analyzer_refusal self.now read.now name.now buffer.now }
        ensures sound { AreSound self.now }
    {
        let is_named = self.is_member(name);
        let has_buffer = self.has_buffer(buffer);
        first_refusal(&[
            refused_if(self.opened, SetupRefusal::Opened),
            name_refusal(read),
            refused_if(is_named, SetupRefusal::SameName),
            refused_if(!has_buffer, SetupRefusal::NoBuffer),
            refused_if(8 <= self.analyzers.len(), SetupRefusal::TooMany { most: 8 }),
        ])
    }

    /// Whether a member of the session has this name.
    fn is_member(&self, name: &[u8]) -> bool
        ensures { result ≡ is_member_name self.now name.now }
    {
        checks::is_same(b"Logger", name) || self.is_declared(name)
    }

    /// Whether a front-end or an analyzer has this name.
    fn is_declared(&self, name: &[u8]) -> bool
        ensures { result ≡ is_declared_name self.now name.now }
    {
        checks::front_named(self.fronts.as_slice(), name)
            || checks::analyzer_named(self.analyzers.as_slice(), name)
    }

    /// Whether another buffer than `SYSTEM` has this name.
    fn is_taken(&self, name: &[u8]) -> bool
        ensures { result ≡ is_taken_name self.now.buffers name.now }
    {
        !checks::is_same(b"SYSTEM", name) && self.has_buffer(name)
    }

    /// Whether a buffer of this name is there.
    fn has_buffer(&self, name: &[u8]) -> bool
        ensures { result ≡ has_buffer self.now.buffers name.now }
    {
        checks::has_buffer(self.buffers.as_slice(), name)
    }

    /// The number of the buffer of this name; 0 where there is none.
    fn number_of_buffer(&self, name: &[u8]) -> u32
        ensures { result ≡ number_of_buffer self.now name.now }
    {
        match checks::buffer_named(self.buffers.as_slice(), name) {
            Some(place) => place as u32,
            None => 0,
        }
    }

    /// How many buffers there are behind a `buffer` line, and how many bytes they have together.
    #[tactic(auto, using(crate::proofs::Sizes::count_system, crate::proofs::Sizes::count_other, crate::proofs::Sizes::total_system, crate::proofs::Sizes::total_other))]
    fn sizes_with(&self, name: &[u8], size: u32) -> (usize, u64)
        ensures count { result.0 ≡ length (buffers_with self.now.buffers name.now size) }
        ensures total { result.1 ≡ total_size (buffers_with self.now.buffers name.now size) }
    {
        let buffers = self.buffers.as_slice();
        let count = buffers.len();
        let total = checks::total_size(buffers);
        if checks::is_same(b"SYSTEM", name) {
            let system = u64::from(buffers[0].size);
            return (count, total - system + u64::from(size));
        }
        (count + 1, total + u64::from(size))
    }

    /// One more buffer, or another size of `SYSTEM`, where that is allowed.
    fn add_buffer(&mut self, name: Name, size: u32)
        requires { AreSound (with_buffer self.old name size) }
        ensures { self.new ≡ with_buffer self.old name size }
    {
        if checks::is_same(b"SYSTEM", name.as_slice()) {
            let name = self.buffers.as_slice()[0].name;
            self.buffers.set(0, BufferDeclared { name, size });
        } else {
            self.buffers.push(BufferDeclared { name, size });
        }
    }

    /// One more front-end, where that is allowed.
    fn add_front(&mut self, front: FrontDeclared)
        requires { AreSound (record self.old { fronts = self.old.fronts ++ front ∷ [] }) }
        ensures { self.new ≡ record self.old { fronts = self.old.fronts ++ front ∷ [] } }
    {
        self.fronts.push(front);
    }

    /// One more channel, where that is allowed.
    fn add_channel(&mut self, channel: ChannelSpec)
        requires { AreSound (record self.old { channels = self.old.channels ++ channel ∷ [] }) }
        ensures { self.new ≡ record self.old { channels = self.old.channels ++ channel ∷ [] } }
    {
        self.channels.push(channel);
    }

    /// One more analyzer, where that is allowed.
    fn add_analyzer(&mut self, analyzer: AnalyzerDeclared)
        requires { AreSound (record self.old {
          analyzers = self.old.analyzers
              ++ analyzer ∷ [];
        }) }
        ensures { self.new ≡ record self.old { analyzers = self.old.analyzers ++ analyzer ∷ [] } }
    {
        self.analyzers.push(analyzer);
    }

    /// Declares a front-end where there is none.
    fn default_front(&mut self)
        ensures { self.new ≡ record self.old { fronts = or_default default_front self.old.fronts } }
    {
        if self.fronts.as_slice().is_empty() {
            self.add_front(FrontDeclared {
                name: default_name(),
                id: 1,
                mask: 0,
                buffer: 0,
                limit: u32::MAX,
            });
        }
    }

    /// Declares a channel where there is none.
    fn default_channel(&mut self)
        ensures { self.new ≡ record
            self.old { channels = or_default default_channel self.old.channels } }
    {
        if self.channels.as_slice().is_empty() {
            self.add_channel(ChannelSpec {
                number: 0,
                pattern: Pattern::with_parts(b"run", b".mid"),
                buffer: 0,
                id: ANY,
                mask: ANY,
                sub_bytes: 0,
            });
        }
    }
}
