// The tests that a declaration has to pass, each for itself.
ghost use Rattle.std.specs.Prelude.{◌≡◌, ◌<◌, ◌≤◌, ◌^◌, length};
ghost use Rattle.daq_types.specs.Names.{is_compressed};
ghost use Rattle.odb_value.specs.Paths.{same_name};
ghost use Rattle.session_setup.specs.Setup.{is_buffer_size, is_front_id, total_size, buffer_named, has_buffer, front_named, analyzer_named, has_front_id, has_channel};

use crate::declared::{AnalyzerDeclared, BufferDeclared, FrontDeclared};
use mid_logger::ChannelSpec;

/// Whether two names agree but for the case of their letters.
pub(crate) fn is_same(a: &[u8], b: &[u8]) -> bool
    ensures { result ≡ same_name a.now b.now }
{
    a.eq_ignore_ascii_case(b)
}

/// Whether a buffer may have this size.
pub(crate) fn is_buffer_size(size: u32) -> bool
    ensures { result ≡ is_buffer_size size }
{
    size % 8 == 0 && (256 <= size && size <= 268_435_456)
}

/// Whether a front-end's events may have this id.
pub(crate) fn is_front_id(id: u32) -> bool
    ensures { result ≡ is_front_id id }
{
    1 <= id && id <= 32_767
}

/// The place of the buffer of this name.
pub(crate) fn buffer_named(buffers: &[BufferDeclared], name: &[u8]) -> Option<usize>
    ensures { result ≡ buffer_named buffers.now name.now }
{
    buffers
        .iter()
        .position(|buffer| is_same(buffer.name.as_slice(), name))
}

/// Whether a buffer has this name.
pub(crate) fn has_buffer(buffers: &[BufferDeclared], name: &[u8]) -> bool
    ensures { result ≡ has_buffer buffers.now name.now }
{
    buffers
        .iter()
        .any(|buffer| is_same(buffer.name.as_slice(), name))
}

/// Whether a front-end has this name.
pub(crate) fn front_named(fronts: &[FrontDeclared], name: &[u8]) -> bool
    ensures { result ≡ front_named fronts.now name.now }
{
    fronts
        .iter()
        .any(|front| is_same(front.name.as_slice(), name))
}

/// Whether an analyzer has this name.
pub(crate) fn analyzer_named(analyzers: &[AnalyzerDeclared], name: &[u8]) -> bool
    ensures { result ≡ analyzer_named analyzers.now name.now }
{
    analyzers
        .iter()
        .any(|analyzer| is_same(analyzer.name.as_slice(), name))
}

/// Whether a front-end's events have this id.
pub(crate) fn has_front_id(fronts: &[FrontDeclared], id: u32) -> bool
    ensures { result ≡ has_front_id fronts.now id }
{
    fronts.iter().any(|front| u32::from(front.id) == id)
}

/// The id in 16 bits.
pub(crate) fn narrowed(id: u32) -> u16
    requires { id < 2 ^ 16 }
    ensures { result ≡ id }
{
    id as u16
}

/// Whether the names of such a pattern are those of compressed files.
pub(crate) fn is_compressed(pattern: &[u8]) -> bool
    ensures { result ≡ is_compressed pattern.now }
{
    pattern.ends_with(b".lz4") || pattern.ends_with(b".gz") || pattern.ends_with(b".bz2")
}

/// Whether a channel has this number.
pub(crate) fn has_channel(channels: &[ChannelSpec], number: u32) -> bool
    ensures { result ≡ has_channel channels.now number }
{
    channels.iter().any(|channel| channel.number == number)
}

/// How many bytes the buffers have together.
pub(crate) fn total_size(buffers: &[BufferDeclared]) -> u64
    requires { length buffers.now ≤ 8 }
    ensures { result ≡ total_size buffers.now }
{
    let mut total = 0;
    for buffer in buffers {
        total += u64::from(buffer.size);
    }
    total
}
