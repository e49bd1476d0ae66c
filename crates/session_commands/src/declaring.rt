// Declarations, in a session that is not open.
ghost use Rattle.std.specs.Prelude.{◌≡◌, false};
ghost use Rattle.session_commands.specs.SetupReplies.{DeclaresAnalyzer, DeclaresBuffer, DeclaresChannel, DeclaresFront, DoesDeclaration, setup_reply};

use console::Reply;
use daq_types::Kind;
use odb_script::{Declaration, LineText};
use session_setup::{Declarations, SetupRefusal};

/// The reply to a declaration.
fn setup_reply(taken: Result<(), SetupRefusal>) -> Reply
    ensures { result ≡ setup_reply taken }
{
    match taken {
        Ok(()) => Reply::Silent,
        Err(refusal) => Reply::Setup { refusal },
    }
}

/// Answers `buffer NAME SIZE`.
fn declare_buffer(declarations: &mut Declarations, name: LineText<'_>, size: u32) -> Reply
    requires { declarations.old.opened ≡ false }
    ensures did { DeclaresBuffer name.entry size declarations.old result declarations.new }
    ensures closed { declarations.new.opened ≡ false }
{
    setup_reply(declarations.buffer(name.as_slice(), size))
}

/// Answers `equip NAME ID MASK BUFFER LIMIT`.
fn declare_front(
    declarations: &mut Declarations,
    name: LineText<'_>,
    id: u32,
    mask: u16,
    buffer: LineText<'_>,
    limit: u32,
) -> Reply
    requires { declarations.old.opened ≡ false }
    ensures did { DeclaresFront name.entry id mask buffer.entry limit declarations.old result
        declarations.new }
    ensures closed { declarations.new.opened ≡ false }
{
    setup_reply(declarations.equip(name.as_slice(), id, mask, buffer.as_slice(), limit))
}

/// Answers `channel N PATTERN BUFFER ID MASK SUBBYTES`.
fn declare_channel(
    declarations: &mut Declarations,
    number: u32,
    pattern: LineText<'_>,
    buffer: LineText<'_>,
    id: u16,
    mask: u16,
    sub_bytes: u32,
) -> Reply
    requires { declarations.old.opened ≡ false }
    ensures did { DeclaresChannel number pattern.entry buffer.entry id mask sub_bytes
        declarations.old result declarations.new }
    ensures closed { declarations.new.opened ≡ false }
{
    setup_reply(declarations.channel(
        number,
        pattern.as_slice(),
        buffer.as_slice(),
        id,
        mask,
        sub_bytes,
    ))
}

/// Answers `analyzer NAME BUFFER ID MASK all` or `some`.
fn declare_analyzer(
    declarations: &mut Declarations,
    name: LineText<'_>,
    buffer: LineText<'_>,
    id: u16,
    mask: u16,
    kind: Kind,
) -> Reply
    requires { declarations.old.opened ≡ false }
    ensures did { DeclaresAnalyzer name.entry buffer.entry id mask kind declarations.old result
        declarations.new }
    ensures closed { declarations.new.opened ≡ false }
{
    setup_reply(declarations.analyzer(name.as_slice(), buffer.as_slice(), id, mask, kind))
}

/// Answers a declaration.
pub fn declare(declarations: &mut Declarations, declaration: Declaration<'_>) -> Reply
    requires { declarations.old.opened ≡ false }
    ensures did { DoesDeclaration declaration.entry declarations.old result declarations.new }
    ensures closed { declarations.new.opened ≡ false }
{
    match declaration {
        Declaration::Buffer { name, size } => declare_buffer(declarations, name, size),
        Declaration::Equip {
            name,
            id,
            mask,
            buffer,
            limit,
        } => declare_front(declarations, name, id, mask, buffer, limit),
        Declaration::Channel {
            number,
            pattern,
            buffer,
            id,
            mask,
            sub_bytes,
        } => declare_channel(declarations, number, pattern, buffer, id, mask, sub_bytes),
        Declaration::Analyzer {
            name,
            buffer,
            id,
            mask,
            kind,
        } => declare_analyzer(declarations, name, buffer, id, mask, kind),
    }
}
