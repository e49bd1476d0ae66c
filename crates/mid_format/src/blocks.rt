ghost use Rattle.std.specs.Prelude.{◌≡◌, ◌≤◌, ◌<◌, ◌++◌, [], OnErr, OnOk, drop, length, min, take, vec_len};
ghost use Rattle.std.specs.Io.KnownBytes.{Consumes, IsAtEnd, Keeps};
ghost use Rattle.daq_io.specs.Counts.{CountsFault};

use daq_io::{ByteTrace, Failed, Source, copy_front};
use std::marker::Model;

/// A source of which some bytes lie at hand: they can be looked at before they are taken.
pub trait Ahead: Source {
    /// The bytes at hand, the first of those left. There may be none while more are left: a `read` brings them.
    fn peek(&self) -> &[u8]
        ensures { result.now ≡ (Self.told self.now).at_hand };

    /// Takes so many of the bytes at hand, as a `read` would give them.
    fn pass(&mut self, count: usize)
        requires { count ≤ length (Self.told self.old).at_hand }
        ensures taken { Consumes (Self.told self.old).left (Self.told self.new).left
            (take count (Self.told self.old).at_hand) }
        ensures gave { (Self.told self.new).gave ≡ (Self.told self.old).gave
            ++ take count (Self.told self.old).at_hand }
        ensures behind { (Self.told self.new).at_hand ≡ drop count (Self.told self.old).at_hand }
        ensures faults { (Self.told self.new).faults ≡ (Self.told self.old).faults }
        ensures origin { (Self.told self.new).origin ≡ (Self.told self.old).origin };
}

/// A source that is read in blocks. What was read of it and not taken yet lies at hand.
#[derive(Drop)]
pub struct BlockSource<S> {
    source: S,
    block: Vec<u8>,
    start: usize,
    end: usize,
    gave: ByteTrace,
}

impl<S> Model for BlockSource<S> {
    ghost use Rattle.std.specs.Prelude.{◌≤◌, ◌<◌, length, slice_range};
    ghost use Rattle.mid_format.specs.AtHand.{Blockwise};

    ghost Value = { Blockwise S };

    ghost view = { λ b. record {
      source = b.source;
      at_hand = slice_range b.block.items b.start b.end;
      gave = b.gave;
    } };

    ghost invariant = { λ b. (b.start ≤ b.end) × (b.end ≤ length b.block.items)
        × (0 < length b.block.items) };
}

impl<S: Source> BlockSource<S> {
    /// The bytes of a source, read into this block, as many at a time as it is long.
    pub fn new(source: S, block: Vec<u8>) -> BlockSource<S>
        requires { 0 < vec_len block }
        ensures value { result ≡ record { source = source; at_hand = []; gave = [] } }
        ensures left { (⟦<BlockSource<S> as Source>⟧.told result).left ≡ (S.told source).left }
    {
        BlockSource {
            source,
            block,
            start: 0,
            end: 0,
            gave: ByteTrace::new(),
        }
    }

    /// The source, without what lies at hand.
    pub fn into_source(self) -> S
        ensures { result ≡ self.source }
    {
        let BlockSource {
            source,
            block: _,
            start: _,
            end: _,
            gave: _,
        } = self;
        source
    }

    /// Reads the next block, where nothing is left of the one before. No byte is the end.
    fn fill(&mut self) -> Result<(), Failed>
        ensures read { OnOk result (Consumes (S.told self.old.source).left (S.told self.new.source).left
            self.new.at_hand) }
        ensures end { OnOk result (self.new.at_hand ≡ [] → IsAtEnd (S.told self.new.source).left) }
        ensures failed { OnErr result (Keeps (S.told self.old.source).left (S.told self.new.source).left) }
        ensures none { OnErr result (self.new.at_hand ≡ []) }
        ensures faults { CountsFault (S.told self.old.source).faults (S.told self.new.source).faults result }
        ensures origin { (S.told self.new.source).origin ≡ (S.told self.old.source).origin }
        ensures gave { self.new.gave ≡ self.old.gave }
    {
        self.start = 0;
        self.end = 0;
        match self.source.read(self.block.as_mut_slice()) {
            Ok(count) => {
                self.end = count;
                Ok(())
            }
            Err(failed) => Err(failed),
        }
    }

    /// Moves the first bytes at hand to the front of `into`, and answers how many.
    fn take(&mut self, into: &mut [u8]) -> usize
        ensures count { result ≡ min (length self.old.at_hand) (length into.old) }
        ensures moved { self.old.at_hand ≡ take result into.new ++ self.new.at_hand }
        ensures source { self.new.source ≡ self.old.source }
        ensures gave { self.new.gave ≡ self.old.gave ++ take result into.new }
    {
        let (filled, _) = self.block.as_slice().split_at(self.end);
        let (_, at_hand) = filled.split_at(self.start);
        let count = copy_front(at_hand, into);
        self.start += count;
        self.gave.more(into, count);
        count
    }
}

impl<S: Source> Source for BlockSource<S> {
    ghost use Rattle.std.specs.Io.KnownBytes.{prepend_known};

    ghost told = { λ b. record {
      left = prepend_known b.at_hand (S.told b.source).left;
      gave = b.gave;
      faults = (S.told b.source).faults;
      at_hand = b.at_hand;
      origin = (S.told b.source).origin;
    } };

    fn read(&mut self, into: &mut [u8]) -> Result<usize, Failed> {
        if self.start == self.end {
            self.fill()?;
        }
        Ok(self.take(into))
    }
}

impl<S: Source> Ahead for BlockSource<S> {
    fn peek(&self) -> &[u8] {
        let (filled, _) = self.block.as_slice().split_at(self.end);
        let (_, at_hand) = filled.split_at(self.start);
        at_hand
    }

    fn pass(&mut self, count: usize) {
        let (filled, _) = self.block.as_slice().split_at(self.end);
        let (_, at_hand) = filled.split_at(self.start);
        self.gave.more(at_hand, count);
        self.start += count;
    }
}
