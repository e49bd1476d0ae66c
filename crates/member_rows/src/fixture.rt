//! A logger of a row, with all that it calls.

ghost use Rattle.std.specs.Prelude.{◌≤◌, ◌<◌};

use crate::calls;
use crate::making::{Port, new_logger, new_ports};
use daq_mem::MemFiles;
use daq_types::{FileName, NoMemory, Order, RunState, Transition};
use loggers::{Logger, Ports};
use member_model::Answer;
use mid_logger::Pulled;
use std::alloc::Global;
use std::marker::Model;
use std::process::Abort;
use std::sync::Wait;

/// A logger with its files and its ports, between two calls. Its run is the first, with start number 1.
#[derive(Drop)]
pub struct Fixture {
    logger: Logger,
    files: MemFiles,
    ports: Ports<Port>,
}

impl Model for Fixture {
    ghost use Rattle.std.specs.Prelude.{ℕ, length, map};
    ghost use Rattle.daq_mem.specs.SeenFiles.{seen_files};
    ghost use Rattle.member_rows.specs.LoggerRows.{row_access, IsRowReady};

    ghost Value = { ℕ };

    ghost view = { λ f. length f.ports };

    ghost invariant = { λ f.
        IsRowReady f.logger (map row_access f.ports) (seen_files f.files).told.seen };
}

impl Fixture {
    /// A new logger of so many channels over these files, which have this limit. Channel n reads buffer n modulo the number of
    /// buffers, of which the first has 1,024 bytes and each other 256.
    pub fn new(
        alloc: Global,
        channels: u32,
        buffers: u32,
        limit: u32,
        files: MemFiles,
    ) -> Result<Fixture, NoMemory>
        requires few { channels ≤ 16 }
        requires some { 0 < buffers }
    {
        let ports = new_ports(alloc, buffers)?;
        let logger = new_logger(alloc, channels, buffers, limit)?;
        Ok(Fixture {
            logger,
            files,
            ports,
        })
    }

    /// Gives the logger a turn at this time, of a run in this state.
    pub fn turn<R: Abort + Wait>(
        &mut self,
        rt: &R,
        alloc: Global,
        transition: Transition,
        time: u32,
        from: RunState,
    ) -> Option<Answer> {
        let order = Order {
            run: 1,
            start: 1,
            time,
            from,
            quota: 1,
        };
        let told = calls::turn(
            rt,
            alloc,
            &mut self.logger,
            &mut self.files,
            &mut self.ports,
            transition,
            &order,
        );
        match told {
            Ok(answer) => answer,
            Err(_) => panic!(rt; "no memory"),
        }
    }

    /// Sends an event of so many bytes in the run with this start number into a buffer, or begins that run there where
    /// there is none.
    pub fn call<R: Wait>(&mut self, rt: &R, buffer: usize, start: u32, event: Option<usize>) {
        calls::call(rt, &mut self.ports, buffer, start, event);
    }

    /// Pulls once on a channel.
    pub fn pull<R: Wait>(&mut self, rt: &R, channel: u32) -> Pulled {
        calls::pull(
            rt,
            &mut self.logger,
            &mut self.files,
            &mut self.ports,
            channel,
        )
    }

    /// Pulls so often on a channel; answers how many events were written.
    pub fn pull_all<R: Wait>(&mut self, rt: &R, channel: u32, times: u32) -> usize {
        let mut wrote = 0;
        for turn in 0..times {
            if let Pulled::Wrote { .. } = self.pull(rt, channel) {
                wrote = usize::wrapping_add(wrote, 1);
            }
        }
        wrote
    }

    /// The answer to the stop.
    pub fn finish(&mut self) -> Option<Answer> {
        self.logger.finish(&mut self.files)
    }

    /// Whether a call on the files failed in a call of the logger.
    pub fn failed(&self) -> bool {
        self.logger.failed()
    }

    /// Whether there is a file of this name.
    pub fn has_file(&self, name: &FileName) -> bool {
        self.files.find(name).is_some()
    }

    /// How many bytes the closed file of this name has; None where there is none, or it is open.
    pub fn closed_bytes(&self, name: &FileName) -> Option<usize> {
        if !self.files.is_closed(name) {
            return None;
        }
        self.files.find(name).map(|bytes| bytes.len())
    }
}
