ghost use Rattle.std.specs.Prelude.{◌≡◌, ◌<◌, ◌^◌, ℕ, IfOk, IfSome, IfNone, length};

use daq_types::{FileName, NoMemory};
use std::alloc::Global;

/// What a number is in use for.
#[derive(Clone, Copy)]
pub enum Usage {
    Free,
    Writing(FileName),
    Reading(FileName),
}

/// The numbers under which files are used.
#[derive(Drop)]
pub struct UseTable {
    pub uses: Vec<Usage>,
    ghost few: { length uses.items < 2 ^ 32 },
}

impl UseTable {
    ghost use Rattle.daq_io.specs.declared.uses.Usage.TheVariants.{Free};
    ghost use Rattle.daq_io.specs.Uses.{use_at, free_numbers, ChangesUse, CountsUse};

    /// So many numbers, of which none is in use.
    pub fn new(alloc: Global, count: u32) -> Result<UseTable, NoMemory>
        ensures free { IfOk result (λ made. (number : ℕ) → use_at made.uses.items number ≡ Free) }
        ensures count { IfOk result (λ made. length made.uses.items ≡ count) }
        ensures all_free { IfOk result (λ made. free_numbers made.uses.items ≡ count) }
    {
        let mut uses = Vec::new(alloc);
        for _ in 0..count {
            uses.push(Usage::Free)?;
        }
        Ok(UseTable { uses })
    }

    /// A number that is not in use.
    pub fn free(&self) -> Option<u32>
        ensures inside { IfSome result (λ number. number < length self.now.uses.items) }
        ensures free { IfSome result (λ number. use_at self.now.uses.items number ≡ Free) }
        ensures none { IfNone result (free_numbers self.now.uses.items ≡ 0) }
    {
        for (number, usage) in self.uses.iter().enumerate() {
            if let Usage::Free = usage {
                return Some(number as u32);
            }
        }
        None
    }

    /// What a number is in use for.
    pub fn usage(&self, number: u32) -> Usage
        ensures { result ≡ use_at self.now.uses.items number }
    {
        match self.uses.get(number as usize) {
            Some(usage) => *usage,
            None => Usage::Free,
        }
    }

    /// Gives a number this use.
    pub fn assign(&mut self, number: u32, usage: Usage)
        requires { number < length self.old.uses.items }
        ensures changed { ChangesUse self.old.uses.items self.new.uses.items number usage }
        ensures counted { CountsUse self.old.uses.items self.new.uses.items number usage }
    {
        self.uses[number as usize] = usage;
    }
}
