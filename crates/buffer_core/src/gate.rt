ghost use Rattle.std.specs.Prelude.{◌≡◌, ℕ, true, false, IfOk, IfErr, OnOk, OnErr, Ok, Err};
ghost use Rattle.buffer_core.specs.declared.gate.RunGate.TheVariants.{Shut, Running, Paused};
ghost use Rattle.buffer_core.specs.declared.replies.MarkRefusal.TheVariants.{WrongGate};
ghost use Rattle.buffer_core.specs.Calls.{is_running, is_paused, is_open, begin_reply_at};

use crate::replies::MarkRefusal;

/// Whether events of a run may be sent.
#[derive(Clone, Copy, Debug, PartialEq, Eq)]
pub enum RunGate {
    /// No run is on.
    Shut,
    /// The run of this start number is on.
    Running(u32),
    /// The run of this start number is paused: none of its events is taken.
    Paused(u32),
}

impl RunGate {
    /// Whether the run of this start number is on, and not paused.
    pub fn is_running(self, start: u32) -> bool
        ensures { result ≡ is_running self start }
    {
        match self {
            RunGate::Running(open) => open == start,
            RunGate::Shut | RunGate::Paused(_) => false,
        }
    }

    /// Whether the run of this start number is paused.
    pub fn is_paused(self, start: u32) -> bool
        ensures { result ≡ is_paused self start }
    {
        match self {
            RunGate::Paused(open) => open == start,
            RunGate::Shut | RunGate::Running(_) => false,
        }
    }

    /// Whether the run of this start number is on, paused or not.
    pub fn is_open(self, start: u32) -> bool
        ensures { result ≡ is_open self start }
    {
        match self {
            RunGate::Running(open) | RunGate::Paused(open) => open == start,
            RunGate::Shut => false,
        }
    }

    /// The gate once the run of this start number has begun, or why it may not begin where this is the last start
    /// number.
    pub fn begun(self, last: u32, start: u32) -> Result<RunGate, MarkRefusal>
        ensures gate { IfOk result (λ gate. gate ≡ Running start) }
        ensures begins { OnOk result ((accepted : ℕ) →
            begin_reply_at self last start accepted ≡ Ok accepted) }
        ensures refused { IfErr result (λ refusal. (accepted : ℕ) →
            begin_reply_at self last start accepted ≡ Err refusal) }
    {
        match self {
            RunGate::Shut => {
                if start <= last {
                    return Err(MarkRefusal::OldStart { last });
                }
                Ok(RunGate::Running(start))
            }
            RunGate::Running(open) | RunGate::Paused(open) => {
                Err(MarkRefusal::GateOpen { start: open })
            }
        }
    }

    /// The gate once the run of this start number is paused, or why it may not be.
    pub fn paused(self, start: u32) -> Result<RunGate, MarkRefusal>
        ensures gate { IfOk result (λ gate. gate ≡ Paused start) }
        ensures running { OnOk result (is_running self start ≡ true) }
        ensures refused { IfErr result (λ refusal. refusal ≡ WrongGate self) }
        ensures not_running { OnErr result (is_running self start ≡ false) }
    {
        if !self.is_running(start) {
            return Err(MarkRefusal::WrongGate { gate: self });
        }
        Ok(RunGate::Paused(start))
    }

    /// The gate once the paused run of this start number goes on, or why it may not.
    pub fn resumed(self, start: u32) -> Result<RunGate, MarkRefusal>
        ensures gate { IfOk result (λ gate. gate ≡ Running start) }
        ensures paused { OnOk result (is_paused self start ≡ true) }
        ensures refused { IfErr result (λ refusal. refusal ≡ WrongGate self) }
        ensures not_paused { OnErr result (is_paused self start ≡ false) }
    {
        if !self.is_paused(start) {
            return Err(MarkRefusal::WrongGate { gate: self });
        }
        Ok(RunGate::Running(start))
    }

    /// The gate once the run of this start number has ended, or why it may not end.
    pub fn ended(self, start: u32) -> Result<RunGate, MarkRefusal>
        ensures gate { IfOk result (λ gate. gate ≡ Shut) }
        ensures open { OnOk result (is_open self start ≡ true) }
        ensures refused { IfErr result (λ refusal. refusal ≡ WrongGate self) }
        ensures not_open { OnErr result (is_open self start ≡ false) }
    {
        if !self.is_open(start) {
            return Err(MarkRefusal::WrongGate { gate: self });
        }
        Ok(RunGate::Shut)
    }
}
