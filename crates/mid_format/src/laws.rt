//! Laws of reading a run file: each function does nothing, and its contract is the law. `MidReader::next` keeps `HasRead`.

ghost use Rattle.std.specs.Prelude.{◌≡◌, ◌≢◌, ◌≤◌, ◌+◌, ◌^◌, ◌++◌, ℕ, List, [], length, Option, Some, None};
ghost use Rattle.daq_types.specs.declared.events.Event.{Event};
ghost use Rattle.event.specs.declared.head.Header.{Header};
ghost use Rattle.mid_format.specs.declared.faults.MidFault.{MidFault};
ghost use Rattle.mid_format.specs.declared.faults.MidFault.TheVariants.{ReadFault};
ghost use Rattle.mid_format.specs.declared.progress.Progress.{Progress};
ghost use Rattle.mid_format.specs.Faults.{run_at};
ghost use Rattle.mid_format.specs.HasRead.{HasRead, IsMidFault, begins_at};
ghost use Rattle.mid_format.specs.ReadLaws.{AreSameRun, IsWholeFile, ReadsWhole};

/// A new reader has read nothing of its source.
pub fn nothing_was_read()
    ensures { (start : ℕ) → (first : Option (List ℕ)) → start ≤ 2 ^ 62 → HasRead start first first
        (begins_at start) [] }
{}

/// Where the end of the file was given, the bytes of the source are a run file with just the events that were given.
pub fn whole_file()
    ensures { (start : ℕ) → (text : List ℕ) → (now : Option (List ℕ)) → (p : Progress)
        → (end : Header) → (events : List Event) → HasRead start (Some text) now p events → p.fault ≡ None → p.last
        ≡ Some end → ReadsWhole text p end events }
{}

/// A fault that was given is a first fault of the bytes, unless the source failed.
pub fn first_fault()
    ensures { (start : ℕ) → (text : List ℕ) → (now : Option (List ℕ)) → (p : Progress)
        → (f : MidFault) → (events : List Event) → HasRead start (Some text) now p events
        → p.fault ≡ Some f → f ≢ ReadFault → IsMidFault start text f }
{}

/// Bytes have one first fault at most, and a run file has none, unless it and the files before it have more than 2^62 bytes.
pub fn one_fault()
    ensures one { (start : ℕ) → (text : List ℕ) → (f g : MidFault) → IsMidFault start text f
        → IsMidFault start text g → f ≡ g }
    ensures none { (start : ℕ) → (text : List ℕ) → (run time0 : ℕ) → (dump0 : List ℕ)
        → (events : List Event) → (time1 : ℕ) → (dump1 : List ℕ) → (f : MidFault)
        → IsWholeFile text run time0 dump0 events time1 dump1 → start + length text ≤ 2 ^ 62
        → IsMidFault start text f → ⊥ }
{}

/// Bytes are a run file in one way: of one run, with one list of events.
pub fn one_reading()
    ensures { (text : List ℕ) → (run time0 : ℕ) → (dump0 : List ℕ) → (events : List Event)
        → (time1 : ℕ) → (dump1 : List ℕ) → (run' time0' : ℕ) → (dump0' : List ℕ)
        → (events' : List Event) → (time1' : ℕ) → (dump1' : List ℕ)
        → IsWholeFile text run time0 dump0 events time1 dump1
        → IsWholeFile text run' time0' dump0' events' time1' dump1'
        → AreSameRun run run' events events' }
{}

/// The events given so far are the first of the file's.
pub fn first_events()
    ensures { (text : List ℕ) → (run time0 : ℕ) → (dump0 : List ℕ) → (events : List Event)
        → (time1 : ℕ) → (dump1 : List ℕ) → (start : ℕ) → (now : Option (List ℕ))
        → (p : Progress) → (given : List Event)
        → IsWholeFile text run time0 dump0 events time1 dump1
        → HasRead start (Some text) now p given → (more : List Event) × (events ≡ given ++ more) }
{}

/// Where the begin record was read, its number is that of the run of the bytes; where it was not, and there is a fault of
/// theirs, they are of no run.
pub fn run_was_read()
    ensures read { (start : ℕ) → (text : List ℕ) → (now : Option (List ℕ)) → (p : Progress)
        → (events : List Event) → (begin : Header) → HasRead start (Some text) now p events
        → p.begin ≡ Some begin → run_at start text ≡ Some begin.serial_number }
    ensures unread { (start : ℕ) → (text : List ℕ) → (now : Option (List ℕ)) → (p : Progress)
        → (events : List Event) → (f : MidFault) → HasRead start (Some text) now p events
        → p.begin ≡ None → p.fault ≡ Some f → f ≢ ReadFault → run_at start text ≡ None }
    ensures whole { (start : ℕ) → (text : List ℕ) → (run time0 : ℕ) → (dump0 : List ℕ)
        → (events : List Event) → (time1 : ℕ) → (dump1 : List ℕ)
        → IsWholeFile text run time0 dump0 events time1 dump1 → start + length text ≤ 2 ^ 62
        → run_at start text ≡ Some run }
{}
