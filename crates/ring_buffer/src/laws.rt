//! What the reads of a ring come to, over the definitions alone.
ghost use Rattle.std.specs.Prelude.{◌≡◌, ◌≤◌, ◌+◌, ◌-◌, ℕ, List, [], ◌∷◌, ◌++◌, length, Some, Ok};
ghost use Rattle.std.specs.List.{sum};
ghost use Rattle.daq_types.specs.declared.runs.Kind.TheVariants.{All, NonBlocking};
ghost use Rattle.buffer_core.specs.declared.client.Client.{Client};
ghost use Rattle.buffer_core.specs.declared.entry.BufferEntry.TheVariants.{Attach};
ghost use Rattle.buffer_core.specs.Slots.{slot_at};
ghost use Rattle.buffer_core.specs.Window.{opening};
ghost use Rattle.buffer_core.specs.Histories.{History, IsLegal, replay};
ghost use Rattle.buffer_core.specs.Continued.{sent_in};
ghost use Rattle.buffer_core.specs.Readers.{KeepsLife};
ghost use Rattle.ring_buffer.specs.Rings.{RisesAtMost};
ghost use Rattle.ring_buffer.specs.CountedWindows.{CountedWindow};
ghost use Rattle.ring_buffer.specs.LifeReads.{reads_of_client, reads_by_call, bytes_by_call, count_got, AreReadsFew};
ghost use Rattle.ring_buffer.specs.ReadSamples.{eight_sent, dropped_and_refused, pushed_and_received, none_received};

/// What a ring counts over any calls on its buffer, one after the other, is at most what each of them may read.
pub fn reads_of_calls()
    ensures often { (old new : CountedWindow) → (calls : History) →
        AreReadsFew old new calls →
        RisesAtMost old.reads new.reads (sum (reads_by_call old.window calls)) }
    ensures much { (old new : CountedWindow) → (calls : History) →
        AreReadsFew old new calls →
        RisesAtMost old.bytes_read new.bytes_read (sum (bytes_by_call old.window calls)) }
{}

/// Over the life of a client its receives that gave it an event or found none read the ring at most
/// as often as events were accepted since it was attached, and once more for each event that it
/// got. From any later point on they read it at most as often as there are events from its next
/// place there to the last one accepted, and once more for each event that it gets.
pub fn reads_of_life()
    ensures whole { (size : ℕ) → (before life : History) → (caller client : ℕ) → (name : List ℕ) →
        IsLegal (opening size) (before ++ (caller, Attach name (Ok client)) ∷ life) →
        KeepsLife client life →
        reads_of_client client
        (replay (opening size) (before ++ (caller, Attach name (Ok client)) ∷ [])) life
        ≤ length (sent_in life) + count_got client life }
    ensures rest { (size : ℕ) → (before life : History) → (client : ℕ) → (reader : Client) →
        IsLegal (opening size) (before ++ life) →
        slot_at (replay (opening size) before).clients client ≡ Some reader →
        KeepsLife client life →
        reads_of_client client (replay (opening size) before) life
        ≤ length (sent_in (before ++ life)) - reader.next + count_got client life }
{}

/// An event that is dropped is read at most once, as is the one that stands in the way of a send. An event that is
/// received is read at most twice, and eight that are passed over at most eight times.
pub fn reads_few()
    ensures sends { IsLegal (opening 256) (eight_sent 2 2 All ++ dropped_and_refused) }
    ensures drops { reads_by_call (replay (opening 256) (eight_sent 2 2 All)) dropped_and_refused
        ≡ 1 ∷ 1 ∷ [] }
    ensures pushes { IsLegal (opening 256) (eight_sent 1 1 NonBlocking ++ pushed_and_received) }
    ensures receives { reads_by_call (replay (opening 256) (eight_sent 1 1 NonBlocking))
        pushed_and_received ≡ 1 ∷ 2 ∷ [] }
    ensures passes { IsLegal (opening 256) (eight_sent 2 1 All ++ none_received) }
    ensures finds_none { reads_by_call (replay (opening 256) (eight_sent 2 1 All)) none_received
        ≡ 8 ∷ [] }
{}
