//! What follows once the sharing of a buffer has ended, for those that know each pass's part of the history alone. Each
//! function does nothing, and its contract is the law. The laws of a buffer's histories are those of `buffer_core`.
ghost use Rattle.std.specs.Prelude.{◌≡◌, ℕ};
ghost use Rattle.buffer_core.specs.Window.{Window};
ghost use Rattle.buffer_core.specs.Histories.{History};
ghost use Rattle.buffer_core.specs.CallersView.{given_in};
ghost use Rattle.turn_lock.specs.History.{IsPartOf};

/// The events that a caller got by its calls, as far as its pass has seen the history, are those that its calls gave in
/// the whole of it.
pub fn got_all()
    ensures { (history seen : History) → (caller : ℕ) → (first : Window) →
        IsPartOf history caller seen →
        given_in caller first history ≡ given_in caller first seen }
{}
