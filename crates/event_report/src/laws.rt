//! Laws of the report's definitions: each function does nothing, and its contract is the law.

ghost use Rattle.std.specs.Prelude.{◌≡◌, Some, None, List, ℕ, length};
ghost use Rattle.daq_types.specs.declared.events.Event.{Event};
ghost use Rattle.bank_format.specs.BankAreas.{BankValue};
ghost use Rattle.bank_format.specs.Faults.{HoldsBanks};
ghost use Rattle.bank_format.specs.Spelled.{IsBytes};
ghost use Rattle.event_report.specs.declared.integers.IntegerType.{IntegerType};
ghost use Rattle.event_report.specs.EventBanks.{banks_of};
ghost use Rattle.event_report.specs.Tallies.{order_number};
ghost use Rattle.event_report.specs.Steps.{id_of, row_number};
ghost use Rattle.event_report.specs.Held.{IsRising};
ghost use Rattle.event_report.specs.Reports.{report_of};

/// The banks that are read of an event's data are those of the bank area that the data are; where they are none, no
/// banks are read.
pub fn banks_of_an_event()
    ensures read { (bs : List BankValue) → (bytes : List ℕ) → HoldsBanks bs bytes → banks_of bytes
        ≡ Some bs }
    ensures stand { (bs : List BankValue) → (bytes : List ℕ) → IsBytes bytes → banks_of bytes
        ≡ Some bs → HoldsBanks bs bytes }
    ensures none { (bytes : List ℕ) → IsBytes bytes
        → ((bs : List BankValue) → ¬ HoldsBanks bs bytes) → banks_of bytes ≡ None }
{}

/// Two names of four bytes with types have the same order number only where they are the same.
pub fn one_number()
    ensures { (a b : List ℕ) → (kind other : IntegerType) → IsBytes a → IsBytes b
        → length a ≡ 4 → length b ≡ 4 → order_number a kind ≡ order_number b other
        → (a ≡ b) × (kind ≡ other) }
{}

/// The rows of a report rise: those of ids by their id, those of banks by name and type. So each stands there once.
pub fn rows_in_order()
    ensures ids { (events : List Event) → IsRising id_of (report_of events).ids.rows }
    ensures banks { (events : List Event) → IsRising row_number (report_of events).banks.rows }
{}
