//! Laws of the format: each function does nothing, and its contract is the law.

ghost use Rattle.std.specs.Prelude.{◌≡◌, ◌∷◌, [], ◌<◌, ◌^◌, ℕ, List, length};
ghost use Rattle.std.specs.List.{AllByRecursion};
ghost use Rattle.event.specs.Generator.{generated_body};
ghost use Rattle.bank_format.specs.declared.formats.Format.{Format};
ghost use Rattle.bank_format.specs.declared.formats.Format.TheVariants.{Bank16};
ghost use Rattle.bank_format.specs.declared.faults.BankFault.{BankFault};
ghost use Rattle.bank_format.specs.BankAreas.{BankValue, IsBank, IsBankArea, plain_area, plain_banks};
ghost use Rattle.bank_format.specs.Faults.{IsFirstFault};
ghost use Rattle.bank_format.specs.GeneratedLaws.{generated_bank};

/// The bytes of a bank area are of no other: no other format and no other banks are spelled so.
pub fn banks_again()
    ensures { (f g : Format) → (bs cs : List BankValue) → (bytes : List ℕ) → IsBankArea f bs bytes
        → IsBankArea g cs bytes → (f ≡ g) × (bs ≡ cs) }
{}

/// Bytes have one first fault at most, and those of a bank area have none.
pub fn one_fault()
    ensures one { (bytes : List ℕ) → (a b : BankFault) → IsFirstFault bytes a
        → IsFirstFault bytes b → a ≡ b }
    ensures none { (f : Format) → (bs : List BankValue) → (bytes : List ℕ) → (a : BankFault)
        → IsBankArea f bs bytes → IsFirstFault bytes a → ⊥ }
{}

/// What is written with zeros in its reserved words and padding is a bank area of the banks that were written.
pub fn plain_is_area()
    ensures { (f : Format) → (bs : List BankValue) → AllByRecursion (IsBank f) bs
        → length (plain_area f bs) < 2 ^ 32 → IsBankArea f bs (plain_banks f bs) }
{}

/// The body of a generated event is an area of 16-bit banks with the one bank GEN0, whose data are the event's words.
pub fn generated_body_is_plain()
    ensures { (id start k : ℕ) → generated_body id start k
        ≡ plain_banks Bank16 (generated_bank id start k ∷ []) }
{}
