//! What the errors of banks say to a user.
use bank_format::{BankFault, BankRefusal};
use std::alloc::{AllocError, Global};
use std::fmt::Display;

/// Faults of banks that are read, and what each says.
const FAULTS: &[(BankFault, &str)] = &[
    (
        BankFault::Short { at: 7 },
        "the banks end at byte 7, too early",
    ),
    (
        BankFault::BadFlags { found: 2 },
        "2 names no format of banks",
    ),
    (
        BankFault::BadSize { at: 24 },
        "the size at byte 24 is wrong",
    ),
];

/// Refusals of banks that are written, and what each says.
const REFUSALS: &[(BankRefusal, &str)] = &[
    (
        BankRefusal::TooLong { len: 65_536 },
        "65536 bytes do not fit a bank of this format",
    ),
    (
        BankRefusal::BadTid { tid: 65_536 },
        "type 65536 does not fit a bank of this format",
    ),
    (
        BankRefusal::NoRoom { need: 1_048_584 },
        "the banks would take 1048584 bytes",
    ),
];

/// Whether the error says this.
fn says<E: Display>(alloc: Global, error: &E, text: &str) -> Result<bool, AllocError> {
    let said = format!(in alloc; "{error}")?;
    Ok(said.as_str() == text)
}

#[test]
fn faults_of_banks(rt: HostRuntime) {
    for (fault, text) in FAULTS {
        assert!(rt; matches!(says(rt.alloc(), fault, text), Ok(true)), "{text}");
    }
}

#[test]
fn refusals_of_banks(rt: HostRuntime) {
    for (refusal, text) in REFUSALS {
        assert!(rt;
            matches!(says(rt.alloc(), refusal, text), Ok(true)),
            "{text}"
        );
    }
}
