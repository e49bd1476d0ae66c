use thiserror::Error;

/// Why bytes are no bank area: the first thing that is wrong.
#[derive(Clone, Copy, Debug, PartialEq, Eq, Error)]
pub enum BankFault {
    /// There are too few bytes for the front of the area, for the length that it states, or for a bank's header.
    #[error("the banks end at byte {at}, too early")]
    Short {
        /// How many bytes there are.
        at: u64,
    },
    /// The flags name none of the three formats.
    #[error("{found} names no format of banks")]
    BadFlags {
        /// The flags.
        found: u32,
    },
    /// More bytes stand there than the area states, or the data of a bank with their padding pass the end.
    #[error("the size at byte {at} is wrong")]
    BadSize {
        /// 0 for the area, and the place of its header for a bank.
        at: u64,
    },
}

/// Why a bank was not added.
#[derive(Clone, Copy, Debug, PartialEq, Eq, Error)]
pub enum BankRefusal {
    /// The data have more than 65,535 bytes, and the format gives the size 16 bits.
    #[error("{len} bytes do not fit a bank of this format")]
    TooLong {
        /// The bytes of the data.
        len: u64,
    },
    /// The type is above 65,535, and the format gives it 16 bits.
    #[error("type {tid} does not fit a bank of this format")]
    BadTid {
        /// The type.
        tid: u32,
    },
    /// The whole would be longer than the limit.
    #[error("the banks would take {need} bytes")]
    NoRoom {
        /// How long the whole would be.
        need: u64,
    },
}
