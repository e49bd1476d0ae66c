use crate::byte_list::Bytes;

/// An event as a front-end sends it and as a run file stores it: the fields of the MIDAS event header, but for the
/// length, which is that of the data.
#[derive(Drop)]
pub struct Event {
    /// Which kind of event it is; each front-end has its own.
    pub id: u16,
    /// The trigger mask, one bit for each trigger that caused it.
    pub mask: u16,
    /// The serial number, from 1 in each run.
    pub serial: u32,
    /// Seconds since 1970.
    pub time: u32,
    /// The data behind the header, mostly a bank area.
    pub body: Bytes,
}
