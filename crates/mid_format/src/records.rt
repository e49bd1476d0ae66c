ghost use Rattle.std.specs.Prelude.{◌≡◌};

use event::Header;

/// The id of the record that begins a run file.
pub const BEGIN_ID: u16 = 0x8000;

/// The id of the record that ends it.
pub const END_ID: u16 = 0x8001;

/// The trigger mask of both records, "MI" in the bytes of a file.
pub const RECORD_MASK: u16 = 0x494D;

/// The most bytes of data that one of the two records has.
pub const MAX_DUMP: u32 = 268_435_456;

/// The header of the record that begins the file of this run, in front of a dump of the database of so many bytes.
pub fn begin_record(run: u32, time: u32, dump_len: u32) -> Header
    ensures { result ≡ record {
      event_id = 32768;
      trigger_mask = 18765;
      serial_number = run;
      time_stamp = time;
      data_size = dump_len;
    } }
{
    Header {
        event_id: BEGIN_ID,
        trigger_mask: RECORD_MASK,
        serial_number: run,
        time_stamp: time,
        data_size: dump_len,
    }
}

/// The header of the record that ends the file of this run.
pub fn end_record(run: u32, time: u32, dump_len: u32) -> Header
    ensures { result ≡ record {
      event_id = 32769;
      trigger_mask = 18765;
      serial_number = run;
      time_stamp = time;
      data_size = dump_len;
    } }
{
    Header {
        event_id: END_ID,
        trigger_mask: RECORD_MASK,
        serial_number: run,
        time_stamp: time,
        data_size: dump_len,
    }
}
