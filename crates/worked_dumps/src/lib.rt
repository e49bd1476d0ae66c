//! Worked dumps of an online database, which the crates of rows load, save and print, and a worked run file with two of them.
#![tactic(auto)]

/// A dump with older names of types, and with keys of types that the database does not keep.
pub const OLDER: &str = "\
    [/Runinfo]\n\
    State = INT : 1\n\
    Online Mode = INT : 1\n\
    Run number = INT : 41\n\
    Transition in progress = INT : 0\n\
    Start time = STRING : [32] Mon Mar  4 10:11:12 2024\n\
    Start time binary = DWORD : 1709547072\n\
    Stop time = STRING : [32] \n\
    Stop time binary = DWORD : 0\n\n\
    [/Equipment/Trigger/Common]\n\
    Event ID = WORD : 1\n\
    Trigger mask = WORD : 0\n\
    Buffer = STRING : [32] SYSTEM\n\
    Type = INT : 2\n\
    Source = INT : 16777215\n\
    Format = STRING : [8] MIDAS\n\
    Enabled = BOOL : y\n\
    Read on = INT : 257\n\
    Period = INT : 500\n\
    Event limit = DOUBLE : 0\n\
    Hidden = BOOL : n\n\n\
    [/Equipment/Trigger/Settings]\n\
    Gains = FLOAT[2] :\n\
    [0] 1.5\n\
    [1] 2.25\n\
    Names = STRING[2] :\n\
    [32] ADC left\n\
    [32] ADC right\n\
    Delay = DWORD[3] :\n\
    [0] 10\n\
    [1] 20\n\
    [2] 30\n";

/// What is saved once that is loaded into the database of a new session.
pub const SAVED: &str = "\
    [/Runinfo]\n\
    State = INT32 : 1\n\
    Run number = INT32 : 41\n\
    Start time binary = UINT32 : 1709547072\n\
    Stop time binary = UINT32 : 0\n\
    Online Mode = INT32 : 1\n\
    Transition in progress = INT32 : 0\n\
    Start time = STRING : [32] Mon Mar  4 10:11:12 2024\n\
    Stop time = STRING : [32] \n\n\
    [/Equipment]\n\n\
    [/Equipment/Trigger]\n\n\
    [/Equipment/Trigger/Common]\n\
    Event ID = UINT16 : 1\n\
    Trigger mask = UINT16 : 0\n\
    Buffer = STRING : [32] SYSTEM\n\
    Type = INT32 : 2\n\
    Source = INT32 : 16777215\n\
    Format = STRING : [8] MIDAS\n\
    Enabled = BOOL : y\n\
    Read on = INT32 : 257\n\
    Period = INT32 : 500\n\
    Hidden = BOOL : n\n\n\
    [/Equipment/Trigger/Settings]\n\
    Names = STRING[2] :\n\
    [32] ADC left\n\
    [32] ADC right\n\
    Delay = UINT32[3] :\n\
    [0] 10\n\
    [1] 20\n\
    [2] 30\n\n";

/// The begin record of run 1 at time 1000, with the dump that is saved then.
pub const BEGIN: &[u8] = b"\
    \x00\x80\x4D\x49\x01\x00\x00\x00\xE8\x03\x00\x00\xAD\x00\x00\x00\
    [/Runinfo]\n\
    State = INT32 : 1\n\
    Run number = INT32 : 1\n\
    Start time binary = UINT32 : 1000\n\
    Stop time binary = UINT32 : 0\n\n\
    [/Equipment]\n\n\
    [/Equipment/FE]\n\
    Events sent = UINT64 : 0\n\n";

/// The first event of its front-end.
pub const EVENT: &[u8] = b"\
    \x01\x00\x00\x00\x01\x00\x00\x00\xE8\x03\x00\x00\x18\x00\x00\x00\
    \x10\x00\x00\x00\x01\x00\x00\x00\x47\x45\x4E\x30\x06\x00\x04\x00\
    \xAC\x6F\x57\x6C\x00\x00\x00\x00";

/// Its end record at time 1010. The file of that run is the begin record, the event and the end record.
pub const END: &[u8] = b"\
    \x01\x80\x4D\x49\x01\x00\x00\x00\xF2\x03\x00\x00\xB0\x00\x00\x00\
    [/Runinfo]\n\
    State = INT32 : 3\n\
    Run number = INT32 : 1\n\
    Start time binary = UINT32 : 1000\n\
    Stop time binary = UINT32 : 1010\n\n\
    [/Equipment]\n\n\
    [/Equipment/FE]\n\
    Events sent = UINT64 : 0\n\n";
