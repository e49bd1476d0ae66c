use console::DatabaseConsole;
use daq_io::Files;
use odb_watch::WatchPort;

/// What the main thread of a session has besides its runs: the online database, as the lines of the script command it, and the
/// clock.
#[derive(Drop)]
pub struct MainSide<D: WatchPort, E: Files, C> {
    pub database: DatabaseConsole<D, E>,
    pub clock: C,
}
