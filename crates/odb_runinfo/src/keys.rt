ghost use Rattle.std.specs.Prelude.{◌≡◌, IfOk};
ghost use Rattle.daq_types.specs.Names.{IsName};
ghost use Rattle.odb_runinfo.specs.RunKeys.{key_name, key_path, sent_path};

use daq_types::{Name, NoMemory};
use odb_value::Path;
use std::alloc::Global;

/// A key of `/Runinfo`.
#[derive(Clone, Copy, Debug, PartialEq, Eq)]
pub enum RunKey {
    /// The state of the run, an INT32: 1 stopped, 2 paused, 3 running.
    State,
    /// The number of the last run, an INT32.
    RunNumber,
    /// The time of its start, a UINT32.
    StartTime,
    /// The time of its stop, a UINT32; 0 while it is on.
    StopTime,
}

/// The name with this text, which is one.
fn name_of(text: &[u8]) -> Name
    requires { IsName text.now }
    ensures { result ≡ text.now }
{
    match Name::new(text) {
        Ok(name) => name,
        Err(_) => unreachable!(),
    }
}

impl RunKey {
    /// The name of the key.
    pub fn name(&self) -> &'static [u8]
        ensures name { result.now ≡ key_name self.now }
        ensures is_name { IsName result.now }
    {
        match self {
            RunKey::State => b"State",
            RunKey::RunNumber => b"Run number",
            RunKey::StartTime => b"Start time binary",
            RunKey::StopTime => b"Stop time binary",
        }
    }

    /// The path of the key.
    pub fn path(&self, alloc: Global) -> Result<Path, NoMemory>
        ensures { IfOk result (λ path. path ≡ key_path self.now) }
    {
        let directory = name_of(b"Runinfo");
        let name = name_of(self.name());
        let mut path = Path::root(alloc);
        path.push(directory)?;
        path.push(name)?;
        Ok(path)
    }
}

/// The path of the key in which the front-end of this name says how many events it sent.
pub fn sent_path(alloc: Global, front: Name) -> Result<Path, NoMemory>
    ensures { IfOk result (λ path. path ≡ sent_path front) }
{
    let directory = name_of(b"Equipment");
    let name = name_of(b"Events sent");
    let mut path = Path::root(alloc);
    path.push(directory)?;
    path.push(front)?;
    path.push(name)?;
    Ok(path)
}
