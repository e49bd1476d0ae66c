ghost use Rattle.std.specs.Prelude.{◌≡◌, ◌≢◌, [], IfErr, IfOk, IsErr, Ok, string_bytes};
ghost use Rattle.std.specs.IoError.{error_kind};
ghost use Rattle.std.specs.Vec.Iter.{into_iter_steps};
ghost use Rattle.daq_std.specs.GivenWords.{IsBehindName};

use daq_types::{NoMemory, Words};
use std::alloc::Global;
use std::env::Args;
use std::io::{self, ErrorKind};

/// The words behind the program's name.
fn words_behind_name(alloc: Global, mut given: Args) -> Result<Words, NoMemory>
    ensures { IfOk result (IsBehindName into_iter_steps string_bytes given) }
{
    let mut words = Words::new(alloc);
    let _name = given.next();
    for word in given {
        words.add(alloc, word.as_str())?;
    }
    Ok(words)
}

/// The words of the command line that the system gives, without the program's name. None of them where one is not UTF-8, so
/// that the line has no form.
pub fn given_words(alloc: Global, given: io::Result<Args>) -> Result<Words, NoMemory>
    ensures words { IfOk given (λ args. IfOk result (IsBehindName into_iter_steps string_bytes
        args)) }
    ensures no_text { IfErr given (λ error. error_kind error ≡ ErrorKind.InvalidData
        → result ≡ Ok []) }
    ensures none { IfErr given (λ error. error_kind error ≢ ErrorKind.InvalidData
        → IsErr result) }
{
    match given {
        Ok(given) => words_behind_name(alloc, given),
        Err(error) => match error.kind() {
            ErrorKind::InvalidData => Ok(Words::new(alloc)),
            _ => Err(NoMemory),
        },
    }
}
