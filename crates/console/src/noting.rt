ghost use Rattle.std.specs.Prelude.{◌≡◌, ◌≤◌, ◌++◌};
ghost use Rattle.console.specs.DatabaseLines.{file_replied};

use odb_commands::{FileReplies, FileReply};

/// Notes what came of the line of this number on the files, if it called them.
pub fn note_file(replies: &mut FileReplies, number: u64, file: Option<FileReply>)
    requires { 1 ≤ replies.old.room }
    ensures { replies.new.replies ≡ replies.old.replies ++ file_replied number file }
{
    if let Some(came) = file {
        replies.push(number, came);
    }
}
