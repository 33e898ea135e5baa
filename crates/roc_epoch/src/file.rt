//! Which of two files a message is of: the one that its sender ran as it sent it, or neither.
ghost use Rattle.std.specs.Prelude.{◌≡◌};
ghost use Rattle.roc_epoch.specs.Files.{is_between, own_file, file_of, is_for};

use roc_msg::Msg;

/// The file that a message is of.
#[derive(Clone, Copy, Debug, PartialEq, Eq)]
pub enum File {
    /// That which every node begins with.
    First,
    /// The grown one.
    Second,
    /// None: nodes tell one another by it that they go over from the one to the other.
    Neither,
}

/// Whether a message is of neither file, whoever sends it: a drained or a switched. Takes no memory.
pub fn is_between(msg: &Msg) -> bool
    ensures { result ≡ is_between msg.now }
{
    matches!(msg, Msg::Drained { .. } | Msg::Switched { .. })
}

/// The file that a node runs, which has switched or not. Takes no memory.
pub fn own_file(switched: bool) -> File
    ensures { result ≡ own_file switched }
{
    if switched { File::Second } else { File::First }
}

/// The file of a message that a node sends, which has switched or not. Takes no memory.
pub fn file_of(switched: bool, msg: &Msg) -> File
    ensures { result ≡ file_of switched msg.now }
{
    if is_between(msg) {
        File::Neither
    } else {
        own_file(switched)
    }
}

/// Whether a node takes notice of a message of a file: where it is of the node's own file, or is a drained or a switched. Each other one it skips. Takes no memory.
pub fn is_for(switched: bool, file: File, msg: &Msg) -> bool
    ensures { result ≡ is_for switched file msg.now }
{
    is_between(msg) || own_file(switched) == file
}
