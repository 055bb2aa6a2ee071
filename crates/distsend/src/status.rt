//! How a run ends.
ghost use Rattle.std.specs.Prelude.{◌≡◌};
ghost use Rattle.distsend.specs.Exit.{exit_of};

/// How a run ended.
#[derive(Clone, Copy, Debug, PartialEq, Eq)]
pub enum Status {
    /// The script was replayed, and its text put.
    Done,
    /// The script was refused, and its fault put.
    BadScript,
    /// The words are no command; that was put.
    Usage,
    /// The source could not be read; nothing was put.
    ReadFault,
    /// The sink failed; a front of what belongs there was put.
    WriteFault,
    /// Memory was wanting; nothing was put.
    Memory,
}

/// The exit status of the program.
pub fn exit_of(status: Status) -> u8
    ensures { result ≡ exit_of status }
{
    match status {
        Status::Done => 0,
        Status::BadScript => 1,
        Status::Usage => 2,
        Status::ReadFault => 3,
        Status::WriteFault => 4,
        Status::Memory => 5,
    }
}
