//! The program's statuses.

ghost use Rattle.std.specs.Prelude.{◌≡◌};
ghost use Rattle.osi_commands.specs.Statuses.{exit_code};

use osi_base::Status;

/// The number with which the program ends.
pub(crate) fn exit_code(status: Status) -> u8
    ensures { result ≡ exit_code status }
{
    match status {
        Status::Done => 0,
        Status::Usage => 2,
        Status::ReadFault => 3,
        Status::WriteFault => 4,
        Status::LineFault => 5,
        Status::ModuleRefused => 6,
        Status::ScriptRefused => 7,
        Status::Ended => 8,
        Status::Spent => 9,
        Status::NoMemory => 10,
    }
}
