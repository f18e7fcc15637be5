//! How a call ends.
//!
//! Layer: the program; public. Called by `answer`, `report` and `writing` here, and by many crates. Clauses of
//! audit_command and thread_commands name it.
ghost use Rattle.std.specs.Prelude.{◌≡◌};

use report_text::Fault;

/// How a call of the program ended. Its number is the exit status of the program.
#[derive(Clone, Copy, Debug, PartialEq, Eq)]
pub enum Status {
    /// 0: all was done and written.
    Done = 0,
    /// 1: the input was refused, and the line that says where was written.
    Refused = 1,
    /// 2: the words are no command line.
    Usage = 2,
    /// 3: the update halted.
    Halted = 3,
    /// 4: the source failed.
    ReadFault = 4,
    /// 5: the sink failed.
    WriteFault = 5,
    /// 6: a link could not be made.
    NetFault = 6,
    /// 7: a thread could not be started.
    NoThread = 7,
    /// 8: out of memory.
    Memory = 8,
    /// 9: the reporter of drains failed.
    ReportFault = 9,
}

impl Status {
    ghost use Rattle.program_answer.specs.Statuses.{number_of, status_of};

    /// The number, 0 to 9.
    pub fn number(self) -> u8
        ensures { result ≡ number_of self }
    {
        self as u8
    }

    /// How a call ends once the line of a fault is written.
    pub fn of_fault(fault: &Fault) -> Status
        ensures { result ≡ status_of fault.now }
    {
        match fault {
            Fault::Line { .. }
            | Fault::NotEnabled { .. }
            | Fault::NotTwo { .. }
            | Fault::Compile { .. }
            | Fault::Emit { .. } => Status::Refused,
            Fault::Read => Status::ReadFault,
            Fault::Net => Status::NetFault,
            Fault::NoThread => Status::NoThread,
            Fault::Report => Status::ReportFault,
            Fault::Usage => Status::Usage,
        }
    }
}
