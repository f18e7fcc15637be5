//! What a command line asks for.
//!
//! Layer: texts that are read; public. Called by `reading` here, and by controller_program.

/// What a command line asks for.
#[derive(Clone, Copy, Debug, PartialEq, Eq)]
pub enum Command {
    /// The rows of each policy.
    Rules,
    /// The way of each packet under each policy.
    Trace,
    /// The updates and packets of the schedule.
    Simulate,
    /// Whether the two policies mean the same.
    Equiv,
    /// The updates and packets of the schedule, and each switch's table beside the plan.
    Audit,
    /// A run of the policies, with a thread for each session and each switch.
    Run,
    /// A run of the policies, and what one reader saw of it meanwhile.
    Watch,
    /// A drive of switches outside, whose ports begin with this one.
    Drive(u16),
    /// The workload of a number from 1 to 1,000.
    Generate(u64),
}
