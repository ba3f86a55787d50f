ghost use Rattle.std.specs.Prelude.{◌≡◌};
ghost use Rattle.lwcrun_inputs.specs.Statuses.{exit_number};

/// The exit status of the program.
#[derive(Clone, Copy, PartialEq, Eq)]
pub enum ExitStatus {
    /// All was read, run and written.
    Ok,
    /// Out of memory.
    NoMemory,
    /// The line is not accepted.
    Usage,
    /// A fetch of a file that the line names failed.
    ReadFault,
    /// A write to the output failed.
    WriteFault,
    /// The image or the source is not in its grammar or limits.
    ImageRefused,
    /// The schedule, the requests, the vault or the script is not in its grammar or limits.
    InputRefused,
    /// The image, with the vault if there is one, has more pages than there are frames.
    ImageTooLarge,
}

impl ExitStatus {
    /// The exit status as a number, 0 to 7 (`exit_number`).
    pub fn number(self) -> u8
        ensures { result ≡ exit_number self }
    {
        match self {
            ExitStatus::Ok => 0,
            ExitStatus::NoMemory => 1,
            ExitStatus::Usage => 2,
            ExitStatus::ReadFault => 3,
            ExitStatus::WriteFault => 4,
            ExitStatus::ImageRefused => 5,
            ExitStatus::InputRefused => 6,
            ExitStatus::ImageTooLarge => 7,
        }
    }
}
