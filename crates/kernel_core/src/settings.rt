/// What a kernel does: it runs the threads of its image, or workers serve requests.
#[derive(Clone, Copy, PartialEq, Eq)]
pub enum Job {
    Run,
    Serve { workers: u32 },
}

/// How a kernel is set up (`IsSettings` has the limits).
#[derive(Clone, Copy, PartialEq, Eq)]
pub struct Settings {
    /// The number of frames.
    pub frames: u32,
    /// The number of steps that a thread may make; in a serve, for each request.
    pub budget: u32,
    /// What the kernel does.
    pub job: Job,
}

/// Why no kernel was opened.
#[derive(Clone, Copy, Debug, PartialEq, Eq)]
pub enum OpenFault {
    OutOfMemory,
    /// The image has more pages than there are frames.
    ImageTooLarge { pages: u32, frames: u32 },
}
