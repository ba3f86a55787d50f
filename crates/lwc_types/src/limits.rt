use crate::key::PageNumber;

/// The most pages of a context, which one of an image of form 2 has; the number of each is below it.
pub const MOST_PAGES: PageNumber = 16384;

/// The pages of a context of an image of form 1.
pub const PAGES_OF_FORM_ONE: PageNumber = 1024;

/// The most ranges of a context: runs of consecutive pages that are all its own, or all common of one group.
pub const MOST_RANGES: u32 = 64;

/// The most items of a specifier.
pub const MOST_ITEMS: usize = 32;

/// The most live contexts of one job.
pub const MOST_CONTEXTS_OF_JOB: u32 = 32;

/// The most live groups of one job.
pub const MOST_GROUPS_OF_JOB: u32 = 64;

/// The most live contexts of a world.
pub const MOST_CONTEXTS: u32 = 529;

/// The most live groups of a world.
pub const MOST_GROUPS: u32 = 1024;

/// The most jobs of a world: one for each request, and job 0.
pub const MOST_JOBS: u32 = 1025;

/// The most frames of a world.
pub const MOST_FRAMES: u32 = 65536;

/// The most threads of a run, and the most workers of a serve.
pub const MOST_THREADS: u32 = 16;

/// The most roots of a search for the contexts that are reached: the contexts of threads, and the homes.
pub const MOST_ROOTS: u32 = 32;

/// The most steps that one thread may make.
pub const MOST_BUDGET: u32 = 100000;

/// The most steps of a whole run.
pub const MOST_STEPS: u32 = 16000000;

/// The most places of pages, contexts and groups alike. Each has a tree of at most 529 nodes, a change takes at
/// most 1058 more, and a store has at most 1048576.
pub const MOST_PAGE_PLACES: u32 = 1980;

/// The most places of slots, contexts and groups alike.
pub const MOST_SLOT_PLACES: u32 = 65536;

/// The most runs of pages that one change of a place names: one for each edge of an item or a segment.
pub const MOST_PAGE_RUNS: usize = 193;

/// The most roots that a world remembers between two reaps.
pub const MOST_KEPT_ROOTS: usize = 64;

/// The most instructions of an image.
pub const MOST_INSTRUCTIONS: u32 = 65536;

/// The most files of an image.
pub const MOST_FILES: u32 = 64;

/// The most bytes that the files of an image have together.
pub const MOST_FILE_BYTES: u32 = 1048576;

/// The most requests of a serve.
pub const MOST_REQUESTS: u32 = 1024;

/// The most bytes of a request.
pub const MOST_REQUEST_BYTES: usize = 4096;

/// The most bytes that one read or write may ask for.
pub const MOST_BYTES_OF_CALL: usize = 4096;

/// The most bytes of a reply.
pub const MOST_REPLY_BYTES: usize = 4096;

/// The most bytes of the console.
pub const MOST_CONSOLE_BYTES: usize = 65536;

/// The most slots that an image fills.
pub const MOST_IMAGE_SLOTS: u32 = 62;

/// The most bytes of an image.
pub const MOST_IMAGE_BYTES: usize = 75497472;

/// The most bytes of an image of form 1.
pub const MOST_BYTES_OF_FORM_ONE: usize = 8388608;

/// The most bytes of a schedule.
pub const MOST_SCHEDULE_BYTES: usize = 16777216;

/// The most bytes of a source.
pub const MOST_SOURCE_BYTES: usize = 167772160;

/// The most bytes of a file of requests.
pub const MOST_REQUEST_FILE_BYTES: usize = 8390656;
