//! Small guests, and kernels that are to run them.

ghost use Rattle.std.specs.Prelude.{◌≡◌, ◌≤◌, [], All, IfOk, length};
ghost use Rattle.kernel_core.specs.Kernel.{MayHave, machine_of};
ghost use Rattle.kernel_core.specs.Machine.{work};
ghost use Rattle.kernel_core.specs.Settings.{IsSettings};
ghost use Rattle.kernel_core.specs.Start.{thread_count};
ghost use Rattle.lwc_types.specs.declared.limits.TheConstants.{MOST_STEPS};

use guest_asm::assemble;
use kernel_core::{Job, Kernel, Settings};
use lazy_world::LazyWorld;
use lwc_base::{Requests, Sequence};
use std::alloc::{AllocError, Global};
use std::process::Abort;
use std::test::Fail;

/// Stores 7, loads it again and halts.
const STORE_LOAD: &str = ".entry 0
.page 0 -
LI r1, 7
STW r1, r0, 0
LDW r2, r0, 0
HALT
";

/// Two threads over one page: the second loads what the first stores.
const TWO_THREADS: &str = ".entry 0
.entry 3
.page 0 -
LI r5, 7
STW r5, r4, 0
HALT
LDW r6, r4, 0
HALT
";

/// What each of many threads does over one page: it stores 7 and loads it again.
const ONE_OF_MANY: &str = ".page 0 -
LI r5, 7
STW r5, r4, 0
LDW r6, r4, 0
HALT
";

/// Reads one byte, which has to be 0, raises a counter in its page, and replies with it.
const COUNTER_HANDLER: &str = ".entry 0
.page 0 -
LI r2, 8
LI r3, 1
SYS 4
LDB r5, r4, 8
JNZ r5, bad
LDW r6, r4, 0
ADDI r6, r6, 1
STW r6, r4, 0
LI r1, 1
LI r2, 0
LI r3, 1
SYS 5
HALT
bad: LDW r6, r4, 1
";

/// A kernel of this guest, with room for this many steps, of which it has kept none.
fn kernel_of(
    alloc: Global,
    guest: &str,
    requests: Requests,
    steps: u32,
    settings: &Settings,
) -> Result<Kernel<LazyWorld>, Fail>
    requires settings { IsSettings settings.now }
    requires requests { MayHave settings.now.job requests }
    requires steps { steps ≤ MOST_STEPS }
    ensures { IfOk result (λ kernel. kernel.steps ≡ []) }
{
    let image = assemble(alloc, guest.as_bytes())?;
    Ok(Kernel::open(alloc, &image, requests, steps, settings)?)
}

/// A kernel that is to run this guest, with room for this many steps.
fn run_of(alloc: Global, guest: &str, steps: u32) -> Result<Kernel<LazyWorld>, Fail>
    requires { steps ≤ MOST_STEPS }
    ensures { IfOk result (λ kernel. kernel.steps ≡ []) }
{
    let settings = Settings {
        frames: 4096,
        budget: 10000,
        job: Job::Run,
    };
    let requests = Sequence::of(Vec::new(alloc));
    kernel_of(alloc, guest, requests, steps, &settings)
}

/// A kernel with room for three steps of a guest that stores, loads and halts.
pub fn run_of_three_steps(alloc: Global) -> Result<Kernel<LazyWorld>, Fail> {
    run_of(alloc, STORE_LOAD, 3)
}

/// Stops unless the kernel has room for just the steps that its threads may make.
fn check_room<R: Abort>(rt: &R, kernel: &Kernel<LazyWorld>)
    ensures { kernel.now.room ≡ work (machine_of kernel.now) }
{
    assert!(rt; kernel.work() == kernel.room());
}

/// A kernel that is to run two threads, of which the second loads what the first stores.
pub fn run_of_two<R: AllocGlobal + Abort>(rt: &R) -> Result<Kernel<LazyWorld>, Fail>
    ensures fresh { IfOk result (λ kernel. kernel.steps ≡ []) }
    ensures room { IfOk result (λ kernel. kernel.room ≡ work (machine_of kernel)) }
    ensures threads { IfOk result (λ kernel. thread_count kernel.inputs ≡ 2) }
{
    let kernel = run_of(rt.alloc(), TWO_THREADS, 20000)?;
    assert!(rt; kernel.thread_count() == 2);
    check_room(rt, &kernel);
    Ok(kernel)
}

/// A guest of this many threads, each of which does what `ONE_OF_MANY` says.
fn guest_of_many(alloc: Global, threads: u32) -> Result<String, AllocError> {
    let mut guest = String::new(alloc);
    for _thread in 0..threads {
        guest.push_str(".entry 0\n")?;
    }
    guest.push_str(ONE_OF_MANY)?;
    Ok(guest)
}

/// A kernel that is to run this many threads, each of which stores 7 in the page that they share and loads it again.
pub fn run_of_many<R: AllocGlobal + Abort>(rt: &R, threads: u32) -> Result<Kernel<LazyWorld>, Fail>
    requires { threads ≤ 16 }
    ensures fresh { IfOk result (λ kernel. kernel.steps ≡ []) }
    ensures room { IfOk result (λ kernel. kernel.room ≡ work (machine_of kernel)) }
{
    let guest = guest_of_many(rt.alloc(), threads)?;
    let kernel = run_of(rt.alloc(), guest.as_str(), threads * 10000)?;
    check_room(rt, &kernel);
    Ok(kernel)
}

/// Requests of one byte each.
fn requests_of(alloc: Global, bytes: &[u8]) -> Result<Requests, AllocError>
    ensures count { IfOk result (λ requests. length requests ≡ length bytes.now) }
    ensures short { IfOk result (All (λ request. length request ≤ 1)) }
{
    let mut requests = Vec::new(alloc);
    'bytes: for byte in bytes {
        requests.push(Sequence::of(vec![in alloc; *byte]?))?;
    }
    Ok(Sequence::of(requests))
}

/// A kernel of which workers are to serve requests of one byte each.
pub fn serve_of<R: AllocGlobal + Abort>(
    rt: &R,
    bytes: &[u8],
    workers: u32,
) -> Result<Kernel<LazyWorld>, Fail>
    requires few { length bytes.now ≤ 8 }
    requires workers { (1 ≤ workers) × (workers ≤ 16) }
    ensures fresh { IfOk result (λ kernel. kernel.steps ≡ []) }
    ensures room { IfOk result (λ kernel. kernel.room ≡ work (machine_of kernel)) }
{
    let settings = Settings {
        frames: 100,
        budget: 100,
        job: Job::Serve { workers },
    };
    // As many steps as `Kernel::work` counts: the budget and 1 for each request, and 1 for each worker.
    let steps = bytes.len() as u32 * 101 + workers;
    let requests = requests_of(rt.alloc(), bytes)?;
    let kernel = kernel_of(rt.alloc(), COUNTER_HANDLER, requests, steps, &settings)?;
    check_room(rt, &kernel);
    Ok(kernel)
}
