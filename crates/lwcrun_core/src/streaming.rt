ghost use Rattle.std.specs.Prelude.{◌≡◌, ◌≤◌, ℕ, IfOk, OnErr, Some, length, map, slice_get};
ghost use Rattle.guest_image.specs.Limits.{IsImage};
ghost use Rattle.kernel_core.specs.Histories.{IsComplete};
ghost use Rattle.kernel_core.specs.Kernel.{CanOpen};
ghost use Rattle.kernel_core.specs.Machine.{work};
ghost use Rattle.kernel_core.specs.Runs.{run};
ghost use Rattle.kernel_core.specs.Start.{inputs_of, start};
ghost use Rattle.lwc_types.specs.declared.limits.TheConstants.{MOST_STEPS};
ghost use Rattle.lwc_io.specs.Outside.{FilesView};
ghost use Rattle.lwc_stream.specs.Replies.{IsWritten};
ghost use Rattle.lwc_text.specs.Report.{replies_text};
ghost use Rattle.lwcrun_core.specs.StreamEnds.{StreamEnded};
ghost use Rattle.lwcrun_core.specs.Works as works;
ghost use Rattle.lwcrun_core.specs.Works.{plan_by, server_task};
ghost use Rattle.lwcrun_line.specs.Lines.{AreServeSettings};
ghost use Rattle.lwcrun_inputs.specs.Plans as plans;
ghost use Rattle.lwcrun_inputs.specs.Plans.{AreFetchesOf};
ghost use Rattle.lwcrun_inputs.specs.Reading.{Fetched};
ghost use Rattle.lwcrun_inputs.specs.Views.{end_of, outside};
ghost use Rattle.process_core.specs.Running.{AreAllOf, Carried, IsNewPass};

use crate::gathering::server_files;
use crate::running::open_process;
use guest_image::Image;
use kernel_core::{Kernel, Settings};
use lwc_base::{OutOfMemory, Requests};
use lwc_io::{Files, Gate, Sink, write_whole};
use lwc_stream::{Streamed, stream_all};
use lwc_text::rest_of_report;
use lwcrun_inputs::Ending;
use process_core::{Process, ProcessPasses};
use std::alloc::Global;
use std::sync::Wait;
use std::thread::Threads;
use world_face::World;

/// Reads the image and the requests of these names, serves the requests, writes each reply as soon as it and all
/// earlier ones are there, and at the end the other lines of the report.
pub fn stream<'a, R: Threads + Wait + Sync, F: Files, O: Sink, G: Gate>(
    rt: &R,
    alloc: Global,
    files: &mut F,
    out: &mut O,
    gate: &G,
    image: &'a str,
    requests: &'a str,
    settings: &Settings,
) -> Ending<'a>
    requires settings { AreServeSettings settings.now }
    ensures ended { StreamEnded
        (outside (F.seen files.old) (F.seen files.new) (O.seen out.old) (O.seen out.new))
        (plan_by (server_task works.Streaming image.now requests.now settings.now)) (end_of result) }
    ensures fetches { Fetched
        (AreFetchesOf (F.seen files.old).contents
        (plan_by (server_task works.Streaming image.now requests.now settings.now)))
        (F.seen files.old).fetches (F.seen files.new).fetches }
{
    match server_files(alloc, files, image, requests, settings) {
        Ok((image, requests)) => {
            stream_requests(rt, alloc, out, gate, &image, requests, settings)
        }
        Err(ending) => ending,
    }
}

/// Serves the requests by the image, and writes the replies and then the other lines.
fn stream_requests<'a, R: Threads + Wait + Sync, O: Sink, G: Gate>(
    rt: &R,
    alloc: Global,
    out: &mut O,
    gate: &G,
    image: &Image,
    requests: Requests,
    settings: &Settings,
) -> Ending<'a>
    requires can { CanOpen (inputs_of image.now requests settings.now) }
    requires serve { AreServeSettings settings.now }
    requires few { work (start (inputs_of image.now requests settings.now)) ≤ MOST_STEPS }
    ensures { (files : FilesView) → StreamEnded
        (outside files files (O.seen out.old) (O.seen out.new))
        (plans.Write (works.Streaming (inputs_of image.now requests settings.now))) (end_of result) }
{
    let count = requests.len() as u32;
    match open_process(alloc, image, requests, settings) {
        Ok((process, passes)) => stream_process(rt, alloc, out, gate, process, passes, count),
        Err(_) => Ending::NoMemory,
    }
}

/// Runs the threads of a serve of this number of requests to their ends, and writes the replies meanwhile and then
/// the other lines. After a write that failed it writes no more.
fn stream_process<'a, R: Threads + Wait + Sync, W: World, O: Sink, G: Gate>(
    rt: &R,
    alloc: Global,
    out: &mut O,
    gate: &G,
    process: Process<W>,
    passes: ProcessPasses<W>,
    requests: u32,
) -> Ending<'a>
    requires can { CanOpen process.name.inputs }
    requires serve { AreServeSettings process.name.inputs.settings }
    requires count { requests ≡ length process.name.inputs.requests }
    requires all { AreAllOf process passes.items }
    requires new { (i : ℕ) (p : Carried) → slice_get passes.items i ≡ Some p → IsNewPass process i p }
    ensures { (files : FilesView) → StreamEnded
        (outside files files (O.seen out.old) (O.seen out.new))
        (plans.Write (works.Streaming process.name.inputs)) (end_of result) }
{
    let Ok((kernel, failed)) = stream_replies(rt, alloc, out, gate, process, passes, requests)
    else {
        return Ending::NoMemory;
    };
    if failed {
        drop(kernel);
        return Ending::Unwritten;
    }
    let rest = rest_of_report(alloc, &kernel);
    drop(kernel);
    let Ok(rest) = rest else {
        return Ending::NoMemory;
    };
    match write_whole(out, rest.as_slice()) {
        Ok(()) => Ending::Done,
        Err(_) => Ending::Unwritten,
    }
}

/// Runs the threads of a serve of this number of requests to their ends, and writes the lines of the replies
/// meanwhile. It gives the kernel back, and says whether a write failed. The only error is out of memory; nothing
/// was written then.
fn stream_replies<R: Threads + Wait + Sync, W: World, O: Sink, G: Gate>(
    rt: &R,
    alloc: Global,
    out: &mut O,
    gate: &G,
    process: Process<W>,
    passes: ProcessPasses<W>,
    requests: u32,
) -> Result<(Kernel<W>, bool), OutOfMemory>
    requires can { CanOpen process.name.inputs }
    requires serve { AreServeSettings process.name.inputs.settings }
    requires count { requests ≡ length process.name.inputs.requests }
    requires all { AreAllOf process passes.items }
    requires new { (i : ℕ) (p : Carried) → slice_get passes.items i ≡ Some p → IsNewPass process i p }
    ensures inputs { IfOk result (λ s. s.0.inputs ≡ process.name.inputs) }
    ensures complete { IfOk result (λ s. IsComplete (start process.name.inputs) s.0.steps) }
    ensures written { IfOk result (λ s. IsWritten s.1 (O.seen out.old) (O.seen out.new)
        (replies_text (run (start process.name.inputs) s.0.steps))) }
    ensures unwritten { OnErr result (O.seen out.new ≡ O.seen out.old) }
{
    let Streamed { failed, passes } = stream_all(rt, alloc, &process, passes, gate, requests, out)?;
    Ok((process.close(passes), failed))
}
