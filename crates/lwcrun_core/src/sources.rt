ghost use Rattle.lwcrun_inputs.specs.Ends.{Ended};
ghost use Rattle.lwcrun_core.specs.Works.{IsText, plan_of};
ghost use Rattle.lwcrun_line.specs.Lines as commands;
ghost use Rattle.lwcrun_inputs.specs.Plans.{AreFetchesOf};
ghost use Rattle.lwcrun_inputs.specs.Reading.{Fetched};
ghost use Rattle.lwcrun_inputs.specs.Views.{end_of, outside};

use crate::writing::write_work;
use guest_dis::disassemble;
use guest_image::write_image;
use lwc_io::{Files, Sink};
use lwcrun_inputs::{Ending, image_in, source_in};
use std::alloc::Global;

/// Reads the source of this name, and writes the bytes of the image that it makes.
pub fn asm<'a, F: Files, O: Sink>(
    alloc: Global,
    files: &mut F,
    out: &mut O,
    source: &'a str,
) -> Ending<'a>
    ensures ended { Ended IsText
        (outside (F.seen files.old) (F.seen files.new) (O.seen out.old) (O.seen out.new))
        (plan_of (commands.Asm source.now)) (end_of result) }
    ensures fetches { Fetched (AreFetchesOf (F.seen files.old).contents (plan_of (commands.Asm source.now)))
        (F.seen files.old).fetches (F.seen files.new).fetches }
{
    match source_in(alloc, files, source) {
        Ok(image) => write_work(out, write_image(alloc, &image)),
        Err(ending) => ending,
    }
}

/// Reads the image of this name, and writes its source.
pub fn dis<'a, F: Files, O: Sink>(
    alloc: Global,
    files: &mut F,
    out: &mut O,
    image: &'a str,
) -> Ending<'a>
    ensures ended { Ended IsText
        (outside (F.seen files.old) (F.seen files.new) (O.seen out.old) (O.seen out.new))
        (plan_of (commands.Dis image.now)) (end_of result) }
    ensures fetches { Fetched (AreFetchesOf (F.seen files.old).contents (plan_of (commands.Dis image.now)))
        (F.seen files.old).fetches (F.seen files.new).fetches }
{
    match image_in(alloc, files, image) {
        Ok(image) => write_work(out, disassemble(alloc, &image)),
        Err(ending) => ending,
    }
}

/// Reads the image of this name, and writes the bytes of the lifted image: the same in form 2.
#[tactic(auto, using(guest_image::proofs::Lifted::lifting))]
pub fn lift<'a, F: Files, O: Sink>(
    alloc: Global,
    files: &mut F,
    out: &mut O,
    image: &'a str,
) -> Ending<'a>
    ensures ended { Ended IsText
        (outside (F.seen files.old) (F.seen files.new) (O.seen out.old) (O.seen out.new))
        (plan_of (commands.Lift image.now)) (end_of result) }
    ensures fetches { Fetched (AreFetchesOf (F.seen files.old).contents (plan_of (commands.Lift image.now)))
        (F.seen files.old).fetches (F.seen files.new).fetches }
{
    match image_in(alloc, files, image) {
        Ok(image) => write_work(out, write_image(alloc, &guest_image::lift(image))),
        Err(ending) => ending,
    }
}
