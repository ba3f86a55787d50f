//! The lines of reports.

ghost use Rattle.std.specs.Prelude.{◌≡◌, ◌<◌, [], length};
ghost use Rattle.lwc_base.specs.Channels.{bytes_in};

use crate::checks::check_equal;
use crate::records::channels_of_one;
use kernel_core::ThreadView;
use lwc_base::{Channels, Fault, Name, OutOfMemory, Regs, Summary, ThreadStatus};
use lwc_text::{context_line, groups_line, reply_line, tail_lines, thread_lines, trap_line};
use snapshot_host::finish;
use std::alloc::Global;
use std::test::Fail;

/// The lines of a thread that ended so, with 7 in register 1 and the most in register 15.
fn lines_of(alloc: Global, status: ThreadStatus) -> Result<Vec<u8>, OutOfMemory> {
    let context = Name { job: 2, k: 30 };
    let mut regs = Regs::fresh(3);
    regs.r[1] = 7;
    regs.r[15] = u64::MAX;
    let view = ThreadView {
        status,
        context,
        regs,
    };
    let mut out = Vec::new(alloc);
    thread_lines(&mut out, 5, &view)?;
    Ok(out)
}

#[test]
fn a_thread_has_two_lines(rt: HostRuntime) -> Result<(), Fail> {
    let fault = Fault::NoFrame;
    for (status, words) in [
        (ThreadStatus::Idle, "idle"),
        (ThreadStatus::Running, "running"),
        (ThreadStatus::Done { code: 9 }, "done 9"),
        (ThreadStatus::Faulted { fault }, "fault 4"),
    ] {
        let out = lines_of(rt.alloc(), status)?;
        let want = format!(in rt.alloc();
            "thread 5 {words} ctx 2.30 pc 3\nregs 5 0 7 0 0 0 0 0 0 0 0 0 0 0 0 0 18446744073709551615\n"
        )?;
        check_equal(&rt, out.as_slice(), want.as_bytes());
    }
    Ok(())
}

/// Appends the line of the first request, which ended so, with the bytes of its reply so far.
fn finished_line(out: &mut Vec<u8>, io: &Channels, status: ThreadStatus) -> Result<(), OutOfMemory>
    requires { 0 < length io.now.requests }
{
    reply_line(out, 0, Some(finish(io, 0, status).view()))
}

/// Appends the lines of a request that has not ended, has ended by a fault, and is done with two bytes of a reply.
fn three_replies(out: &mut Vec<u8>, io: &mut Channels) -> Result<(), OutOfMemory>
    requires one { length io.old.requests ≡ 1 }
    requires none { bytes_in io.old.replies 0 ≡ [] }
{
    let fault = Fault::BadLoad;
    reply_line(out, 0, None)?;
    finished_line(out, io, ThreadStatus::Faulted { fault })?;
    io.append_reply(0, &[1, 0xfe]);
    finished_line(out, io, ThreadStatus::Done { code: 0 })
}

#[test]
fn a_reply_is_its_status_and_bytes(rt: HostRuntime) -> Result<(), Fail> {
    let mut io = channels_of_one(rt.alloc())?;
    let mut out = Vec::new(rt.alloc());
    three_replies(&mut out, &mut io)?;
    let want = b"reply 0 none\nreply 0 fault 2 -\nreply 0 done 0 01fe\n";
    check_equal(&rt, out.as_slice(), want.as_slice());
    Ok(())
}

/// Appends the lines of a context, of a trap and of groups.
fn context_trap_and_groups(out: &mut Vec<u8>) -> Result<(), OutOfMemory> {
    let summary = Summary {
        pages: 2,
        slots: 5,
        uid: 65534,
    };
    context_line(out, Name { job: 1, k: 0 }, &summary)?;
    trap_line(out, Name { job: 1, k: 0 }, Name { job: 0, k: 10 })?;
    groups_line(out, 12)
}

/// Appends the last lines of three reports, of which one has a console, and two have schedules.
fn three_tails(out: &mut Vec<u8>) -> Result<(), OutOfMemory> {
    tail_lines(out, &[0, 0x2a, 0xff], 3, 4, &[0, 10, 15])?;
    tail_lines(out, &[], 0, 0, &[])?;
    tail_lines(out, &[], 0, 0, &[2, 16])
}

#[test]
fn lines_follow_one_another(rt: HostRuntime) -> Result<(), Fail> {
    let mut out = Vec::new(rt.alloc());
    context_trap_and_groups(&mut out)?;
    three_tails(&mut out)?;
    let want = b"context 1.0 pages 2 slots 5 uid 65534\ntrap 1.0 by 0.10\ngroups 12\n\
        console 002aff\nused 3\npeak 4\nsteps 3\nschedule 0af\n\
        console -\nused 0\npeak 0\nsteps 0\nschedule -\n\
        console -\nused 0\npeak 0\nsteps 2\nschedule 210\n";
    check_equal(&rt, out.as_slice(), want.as_slice());
    Ok(())
}
