use crate::checks::check_equal;
use lwc_base::Name;
use lwc_debug::{Command, read_script};
use lwc_text::{InputFault, InputRule};
use std::alloc::Global;
use std::test::Fail;

/// The rule that a script breaks first, and where, if it is refused.
fn refusal(alloc: Global, bytes: &[u8]) -> Option<(InputRule, u64)> {
    match read_script(alloc, bytes) {
        Err(InputFault::Refused { rule, at }) => Some((rule, at)),
        _ => None,
    }
}

/// How many commands a script has, and the last one.
fn commands_of(alloc: Global, text: &[u8]) -> Result<(usize, Option<Command>), InputFault> {
    let script = read_script(alloc, text)?;
    let count = script.len();
    let last = if count == 0 {
        None
    } else {
        Some(script.get(count - 1))
    };
    Ok((count, last))
}

#[test]
fn each_command_is_a_line(rt: HostRuntime) -> Result<(), Fail> {
    let name = Name { job: 1, k: 20 };
    for (text, count, last) in [
        ("goto 1", 1, Command::Goto { n: 1 }),
        ("goto 1\nforward 000000002\n", 2, Command::Forward { n: 2 }),
        (
            "\r\n\nback 999999999\r\n\n",
            1,
            Command::Back { n: 999999999 },
        ),
        ("used\nthread 15", 2, Command::Thread { t: 15 }),
        ("context 1.20\n", 1, Command::Context { name }),
        ("page 01.20 3", 1, Command::Page { name, p: 3 }),
        ("slot 1.020 64", 1, Command::Slot { name, n: 64 }),
        ("used", 1, Command::Used),
    ] {
        let read = commands_of(rt.alloc(), text.as_bytes())?;
        check_equal(&rt, (text, read), (text, (count, Some(last))));
    }
    check_equal(&rt, commands_of(rt.alloc(), b"\n\r\n")?, (0, None));
    Ok(())
}

#[test]
fn other_lines_are_no_commands(rt: HostRuntime) {
    for (text, at) in [
        ("jump 1", 0),
        ("used\ngoto", 5),
        ("used\n\ngoto 1 ", 6),
        (" goto 1", 0),
        ("goto  1", 0),
        ("goto\t1", 0),
        ("goto 1 2", 0),
        ("goto 1000000000", 0),
        ("goto -1", 0),
        ("goto 1\r\r\n", 0),
        ("goto 1\r", 0),
        ("used ", 0),
        (" ", 0),
        ("Used", 0),
        ("context 1", 0),
        ("context 1.2.3", 0),
        ("context .1", 0),
        ("page 0.0", 0),
        ("slot 0.0 1 2", 0),
    ] {
        let refused = refusal(rt.alloc(), text.as_bytes());
        check_equal(
            &rt,
            (text, refused),
            (text, Some((InputRule::BadCommand, at))),
        );
    }
}

#[test]
fn scripts_have_limits(rt: HostRuntime) -> Result<(), Fail> {
    for (line, times, rest, want) in [
        ("used\n", 64, "\n\n", None),
        (
            "used\n",
            64,
            "\nused",
            Some((InputRule::TooManyCommands, 321)),
        ),
        ("used\n", 64, "bad", Some((InputRule::BadCommand, 320))),
        ("\n", 65536, "", None),
        ("x", 65536, "x", Some((InputRule::TooLong, 65536))),
    ] {
        let mut text = String::new(rt.alloc());
        for _ in 0..times {
            text.push_str(line)?;
        }
        text.push_str(rest)?;
        let refused = refusal(rt.alloc(), text.as_bytes());
        check_equal(&rt, (line, refused), (line, want));
    }
    Ok(())
}
