//! The commands of a debugger.

ghost use Rattle.std.specs.Prelude.{◌≡◌, ◌≤◌, ◌<◌, length, slice_get, Some};

use lwc_base::Name;
use std::marker::Model;

/// The most commands of a script.
pub const MOST_COMMANDS: usize = 64;

/// A command of a script. The first three move to another place of the run, the others show something of the
/// run at the place.
#[derive(Clone, Copy, Debug, PartialEq, Eq)]
pub enum Command {
    /// To the place after `n` steps.
    Goto { n: u32 },
    /// `n` steps on.
    Forward { n: u32 },
    /// `n` steps back.
    Back { n: u32 },
    /// Thread `t`.
    Thread { t: u32 },
    /// The context of this name.
    Context { name: Name },
    /// The bytes of page `p` of the context of this name.
    Page { name: Name, p: u32 },
    /// What is in slot `n` of the context of this name.
    Slot { name: Name, n: u32 },
    /// The number of frames in use.
    Used,
}

/// At most `MOST_COMMANDS` commands, in order.
#[derive(Drop)]
pub struct Script {
    commands: Vec<Command>,
}

impl Model for Script {
    ghost use Rattle.std.specs.Prelude.{◌≤◌, List, length};
    ghost use Rattle.lwc_debug.specs.declared.command.Command.{Command};
    ghost use Rattle.lwc_debug.specs.declared.command.TheConstants.{MOST_COMMANDS};

    ghost Value = { List Command };

    ghost view = { λ script. script.commands.items };

    ghost invariant = { λ script. length script.commands.items ≤ MOST_COMMANDS };
}

impl Script {
    /// The script of these commands. It takes no memory.
    pub fn of(commands: Vec<Command>) -> Script
        requires { length commands.items ≤ MOST_COMMANDS }
        ensures { result ≡ commands.items }
    {
        Script { commands }
    }

    /// The number of commands.
    pub fn len(&self) -> usize
        ensures count { result ≡ length self.now }
        ensures few { length self.now ≤ MOST_COMMANDS }
    {
        self.commands.len()
    }

    /// The command of this number, from 0 on.
    pub fn get(&self, index: usize) -> Command
        requires { index < length self.now }
        ensures { slice_get self.now index ≡ Some result }
    {
        self.commands[index]
    }
}
