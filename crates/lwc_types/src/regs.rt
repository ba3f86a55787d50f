ghost use Rattle.std.specs.Prelude.{◌≡◌};
ghost use Rattle.lwc_types.specs.Registers.{fresh_registers};

/// The registers of a thread: sixteen of 64 bits, and the count of the instruction that comes next.
#[derive(Clone, Copy, Debug, PartialEq, Eq)]
pub struct Regs {
    pub r: [u64; 16],
    pub pc: u64,
}

impl Regs {
    /// All registers 0, with the given instruction next (`fresh_registers`).
    pub fn fresh(pc: u64) -> Regs
        ensures { result ≡ fresh_registers pc }
    {
        Regs { r: [0; 16], pc }
    }
}
