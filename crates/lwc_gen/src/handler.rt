use guest_isa::{Instr, Op};

/// An instruction: its operation, the registers rd, ra and rb, and the number.
macro_rules! instr {
    ($op:ident, $rd:literal, $ra:literal, $rb:literal, $imm:literal) => {
        Instr {
            op: Op::$op,
            rd: $rd,
            ra: $ra,
            rb: $rb,
            imm: $imm,
        }
    };
}

/// The handler of a generated server. It reads the word x of its request into page 1 and adds it to the first
/// word of page p = 2 + (x mod 298), which is p; it adds 1 to the first word of page 0; and it replies with
/// both sums.
pub const HANDLER: [Instr; 21] = [
    instr!(Li, 2, 0, 0, 4096),
    instr!(Li, 3, 0, 0, 8),
    instr!(Sys, 0, 0, 0, 4),
    instr!(Ldw, 4, 2, 0, 0),
    instr!(Li, 5, 0, 0, 298),
    instr!(Remu, 5, 4, 5, 0),
    instr!(Addi, 5, 5, 0, 2),
    instr!(Li, 6, 0, 0, 4096),
    instr!(Mul, 5, 5, 6, 0),
    instr!(Ldw, 7, 5, 0, 0),
    instr!(Add, 7, 7, 4, 0),
    instr!(Stw, 0, 5, 7, 0),
    instr!(Ldw, 8, 9, 0, 0),
    instr!(Addi, 8, 8, 0, 1),
    instr!(Stw, 0, 9, 8, 0),
    instr!(Li, 1, 0, 0, 1),
    instr!(Mov, 2, 5, 0, 0),
    instr!(Sys, 0, 0, 0, 5),
    instr!(Li, 2, 0, 0, 0),
    instr!(Sys, 0, 0, 0, 5),
    instr!(Halt, 0, 0, 0, 0),
];
