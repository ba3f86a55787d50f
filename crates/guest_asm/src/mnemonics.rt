//! The mnemonics of instructions, read.

ghost use Rattle.std.specs.Prelude.{◌≡◌, ◌∷◌, []};
ghost use Rattle.guest_asm.specs.Statements as spec;

use guest_isa::Op;

/// The operation with a mnemonic.
pub(crate) fn op_named(word: &[u8]) -> Option<Op>
    ensures { result ≡ spec.op_named word.now }
{
    match word {
        [a, b] => op_of_two(*a, *b),
        [a, b, c] => op_of_three(*a, *b, *c),
        [a, b, c, d] => op_of_four(*a, *b, *c, *d),
        _ => None,
    }
}

/// The operation with a mnemonic of two letters.
#[tactic(auto, unfolding(crate::specs::Statements::op_named))]
fn op_of_two(a: u8, b: u8) -> Option<Op>
    ensures { result ≡ spec.op_named (a ∷ b ∷ []) }
{
    match (a, b) {
        (b'L', b'I') => Some(Op::Li),
        (b'O', b'R') => Some(Op::Or),
        (b'E', b'Q') => Some(Op::Eq),
        (b'J', b'Z') => Some(Op::Jz),
        (b'J', b'R') => Some(Op::Jr),
        _ => None,
    }
}

/// The operation with a mnemonic of three letters.
#[tactic(auto, unfolding(crate::specs::Statements::op_named))]
fn op_of_three(a: u8, b: u8, c: u8) -> Option<Op>
    ensures { result ≡ spec.op_named (a ∷ b ∷ c ∷ []) }
{
    match (a, b, c) {
        (b'L', b'I', b'H') => Some(Op::Lih),
        (b'L', b'T', b'U') => Some(Op::Ltu),
        (b'L', b'D', b'B') => Some(Op::Ldb),
        (b'L', b'D', b'W') => Some(Op::Ldw),
        (b'S', b'T', b'B') => Some(Op::Stb),
        (b'S', b'T', b'W') => Some(Op::Stw),
        (b'S', b'Y', b'S') => Some(Op::Sys),
        (b'S', b'U', b'B') => Some(Op::Sub),
        (b'S', b'H', b'L') => Some(Op::Shl),
        (b'S', b'H', b'R') => Some(Op::Shr),
        (b'J', b'M', b'P') => Some(Op::Jmp),
        (b'J', b'N', b'Z') => Some(Op::Jnz),
        (b'J', b'A', b'L') => Some(Op::Jal),
        (b'M', b'O', b'V') => Some(Op::Mov),
        (b'M', b'U', b'L') => Some(Op::Mul),
        (b'A', b'D', b'D') => Some(Op::Add),
        (b'A', b'N', b'D') => Some(Op::And),
        (b'X', b'O', b'R') => Some(Op::Xor),
        _ => None,
    }
}

/// The operation with a mnemonic of four letters.
#[tactic(auto, unfolding(crate::specs::Statements::op_named))]
fn op_of_four(a: u8, b: u8, c: u8, d: u8) -> Option<Op>
    ensures { result ≡ spec.op_named (a ∷ b ∷ c ∷ d ∷ []) }
{
    match (a, b, c, d) {
        (b'A', b'D', b'D', b'I') => Some(Op::Addi),
        (b'D', b'I', b'V', b'U') => Some(Op::Divu),
        (b'R', b'E', b'M', b'U') => Some(Op::Remu),
        (b'H', b'A', b'L', b'T') => Some(Op::Halt),
        _ => None,
    }
}
