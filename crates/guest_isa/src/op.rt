ghost use Rattle.std.specs.Prelude.{◌≡◌, ℕ, not, find};
ghost use Rattle.guest_isa.specs.Opcodes.{number_of, fields_of, mnemonic, op_of, form_of, is_private, is_shared};
ghost use Rattle.guest_isa.specs.Opcodes.{has_target};

/// What an instruction does: one variant for each mnemonic, numbered by its opcode.
#[derive(Clone, Copy, Debug, PartialEq, Eq)]
pub enum Op {
    /// `LI rd, imm`: rd = imm.
    Li = 1,
    /// `LIH rd, imm`: the high half of rd = imm, and its low half stays.
    Lih = 2,
    /// `MOV rd, ra`: rd = ra.
    Mov = 3,
    /// `ADD rd, ra, rb`: rd = ra + rb.
    Add = 4,
    /// `SUB rd, ra, rb`: rd = ra - rb.
    Sub = 5,
    /// `MUL rd, ra, rb`: rd = ra * rb.
    Mul = 6,
    /// `DIVU rd, ra, rb`: the quotient, and 2^64 - 1 where rb is 0.
    Divu = 7,
    /// `REMU rd, ra, rb`: the remainder, and ra where rb is 0.
    Remu = 8,
    /// `AND rd, ra, rb`: bitwise and.
    And = 9,
    /// `OR rd, ra, rb`: bitwise or.
    Or = 10,
    /// `XOR rd, ra, rb`: bitwise exclusive or.
    Xor = 11,
    /// `SHL rd, ra, rb`: ra * 2^(rb mod 64).
    Shl = 12,
    /// `SHR rd, ra, rb`: ra divided by 2^(rb mod 64), rounded down.
    Shr = 13,
    /// `LTU rd, ra, rb`: 1 where ra is below rb, both unsigned, and else 0.
    Ltu = 14,
    /// `EQ rd, ra, rb`: 1 where ra is rb, and else 0.
    Eq = 15,
    /// `ADDI rd, ra, imm`: rd = ra + imm, where imm is signed.
    Addi = 16,
    /// `JMP imm`: pc = imm.
    Jmp = 17,
    /// `JZ ra, imm`: pc = imm where ra is 0.
    Jz = 18,
    /// `JNZ ra, imm`: pc = imm where ra is not 0.
    Jnz = 19,
    /// `JAL rd, imm`: rd = pc + 1, and then pc = imm.
    Jal = 20,
    /// `JR ra`: pc = ra.
    Jr = 21,
    /// `LDB rd, ra, imm`: rd = the byte at ra + imm, where imm is signed.
    Ldb = 32,
    /// `LDW rd, ra, imm`: rd = the word at ra + imm, where imm is signed.
    Ldw = 33,
    /// `STB rb, ra, imm`: the byte at ra + imm = rb mod 256, where imm is signed.
    Stb = 34,
    /// `STW rb, ra, imm`: the word at ra + imm = rb, where imm is signed.
    Stw = 35,
    /// `SYS imm`: the call with the number imm.
    Sys = 36,
    /// `HALT`: the thread ends.
    Halt = 37,
}

/// A field of an instruction, which an operand of a source gives.
#[derive(Clone, Copy, PartialEq, Eq)]
pub enum Field {
    /// The register that is written.
    Rd,
    /// The first register that is read.
    Ra,
    /// The second register that is read.
    Rb,
    /// The number.
    Imm,
}

/// The fields of an instruction that its opcode uses. A field that is not used is 0.
#[derive(Clone, Copy, Debug, PartialEq, Eq)]
pub struct Form {
    /// The register that is written.
    pub rd: bool,
    /// The first register that is read.
    pub ra: bool,
    /// The second register that is read.
    pub rb: bool,
    /// The number.
    pub imm: bool,
}

impl Op {
    /// The opcode: the first byte of an instruction.
    pub fn number(self) -> u8
        ensures { result ≡ number_of self }
    {
        self as u8
    }

    /// The operation with this opcode, and `None` where no operation has it.
    #[tactic(auto, unfolding(crate::specs::Opcodes::op_of))]
    pub fn from_number(number: u8) -> Option<Op>
        ensures { result ≡ op_of number }
    {
        let op = match number {
            1 => Op::Li,
            2 => Op::Lih,
            3 => Op::Mov,
            4 => Op::Add,
            5 => Op::Sub,
            6 => Op::Mul,
            7 => Op::Divu,
            8 => Op::Remu,
            9 => Op::And,
            10 => Op::Or,
            11 => Op::Xor,
            12 => Op::Shl,
            13 => Op::Shr,
            14 => Op::Ltu,
            15 => Op::Eq,
            16 => Op::Addi,
            17 => Op::Jmp,
            18 => Op::Jz,
            19 => Op::Jnz,
            20 => Op::Jal,
            21 => Op::Jr,
            32 => Op::Ldb,
            33 => Op::Ldw,
            34 => Op::Stb,
            35 => Op::Stw,
            36 => Op::Sys,
            37 => Op::Halt,
            _ => return None,
        };
        Some(op)
    }

    /// The mnemonic, in upper case.
    pub fn mnemonic(self) -> &'static [u8]
        ensures { result.now ≡ mnemonic self }
    {
        match self {
            Op::Li => b"LI",
            Op::Lih => b"LIH",
            Op::Mov => b"MOV",
            Op::Add => b"ADD",
            Op::Sub => b"SUB",
            Op::Mul => b"MUL",
            Op::Divu => b"DIVU",
            Op::Remu => b"REMU",
            Op::And => b"AND",
            Op::Or => b"OR",
            Op::Xor => b"XOR",
            Op::Shl => b"SHL",
            Op::Shr => b"SHR",
            Op::Ltu => b"LTU",
            Op::Eq => b"EQ",
            Op::Addi => b"ADDI",
            Op::Jmp => b"JMP",
            Op::Jz => b"JZ",
            Op::Jnz => b"JNZ",
            Op::Jal => b"JAL",
            Op::Jr => b"JR",
            Op::Ldb => b"LDB",
            Op::Ldw => b"LDW",
            Op::Stb => b"STB",
            Op::Stw => b"STW",
            Op::Sys => b"SYS",
            Op::Halt => b"HALT",
        }
    }

    /// The fields that an instruction of this operation uses, in the order of its operands.
    pub fn fields(self) -> &'static [Field]
        ensures { result.now ≡ fields_of self }
    {
        match self {
            Op::Li | Op::Lih | Op::Jal => &[Field::Rd, Field::Imm],
            Op::Mov => &[Field::Rd, Field::Ra],
            Op::Addi | Op::Ldb | Op::Ldw => &[Field::Rd, Field::Ra, Field::Imm],
            Op::Jmp | Op::Sys => &[Field::Imm],
            Op::Jz | Op::Jnz => &[Field::Ra, Field::Imm],
            Op::Jr => &[Field::Ra],
            Op::Stb | Op::Stw => &[Field::Rb, Field::Ra, Field::Imm],
            Op::Halt => &[],
            Op::Add | Op::Sub | Op::Mul | Op::Divu | Op::Remu => &[Field::Rd, Field::Ra, Field::Rb],
            Op::And | Op::Or | Op::Xor | Op::Shl | Op::Shr => &[Field::Rd, Field::Ra, Field::Rb],
            Op::Ltu | Op::Eq => &[Field::Rd, Field::Ra, Field::Rb],
        }
    }

    /// Which fields an instruction of this operation uses.
    pub fn form(self) -> Form
        ensures { result ≡ form_of self }
    {
        let (rd, ra, rb, imm) = match self {
            Op::Li | Op::Lih | Op::Jal => (true, false, false, true),
            Op::Mov => (true, true, false, false),
            Op::Add | Op::Sub | Op::Mul | Op::Divu | Op::Remu => (true, true, true, false),
            Op::And | Op::Or | Op::Xor | Op::Shl | Op::Shr => (true, true, true, false),
            Op::Ltu | Op::Eq => (true, true, true, false),
            Op::Addi | Op::Ldb | Op::Ldw => (true, true, false, true),
            Op::Jmp | Op::Sys => (false, false, false, true),
            Op::Jz | Op::Jnz => (false, true, false, true),
            Op::Jr => (false, true, false, false),
            Op::Stb | Op::Stw => (false, true, true, true),
            Op::Halt => (false, false, false, false),
        };
        Form { rd, ra, rb, imm }
    }

    /// Whether the operation works on the thread's registers alone. The others are shared.
    pub fn is_private(self) -> bool
        ensures { result ≡ is_private self }
    {
        self.number() <= 21
    }

    /// Whether the operation works on more than the thread's registers: a load, a store, a call or the halt.
    pub fn is_shared(self) -> bool
        ensures value { result ≡ is_shared self }
        ensures others { result ≡ not (is_private self) }
    {
        self.number() >= 32
    }

    /// Whether imm is an instruction's place in the text, to which the operation may jump.
    pub fn has_target(self) -> bool
        ensures { result ≡ has_target self }
    {
        matches!(self, Op::Jmp | Op::Jz | Op::Jnz | Op::Jal)
    }
}
