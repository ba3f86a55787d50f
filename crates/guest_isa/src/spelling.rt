ghost use Rattle.std.specs.Prelude.{◌≡◌, ◌≢◌, ◌<◌, ℕ, List, length, All, Some, IfSome, IfNone};
ghost use Rattle.guest_isa.specs.declared.instr.Instr.{Instr};
ghost use Rattle.guest_isa.specs.Instructions.{IsInstruction};
ghost use Rattle.guest_isa.specs.Spelling.{spelling, reading};

use crate::instr::Instr;
use crate::op::Op;

/// The eight bytes of an instruction: the opcode, rd, ra, rb, and imm with its lowest byte first.
pub fn encode(instruction: &Instr) -> [u8; 8]
    requires { IsInstruction instruction.now }
    ensures bytes { result ≡ spelling instruction.now }
    ensures read_back { reading result ≡ Some instruction.now }
{
    let [low, second, third, high] = instruction.imm.to_le_bytes();
    [
        instruction.op.number(),
        instruction.rd,
        instruction.ra,
        instruction.rb,
        low,
        second,
        third,
        high,
    ]
}

/// The instruction that eight bytes spell, and `None` where they spell none.
pub fn decode(bytes: &[u8]) -> Option<Instr>
    requires { length bytes.now ≡ 8 }
    ensures exact { result ≡ reading bytes.now }
    // What is read is an instruction, and these are its bytes.
    ensures found { IfSome result (λ i. IsInstruction i × (bytes.now ≡ spelling i)) }
    // Where nothing is read, these are the bytes of no instruction.
    ensures none { IfNone result ((i : Instr) → IsInstruction i → bytes.now ≢ spelling i) }
{
    read(bytes)
}

#[tactic(auto, unfolding(crate::specs::Spelling::reading))]
fn read(bytes: &[u8]) -> Option<Instr>
    requires { length bytes.now ≡ 8 }
    ensures { result ≡ reading bytes.now }
{
    let op = Op::from_number(bytes[0])?;
    let i = Instr {
        op,
        rd: bytes[1],
        ra: bytes[2],
        rb: bytes[3],
        imm: u32::from_le_bytes([bytes[4], bytes[5], bytes[6], bytes[7]]),
    };
    if i.is_instruction() { Some(i) } else { None }
}

/// An instruction is read back from its bytes, and bytes that are read are those of what was read.
pub fn spelling_is_inverse()
    ensures read_back { (i : Instr) → IsInstruction i → reading (spelling i) ≡ Some i }
    ensures spelled { (bytes : List ℕ) (i : Instr) → length bytes ≡ 8 → All (λ b. b < 256) bytes →
        reading bytes ≡ Some i → IsInstruction i × (bytes ≡ spelling i) }
{}
