//! What an instruction of the caller's layout says.
ghost use Rattle.std.specs.Prelude.{◌≡◌};
ghost use Rattle.std.specs.Option.{ok_or};
ghost use Rattle.semantics.specs.Instruction.{InstructionsAreTheTable, instruction_of, length_of};

use crate::kind::{InstrKind, OutsideTable};
use crate::layout::{Instr, Instruction, MOST_INSTRUCTIONS};
use domain::Op;

/// The least length of a body: one instruction and its RETURN.
const LEAST_LENGTH: u16 = 2;

/// The length of a body, where it is bounded.
fn body_length(number: u64) -> Result<u16, OutsideTable>
    ensures { result ≡ ok_or (length_of number) record {} }
{
    u16::try_from(number)
        .ok()
        .filter(|length| LEAST_LENGTH <= *length && usize::from(*length) <= MOST_INSTRUCTIONS)
        .ok_or(OutsideTable)
}

/// What an instruction says, its node's place left open, where its kind is known and its fields are in the table.
impl TryFrom<Instr> for Instruction {
    type Error = OutsideTable;

    ghost try_from_gives = { λ instr result. result ≡ ok_or (instruction_of instr) record {} };

    fn try_from(instr: Instr) -> Result<Instruction, OutsideTable> {
        match (InstrKind::try_from(instr.kind)?, instr.name, instr.number) {
            (InstrKind::End, 0, 0) => Ok(Instruction::End),
            (InstrKind::PushNum, 0, code) => Ok(Instruction::PushNum(code)),
            (InstrKind::PushTruth, 0, 0) => Ok(Instruction::PushTruth(false)),
            (InstrKind::PushTruth, 0, 1) => Ok(Instruction::PushTruth(true)),
            (InstrKind::Access, name, index) => {
                let between = index.checked_sub(1).ok_or(OutsideTable)?;
                Ok(Instruction::Access { name, between })
            }
            (InstrKind::PushClosure, name, number) => {
                let length = body_length(number)?;
                Ok(Instruction::PushClosure { name, length })
            }
            (InstrKind::PushThunk, 0, number) => {
                let length = body_length(number)?;
                Ok(Instruction::PushThunk { length })
            }
            (InstrKind::Operate, 0, number) => {
                let op = Op::try_from(number)?;
                Ok(Instruction::Operate { op, place: 0 })
            }
            (InstrKind::Compare, 0, 0) => Ok(Instruction::Compare { place: 0 }),
            (InstrKind::Bind, name, 0) => Ok(Instruction::Bind { name }),
            (InstrKind::Unbind, 0, 0) => Ok(Instruction::Unbind),
            (InstrKind::Apply, 0, 0) => Ok(Instruction::Apply { place: 0 }),
            (InstrKind::Return, 0, 0) => Ok(Instruction::Return),
            (InstrKind::Choose, 0, 0) => Ok(Instruction::Choose { place: 0 }),
            _ => Err(OutsideTable),
        }
    }
}

/// What the caller's layout says is an instruction exactly when it lays out one whose length, if any, is bounded.
pub fn instructions_are_the_table()
    ensures { InstructionsAreTheTable }
{}
