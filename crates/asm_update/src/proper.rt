//! What instructions hold is well-formed. The invariant of `Instructions` needs it when one is added: the contract of a
//! call for each part states it.
ghost use Rattle.std.specs.Prelude.{All};
ghost use Rattle.asm_update.specs.Action.{IsProperInstruction};

use crate::action::Instruction;

// State for proofs that the instruction is well-formed; do nothing at run time.
pub(crate) fn proper_instruction(instruction: &Instruction)
    ensures { IsProperInstruction instruction.now }
{
    instruction.at.proper();
    instruction.action.proper();
}

// State for proofs that the instructions are well-formed; do nothing at run time.
pub(crate) fn proper_instructions(instructions: &[Instruction])
    ensures { All IsProperInstruction instructions.now }
{
    for instruction in instructions {
        proper_instruction(instruction);
    }
}
