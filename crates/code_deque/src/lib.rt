// The instructions of one event, in order: at most three, since an argument is moved out of the way at most twice.
#![tactic(auto)]

ghost use Rattle.std.specs.Prelude.{◌≡◌};
ghost use Rattle.code_deque.specs.CodeDeque.{pushed};

use instructions::Instruction;

// One variant a length, not an array with a length: no instruction stands where there is none.
#[derive(Clone, Copy)]
pub enum CodeDeque {
    Empty,
    One(Instruction),
    Two(Instruction, Instruction),
    Three(Instruction, Instruction, Instruction),
}

// The code with one instruction more; a fourth is left out.
pub fn push_back(code: CodeDeque, instruction: Instruction) -> CodeDeque
    ensures { result ≡ pushed code instruction }
{
    match code {
        CodeDeque::Empty => CodeDeque::One(instruction),
        CodeDeque::One(first) => CodeDeque::Two(first, instruction),
        CodeDeque::Two(first, second) => CodeDeque::Three(first, second, instruction),
        CodeDeque::Three(first, second, third) => CodeDeque::Three(first, second, third),
    }
}
