// A tape's commands by their offsets: a command's byte, how many bytes of operands it has, the refusals 2 and 3, the command itself, and
// where the next one stands. Offsets are compared by subtraction: past the tape's end a sum could pass the largest offset.
#![tactic(auto)]

mod decoding; // which command it is, with its operands

ghost use Rattle.std.specs.Prelude.{◌≡◌, ◌≤◌, get_or};
ghost use Rattle.model.specs.Tape.{operand_length, is_unknown, is_early, read_at, next_offset};

pub use decoding::{Command, Task, read_command};

// The bytes of the operands of commands 1 to 9; there is no command 0.
// stays: the paper's table of forms asks for a table of lengths by the command's byte.
const OPERAND_LENGTHS: [u8; 10] = [0, 3, 8, 1, 1, 1, 0, 0, 1, 8];

// The byte at an offset, 0 past the end.
pub fn byte_at(s: &[u8], i: usize) -> u8
    ensures { result ≡ get_or s.now i 0 }
{
    s.get(i).copied().unwrap_or(0)
}

// How many bytes of operands command k has; none where there is no such command.
pub fn operand_length(k: u8) -> usize
    ensures { (result ≡ operand_length k) × (result ≤ 8) }
{
    byte_at(&OPERAND_LENGTHS, k as usize) as usize
}

// Refusal 2, a byte that is no command.
pub fn is_unknown(tape: &[u8], at: usize) -> bool
    ensures { result ≡ is_unknown (read_at tape.now at) }
{
    if tape.len() <= at {
        return false;
    }
    !(1..=9).contains(&byte_at(tape, at))
}

// Refusal 3, operands that end early.
pub fn ends_early(tape: &[u8], at: usize) -> bool
    ensures { result ≡ is_early (read_at tape.now at) }
{
    tape.len() <= at || tape.len() - at <= operand_length(byte_at(tape, at))
}

// Where the next command stands: behind this one, or at the tape's end where this one is unknown or ends early.
pub fn next_offset(tape: &[u8], at: usize) -> usize
    ensures { result ≡ next_offset tape.now at }
{
    if tape.len() <= at {
        return at;
    }
    if is_unknown(tape, at) || ends_early(tape, at) {
        return tape.len();
    }
    at + 1 + operand_length(byte_at(tape, at))
}
