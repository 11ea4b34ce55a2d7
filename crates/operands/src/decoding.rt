// A command of the tape: which it is, with its operands.
ghost use Rattle.std.specs.Prelude.{◌≡◌, ◌≤◌, length};
ghost use Rattle.std.proofs.Math.Option.{some};
ghost use Rattle.model.specs.Tape.{operand_length, decoded, read_at, write_of};
ghost use Rattle.operands.specs.Decoding.{task_of, command_of, ReadAs};

use crate::{byte_at, ends_early, is_unknown, operand_length};
use model::Refusal;

// Whose WRITE it is: that of the lamp reports, byte 2, or of the report task, byte 9.
#[derive(Clone, Copy, Debug, PartialEq, Eq)]
pub enum Task {
    Lamp,
    Report,
}

#[derive(Clone, Copy)]
pub enum Command {
    Format {
        cores: u8,
        blocks: u8,
        journal: u8,
    },
    Write {
        task: Task,
        core: u8,
        block: u16,
        offset: u8,
        bytes: [u8; 4],
    },
    Close {
        core: u8,
    },
    Store {
        core: u8,
    },
    Checkpoint {
        core: u8,
    },
    Cut,
    Recover,
    Retire {
        core: u8,
    },
}

// WRITE of a task with its operands: core, block of two bytes, offset, the four bytes.
fn decode_write(task: Task, operands: &[u8]) -> Command
    requires { length operands.now ≡ 8 }
    ensures { command_of result ≡ write_of (task_of task) operands.now }
{
    Command::Write {
        task,
        core: operands[0],
        block: operands[1] as u16 * 256 + operands[2] as u16,
        offset: operands[3],
        bytes: [operands[4], operands[5], operands[6], operands[7]],
    }
}

// The command of a known byte, with its operands, which are all there.
fn decode(byte: u8, operands: &[u8]) -> Command
    requires { (1 ≤ byte) × (byte ≤ 9) × (length operands.now ≡ operand_length byte) }
    ensures { some (command_of result) ≡ decoded byte operands.now }
{
    let core = byte_at(operands, 0);
    match byte {
        1 => Command::Format {
            cores: core,
            blocks: byte_at(operands, 1),
            journal: byte_at(operands, 2),
        },
        2 => decode_write(Task::Lamp, operands),
        3 => Command::Close { core },
        4 => Command::Store { core },
        5 => Command::Checkpoint { core },
        6 => Command::Cut,
        7 => Command::Recover,
        8 => Command::Retire { core },
        _ => decode_write(Task::Report, operands),
    }
}

// The command at an offset.
pub fn read_command(tape: &[u8], at: usize) -> Result<Command, Refusal>
    ensures { ReadAs (read_at tape.now at) result }
{
    if is_unknown(tape, at) {
        return Err(Refusal::UnknownCommand);
    }
    if ends_early(tape, at) {
        return Err(Refusal::EarlyEnd);
    }
    let byte = byte_at(tape, at);
    let from = at + 1;
    let to = from + operand_length(byte);
    Ok(decode(byte, &tape[from..to]))
}
