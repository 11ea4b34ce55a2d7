// One command at an offset of a tape: the refusals 1, 2 and 3, what each command does, and its stores counted.
#![tactic(auto)]

ghost use Rattle.std.specs.Prelude.{◌≡◌};
ghost use Rattle.model.specs.Refusal.{answer_of};
ghost use Rattle.model.specs.Tape.{block_limit, command_byte, next_offset};
ghost use Rattle.model.specs.Step.{step, step_at};
ghost use Rattle.cells.specs.Cells.{world_in};
ghost use Rattle.cells.specs.Answer.{Meets};
ghost use Rattle.operands.specs.Decoding.{task_of, command_of};
ghost use Rattle.command.specs.Counting.{counted, Performs};
ghost use Rattle.command.specs.Counted.{counted_in};

use cells::{State, wrong_length};
use checkpoint::checkpoint;
use close::close;
use commit::store;
use cut::cut;
use format::format;
use model::{Refusal, Shape};
use operands::{Command, Task, byte_at, next_offset, read_command};
use recovery::recover;
use retire::retire;
use transaction::write;

// What came of the command at an offset: its answer, its byte, and the offset of the next one.
#[derive(Clone, Copy)]
pub struct Performed {
    pub answer: Result<u8, Refusal>,
    pub byte: u8,
    pub next: usize,
}

// With so many blocks or more a WRITE of this task takes none.
fn block_limit(task: Task) -> usize
    ensures { result ≡ block_limit (task_of task) }
{
    match task {
        Task::Lamp => Shape::MAX_TAKEN,
        Task::Report => Shape::MAX_REPORT_TAKEN,
    }
}

// A command of the tape.
fn perform(
    w: &mut State,
    command: Command,
    disk: &mut [u8],
    memory: &mut [u8],
) -> Result<u8, Refusal>
    ensures { Meets (step (command_of command) (world_in w.old disk.old memory.old))
        w.old w.new disk.new memory.new result }
{
    match command {
        Command::Format {
            cores,
            blocks,
            journal,
        } => format(w, cores, blocks, journal, disk, memory),
        Command::Write {
            task,
            core,
            block,
            offset,
            bytes,
        } => write(
            w,
            block_limit(task),
            core,
            block,
            offset,
            bytes,
            disk,
            memory,
        ),
        Command::Close { core } => close(w, core, disk, memory),
        Command::Store { core } => store(w, core, disk, memory),
        Command::Checkpoint { core } => checkpoint(w, core, disk, memory),
        Command::Cut => cut(w, disk, memory),
        Command::Recover => recover(w, disk, memory),
        Command::Retire { core } => retire(w, core, disk, memory),
    }
}

// The command at an offset. Where none begins there, nothing is changed.
fn obey(
    w: &mut State,
    tape: &[u8],
    at: usize,
    disk: &mut [u8],
    memory: &mut [u8],
) -> Result<u8, Refusal>
    ensures { Meets (step_at tape.now at (world_in w.old disk.old memory.old))
        w.old w.new disk.new memory.new result }
{
    if wrong_length(disk, memory) {
        return Err(Refusal::WrongLength);
    }
    let command = read_command(tape, at)?;
    perform(w, command, disk, memory)
}

// A count grown by k; it stays at the largest number, which no run reaches.
fn counted(n: u64, k: u8) -> u64
    ensures { result ≡ counted n k }
{
    n.saturating_add(u64::from(k))
}

// The count of stores after a command, before it n; a refusal puts nothing.
fn count(w: &mut State, n: u64, answer: Result<u8, Refusal>)
    ensures { w.new ≡ counted_in w.old n answer }
{
    if let Ok(stores) = answer {
        let after = counted(n, stores);
        cells::put_stores(w, after);
    }
}

// The command at an offset, its stores counted. The count is read before the command, which may overwrite its cell.
pub fn counted_command(
    w: &mut State,
    tape: &[u8],
    at: usize,
    disk: &mut [u8],
    memory: &mut [u8],
) -> Performed
    ensures { Performs (step_at tape.now at (world_in w.old disk.old memory.old))
        w.old w.new disk.new memory.new (answer_of result.answer)
        × (result.byte ≡ command_byte tape.now at)
        × (result.next ≡ next_offset tape.now at) }
{
    let before = cells::stores_of(w);
    let byte = byte_at(tape, at);
    let next = next_offset(tape, at);
    let answer = obey(w, tape, at, disk, memory);
    count(w, before, answer);
    Performed { answer, byte, next }
}
