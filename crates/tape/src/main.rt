// The tape program. Standard input, of any length, is read in pieces as large as are there; each command has a line: its offset, its
// byte, the number answered and the stores so far. Then come the home blocks that are not all zero. What is printed waits in a
// buffer, which is written when it is full, before the program waits for more input, and at the end. Where a read or a write
// fails, the program stops and says so on standard error.
#![tactic(auto)]

ghost use Rattle.std.specs.Prelude.{◌≤◌, ◌≡◌, [], drop, length, OnErr, OnOk};
ghost use Rattle.model.specs.Tape.{next_offset};
ghost use Rattle.tape.specs.Left.{IsLeft};

use lines::homes::{first_bytes, home_blocks};
use lines::turn::{Turn, run_command};
use model::Shape;
use std::io::{Read, Write};
use streams::{Failure, say};

mod input; // what was read and is not run yet
mod output; // text that waits, and where it is written
mod text; // the text of the lines

use input::Unrun;
use output::Output;

// A card's state, and the slices that are lent to it.
#[derive(Drop)]
struct Card {
    state: [u64; 423],
    disk: [u8; Shape::DISK_SIZE],
    memory: [u8; Shape::MEMORY_SIZE],
}

impl Card {
    fn blank() -> Card {
        let mut state = [0u64; 423];
        firmware::session::blank(&mut state);
        Card {
            state,
            disk: [0u8; Shape::DISK_SIZE],
            memory: [0u8; Shape::MEMORY_SIZE],
        }
    }

    // The command at an offset of the tape, whose bytes come first in what was read.
    fn run(&mut self, offset: u64, read: &[u8]) -> Turn
        ensures taken { result.taken ≡ next_offset read.now 0 }
        ensures within { result.taken ≤ length read.now }
    {
        run_command(
            offset,
            read,
            &mut self.state,
            &mut self.disk,
            &mut self.memory,
        )
    }
}

// One command: run, and its line put behind the text that waits. If the tape goes on: the offset of the next one.
fn step<W: Write>(
    unrun: &mut Unrun,
    output: &mut Output<W>,
    card: &mut Card,
    offset: u64,
) -> Result<Option<u64>, Failure>
    ensures passed { OnOk result (unrun.new ≡ drop (next_offset unrun.old 0) unrun.old) }
    ensures kept { OnErr result (unrun.new ≡ unrun.old) }
{
    output.make_room()?;
    let t = card.run(offset, unrun.as_slice());
    unrun.pass(t.taken);
    output.text.put_line(t);
    Ok(t.next)
}

// Every command that is whole in what was read, from an offset on. If the tape goes on: the offset of the next one.
fn run_whole<W: Write>(
    unrun: &mut Unrun,
    output: &mut Output<W>,
    card: &mut Card,
    offset: u64,
) -> Result<Option<u64>, Failure>
    ensures { IsLeft unrun.new unrun.old }
{
    let mut at = offset;
    // stays: a `while`, since it ends where no whole command is left.
    while !operands::ends_early(unrun.as_slice(), 0) {
        let Some(next) = step(unrun, output, card, at)? else {
            return Ok(None);
        };
        at = next;
    }
    Ok(Some(at))
}

// The end of the input: bytes that are left are a command whose operands end early. None is left behind it.
fn run_last<W: Write>(
    unrun: &mut Unrun,
    output: &mut Output<W>,
    card: &mut Card,
    offset: u64,
) -> Result<(), Failure>
    ensures { unrun.new ≡ [] }
{
    let mut done = Ok(None);
    if !unrun.as_slice().is_empty() {
        done = step(unrun, output, card, offset);
    }
    unrun.clear();
    done.map(|_| ())
}

// The whole tape. The budget only shows that the loop ends: no input reaches it.
fn run_tape<R: Read, W: Write>(
    input: &mut R,
    output: &mut Output<W>,
    card: &mut Card,
) -> Result<(), Failure> {
    let mut unrun = Unrun::new();
    let mut offset = 0;
    for _ in 0..u64::MAX {
        // the read may take long, so all that is printed is written before
        output.flush()?;
        if unrun.read(input)? == 0 {
            return run_last(&mut unrun, output, card, offset);
        }
        match run_whole(&mut unrun, output, card, offset)? {
            Some(next) => offset = next,
            None => return Ok(()),
        }
    }
    Ok(())
}

// What waits is written, then the home blocks that are not all zero.
fn print_homes<W: Write>(output: &mut Output<W>, card: &Card) -> Result<(), Failure> {
    output.flush()?;
    let mut numbers = [0u8; 256];
    let n = home_blocks(&card.state, &card.disk, &mut numbers);
    for b in &numbers[..n] {
        output.text.put_home(*b, first_bytes(*b, &card.disk));
    }
    output.flush()
}

fn run(rt: &HostRuntime) -> Result<(), Failure> {
    let mut card = Card::blank();
    let mut output = Output::new(rt.stdout());
    run_tape(&mut rt.stdin(), &mut output, &mut card)?;
    print_homes(&mut output, &card)
}

fn main(rt: HostRuntime) {
    if let Err(failure) = run(&rt) {
        say(&rt, "tape", failure);
    }
}
