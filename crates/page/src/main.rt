// The page program. A disk is read from standard input, and its journal page is printed, every byte of it as the library laid it. One
// byte more than a disk has is enough to refuse the input, so no more are read. Where a read or the write fails, the program says so
// on standard error; after a failed read nothing is printed.
#![tactic(auto)]

ghost use Rattle.std.specs.Prelude.{◌≤◌, length, IfOk};

use journal_page::{LINE_SIZE, MAX_LINES, lay_page};
use model::Shape;
use std::io::{Read, Write};
use streams::{Failure, say};

// Read until the slice is full or the input ends: one read may hand over less than there is room for.
// stays: a `while`, since std's own reads to the end want a `Vec`, or go on where a read was interrupted, which here is a failure.
fn read_on<'a, R: Read>(input: &mut R, bytes: &'a mut [u8]) -> Result<&'a [u8], Failure>
    ensures { IfOk result (λ read. length read.now ≤ length bytes.old) }
{
    let mut size = 0;
    while size < bytes.len() {
        match streams::read(input, &mut bytes[size..])? {
            0 => break,
            more => size += more,
        }
    }
    Ok(&bytes[..size])
}

// The page of a disk laid and written.
fn print_page<W: Write>(output: &mut W, disk: &[u8]) -> Result<(), Failure> {
    // room for the longest page
    let mut text = [0u8; MAX_LINES * LINE_SIZE];
    let size = lay_page(disk, &mut text);
    streams::write(output, &text[..size])
}

fn run(rt: &HostRuntime) -> Result<(), Failure> {
    let mut bytes = [0u8; Shape::DISK_SIZE + 1];
    let disk = read_on(&mut rt.stdin(), &mut bytes)?;
    print_page(&mut rt.stdout(), disk)
}

fn main(rt: HostRuntime) {
    if let Err(failure) = run(&rt) {
        say(&rt, "page", failure);
    }
}
