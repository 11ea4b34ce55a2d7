// What the programs do alike with their streams: what is there is read, all is written, and a line on standard error says what failed.
#![tactic(auto)]

ghost use Rattle.std.specs.Prelude.{◌≤◌, length, IfOk, OnOk};
ghost use Rattle.std.specs.Io.KnownBytes.{Appends, ReadConsumes};

use std::error::Error;
use std::fmt;
use std::io::{Read, Write};

// What failed.
#[derive(Clone, Copy, Debug, PartialEq, Eq)]
pub enum Failure {
    Input,
    Output,
}

impl fmt::Display for Failure {
    fn fmt<W: fmt::Write>(&self, f: &mut fmt::Formatter<W>) -> fmt::Result {
        f.write_str(match self {
            Failure::Input => "standard input cannot be read",
            Failure::Output => "standard output cannot be written",
        })
    }
}

impl Error for Failure {}

// What is there read into the slice: how many bytes, 0 at the end of the input or where there is no room.
pub fn read<R: Read>(input: &mut R, bytes: &mut [u8]) -> Result<usize, Failure>
    ensures bound { IfOk result (λ n. n ≤ length bytes.old) }
    ensures consumes { ReadConsumes (R.remaining input.old) (R.remaining input.new) result bytes.new }
{
    input.read(bytes).map_err(|_| Failure::Input)
}

// All of the bytes written.
pub fn write<W: Write>(output: &mut W, bytes: &[u8]) -> Result<(), Failure>
    ensures { OnOk result (Appends (W.contents output.old) (W.contents output.new) bytes.now) }
{
    output.write_all(bytes).map_err(|_| Failure::Output)
}

// A line on standard error: which program it is, and what failed. Where that cannot be written either, nobody is left to tell.
pub fn say(rt: &impl Eprint, program: &str, failure: Failure) {
    let _ = eprintln!(rt; "{program}: {failure}");
}
