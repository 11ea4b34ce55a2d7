// Text that waits and where it is written, in large pieces.
ghost use Rattle.std.specs.Prelude.{◌+◌, ◌≤◌, ◌≡◌, [], length, OnOk};
ghost use Rattle.std.specs.Io.KnownBytes.{Appends};

use crate::text::Text;
use std::io::Write;
use streams::Failure;

#[derive(Drop)]
pub struct Output<W> {
    writer: W,
    pub text: Text,
}

impl<W: Write> Output<W> {
    pub fn new(writer: W) -> Output<W>
        ensures { result.text ≡ [] }
    {
        Output {
            writer,
            text: Text::new(),
        }
    }

    // What waits written.
    pub fn flush(&mut self) -> Result<(), Failure>
        ensures empty { self.new.text ≡ [] }
        ensures written { OnOk result (Appends (W.contents self.old.writer) (W.contents self.new.writer) self.old.text) }
    {
        let done = streams::write(&mut self.writer, self.text.as_slice());
        self.text.clear();
        done
    }

    // Room for a line: what waits is written where there is none.
    pub fn make_room(&mut self) -> Result<(), Failure>
        ensures { length self.new.text + 128 ≤ 65536 }
    {
        if self.text.len() <= 65408 {
            return Ok(());
        }
        self.flush()
    }
}
