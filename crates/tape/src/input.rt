// What was read of the tape and is not run yet. A read hands over what is there, so the program waits only where nothing is.
ghost use Rattle.std.specs.Prelude.{◌+◌, ◌-◌, ◌≤◌, ◌≡◌, List, [], ℕ, drop, length, take, IfOk};

use std::io::Read;
use std::marker::Model;
use streams::Failure;

// The bytes between two places of a buffer: to a contract it is these bytes.
#[derive(Drop)]
pub struct Unrun {
    bytes: [u8; 65536],
    from: usize,
    to: usize,
}

impl Model for Unrun {
    ghost Value = { List ℕ };

    ghost view = { λ u. take (u.to - u.from) (drop u.from u.bytes) };

    ghost invariant = { λ u. (u.from ≤ u.to) × (u.to ≤ 65536) };
}

impl Unrun {
    pub fn new() -> Unrun
        ensures { result ≡ [] }
    {
        Unrun {
            bytes: [0u8; 65536],
            from: 0,
            to: 0,
        }
    }

    pub fn as_slice(&self) -> &[u8]
        ensures { result.now ≡ self.now }
    {
        &self.bytes[self.from..self.to]
    }

    // The first n were run.
    pub fn pass(&mut self, n: usize)
        requires { n ≤ length self.old }
        ensures { self.new ≡ drop n self.old }
    {
        self.from += n;
    }

    // None is left.
    pub fn clear(&mut self)
        ensures { self.new ≡ [] }
    {
        self.from = self.to;
    }

    // What is there read behind the others, which come to the front: how many bytes, 0 at the end of the input.
    pub fn read<R: Read>(&mut self, input: &mut R) -> Result<usize, Failure>
        ensures front { take (length self.old) self.new ≡ self.old }
        ensures behind { IfOk result (λ n. length self.new ≡ length self.old + n) }
    {
        self.bytes.copy_within(self.from..self.to, 0);
        self.to -= self.from;
        self.from = 0;
        let more = streams::read(input, &mut self.bytes[self.to..])?;
        self.to += more;
        Ok(more)
    }
}
