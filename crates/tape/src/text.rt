// Text that waits to be written, in 65,536 bytes. To a contract it is its bytes.
ghost use Rattle.std.specs.Prelude.{◌+◌, ◌≤◌, ◌≡◌, List, [], ◌++◌, ℕ, length, take};
ghost use Rattle.lines.specs.Lines.{line_in};
ghost use Rattle.tape.specs.Printed.{ended, line_text};

use itoa::Buffer;
use lines::turn::Turn;
use std::marker::Model;

const HEX: [u8; 16] = *b"0123456789abcdef";

#[derive(Drop)]
pub struct Text {
    bytes: [u8; 65536],
    used: usize,
}

impl Model for Text {
    ghost Value = { List ℕ };

    ghost view = { λ t. take t.used t.bytes };

    ghost invariant = { λ t. t.used ≤ 65536 };
}

impl Text {
    pub fn new() -> Text
        ensures { result ≡ [] }
    {
        Text {
            bytes: [0u8; 65536],
            used: 0,
        }
    }

    pub fn as_slice(&self) -> &[u8]
        ensures { result.now ≡ self.now }
    {
        &self.bytes[..self.used]
    }

    pub fn len(&self) -> usize
        ensures { result ≡ length self.now }
    {
        self.used
    }

    pub fn clear(&mut self)
        ensures { self.new ≡ [] }
    {
        self.used = 0;
    }

    // Bytes put behind what waits.
    fn put(&mut self, bytes: &[u8])
        requires { length self.old + length bytes.now ≤ 65536 }
        ensures { self.new ≡ self.old ++ bytes.now }
    {
        let end = self.used + bytes.len();
        self.bytes[self.used..end].copy_from_slice(bytes);
        self.used = end;
    }

    // A number in decimal, and the byte behind it.
    fn put_number(&mut self, n: u64, end: u8)
        requires { length self.old + 21 ≤ 65536 }
        ensures text { self.new ≡ self.old ++ ended n end }
        ensures short { length self.new ≤ length self.old + 21 }
    {
        let mut digits = Buffer::new();
        self.put(digits.format(n).as_bytes());
        self.put(&[end]);
    }

    // A command's line.
    pub fn put_line(&mut self, t: Turn)
        requires { length self.old + 84 ≤ 65536 }
        ensures { self.new ≡ self.old ++ line_text (line_in t) }
    {
        self.put_number(t.offset, b' ');
        self.put_number(t.byte as u64, b' ');
        self.put_number(t.answer as u64, b' ');
        self.put_number(t.stores, b'\n');
    }

    // A byte as two hexadecimal digits.
    fn put_hex(&mut self, x: u8)
        requires { length self.old + 2 ≤ 65536 }
        ensures { length self.new ≡ length self.old + 2 }
    {
        self.put(&[HEX[(x / 16) as usize], HEX[(x % 16) as usize]]);
    }

    // Eight bytes in hex, and the end of the line.
    fn put_first(&mut self, bytes: &[u8; 8])
        requires { length self.old + 17 ≤ 65536 }
        ensures { length self.new ≡ length self.old + 17 }
    {
        for x in bytes {
            self.put_hex(*x);
        }
        self.put(b"\n");
    }

    // The line of a home block: its number, and its first bytes in hex.
    pub fn put_home(&mut self, b: u8, bytes: &[u8; 8])
        requires { length self.old + 44 ≤ 65536 }
        ensures { length self.new ≤ length self.old + 44 }
    {
        self.put(b"block ");
        self.put_number(b as u64, b' ');
        self.put_first(bytes);
    }
}
