// Numbers of four bytes, big-endian: read, written, and the head that every record block begins with.
ghost use Rattle.std.specs.Prelude.{◌≡◌, ◌+◌, ◌≤◌, ◌<◌, length};
ghost use Rattle.model.specs.Bytes.{bytes, be4, replaced};
ghost use Rattle.model.specs.Layout.{has_head};
ghost use Rattle.layout.specs.Words.{pair_word};
ghost use Rattle.layout.specs.Kinds.{kind_number};

use model::Block;

// What every record block begins with.
pub const MARK: u32 = 0xC03B3998;

// The kinds of record blocks, by the numbers that the disk has for them.
#[derive(Clone, Copy, Debug, PartialEq, Eq)]
pub enum BlockKind {
    Descriptor = 1,
    Commit = 2,
    Master = 4,
}

impl BlockKind {
    // The number that the disk has for the kind.
    pub fn number(self) -> u32
        ensures { result ≡ kind_number self }
    {
        self as u32
    }
}

// The number at a place within the block.
pub fn get_word(b: &[u8], at: usize) -> u32
    requires { at + 4 ≤ length b.now }
    ensures { result ≡ be4 b.now at }
{
    u32::from_be_bytes([b[at], b[at + 1], b[at + 2], b[at + 3]])
}

// The number put at a place within the block.
pub fn put_word(b: &mut [u8], at: usize, w: u32)
    requires { at + 4 ≤ length b.old }
    ensures { b.new ≡ replaced at 4 b.old (bytes 4 w) }
{
    b[at..at + 4].copy_from_slice(&w.to_be_bytes());
}

// The head of a record block, its mark, kind and number, is the one given.
pub fn has_head(b: &Block, kind: u32, number: u32) -> bool
    ensures { result ≡ has_head kind number b.now }
{
    get_word(b, 0) == MARK && get_word(b, 4) == kind && get_word(b, 8) == number
}

// Of two numbers that stand one after the other, as pairs do in a block, the one at word k.
pub fn pair_word(first: u32, second: u32, k: usize) -> u32
    ensures { result ≡ pair_word first second k }
{
    if k % 2 == 0 { first } else { second }
}
