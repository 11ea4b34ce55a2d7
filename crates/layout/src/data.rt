// Data blocks: images copied, and escaped where they begin with the mark.
ghost use Rattle.std.specs.Prelude.{◌≡◌, ◌++◌, ◌+◌, ◌*◌, ◌≤◌, length, drop};
ghost use Rattle.model.specs.Bytes.{bytes, block_at};
ghost use Rattle.model.specs.Layout.{flag_of, escaped, unescaped};
ghost use Rattle.model.specs.Limits.{block_size};

use crate::words::{MARK, get_word, put_word};
use model::{Block, Shape};

// Block k of a slice, lent.
pub fn block_at(s: &[u8], k: usize) -> &Block
    requires { block_size * k + block_size ≤ length s.now }
    ensures { result.now ≡ block_at s.now k }
{
    let start = Shape::BLOCK_SIZE * k;
    s[start..start + Shape::BLOCK_SIZE].try_into().unwrap()
}

// Block k of a slice, as a value: two parts of one slice cannot be lent at once.
pub fn load_block(s: &[u8], k: usize) -> Block
    requires { block_size * k + block_size ≤ length s.now }
    ensures { result ≡ block_at s.now k }
{
    *block_at(s, k)
}

// The image with another number as its first four bytes.
fn with_first(image: Block, w: u32) -> Block
    ensures { result ≡ bytes 4 w ++ drop 4 image }
{
    let mut changed = image;
    put_word(&mut changed, 0, w);
    changed
}

// Whether the image has to be escaped: 1 if it begins with the mark.
// stays: a number and no bool, since it is a word of the descriptor, and what is read back from there is one.
pub fn flag_of(image: Block) -> u8
    ensures { result ≡ flag_of image }
{
    u8::from(get_word(&image, 0) == MARK)
}

// The image as the journal holds it: never beginning with the mark, so that no data is taken for a record.
fn escape(image: Block) -> Block
    ensures { result ≡ escaped image }
{
    if get_word(&image, 0) == MARK {
        with_first(image, 0)
    } else {
        image
    }
}

// The home block lent becomes the image.
pub fn write_image(block: &mut Block, image: Block)
    ensures { block.new ≡ image }
{
    *block = image;
}

// The image that a block of the journal with this flag holds.
// stays: the flag is a word of the descriptor on disk.
pub fn unescape(flag: u32, image: Block) -> Block
    ensures { result ≡ unescaped flag image }
{
    if flag == 1 {
        with_first(image, MARK)
    } else {
        image
    }
}

// A data block of the journal.
pub fn write_data(block: &mut Block, image: Block)
    ensures { block.new ≡ escaped image }
{
    *block = escape(image);
}
