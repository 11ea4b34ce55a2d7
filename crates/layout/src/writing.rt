// A record block written word by word.
ghost use Rattle.std.specs.Prelude.{◌≡◌, ◌<◌, ℕ, List, length, get_or};
ghost use Rattle.model.specs.Bytes.{block};

use crate::words::put_word;
use model::Block;

// The block of 32 words, each of which the closure answers by its index.
pub fn write_words<F: Fn(usize) -> u32>(b: &mut Block, word: F)
    requires { (i : ℕ) → i < 32 → F.pre word i }
    ensures { (words : List ℕ) × (length words ≡ 32) × (b.new ≡ block words)
        × ((i : ℕ) → i < 32 → F.post word i (get_or words i 0)) }
{
    for i in 0..32 {
        put_word(b, 4 * i, word(i));
    }
}
