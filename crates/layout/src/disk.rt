// A store of a home block.
ghost use Rattle.std.specs.Prelude.{◌≡◌, ◌<◌, length};
ghost use Rattle.model.specs.Bytes.{store};
ghost use Rattle.model.specs.Shape.{home_block};
ghost use Rattle.model.specs.Limits.{block_size, disk_size};
ghost use Rattle.model.proofs.Limits.{InRange};

use crate::data::write_image;
use model::{Block, Shape};

// The part lent becomes the image.
fn store_image(part: &mut [u8], image: Block)
    requires { length part.old ≡ block_size }
    ensures { part.new ≡ image }
{
    write_image(part.first_chunk_mut().unwrap(), image);
}

// Home block b becomes the image.
pub fn store_home(s: Shape, b: u8, image: Block, disk: &mut [u8])
    requires { InRange s × (length disk.old ≡ disk_size) × (b < 64) }
    ensures { disk.new ≡ store disk.old (home_block b) image }
{
    let from = Shape::BLOCK_SIZE * s.home_block(b);
    let to = from + Shape::BLOCK_SIZE;
    store_image(&mut disk[from..to], image);
}
