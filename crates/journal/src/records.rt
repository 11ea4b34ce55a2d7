// The records that were read from a disk.
ghost use Rattle.journal.specs.Records.{RunsTested, tested_prop};

use crate::disk::Disk;
use crate::extents::Extent;
use crate::journals::Runs;

// Records of a disk: their extents, core by core and one behind the other, and of each core where its records begin among them and how many
// count. The descriptor of each that counts has passed the range test.
#[derive(Clone, Copy)]
pub struct Records<'d, 'e> {
    pub disk: Disk<'d>,
    pub extents: &'e [Extent; 96],
    pub runs: Runs,
    pub ghost tested: { RunsTested disk.shape disk.bytes.now extents.now runs.start runs.count } by { tested_prop _ _ _ _ _ },
}
