// All journals read: the records of each core, one behind the other.
ghost use Rattle.std.specs.Prelude.{◌≤◌, ◌<◌, ◌≡◌};
ghost use Rattle.journal.specs.Records.{RunsTested};
ghost use Rattle.journal.specs.Walk.{JournalRead, Reads};

use crate::disk::Disk;
use crate::extents::Extent;
use model::{CommitLayout, Tail};

// Of each core where its records begin among those read, and how many of them count.
#[derive(Clone, Copy)]
pub struct Runs {
    pub start: [u8; 8],
    pub count: [u8; 8],
}

impl<'a> Disk<'a> {
    // The records of core c's journal from its tail, up to so many, put in from a place on; how many there are. The reading ends at the first
    // end, whichever it is. A record has two blocks or more: with fewer left none is looked for, and twelve are the most.
    fn read_journal(
        self,
        y: CommitLayout,
        c: u8,
        t: Tail,
        most: u8,
        first: u8,
        extents: &mut [Extent; 96],
    ) -> u8
        requires { (c < self.shape.cores) × (first ≤ 84) }
        ensures { JournalRead y self.entry.shape self.entry.bytes.now c t most first extents.old
            extents.new result }
    {
        let mut w = self.walk_from(t);
        for n in 0..most {
            if w.left < 2 {
                return n;
            }
            let Ok(e) = self.read_record(y, c, w.number, w.at, w.left) else {
                return n;
            };
            extents[first as usize + n as usize] = Extent::of(e);
            w = self.advance(w, e);
        }
        most
    }

    // All journals, each from its tail and up to so many records. No public entry.
    pub fn read_journals(
        self,
        y: CommitLayout,
        tails: [Tail; 8],
        most: [u8; 8],
        extents: &mut [Extent; 96],
    ) -> Runs
        ensures { Reads y self.entry.shape self.entry.bytes.now tails most extents.new result.start result.count
            × RunsTested self.entry.shape self.entry.bytes.now extents.new result.start result.count }
    {
        let mut start = [0u8; 8];
        let mut count = [0u8; 8];
        let mut place: u8 = 0;
        for c in 0..self.shape.cores {
            let i = c as usize;
            let n = self.read_journal(y, c, tails[i], most[i], place, extents);
            start[i] = place;
            count[i] = n;
            place += n;
        }
        Runs { start, count }
    }
}
