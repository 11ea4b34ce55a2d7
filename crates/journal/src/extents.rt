// What is kept of a record that was read.
ghost use Rattle.std.specs.Prelude.{◌≡◌};
ghost use Rattle.journal.specs.Records.{extent_of, committed_in};

use model::Committed;

// The stamp of a transaction that was read, where its descriptor stands, and how many blocks it took. A position takes a byte: the tail of
// a card that no run made may stand at 255.
#[derive(Clone, Copy, Debug, PartialEq, Eq)]
pub struct Extent {
    pub stamp: u64,
    pub position: u8,
    pub count: u8,
}

impl Extent {
    // What an array of them holds before any is read.
    pub const NONE: Self = Extent {
        stamp: 0,
        position: 0,
        count: 0,
    };

    // What is kept of a transaction.
    pub fn of(e: Committed) -> Self
        ensures { result ≡ extent_of e }
    {
        Extent {
            stamp: e.stamp,
            position: e.position,
            count: e.count,
        }
    }

    // The transaction again, of this core and with this number; who does not look at the number gives 0.
    pub fn committed(self, core: u8, number: u32) -> Committed
        ensures { result ≡ committed_in core number self }
    {
        Committed {
            core,
            number,
            position: self.position,
            count: self.count,
            stamp: self.stamp,
        }
    }
}
