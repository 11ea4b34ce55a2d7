// The valid set: of the records read, those whose names are all met, as is the one before on their core. It is a beginning of each core's
// records, so a count for each core is all of it; the counts are lowered until none falls.
ghost use Rattle.std.specs.Prelude.{◌≡◌, ◌≤◌, ◌<◌, List, get_or};
ghost use Rattle.journal.specs.declared.extents.Extent.{Extent};
ghost use Rattle.model.proofs.Limits.{InRange};
ghost use Rattle.model.specs.Shrink.{shrink};
ghost use Rattle.model.specs.Valid.{in_sequence, names_met, valid_set};
ghost use Rattle.model.specs.Limits.{max_names};
ghost use Rattle.layout.specs.Loops.{every};
ghost use Rattle.journal.specs.Records.{SamePlaces, numbers_of, records_in, RunsTested};
ghost use Rattle.valid.specs.Rounds.{counted, CountsAlone};
ghost use Rattle.valid.specs.Sets.{numbered, count_met, name_met, number_met, commit_met, record_met, LoweredTo, Lowered, total_count};

use journal::{Extent, Records, Runs};
use model::{Block, CommitLayout, Shape, Tail};

// What a round looks at: how the commits of the disk name transactions, the tail numbers, and the records that count before it.
#[derive(Clone, Copy)]
struct Round<'d, 'e> {
    layout: CommitLayout,
    oldest: [u32; 8],
    records: Records<'d, 'e>,
}

impl<'d, 'e> Round<'d, 'e> {
    // Whether a name is met: below its core's tail number, the number of its oldest, or one of those that count.
    fn is_met(&self, c: u32, k: u32) -> bool
        ensures { result ≡ count_met self.now.records.disk.shape self.now.oldest self.now.records.runs.count c k }
    {
        if 8 <= c {
            return false;
        }
        let n = self.oldest[c as usize];
        if k < n {
            return true;
        }
        if self.records.disk.shape.cores as u32 <= c {
            return false;
        }
        k - n < self.records.runs.count[c as usize] as u32
    }

    // Whether the i-th name that a commit lists is met.
    fn name_met(&self, commit: &Block, i: usize) -> bool
        requires { i < max_names }
        ensures { result ≡ name_met self.now.records.disk.shape self.now.oldest self.now.records.runs.count commit.now i }
    {
        self.is_met(layout::name_core(commit, i), layout::name_number(commit, i))
    }

    // Whether the number that a commit has for core c is met; where it has none, nothing is asked for.
    fn number_met(&self, commit: &Block, c: usize) -> bool
        requires { c < 8 }
        ensures { result ≡ number_met self.now.records.disk.shape self.now.oldest self.now.records.runs.count commit.now c }
    {
        let k = layout::number_named(commit, c);
        k == 0 || self.is_met(c as u32, k)
    }

    // Whether the first n names that a commit lists are met.
    fn names_met(&self, commit: &Block, n: usize) -> bool
        requires { n ≤ max_names }
        ensures { result ≡ every n (name_met self.now.records.disk.shape self.now.oldest self.now.records.runs.count commit.now) }
    {
        (0..n).all(|i| self.name_met(commit, i))
    }

    // Whether the numbers that a commit has, one for each core, are met.
    fn numbers_met(&self, commit: &Block) -> bool
        ensures { result ≡ every 8 (number_met self.now.records.disk.shape self.now.oldest self.now.records.runs.count commit.now) }
    {
        (0..8).all(|c| self.number_met(commit, c))
    }

    // Whether each transaction that a commit names is met.
    fn commit_met(&self, commit: &Block) -> bool
        ensures { result ≡ commit_met self.now.layout self.now.records.disk.shape self.now.oldest self.now.records.runs.count commit.now }
    {
        match self.layout {
            CommitLayout::Lists => self.names_met(commit, layout::names_listed(commit)),
            CommitLayout::Numbers => self.numbers_met(commit),
        }
    }

    // Whether each that core c's record with this extent names is met. The one before it is not asked for: where it does not count, nor does
    // this one.
    fn record_met(&self, c: u8, x: Extent) -> bool
        requires { c < self.now.records.disk.shape.cores }
        ensures { result ≡ record_met self.now.layout self.now.records.disk.shape self.now.records.disk.bytes.now self.now.oldest self.now.records.runs.count c x }
    {
        let at = x.position as usize + (x.count as usize + 1);
        self.commit_met(self.records.disk.block(c, at))
    }

    // How many of core c's records stay: those before the first that is not met.
    fn first_unmet(&self, c: u8) -> u8
        requires { c < self.now.records.disk.shape.cores }
        ensures { LoweredTo self.now.layout self.now.records.disk.shape self.now.records.disk.bytes.now self.now.oldest self.now.records.extents.now self.now.records.runs.count c (get_or self.now.records.runs.start c 0) (get_or self.now.records.runs.count c 0) result }
    {
        let i = c as usize;
        let first = self.records.runs.start[i] as usize;
        let n = self.records.runs.count[i];
        for j in 0..n {
            if !self.record_met(c, self.records.extents[first + j as usize]) {
                return j;
            }
        }
        n
    }

    // The counts after the round.
    fn lowered(&self) -> [u8; 8]
        ensures { Lowered self.now.layout self.now.records.disk.shape self.now.records.disk.bytes.now self.now.oldest self.now.records.extents.now self.now.records.runs.start self.now.records.runs.count result }
    {
        let mut next = [0u8; 8];
        for c in 0..self.records.disk.shape.cores {
            next[c as usize] = self.first_unmet(c);
        }
        next
    }

    // One round in place. It is called from two places, so the compiler keeps it out of the recursion, whose frames stay small.
    fn strike(&mut self)
        ensures { Lowered self.old.layout self.old.records.disk.shape self.old.records.disk.bytes.now self.old.oldest
            self.old.records.extents.now self.old.records.runs.start self.old.records.runs.count self.new.records.runs.count
            × CountsAlone self.old self.new }
    {
        let count = self.lowered();
        let Records {
            disk,
            extents,
            runs: Runs { start, .. },
        } = self.records;
        self.records = Records {
            disk,
            extents,
            runs: Runs { start, count },
        };
    }
}

// How many records count in all. No public entry.
pub fn total_count(s: Shape, count: &[u8; 8]) -> usize
    requires { InRange s }
    ensures { result ≡ total_count s count.now }
{
    let mut n: usize = 0;
    for c in 0..s.cores {
        n += count[c as usize] as usize;
    }
    n
}

// The largest part of the set in which all that is required is met: the counts are lowered until none falls. The count of those
// remaining falls with each call.
// stays: the paper's table of forms asks for a recursion.
fn shrink_set(round: &mut Round, before: usize)
    requires { before ≡ total_count round.old.records.disk.shape round.old.records.runs.count }
    ensures { ((zs : List Extent) → SamePlaces round.old.records.extents.now zs → counted zs round.new
        ≡ shrink (names_met in_sequence round.old.layout round.old.records.disk.shape round.old.records.disk.bytes.now
        (numbered round.old.oldest)) (counted zs round.old))
        × CountsAlone round.old round.new }
{
    round.strike();
    let left = total_count(round.records.disk.shape, &round.records.runs.count);
    if left == before {
        return;
    }
    shrink_set(round, left);
}

// The tail numbers: all that a round looks at of the tails.
fn tail_numbers(tails: [Tail; 8]) -> [u32; 8]
    ensures { result ≡ numbers_of tails }
{
    tails.map(|t| t.number)
}

// The counts of the valid set of the records read; the first round is done here, and mostly none falls. The stamps take no part, so it is
// the valid set whatever they are. No public entry.
pub fn valid_runs(layout: CommitLayout, tails: [Tail; 8], all: Records) -> Runs
    ensures { ((zs : List Extent) → SamePlaces all.entry.extents.now zs
        → records_in all.entry.disk.shape zs (numbers_of tails) result.start result.count
        ≡ valid_set in_sequence layout all.entry.disk.shape all.entry.disk.bytes.now (numbered (numbers_of tails))
        (records_in all.entry.disk.shape zs (numbers_of tails) all.entry.runs.start all.entry.runs.count))
        × (result.start ≡ all.entry.runs.start)
        × RunsTested all.entry.disk.shape all.entry.disk.bytes.now all.entry.extents.now result.start result.count }
{
    let read = total_count(all.disk.shape, &all.runs.count);
    let mut round = Round {
        layout,
        oldest: tail_numbers(tails),
        records: all,
    };
    round.strike();
    let left = total_count(round.records.disk.shape, &round.records.runs.count);
    if left == read {
        return round.records.runs;
    }
    shrink_set(&mut round, left);
    round.records.runs
}
