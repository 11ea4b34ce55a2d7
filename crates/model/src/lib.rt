// The types of the revision D card: the disk's shape, tails, names, holders, the layouts of a commit and records, shared by definitions and
// code; transactions, cores and the card itself, of the definitions alone.
#![tactic(auto)]

ghost use Rattle.std.specs.Prelude.{◌%◌, ◌≡◌};
ghost use Rattle.model.specs.Shape.{checked, clamped, home_block, journal_block};
ghost use Rattle.model.specs.Refusal.{number_of, answer_of};

// What the card refuses with. Each has its number in the table of refusals; 24 can no longer occur and has none here.
#[derive(Clone, Copy, Debug, PartialEq, Eq)]
pub enum Refusal {
    WrongLength = 1,
    UnknownCommand = 2,
    EarlyEnd = 3,
    OutOfRange = 4,
    NoCore = 5,
    NoBlock = 6,
    OffsetPast = 7,
    UnfitMaster = 8,
    CardBlank = 20,
    CardNotBlank = 21,
    CardDown = 22,
    CardUp = 23,
    NinthBlock = 25,
    JournalFull = 26,
    NumbersEnd = 27,
    NoneRunning = 28,
    PreviousNotStored = 29,
    NothingToStore = 30,
    NoneCommitted = 31,
    OldestNotValid = 32,
    SharedBlock = 33,
    HomeStoresLeft = 34,
    AllStoredHome = 35,
    ReportLimit = 36,
}

// Its number in the table.
impl From<Refusal> for u8 {
    ghost from_gives = { λ e n. n ≡ number_of e };

    fn from(e: Refusal) -> u8 {
        e as u8
    }
}

// The number that a card answers for what was refused, 0 for what was done.
pub fn answer_number<T: Drop>(answer: Result<T, Refusal>) -> u8
    ensures { result ≡ answer_of answer }
{
    match answer {
        Ok(_) => 0,
        Err(e) => u8::from(e),
    }
}

// Blank until FORMAT; up while it takes writes; down from a cut until recovery is done. The numbers are those of the lent cells.
#[derive(Clone, Copy, Debug, PartialEq, Eq)]
pub enum Phase {
    Blank = 0,
    Up = 1,
    Down = 2,
}

// The disk's shape: C cores, B home blocks, J journal blocks for each core.
#[derive(Clone, Copy, Debug, PartialEq, Eq)]
pub struct Shape {
    pub cores: u8,
    pub blocks: u8,
    pub journal: u8,
}

// A block of the disk or of memory, and the whole of either.
pub type Block = [u8; Shape::BLOCK_SIZE];

pub type DiskBytes = [u8; Shape::DISK_SIZE];

pub type Memory = [u8; Shape::MEMORY_SIZE];

// Where a core's journal begins: the number and the position of its oldest unretired record, or of the next one.
#[derive(Clone, Copy, Debug, PartialEq, Eq)]
pub struct Tail {
    pub number: u32,
    pub position: u8,
}

// The name of a transaction: a core and a number.
#[derive(Clone, Copy, Debug, PartialEq, Eq)]
pub struct Name {
    pub core: u8,
    pub number: u32,
}

// A transaction that is not committed: the blocks that it took, in order, and for each core the highest number that it names there, zero
// for none. Its stamp is given at CLOSE.
#[derive(Drop)]
pub struct Transaction {
    // stays: an option would say nothing of the cells of a transaction that is not live, and `transaction_in` says what each of them means.
    pub live: bool,
    pub stamp: u64,
    pub count: u8,
    pub blocks: [u8; Shape::MAX_TAKEN],
    pub highest: [u32; 8],
}

// A core: the number of its running transaction, or of the next one to open; the blocks of its committed unretired
// records; the stores done of the closed transaction, and the home stores done of the oldest committed one.
#[derive(Drop)]
pub struct Core {
    pub next: u32,
    pub used: u8,
    pub stored: u8,
    pub homed: u8,
    pub running: Transaction,
    pub closed: Transaction,
}

// Which of the four rules a WRITE meets at a block: no holder, its own transaction, another running one, a closed one.
#[derive(Clone, Copy, Debug, PartialEq, Eq)]
pub enum Rule {
    Free,
    Own,
    Running,
    Closed,
}

// The card's state, as the definitions speak of it; the code has it in lent cells (crate `cells`). `closes` counts the closes since
// the card came up; recovery has passed the home blocks below `recovered`; a block's holder is the transaction that holds it, if one does.
// What is committed stands on the disk alone.
#[derive(Drop)]
pub struct Card {
    pub phase: Phase,
    pub shape: Shape,
    pub closes: u64,
    pub recovered: u8,
    pub tails: [Tail; 8],
    pub cores: [Core; 8],
    pub holders: [Option<Name>; 64],
}

// How the commits of a disk name transactions: by a list of names, as before request (d), or by one number for each core.
#[derive(Clone, Copy, Debug, PartialEq, Eq)]
pub enum CommitLayout {
    Lists,
    Numbers,
}

// A committed transaction as its record gives it: its name, where its descriptor stands, how many blocks it took, and its
// stamp.
#[derive(Clone, Copy, Debug, PartialEq, Eq)]
pub struct Committed {
    pub core: u8,
    pub number: u32,
    pub position: u8,
    pub count: u8,
    pub stamp: u64,
}

// Why no record is read at a place, the first of paper 02's four ends that fits: no descriptor of the expected number, a field of it
// out of range or a block twice, too few blocks left for data and commit, no commit.
#[derive(Clone, Copy, Debug, PartialEq, Eq)]
pub enum JournalEnd {
    NoDescriptor = 1,
    BadDescriptor = 2,
    TooFewBlocks = 3,
    NoCommit = 4,
}

impl Shape {
    pub const MIN_CORES: u32 = 1;

    pub const MAX_CORES: u32 = 8;

    pub const MIN_BLOCKS: u32 = 1;

    pub const MAX_BLOCKS: u32 = 64;

    pub const MIN_JOURNAL: u32 = 4;

    pub const MAX_JOURNAL: u32 = 24;

    // The lent disk and memory, and a block of them.
    pub const DISK_SIZE: usize = 32896;

    pub const MEMORY_SIZE: usize = 16384;

    pub const BLOCK_SIZE: usize = 128;

    // At most: the blocks that a transaction takes, those that it has after the report task took one, the names in an older commit's list.
    pub const MAX_TAKEN: usize = 8;

    pub const MAX_REPORT_TAKEN: usize = 3;

    pub const MAX_NAMES: usize = 12;

    // The highest number of a transaction; the highest offset of a WRITE, four bytes before the block's end.
    pub const MAX_NUMBER: u32 = 4000000000;

    pub const MAX_OFFSET: u8 = 124;

    // The shape of these numbers, if each is within its limits.
    pub fn new(cores: u32, blocks: u32, journal: u32) -> Option<Shape>
        ensures { result ≡ checked cores blocks journal }
    {
        if (Self::MIN_CORES..=Self::MAX_CORES).contains(&cores)
            && (Self::MIN_BLOCKS..=Self::MAX_BLOCKS).contains(&blocks)
            && (Self::MIN_JOURNAL..=Self::MAX_JOURNAL).contains(&journal)
        {
            return Some(Shape {
                cores: cores as u8,
                blocks: blocks as u8,
                journal: journal as u8,
            });
        }
        None
    }

    // The nearest shape within the limits: a card that no run made may hold any numbers.
    pub fn clamped(self) -> Shape
        ensures { result ≡ clamped self }
    {
        Shape {
            cores: self
                .cores
                .clamp(Self::MIN_CORES as u8, Self::MAX_CORES as u8),
            blocks: self
                .blocks
                .clamp(Self::MIN_BLOCKS as u8, Self::MAX_BLOCKS as u8),
            journal: self
                .journal
                .clamp(Self::MIN_JOURNAL as u8, Self::MAX_JOURNAL as u8),
        }
    }

    // The disk block of home block b.
    pub fn home_block(self, b: u8) -> usize
        ensures { result ≡ home_block b }
    {
        1 + b as usize
    }

    // The disk block of position p of core c's journal.
    pub fn journal_block(self, c: u8, p: usize) -> usize
        ensures { result ≡ journal_block (clamped self) c p }
    {
        let s = self.clamped();
        let j = s.journal as usize;
        1 + s.blocks as usize + c as usize * j + around(p, j)
    }
}

// A position that counts round modulo j. In a journal it goes round at most once, and then nothing is divided.
// stays: `p % j` alone would divide at every step of a journal.
pub fn around(p: usize, j: usize) -> usize
    ensures { result ≡ p % j }
{
    if p < j {
        return p;
    }
    if j == 0 {
        return p;
    }
    if p - j < j {
        return p - j;
    }
    p % j
}
