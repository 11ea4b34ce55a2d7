// One command of a tape, without input or output.
ghost use Rattle.std.specs.Prelude.{◌≤◌, ◌≡◌, length};
ghost use Rattle.model.specs.Bytes.{Bytes};
ghost use Rattle.model.specs.Tape.{read_at, next_offset};
ghost use Rattle.model.proofs.OwnBytes.{own_bytes};
ghost use Rattle.lines.specs.Lines.{is_whole, Turned};

// The four numbers of a command's line; how many of the bytes read it took; and, if the tape goes on, the offset of the next command.
#[derive(Clone, Copy)]
pub struct Turn {
    pub offset: u64,
    pub byte: u32,
    pub answer: u32,
    pub stores: u64,
    pub taken: usize,
    pub next: Option<u64>,
}

// Whether a known command begins here and all its operands are there: after any other the tape ends.
fn is_whole(read: &[u8]) -> bool
    ensures { result ≡ is_whole (read_at read.now 0) }
{
    !operands::is_unknown(read, 0) && !operands::ends_early(read, 0)
}

// The command at an offset of the tape, whose bytes come first in what was read.
pub fn run_command(
    offset: u64,
    read: &[u8],
    w: &mut [u64; 423],
    disk: &mut [u8],
    memory: &mut [u8],
) -> Turn
    ensures { ((t : Bytes) → own_bytes t offset ≡ own_bytes read.now 0
        → Turned t offset w.old disk.old memory.old w.new disk.new memory.new result)
        × (result.taken ≡ next_offset read.now 0)
        × (result.taken ≤ length read.now) }
{
    let more = is_whole(read);
    let done = firmware::session::command(w, read, 0, disk, memory);
    let stores = firmware::session::stores(w);
    // no input is long enough to reach the largest offset
    let behind = offset.saturating_add(done.next);
    Turn {
        offset,
        byte: done.byte,
        answer: done.number,
        stores,
        taken: done.next as usize,
        next: more.then_some(behind),
    }
}
