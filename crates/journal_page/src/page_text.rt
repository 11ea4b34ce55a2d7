// The whole page as text: its lines one behind the other.
ghost use Rattle.std.specs.Prelude.{◌*◌, ◌≤◌, ◌≡◌, length, take};
ghost use mathlib.Core.List.{flat_map};
ghost use Rattle.model.specs.JournalPage.{line_size, line_bytes, page_of};
ghost use Rattle.journal_page.specs.Fields.{max_lines};

use crate::disk_lines::{page_line, page_lines};
use crate::line::LINE_SIZE;

// Every line of the page laid into its 65 bytes of the text, which has room for the longest page: how many bytes the page has.
// stays: what may not change: the clause says what the lent text itself holds then.
pub fn lay_page(disk: &[u8], text: &mut [u8]) -> usize
    requires { max_lines * line_size ≤ length text.old }
    ensures { (result ≡ line_size * length (page_of disk.now)) × (result ≤ max_lines * line_size)
        × (take result text.new ≡ flat_map line_bytes (page_of disk.now)) }
{
    let n = page_lines(disk);
    for i in 0..n {
        let from = LINE_SIZE * i;
        let to = from + LINE_SIZE;
        page_line(disk, i, &mut text[from..to]);
    }
    LINE_SIZE * n
}
