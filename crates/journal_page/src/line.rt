// A line of the page: what each column shows is decided here alone, for whatever fields the line has.
ghost use Rattle.std.specs.Prelude.{◌+◌, ◌/◌, ◌%◌, ◌^◌, ◌≤◌, ◌≡◌, true};
ghost use Rattle.model.specs.JournalPage.{digit_at, covers, shown_at, byte_at, lay_number, laid};
ghost use Rattle.journal_page.specs.Fields.{field_in, fields_in, field_byte};

// What a field shows: a number set right, or a word, whose letters are the bytes of a number.
#[derive(Clone, Copy)]
pub enum Shown {
    Number(u64),
    Word(u64),
}

// A field of a line: its first column, counted from 1, how many it has, and what stands there.
#[derive(Clone, Copy)]
pub struct Field {
    pub first: u8,
    pub width: u8,
    pub shown: Shown,
}

impl Field {
    // Whether a column is one of the field's.
    fn covers(&self, column: u8) -> bool
        ensures { result ≡ covers (field_in self.now) column }
    {
        self.first <= column && column - self.first < self.width
    }

    // What the field shows at one of its columns.
    fn byte_at(&self, column: u8) -> u8
        requires { covers (field_in self.now) column ≡ true }
        ensures { result ≡ field_byte (field_in self.now) column }
    {
        let place = self.width - 1 - (column - self.first);
        match self.shown {
            Shown::Number(value) => digit_at(value, place),
            Shown::Word(letters) => letter_at(letters, place),
        }
    }
}

// The columns of a line; a line feed stands behind them.
const COLUMNS: u8 = 64;

pub const LINE_SIZE: usize = 65;

// What fills a line where nothing is shown.
const SPACE: u8 = b' ';

// What is left of n without its lowest places.
fn shifted(n: u64, base: u64, places: u8) -> u64
    requires { 1 ≤ base }
    ensures { result ≡ n / base ^ places }
{
    let mut left = n;
    for _ in 0..places {
        left /= base;
    }
    left
}

// The lowest digit.
fn digit(n: u64) -> u8
    ensures { result ≡ 0x30 + n % 10 }
{
    b'0' + (n % 10) as u8
}

// The digit at a place from the right, or a blank above the highest one.
fn digit_at(n: u64, place: u8) -> u8
    ensures { result ≡ digit_at n place }
{
    let left = shifted(n, 10, place);
    if left == 0 && place != 0 {
        return SPACE;
    }
    digit(left)
}

// The letter at a place from the right.
fn letter_at(n: u64, place: u8) -> u8
    ensures { result ≡ n / 256 ^ place % 256 }
{
    let left = shifted(n, 256, place);
    (left % 256) as u8
}

// What the fields show at a column, a blank where none has it.
fn shown_at(fields: [Option<Field>; 6], column: u8) -> u8
    ensures { result ≡ shown_at (fields_in fields) column }
{
    for field in fields {
        if let Some(f) = field
            && f.covers(column)
        {
            return f.byte_at(column);
        }
    }
    SPACE
}

// The byte at a column.
fn byte_at(fields: [Option<Field>; 6], column: u8) -> u8
    ensures { result ≡ byte_at (fields_in fields) column }
{
    if COLUMNS < column {
        return b'\n';
    }
    shown_at(fields, column)
}

// A line of these fields laid into the buffer, column by column. Any length but 65 bytes is answered with 1, and no byte is touched.
pub fn lay_line(fields: [Option<Field>; 6], buffer: &mut [u8]) -> u8
    ensures { (result ≡ lay_number buffer.old) × (buffer.new ≡ laid (fields_in fields) buffer.old) }
{
    if buffer.len() != LINE_SIZE {
        return 1;
    }
    for i in 0..LINE_SIZE {
        buffer[i] = byte_at(fields, i as u8 + 1);
    }
    0
}
