// The fields of the four kinds of lines: columns and values, and nothing more.
ghost use Rattle.std.specs.Prelude.{◌≡◌, []};
ghost use Rattle.model.specs.JournalPage.{head_fields, transaction_fields, end_fields, refusal_fields};
ghost use Rattle.journal_page.specs.Fields.{new_field, fields_in, letters_of, with_number};

use crate::line::{Field, Shown};
use model::{Committed, Shape};

// The letters of the two words, as the bytes of a number.
const KEPT: u64 = 0x6B657074;

const LEFT: u64 = 0x6C656674;

// A number set right in so many columns.
fn numeral(first: u8, width: u8, value: u64) -> Field
    ensures { result ≡ new_field first width (Shown.Number value) }
{
    Field {
        first,
        width,
        shown: Shown::Number(value),
    }
}

// A line without fields.
pub fn no_fields() -> [Option<Field>; 6]
    ensures { fields_in result ≡ [] }
{
    [None; 6]
}

// The head: C, B and J.
pub fn head_fields(s: Shape) -> [Option<Field>; 6]
    ensures { fields_in result ≡ head_fields s }
{
    [
        Some(numeral(1, 2, s.cores as u64)),
        Some(numeral(4, 2, s.blocks as u64)),
        Some(numeral(7, 2, s.journal as u64)),
        None,
        None,
        None,
    ]
}

// The end of a journal: its core, and why it stopped there.
pub fn end_fields(c: u8, end: u8) -> [Option<Field>; 6]
    ensures { fields_in result ≡ end_fields c end }
{
    [
        Some(numeral(1, 2, c as u64)),
        Some(numeral(4, 2, end as u64)),
        None,
        None,
        None,
        None,
    ]
}

// A refusal: its number.
pub fn refusal_fields(n: u8) -> [Option<Field>; 6]
    ensures { fields_in result ≡ refusal_fields n }
{
    [Some(numeral(1, 2, n as u64)), None, None, None, None, None]
}

// The word of a transaction that is in the valid set, or of one that is not.
fn kept_or_left(kept: bool) -> Field
    ensures { result ≡ new_field 42 4 (Shown.Word (letters_of kept)) }
{
    Field {
        first: 42,
        width: 4,
        shown: Shown::Word(if kept { KEPT } else { LEFT }),
    }
}

// A transaction: core, number, stamp, how many blocks and cores named, and whether it is in the valid set.
pub fn transaction_fields(e: Committed, number: u64, named: u8, kept: bool) -> [Option<Field>; 6]
    ensures { fields_in result ≡ transaction_fields kept named (with_number number e) }
{
    [
        Some(numeral(1, 2, e.core as u64)),
        Some(numeral(4, 10, number)),
        Some(numeral(15, 20, e.stamp)),
        Some(numeral(36, 2, e.count as u64)),
        Some(numeral(39, 2, named as u64)),
        Some(kept_or_left(kept)),
    ]
}
