// A whole text: its first line, and its first malformed line.
ghost use Rattle.std.specs.Prelude.{◌≡◌, position, is_err};
ghost use Rattle.trace.specs.Text.{first_line};
ghost use Rattle.trace.specs.Lines.{lines_from};
ghost use Rattle.trace.specs.Contents.{starts_with, contents_of};

use crate::reader::Reader;

// The fixed first line of every text.
pub(crate) const FIRST_LINE: [u8; 8] = *b"chime\t1\n";

// The line in which the first item stands, from 1.
pub const FIRST_ITEM: usize = 2;

// The first malformed line, from 1.
#[derive(Clone, Copy)]
pub struct Malformed {
    pub line: usize,
}

// Whether the text begins with the fixed first line.
fn begins(text: &[u8]) -> bool
    ensures { result ≡ starts_with first_line text.now }
{
    text.starts_with(&FIRST_LINE)
}

// How many lines stand before the first malformed one, behind the first line.
fn lines_before(text: &[u8]) -> Option<usize>
    ensures { result ≡ position is_err (lines_from text.now 8) }
{
    let mut lines = Reader::past_first(text);
    lines.position(|line| line.is_err())
}

pub fn check_text(text: &[u8]) -> Result<(), Malformed>
    ensures { result ≡ (contents_of text.now).check }
{
    if !begins(text) {
        return Err(Malformed { line: 1 });
    }
    match lines_before(text) {
        Some(n) => Err(Malformed {
            line: n + FIRST_ITEM,
        }),
        None => Ok(()),
    }
}
