// A reader carries a text and its place in it, and gives the text's lines one after the other.
ghost use Rattle.std.specs.Prelude.{◌≡◌, ⊤};
ghost use Rattle.std.specs.Iterator.{YieldsFirst, MakesProgress, item_count};
ghost use Rattle.trace.specs.Line.{line_at};
ghost use Rattle.trace.specs.Lines.{lines_from, item_in, place_after};

use crate::item::Item;
use crate::line::{Line, NoItem, line_at};
use crate::text::FIRST_LINE;

#[derive(Clone, Copy)]
pub struct Reader<'a> {
    pub text: &'a [u8],
    pub at: usize,
}

impl<'a> Reader<'a> {
    // A reader at the text's start.
    pub fn new(text: &'a [u8]) -> Reader<'a>
        ensures { (result.text ≡ text.entry) × (result.at ≡ 0) }
    {
        Reader { text, at: 0 }
    }

    // A reader past the text's fixed first line.
    pub fn past_first(text: &'a [u8]) -> Reader<'a>
        ensures { (result.text ≡ text.entry) × (result.at ≡ 8) }
    {
        Reader::new(text).moved(FIRST_LINE.len())
    }

    // The reader at another place.
    pub fn moved(self, at: usize) -> Reader<'a>
        ensures { (result.text ≡ self.entry.text) × (result.at ≡ at) }
    {
        Reader {
            text: self.text,
            at,
        }
    }

    // The line at the reader's place.
    pub fn line(self) -> Option<Result<Line, NoItem>>
        ensures { result ≡ line_at self.entry.text.now self.entry.at }
    {
        line_at(self.text, self.at)
    }
}

// What the lines hold from the reader's place on; a malformed line is the last.
impl<'a> Iterator for Reader<'a> {
    type Item = Result<Item, NoItem>;

    ghost next_gives = { YieldsFirst (λ r. lines_from r.text.now r.at) };

    ghost remaining = { item_count (λ r. lines_from r.text.now r.at) };

    fn next(&mut self) -> Option<Result<Item, NoItem>>
        ensures steps { YieldsFirst (λ r. lines_from r.text.now r.at) self.old result self.new }
        ensures goes { MakesProgress (λ _. ⊤) (item_count (λ r. lines_from r.text.now r.at)) self.old result self.new }
        ensures value { result ≡ item_in (line_at self.old.text.now self.old.at) }
        ensures place { self.new.at ≡ place_after self.old.text.now self.old.at (line_at self.old.text.now self.old.at) }
        ensures text { self.new.text ≡ self.old.text }
    {
        match self.line()? {
            Ok(line) => {
                self.at = line.next;
                Some(Ok(line.item))
            }
            Err(e) => {
                self.at = self.text.len();
                Some(Err(e))
            }
        }
    }
}

// The line at a place of a text, for a caller that carries no reader.
pub fn read_line(text: &[u8], at: usize) -> Option<Result<Line, NoItem>>
    ensures { result ≡ line_at text.now at }
{
    Reader::new(text).moved(at).line()
}
