// A line of a text, by the place at which it begins. `field_at` of `decimal` knows no reader, and the definitions of
// the parts have text and place apart: so have these, up to `Reader::line`.
ghost use Rattle.std.specs.Prelude.{◌≡◌};
ghost use Rattle.trace.specs.Line.{pair_at, triple_at, item_at, fields_at, line_at, vector_by, clocks_by};

use crate::item::Item;
use decimal::field_at;

// Two numbers, and the place past them.
#[derive(Clone, Copy)]
pub struct Pair {
    pub first: u32,
    pub second: u32,
    pub next: usize,
}

// Three numbers, and the place past them.
#[derive(Clone, Copy)]
pub struct Triple {
    pub first: u8,
    pub second: u8,
    pub third: u8,
    pub next: usize,
}

// What a line holds, and the place of the next.
#[derive(Clone, Copy)]
pub struct Line {
    pub item: Item,
    pub next: usize,
}

// A line that is no item's.
#[derive(Clone, Copy)]
pub struct NoItem;

// Two numbers up to their limits, a tab between them and LF after them.
fn pair_at(text: &[u8], at: usize, first: u32, second: u32) -> Option<Pair>
    ensures { result ≡ pair_at text.now at first second }
{
    let x = field_at(text, at, first, b'\t')?;
    let y = field_at(text, x.next, second, b'\n')?;
    Some(Pair {
        first: x.value,
        second: y.value,
        next: y.next,
    })
}

// Three bytes' values, tabs between them and LF after them.
fn triple_at(text: &[u8], at: usize) -> Option<Triple>
    ensures { result ≡ triple_at text.now at }
{
    let x = field_at(text, at, 255, b'\t')?;
    let others = pair_at(text, x.next, 255, 255)?;
    Some(Triple {
        first: x.value as u8,
        second: others.first as u8,
        third: others.second as u8,
        next: others.next,
    })
}

fn vector_at(text: &[u8], at: usize) -> Option<Line>
    ensures { result ≡ vector_by (pair_at text.now at 255 255) }
{
    let p = pair_at(text, at, 255, 255)?;
    let item = Item::Vector(p.first as u8, p.second as u8);
    Some(Line { item, next: p.next })
}

fn clocks_at(text: &[u8], at: usize) -> Option<Line>
    ensures { result ≡ clocks_by (pair_at text.now at 31 4294967295) }
{
    let p = pair_at(text, at, 31, u32::MAX)?;
    if p.second == 0 {
        return None;
    }
    let item = Item::Clocks(p.first as u8, p.second);
    Some(Line { item, next: p.next })
}

// The fields at `at` of a line that begins with the letter `letter`.
#[tactic(auto, unfolding(crate::specs::Line::item_at))]
fn item_at(text: &[u8], letter: u8, at: usize) -> Option<Line>
    ensures { result ≡ item_at text.now letter at }
{
    match letter {
        b'W' => {
            let t = triple_at(text, at)?;
            let item = Item::Write(t.first, t.second, t.third);
            Some(Line { item, next: t.next })
        }
        b'R' => {
            let t = triple_at(text, at)?;
            let item = Item::Read(t.first, t.second, t.third);
            Some(Line { item, next: t.next })
        }
        b'A' => vector_at(text, at),
        b'C' => clocks_at(text, at),
        _ => None,
    }
}

// The letter at `at`, a tab and the fields.
fn fields_at(text: &[u8], at: usize) -> Option<Line>
    ensures { result ≡ fields_at text.now at }
{
    let letter = *text.get(at)?;
    if *text.get(at + 1)? != b'\t' {
        return None;
    }
    item_at(text, letter, at + 2)
}

// The line at `at`; past the end there is none.
pub(crate) fn line_at(text: &[u8], at: usize) -> Option<Result<Line, NoItem>>
    ensures { result ≡ line_at text.now at }
{
    if text.len() <= at {
        return None;
    }
    Some(fields_at(text, at).ok_or(NoItem))
}
