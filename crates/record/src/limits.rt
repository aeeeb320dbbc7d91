ghost use Rattle.std.specs.Prelude.{◌≡◌};
ghost use Rattle.record.specs.Layout.{most};
ghost use Rattle.record.specs.Accepts.{is_within};

use crate::layout::{self, Image};

// All are looked at, also after one that is too large, and what is folded is a number: with no way out of the loop, and
// no flag in it, the compiler tests many at a time.
pub(crate) fn within(b: &Image) -> bool
    ensures { result ≡ is_within b.now most }
{
    b.iter()
        .zip(layout::MOST.iter())
        .fold(0, |over: u8, (byte, most)| over | (byte > most) as u8)
        == 0
}
