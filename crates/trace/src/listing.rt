// A list of items in bytes, eight to each (include/warpmagpie.h has the form).
ghost use Rattle.std.specs.Prelude.{◌≡◌};
ghost use Rattle.trace.specs.Listing.{clocks_from, call_from, entry_from, entry_at, listing_of};

use crate::item::Item;

#[tactic(auto, unfolding(crate::specs::Listing::clocks_from))]
fn clocks_from(n: u8, place: u16, amount: u32) -> Option<Item>
    ensures { result ≡ clocks_from n place amount }
{
    if 31 < n || place != 0 || amount == 0 {
        return None;
    }
    Some(Item::Clocks(n, amount))
}

#[tactic(auto, unfolding(crate::specs::Listing::call_from))]
fn call_from(letter: u8, n: u8, place: u16, amount: u32) -> Option<Item>
    ensures { result ≡ call_from letter n place amount }
{
    if 255 < place || 255 < amount {
        return None;
    }
    match letter {
        b'W' => Some(Item::Write(place as u8, amount as u8, n)),
        b'R' => Some(Item::Read(place as u8, amount as u8, n)),
        b'A' if amount == 0 => Some(Item::Vector(place as u8, n)),
        _ => None,
    }
}

fn entry_from(letter: u8, n: u8, place: u16, amount: u32) -> Option<Item>
    ensures { result ≡ entry_from letter n place amount }
{
    if letter == b'C' {
        clocks_from(n, place, amount)
    } else {
        call_from(letter, n, place, amount)
    }
}

// The item whose bytes these are.
pub(crate) fn entry_of(entry: &[u8]) -> Option<Item>
    ensures { result ≡ entry_at entry.now 0 }
{
    if entry.len() < 8 {
        return None;
    }
    let place = u16::from_le_bytes([entry[2], entry[3]]);
    let amount = u32::from_le_bytes([entry[4], entry[5], entry[6], entry[7]]);
    entry_from(entry[0], entry[1], place, amount)
}

// Whether all of the list is items in range.
pub(crate) fn check_list(list: &[u8]) -> bool
    ensures { result ≡ (listing_of list.now).sound }
{
    list.chunks(8).all(|entry| entry_of(entry).is_some())
}
