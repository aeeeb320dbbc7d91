ghost use Rattle.std.specs.Prelude.{◌≡◌, ◌≤◌};
ghost use Rattle.usart.specs.Settings.{code_of, size_of, upm_of, parity_of};

use frame::{Parity, Size};

// Sizes and parities are the frame's and numbers are std's, so an `impl` of From here would be of a foreign trait for
// foreign types; and the frame knows nothing of codes.
pub fn size_code(z: Size) -> u8
    ensures value { result ≡ code_of z }
    ensures upper_bound { result ≤ 7 }
{
    match z {
        Size::Five => 0,
        Size::Six => 1,
        Size::Seven => 2,
        Size::Eight => 3,
        Size::Nine => 7,
    }
}

// The size that a code UCSZ2:0 stands for; none where it is reserved.
#[tactic(auto, unfolding(crate::specs::Settings::size_of))]
pub fn size_of(code: u8) -> Option<Size>
    ensures { result ≡ size_of code }
{
    match code {
        0 => Some(Size::Five),
        1 => Some(Size::Six),
        2 => Some(Size::Seven),
        3 => Some(Size::Eight),
        7 => Some(Size::Nine),
        _ => None,
    }
}

pub fn upm(p: Parity) -> u8
    ensures value { result ≡ upm_of p }
    ensures upper_bound { result ≤ 3 }
{
    match p {
        Parity::Off => 0,
        Parity::Even => 2,
        Parity::Odd => 3,
    }
}

// 01 is refused before it comes here.
#[tactic(auto, unfolding(crate::specs::Settings::parity_of))]
pub fn parity_of(code: u8) -> Parity
    ensures { result ≡ parity_of code }
{
    match code {
        2 => Parity::Even,
        3 => Parity::Odd,
        _ => Parity::Off,
    }
}
