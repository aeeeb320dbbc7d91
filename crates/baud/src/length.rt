// The recommended limit of the rate error at a frame length.
ghost use Rattle.std.specs.Prelude.{◌≡◌, count_by};
ghost use Rattle.frame.specs.Format.{word_bits};
ghost use Rattle.baud.specs.Length.{bits_of, is_within_at, lengths_within};

use crate::setting::Setting;
use crate::target::Target;
use frame::{Format, Parity, Size};

// D: data bits plus parity bit.
#[derive(Clone, Copy)]
pub(crate) enum FrameLength {
    Five,
    Six,
    Seven,
    Eight,
    Nine,
    Ten,
}

impl FrameLength {
    pub(crate) const ALL: [FrameLength; 6] = [
        FrameLength::Five,
        FrameLength::Six,
        FrameLength::Seven,
        FrameLength::Eight,
        FrameLength::Nine,
        FrameLength::Ten,
    ];

    // What heads its column in the table.
    pub(crate) fn head(self) -> &'static str {
        match self {
            FrameLength::Five => "D=5",
            FrameLength::Six => "D=6",
            FrameLength::Seven => "D=7",
            FrameLength::Eight => "D=8",
            FrameLength::Nine => "D=9",
            FrameLength::Ten => "D=10",
        }
    }

    // A format whose frames are so long.
    fn format(self, u2x: bool) -> Format
        ensures result_value { word_bits result ≡ bits_of self }
        ensures u2x_value { result.u2x ≡ u2x }
    {
        let (size, parity) = match self {
            FrameLength::Five => (Size::Five, Parity::Off),
            FrameLength::Six => (Size::Six, Parity::Off),
            FrameLength::Seven => (Size::Seven, Parity::Off),
            FrameLength::Eight => (Size::Eight, Parity::Off),
            FrameLength::Nine => (Size::Nine, Parity::Off),
            FrameLength::Ten => (Size::Nine, Parity::Even),
        };
        Format {
            size,
            parity,
            usbs: false,
            u2x,
        }
    }
}

// Whether a receiver with this setting is within the limit at D, against a sender that keeps the rate exactly.
#[tactic(auto, unfolding(crate::specs::Length::is_within_at))]
pub(crate) fn is_within(target: Target, s: Setting, length: FrameLength) -> bool
    ensures { result ≡ is_within_at target.clock target.rate s (bits_of length) }
{
    let most = usart::rate_limit(length.format(s.u2x));
    let t = s.total(target.rate);
    let off = t.abs_diff(target.clock as u64);
    off * 1000 <= most as u64 * target.clock as u64
}

fn count_within(target: Target, s: Setting, lengths: &[FrameLength]) -> usize
    ensures { result ≡ count_by (λ length. is_within_at target.clock target.rate s (bits_of length)) lengths.now }
{
    lengths
        .iter()
        .filter(|&&length| is_within(target, s, length))
        .count()
}

// At how many of the frame lengths.
pub(crate) fn lengths_within(target: Target, s: Setting) -> u8
    ensures { result ≡ lengths_within target.clock target.rate s }
{
    count_within(target, s, &FrameLength::ALL) as u8
}
