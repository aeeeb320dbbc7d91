ghost use Rattle.std.specs.Prelude.{◌≡◌, ◌+◌, ◌*◌};
ghost use Rattle.record.specs.Codes.{size_code, known_size, marks_of, frame_from, flag_code, flag_of};

use frame::Size;
use spi::Flag;
use usart::Frame;

// The library's `from_le_bytes` by names for its bytes, and in numbers in the clause: it is called for many fields.

// Two bytes, low byte first.
pub fn word(low: u8, high: u8) -> u16
    ensures { result ≡ low + 256 * high }
{
    u16::from_le_bytes([low, high])
}

// Three bytes, low byte first.
pub fn triple(low: u8, middle: u8, high: u8) -> u32
    ensures { result ≡ low + 256 * middle + 65536 * high }
{
    u32::from_le_bytes([low, middle, high, 0])
}

// UCSZ2:0, from UCSR0B and UCSR0C.
pub fn size_code(b: u8, c: u8) -> u8
    ensures { result ≡ size_code b c }
{
    b / 4 % 2 * 4 + c / 2 % 4
}

// The codes of another crate's types have no `From` here: Rust lets only that crate give one, and the codes are the
// record's.

// The size of a code. A reserved one gives any: a record that has one is refused.
pub fn known_size(code: u8) -> Size
    ensures { result ≡ known_size code }
{
    usart::size_of(code).unwrap_or(Size::Eight)
}

// A frame's ninth data bit, UPE, DOR and FE, in bits 0 to 3.
pub fn marks(f: Frame) -> u8
    ensures { result ≡ marks_of f }
{
    (f.data / 256 % 2) as u8 + u8::from(f.upe) * 2 + u8::from(f.dor) * 4 + u8::from(f.fe) * 8
}

// The frame of its three bytes.
pub fn frame_of(low: u8, marks: u8, splits: u8) -> Frame
    ensures { result ≡ frame_from low marks splits }
{
    Frame {
        data: word(low, marks % 2),
        fe: marks / 8 % 2 == 1,
        upe: marks / 2 % 2 == 1,
        dor: marks / 4 % 2 == 1,
        splits,
    }
}

pub fn flag_code(f: Flag) -> u8
    ensures { result ≡ flag_code f }
{
    match f {
        Flag::Clear => 0,
        Flag::Set => 1,
        Flag::Armed => 2,
    }
}

// Any other code gives a clear flag: a record that has one is refused.
#[tactic(auto, unfolding(crate::specs::Codes::flag_of))]
pub fn flag_of(code: u8) -> Flag
    ensures { result ≡ flag_of code }
{
    match code {
        1 => Flag::Set,
        2 => Flag::Armed,
        _ => Flag::Clear,
    }
}
