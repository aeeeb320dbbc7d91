// Where each field of a record stands, and what each byte is at most (docs/RECORD.md).
pub const LENGTH: usize = 64;

// As many bytes as a record has, whether or not they are one.
pub type Image = [u8; LENGTH];

// The number that a record of this layout has at `LAYOUT`.
pub const NUMBER: u8 = 2;

// The serial unit's settings: UBRR, baud counter and registers.

pub const UBRR: usize = 0;

pub const LEFT: usize = 2;

pub const UCSR0A: usize = 4;

pub const UCSR0B: usize = 5;

pub const UCSR0C: usize = 6;

// The transmit buffer and the frame being sent.

pub const FULL: usize = 8;

pub const DATA: usize = 9;

pub const SENDING: usize = 11;

pub const SENT_WORD: usize = 12;

pub const SENT_BIT: usize = 14;

pub const SENT_TICKS: usize = 15;

// The frame being received.

pub const RECEIVING: usize = 16;

pub const LAST: usize = 17;

pub const BIT: usize = 18;

pub const SAMPLES: usize = 19;

pub const FIRST: usize = 20;

pub const SECOND: usize = 21;

pub const WORD: usize = 22;

pub const SPLITS: usize = 24;

// The frames held for reading, and one that waits: each its data's low byte, its marks, then its split votes.

pub const HELD: usize = 25;

pub const WAITS: usize = 26;

pub const LOST: usize = 27;

pub const OLDEST: usize = 28;

pub const NEXT: usize = 31;

pub const THIRD: usize = 34;

// The SPI.

pub const SPCR: usize = 48;

pub const SPI2X: usize = 49;

pub const DDRB: usize = 50;

pub const SHIFT: usize = 51;

pub const RECEIVED: usize = 52;

pub const EDGES: usize = 53;

pub const CLOCKS: usize = 54;

pub const SPIF: usize = 55;

pub const WCOL: usize = 56;

pub const MOSI: usize = 57;

pub const MISO: usize = 58;

pub const SCK: usize = 59;

pub const LAYOUT: usize = 63;

// What each byte is at most: 0 where it is unused.
#[rattlefmt::skip]
pub const MOST: Image = [
    255, 15, 255, 15, 66, 253, 62, 0,
    1, 255, 1, 1, 255, 3, 12, 15,
    1, 1, 11, 15, 1, 1, 255, 3,
    11, 2, 1, 1, 255, 15, 12, 255,
    15, 12, 255, 15, 12, 0, 0, 0,
    0, 0, 0, 0, 0, 0, 0, 0,
    255, 1, 255, 255, 255, 15, 64, 2,
    2, 1, 1, 1, 0, 0, 0, 2,
];
