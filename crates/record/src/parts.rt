ghost use Rattle.std.specs.Prelude.{◌≡◌};
ghost use Rattle.record.specs.Parts.{remembered_in, reception_in, frame_parts, sender_parts, receiver_parts};

use usart::{Frame, Places, Receiver, Reception, Sampler, Sender, Transmission};

// The bytes have a flag beside each value (docs/RECORD.md), so the parts for them have too.

// What the bytes hold of a sender, but TXC.
#[derive(Clone, Copy)]
pub struct SenderParts {
    pub full: bool,
    pub data: u16,
    pub sending: bool,
    pub transmission: Transmission,
}

// What the bytes hold of the frames held, and of the one that waits.
#[derive(Clone, Copy, Default)]
pub struct FrameParts {
    pub held: u8,
    pub waits: bool,
    pub oldest: Frame,
    pub second: Frame,
    pub third: Frame,
}

// What the bytes hold of a receiver, but a frame lost.
#[derive(Clone, Copy)]
pub struct ReceiverParts {
    pub receiving: bool,
    pub last: bool,
    pub reception: Reception,
    pub frames: FrameParts,
}

pub fn sender_parts(s: Sender) -> SenderParts
    ensures { result ≡ sender_parts s }
{
    SenderParts {
        full: s.buffer.is_some(),
        data: s.buffer.unwrap_or(0),
        sending: s.shifter.is_some(),
        transmission: s.shifter.unwrap_or_default(),
    }
}

// The last sample; 0 while a frame is being received.
fn remembered(s: Sampler) -> bool
    ensures { result ≡ remembered_in s }
{
    match s {
        Sampler::Idle(last) => last,
        Sampler::Receiving(_) => false,
    }
}

fn reception(s: Sampler) -> Reception
    ensures { result ≡ reception_in s }
{
    match s {
        Sampler::Idle(_) => Reception::default(),
        Sampler::Receiving(r) => r,
    }
}

fn frame_parts(p: Places) -> FrameParts
    ensures { result ≡ frame_parts p }
{
    match p {
        Places::Empty => FrameParts::default(),
        Places::One(a) => FrameParts {
            held: 1,
            oldest: a,
            ..FrameParts::default()
        },
        Places::Two(a, b) => FrameParts {
            held: 2,
            oldest: a,
            second: b,
            ..FrameParts::default()
        },
        Places::Three(a, b, c) => FrameParts {
            held: 2,
            waits: true,
            oldest: a,
            second: b,
            third: c,
        },
    }
}

pub fn receiver_parts(r: Receiver) -> ReceiverParts
    ensures { result ≡ receiver_parts r }
{
    ReceiverParts {
        receiving: r.sampler.receiving(),
        last: remembered(r.sampler),
        reception: reception(r.sampler),
        frames: frame_parts(r.queue.places),
    }
}
