ghost use Rattle.std.specs.Prelude.{◌≡◌};
ghost use Rattle.usart.specs.Receiver.{frame_of, put_of, receiver_of, listened_of, enabled_of, stopped};

use crate::queue::{Frame, Queue};
use crate::sampler::{Outcome, Sampler};
use frame::Format;

#[derive(Clone, Copy)]
pub struct Receiver {
    pub sampler: Sampler,
    pub queue: Queue,
}

// The frame of a word, its stop vote and its split votes, with no mark of a loss.
fn received(f: Format, word: u16, stop: bool, splits: u8) -> Frame
    ensures { result ≡ frame_of f word stop splits }
{
    Frame {
        data: f.masked(word),
        fe: !stop,
        upe: f.parity_error(word),
        dor: false,
        splits,
    }
}

fn put(q: Queue, f: Format, o: Outcome) -> Queue
    ensures { result ≡ put_of f q o }
{
    match o {
        Outcome::Nothing => q,
        Outcome::Started => q.started(),
        Outcome::Complete { word, stop, splits } => q.stored(received(f, word, stop, splits)),
    }
}

impl Receiver {
    // Idle, remembering low, with nothing held or waiting: as after reset, when disabled, and when newly enabled.
    pub fn stopped() -> Receiver
        ensures { result ≡ stopped }
    {
        Receiver {
            sampler: Sampler::Idle(false),
            queue: Queue::default(),
        }
    }

    fn tick(self, f: Format, rxd: bool) -> Receiver
        ensures { result ≡ receiver_of f self rxd }
    {
        let next = self.sampler.tick(f, rxd);
        Receiver {
            sampler: next.sampler,
            queue: put(self.queue, f, next.outcome),
        }
    }

    // A tick of the baud clock; only an enabled receiver samples.
    // Not grouped: docs/CLAIMS.md names this call, and where the three are held together they are (`Listening`).
    #[tactic(auto, unfolding(crate::specs::Receiver::listened_of))]
    pub fn listened(self, rxen: bool, f: Format, rxd: bool) -> Receiver
        ensures { result ≡ listened_of rxen f self rxd }
    {
        if rxen { self.tick(f, rxd) } else { self }
    }

    #[tactic(auto, unfolding(crate::specs::Receiver::enabled_of))]
    pub fn enabled(self, before: bool, after: bool) -> Receiver
        ensures { result ≡ enabled_of before after self }
    {
        if before && after {
            self
        } else {
            Receiver::stopped()
        }
    }
}
