// A whole trace, from reset.
ghost use Rattle.std.specs.Prelude.{◌≡◌};
ghost use Rattle.device.specs.Unit.{reset_device};
ghost use Rattle.trace.specs.Contents.{contents_at};
ghost use Rattle.playback.specs.Replay.{finished, stopped_at, ended, played_from, replay_of};

use crate::step::stepped;
use answer::Refusal;
use device::Device;
use trace::{FIRST_ITEM, Reader, check_text};

// Why a replay ended before its time, and at which line, from 1.
#[derive(Clone, Copy)]
pub struct Stopped {
    pub why: Refusal,
    pub line: usize,
}

// The device after a replay, and how it ended: with every item answered as it was recorded, or where it stopped.
#[derive(Clone, Copy)]
pub struct Replayed {
    pub device: Device,
    pub outcome: Result<(), Stopped>,
}

fn done(device: Device) -> Replayed
    ensures { result ≡ ended device finished }
{
    Replayed {
        device,
        outcome: Ok(()),
    }
}

fn refused(device: Device, why: Refusal, line: usize) -> Replayed
    ensures { result ≡ ended device (stopped_at why line) }
{
    Replayed {
        device,
        outcome: Err(Stopped { why, line }),
    }
}

// The items behind the first line, up to one that is answered otherwise.
fn play(text: &[u8]) -> Replayed
    ensures { result ≡ played_from reset_device 2 (contents_at text.now 8 2).items }
{
    let mut d = Device::reset();
    for (n, line) in Reader::past_first(text).enumerate() {
        let Ok(item) = line else {
            break;
        };
        let step = stepped(d, item);
        d = step.device;
        if !step.same {
            return refused(d, Refusal::Different, n + FIRST_ITEM);
        }
    }
    done(d)
}

// The whole text is looked at before the first item is played.
pub fn replay(text: &[u8]) -> Replayed
    ensures { result ≡ replay_of text.now }
{
    match check_text(text) {
        Ok(()) => play(text),
        Err(bad) => refused(Device::reset(), Refusal::Malformed, bad.line),
    }
}
