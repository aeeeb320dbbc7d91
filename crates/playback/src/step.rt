// One item of a trace on a device.
ghost use Rattle.std.specs.Prelude.{◌≡◌};
ghost use Rattle.playback.specs.Replay.{written_step, read_step, step_of};

use answer::{Reading, Refusal};
use device::Device;
use span::Span;
use trace::Item;

// The device after an item, and whether it was answered as it was recorded. No Result: there is a device either way.
#[derive(Clone, Copy)]
pub struct Step {
    pub device: Device,
    pub same: bool,
}

// After a write or a vector.
fn written(d: Device, w: Result<Device, Refusal>, answer: u8) -> Step
    ensures { result ≡ written_step d w answer }
{
    match w {
        Ok(device) => Step {
            device,
            same: 0 == answer,
        },
        Err(r) => Step {
            device: d,
            same: r.number() == answer,
        },
    }
}

// After a read: its number and its value are compared.
fn read(d: Device, g: Result<Reading<Device>, Refusal>, value: u8, answer: u8) -> Step
    ensures { result ≡ read_step d g value answer }
{
    match g {
        Ok(got) => Step {
            device: got.after,
            same: 0 == answer && got.value == value,
        },
        Err(r) => Step {
            device: d,
            same: r.number() == answer && 0 == value,
        },
    }
}

pub(crate) fn stepped(d: Device, i: Item) -> Step
    ensures { result ≡ step_of d i }
{
    match i {
        Item::Write(a, v, n) => written(d, d.write(a as u16, v), n),
        Item::Read(a, v, n) => read(d, d.read(a as u16), v, n),
        Item::Vector(k, n) => written(d, d.take_vector(k), n),
        Item::Clocks(l, c) => {
            let device = d.hold(l, Span(c as usize)).after;
            Step { device, same: true }
        }
    }
}
