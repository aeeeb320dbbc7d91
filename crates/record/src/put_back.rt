ghost use Rattle.std.specs.Prelude.{◌≡◌};
ghost use Rattle.device.specs.Outcome.{answer_of, read_answer_of, value_of};
ghost use Rattle.record.specs.Kept.{put_back, put_back_read};

use crate::codec::store;
use answer::{Reading, Refusal};
use device::Device;

// Puts back what a write, a vector or a run came to; a refusal leaves the record as it is.
pub fn settle(w: Result<Device, Refusal>, image: &mut [u8]) -> u8
    ensures value { result ≡ answer_of w }
    ensures image_after { image.new ≡ put_back w image.old }
{
    match w {
        Ok(d) => {
            store(d, image);
            0
        }
        Err(r) => r.number(),
    }
}

// Puts back what a read or a hold came to, with the value that it answers; 0 of a refusal.
pub fn settle_read(g: Result<Reading<Device>, Refusal>, image: &mut [u8], value: &mut u8) -> u8
    ensures value { result ≡ read_answer_of g }
    ensures value_after { value.new ≡ value_of g }
    ensures image_after { image.new ≡ put_back_read g image.old }
{
    let shown = g.map_or(0, |read| read.value);
    let answer = settle(g.map(|read| read.after), image);
    // After the record: where that can't be written, no value is told.
    *value = shown;
    answer
}
