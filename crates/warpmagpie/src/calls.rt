ghost use Rattle.std.specs.Prelude.{[], ◌∷◌, ◌≡◌, ◌<◌};
ghost use Rattle.record.specs.Codec.{decode_of};
ghost use Rattle.record.specs.Kept.{kept};
ghost use Rattle.warpmagpie.specs.Calls.{reset_answer, record_after_reset, write_answer, record_after_write};
ghost use Rattle.warpmagpie.specs.Calls.{read_answer, read_value, record_after_read, vector_answer};
ghost use Rattle.warpmagpie.specs.Calls.{record_after_vector, run_answer, record_after_run, outputs_after_run};
ghost use Rattle.warpmagpie.specs.Calls.{run_on, clock_on, output_in, requests_answer, requests_value};
ghost use Rattle.warpmagpie.specs.Calls.{split_votes_answer, split_votes_value};

use answer::{Refusal, told};
use device::Device;
use record::{Stepped, decode, settle, settle_read, store};

// Resets the device: whatever bytes the record had, it is then the record of a device after reset.
pub fn warpmagpie_reset(image: &mut [u8]) -> u8
    ensures value { result ≡ reset_answer image.old }
    ensures image_after { image.new ≡ record_after_reset image.old }
{
    if image.len() != record::LENGTH {
        return Refusal::Record.number();
    }
    store(Device::reset(), image);
    0
}

pub fn warpmagpie_write(image: &mut [u8], address: u16, value: u8) -> u8
    ensures value { result ≡ write_answer image.old address value }
    ensures image_after { image.new ≡ record_after_write image.old address value }
{
    let written = decode(image).and_then(|d| d.write(address, value));
    settle(written, image)
}

pub fn warpmagpie_read(image: &mut [u8], address: u16, value: &mut u8) -> u8
    ensures value { result ≡ read_answer image.old address }
    ensures value_after { value.new ≡ read_value image.old address }
    ensures image_after { image.new ≡ record_after_read image.old address }
{
    // Neither by `and_then` nor by `?`, through which a read's value and device are copied once more: a tenth slower.
    match decode(image) {
        Ok(d) => settle_read(d.read(address), image, value),
        Err(r) => {
            *value = 0;
            r.number()
        }
    }
}

pub fn warpmagpie_take_vector(image: &mut [u8], vector: u8) -> u8
    ensures value { result ≡ vector_answer image.old vector }
    ensures image_after { image.new ≡ record_after_vector image.old vector }
{
    let taken = decode(image).and_then(|d| d.take_vector(vector));
    settle(taken, image)
}

// The device after a run of any length.
#[tactic(auto, unfolding(crate::specs::Calls::run_on, crate::specs::Calls::outputs_on))]
fn ran(image: &[u8], levels: &[u8], outputs: &mut [u8]) -> Result<Device, Refusal>
    ensures value { result ≡ run_on (decode_of image.now) levels.now outputs.old }
    ensures outputs_after { outputs.new ≡ outputs_after_run image.now levels.now outputs.old }
{
    decode(image)?.run(levels, outputs)
}

#[tactic(auto, using(crate::proofs::Cases::run_kept))]
fn many_clocks(image: &mut [u8], levels: &[u8], outputs: &mut [u8]) -> u8
    ensures value { result ≡ run_answer image.old levels.now outputs.old }
    ensures image_after { image.new ≡ record_after_run image.old levels.now outputs.old }
    ensures outputs_after { outputs.new ≡ outputs_after_run image.old levels.now outputs.old }
{
    settle(ran(image, levels, outputs), image)
}

// One clock, and its output byte. Most clocks only count, and are made in place.
fn clocked(image: &mut [u8], level: u8) -> Result<u8, Refusal>
    ensures value { result ≡ output_in (clock_on (decode_of image.old) level) level }
    ensures image_after { image.new ≡ kept image.old (clock_on (decode_of image.old) level) }
{
    match record::count(image, level)? {
        Stepped::Counted(output) => Ok(output),
        Stepped::Due(d) => {
            let next = d.clock(level);
            store(next.after, image);
            Ok(next.value)
        }
    }
}

fn one_clock(image: &mut [u8], level: u8, output: &mut u8) -> u8
    requires { level < 32 }
    ensures value { result ≡ run_answer image.old (level ∷ []) (output.old ∷ []) }
    ensures image_after { image.new ≡ record_after_run image.old (level ∷ []) (output.old ∷ []) }
    ensures output_after { output.new ∷ [] ≡ outputs_after_run image.old (level ∷ []) (output.old ∷ []) }
{
    // Not by `told`, which writes the place of a refusal too: no output byte is written where a run is refused.
    match clocked(image, level) {
        Ok(shown) => {
            *output = shown;
            0
        }
        Err(r) => r.number(),
    }
}

pub fn warpmagpie_run(image: &mut [u8], levels: &[u8], outputs: &mut [u8]) -> u8
    ensures value { result ≡ run_answer image.old levels.now outputs.old }
    ensures image_after { image.new ≡ record_after_run image.old levels.now outputs.old }
    ensures outputs_after { outputs.new ≡ outputs_after_run image.old levels.now outputs.old }
{
    match (levels, &mut *outputs) {
        ([level], [output]) if *level < 32 => one_clock(image, *level, output),
        _ => many_clocks(image, levels, outputs),
    }
}

pub fn warpmagpie_requests(image: &[u8], requests: &mut u8) -> u8
    ensures value { result ≡ requests_answer image.now }
    ensures requests_after { requests.new ≡ requests_value image.now }
{
    told(record::requests(image), 0, requests)
}

pub fn warpmagpie_split_votes(image: &[u8], count: &mut u8) -> u8
    ensures value { result ≡ split_votes_answer image.now }
    ensures count_after { count.new ≡ split_votes_value image.now }
{
    told(record::split_votes(image), 0, count)
}
