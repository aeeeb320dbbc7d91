// The calls on a record and on baud settings as C sees them (include/warpmagpie.h): each is the one of `warpmagpie`,
// with the same clauses.
#![tactic(auto)]

ghost use Rattle.std.specs.Prelude.{◌≡◌};
ghost use Rattle.warpmagpie.specs.Calls.{reset_answer, record_after_reset, write_answer, record_after_write};
ghost use Rattle.warpmagpie.specs.Calls.{read_answer, read_value, record_after_read, vector_answer};
ghost use Rattle.warpmagpie.specs.Calls.{record_after_vector, run_answer, record_after_run, outputs_after_run};
ghost use Rattle.warpmagpie.specs.Calls.{requests_answer, requests_value, split_votes_answer, split_votes_value};
ghost use Rattle.warpmagpie.specs.Baud.{plan_answer, plan_ubrr, plan_tenths, check_answer, check_accepted};

#[unsafe(no_mangle)]
pub extern "C" fn warpmagpie_reset(image: &mut [u8]) -> u8
    ensures value { result ≡ reset_answer image.old }
    ensures image_after { image.new ≡ record_after_reset image.old }
{
    warpmagpie::warpmagpie_reset(image)
}

#[unsafe(no_mangle)]
pub extern "C" fn warpmagpie_write(image: &mut [u8], address: u16, value: u8) -> u8
    ensures value { result ≡ write_answer image.old address value }
    ensures image_after { image.new ≡ record_after_write image.old address value }
{
    warpmagpie::warpmagpie_write(image, address, value)
}

#[unsafe(no_mangle)]
pub extern "C" fn warpmagpie_read(image: &mut [u8], address: u16, value: &mut u8) -> u8
    ensures value { result ≡ read_answer image.old address }
    ensures value_after { value.new ≡ read_value image.old address }
    ensures image_after { image.new ≡ record_after_read image.old address }
{
    warpmagpie::warpmagpie_read(image, address, value)
}

#[unsafe(no_mangle)]
pub extern "C" fn warpmagpie_take_vector(image: &mut [u8], vector: u8) -> u8
    ensures value { result ≡ vector_answer image.old vector }
    ensures image_after { image.new ≡ record_after_vector image.old vector }
{
    warpmagpie::warpmagpie_take_vector(image, vector)
}

#[unsafe(no_mangle)]
pub extern "C" fn warpmagpie_run(image: &mut [u8], levels: &[u8], outputs: &mut [u8]) -> u8
    ensures value { result ≡ run_answer image.old levels.now outputs.old }
    ensures image_after { image.new ≡ record_after_run image.old levels.now outputs.old }
    ensures outputs_after { outputs.new ≡ outputs_after_run image.old levels.now outputs.old }
{
    warpmagpie::warpmagpie_run(image, levels, outputs)
}

#[unsafe(no_mangle)]
pub extern "C" fn warpmagpie_requests(image: &[u8], requests: &mut u8) -> u8
    ensures value { result ≡ requests_answer image.now }
    ensures requests_after { requests.new ≡ requests_value image.now }
{
    warpmagpie::warpmagpie_requests(image, requests)
}

#[unsafe(no_mangle)]
pub extern "C" fn warpmagpie_split_votes(image: &[u8], count: &mut u8) -> u8
    ensures value { result ≡ split_votes_answer image.now }
    ensures count_after { count.new ≡ split_votes_value image.now }
{
    warpmagpie::warpmagpie_split_votes(image, count)
}

#[unsafe(no_mangle)]
pub extern "C" fn warpmagpie_plan_baud(
    clock: u32,
    rate: u32,
    u2x: u8,
    ubrr: &mut u16,
    tenths: &mut i32,
) -> u8
    ensures value { result ≡ plan_answer clock rate u2x }
    ensures ubrr_after { ubrr.new ≡ plan_ubrr clock rate u2x }
    ensures tenths_after { tenths.new ≡ plan_tenths clock rate u2x }
{
    warpmagpie::warpmagpie_plan_baud(clock, rate, u2x, ubrr, tenths)
}

#[unsafe(no_mangle)]
pub extern "C" fn warpmagpie_check_baud(
    clock: u32,
    rate: u32,
    u2x: u8,
    ubrr: u32,
    accepted: &mut u8,
) -> u8
    ensures value { result ≡ check_answer clock rate u2x ubrr }
    ensures accepted_after { accepted.new ≡ check_accepted clock rate u2x ubrr }
{
    warpmagpie::warpmagpie_check_baud(clock, rate, u2x, ubrr, accepted)
}
