// The call that holds a level byte as C sees it (include/warpmagpie.h): the one of `holding`, with the same clauses.
// Compiled by itself: a second caller of a unit's large functions would take them out of the loops of a run.
#![tactic(auto)]

ghost use Rattle.std.specs.Prelude.{◌≡◌};
ghost use Rattle.holding.specs.Hold.{hold_answer, hold_output, record_after_hold};

#[unsafe(no_mangle)]
pub extern "C" fn warpmagpie_hold(image: &mut [u8], level: u8, clocks: u32, output: &mut u8) -> u8
    ensures value { result ≡ hold_answer image.old level clocks }
    ensures output_after { output.new ≡ hold_output image.old level clocks }
    ensures image_after { image.new ≡ record_after_hold image.old level clocks }
{
    holding::warpmagpie_hold(image, level, clocks, output)
}
