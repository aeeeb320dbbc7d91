// The call that replays a trace as C sees it (include/warpmagpie.h): the one of `tracing`, with the same clauses.
// Compiled by itself: a second caller of `Device::hold` would take it out of the loop of a replay.
#![tactic(auto)]

ghost use Rattle.std.specs.Prelude.{◌≡◌};
ghost use Rattle.tracing.specs.Replay.{replay_answer, replay_line, record_after_replay};

#[unsafe(no_mangle)]
pub extern "C" fn warpmagpie_replay(image: &mut [u8], text: &[u8], line: &mut usize) -> u8
    ensures value { result ≡ replay_answer image.old text.now }
    ensures line_after { line.new ≡ replay_line image.old text.now }
    ensures image_after { image.new ≡ record_after_replay image.old text.now }
{
    tracing::warpmagpie_replay(image, text, line)
}
