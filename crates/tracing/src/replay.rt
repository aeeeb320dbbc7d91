// The replay of a bench trace: from reset, so the record's old bytes are not looked at.
ghost use Rattle.std.specs.Prelude.{◌≡◌};
ghost use Rattle.tracing.specs.Replay.{replay_answer, replay_line, record_after_replay};

use answer::Refusal;

pub fn warpmagpie_replay(image: &mut [u8], text: &[u8], line: &mut usize) -> u8
    ensures value { result ≡ replay_answer image.old text.now }
    ensures line_after { line.new ≡ replay_line image.old text.now }
    ensures image_after { image.new ≡ record_after_replay image.old text.now }
{
    if image.len() != record::LENGTH {
        *line = 0;
        return Refusal::Record.number();
    }
    let got = playback::replay(text);
    record::store(got.device, image);
    // Not by `told`: a refusal comes with its line, and `told` puts one and the same value for each.
    match got.outcome {
        Ok(()) => {
            *line = 0;
            0
        }
        Err(stopped) => {
            *line = stopped.line;
            stopped.why.number()
        }
    }
}
