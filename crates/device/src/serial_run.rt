// The serial unit's part of a run: it writes the output bytes, for several clocks at once where they only count.
ghost use Rattle.std.specs.Prelude.{◌≡◌, ◌++◌, ◌<◌, ◌≤◌, length, take, drop, replicate};
ghost use Rattle.device.specs.ByUnit.{serial_ran, serial_outputs};

use advance::Passed;
use span::Span;
use usart::Usart;

// The first n output bytes are `output`. Not by the slice's own `fill`, which stores the last byte by itself: with it
// an idle run at UBRR 51 took 5 % more instructions.
fn fill(outputs: &mut [u8], n: usize, output: u8)
    requires { n ≤ length outputs.old }
    ensures { take n outputs.new ≡ replicate n output }
{
    for i in 0..n {
        outputs[i] = output;
    }
}

// The first clock, or as many as only count.
fn pass(u: Usart, levels: &[u8], outputs: &mut [u8]) -> Passed<Usart, Span>
    requires some_levels { 0 < length levels.now }
    requires outputs_len { length outputs.old ≡ length levels.now }
    ensures some_passed { (0 < result.steps.0) × (result.steps.0 ≤ length levels.now) }
    ensures ran { serial_ran result.state (drop result.steps.0 levels.now) ≡ serial_ran u levels.now }
    ensures shown { take result.steps.0 outputs.new ++ serial_outputs result.state (drop result.steps.0 levels.now) ≡ serial_outputs u levels.now }
{
    let many = u.skip(Span(levels.len()));
    if many.steps.0 > 0 {
        fill(outputs, many.steps.0, u.output());
        return many;
    }
    let v = u.clock(levels[0] % 2 == 1);
    outputs[0] = v.output();
    Passed {
        state: v,
        steps: Span(1),
    }
}

pub(crate) fn serial_clocks(u: Usart, levels: &[u8], outputs: &mut [u8]) -> Usart
    requires { length outputs.old ≡ length levels.now }
    ensures value { result ≡ serial_ran u levels.now }
    ensures outputs_after { outputs.new ≡ serial_outputs u levels.now }
{
    let mut state = u;
    let mut i = 0;
    // As many clocks pass as `pass` says, so no step of a `for` or of chunks fits.
    while i < levels.len() {
        let passed = pass(state, &levels[i..], &mut outputs[i..]);
        state = passed.state;
        i += passed.steps.0;
    }
    state
}
