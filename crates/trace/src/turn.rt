// One item of the shrink's pass. The clocks that are held back are a line's at most, 4,294,967,295: where more come, a
// full line goes out, so that the sum of many lines is never formed.
ghost use Rattle.std.specs.Prelude.{◌≡◌};
ghost use Rattle.trace.specs.Text.{lines_of};
ghost use Rattle.trace.specs.Sinks.{Sent};
ghost use Rattle.trace.specs.Turning.{run_items, added_turn, turn_of, out_at};

use crate::item::Item;
use crate::sending::send_line;
use crate::sink::Sink;
use answer::Refusal;

// Clocks at equal levels, a line's at most; none at first. No Option: 0 clocks are no run, as `turn_of` has it.
#[derive(Clone, Copy, Default)]
pub(crate) struct Run {
    pub levels: u8,
    pub clocks: u32,
}

// The run that goes out before an item, and the one that is held back after it.
#[derive(Clone, Copy)]
pub(crate) struct Turn {
    pub out: Run,
    pub held: Run,
}

impl Run {
    // So many more clocks with its levels.
    #[tactic(auto, unfolding(crate::specs::Turning::added_turn))]
    fn added(self, more: u32) -> Turn
        ensures { result ≡ added_turn self more }
    {
        match self.clocks.checked_add(more) {
            Some(clocks) => Turn {
                out: Run { clocks: 0, ..self },
                held: Run { clocks, ..self },
            },
            None => Turn {
                out: Run {
                    clocks: u32::MAX,
                    ..self
                },
                held: Run {
                    clocks: more - (u32::MAX - self.clocks),
                    ..self
                },
            },
        }
    }

    // An item after the run that is held back. A call lets it out, as other levels do.
    #[tactic(auto, unfolding(crate::specs::Turning::turn_of))]
    pub(crate) fn turned(self, i: Item) -> Turn
        ensures { result ≡ turn_of self i }
    {
        match i {
            Item::Clocks(levels, clocks) if levels == self.levels => self.added(clocks),
            Item::Clocks(levels, clocks) => {
                let held = Run { levels, clocks };
                Turn { out: self, held }
            }
            _ => Turn {
                out: self,
                held: Run { clocks: 0, ..self },
            },
        }
    }
}

// The line of a run, if it has clocks.
pub(crate) fn send_run<S: Sink>(sink: &mut S, run: Run) -> Result<(), Refusal>
    ensures { Sent S.fits S.taken sink.old (lines_of (run_items run)) result sink.new }
{
    if run.clocks == 0 {
        return Ok(());
    }
    send_line(sink, Item::Clocks(run.levels, run.clocks))
}

// The lines that go out at an item: a run before it, and the item itself if it is a call.
pub(crate) fn send_out<S: Sink>(sink: &mut S, out: Run, i: Item) -> Result<(), Refusal>
    ensures { Sent S.fits S.taken sink.old (lines_of (out_at out i)) result sink.new }
{
    send_run(sink, out)?;
    match i {
        Item::Clocks(..) => Ok(()),
        _ => send_line(sink, i),
    }
}
