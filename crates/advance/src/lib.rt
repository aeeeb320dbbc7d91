// Steps of one kind in a row: a state that is at rest stays as it is, however many there are, and where steps only
// count many are taken at once. It knows nothing of what a step is: a clock, a tick.
#![tactic(auto)]

ghost use Rattle.std.specs.Prelude.{◌≡◌, ◌≤◌, true, Bool, ℕ, Option};
ghost use Rattle.choice.specs.Times.{times};
ghost use Rattle.advance.specs.Passing.{CountedOn};
ghost use Rattle.advance.specs.declared.Passed.{Passed};

// A state after some steps, and how many they were, by a count of the steps' own kind.
#[derive(Clone, Copy)]
pub struct Passed<S, N> {
    pub state: S,
    pub steps: N,
}

// A state that is stepped.
pub trait Steps: Copy {
    ghost step: { Self → Self };

    // Where a step is known to change nothing; false may stand of any state.
    ghost at_rest: { Self → Bool };

    // As many of n steps as only count, taken at once, and the state after them; none may stand of any state.
    ghost at_once: { Self → ℕ → Option (Passed Self ℕ) };

    fn rests(self) -> bool
        ensures value { result ≡ at_rest self }
        ensures stays { result ≡ true → step self ≡ self };

    fn stepped(self) -> Self
        ensures { result ≡ step self };

    fn counted(self, n: usize) -> Option<Passed<Self, usize>>
        ensures value { result ≡ at_once self n }
        ensures steps { CountedOn step self n result };
}

// n steps.
#[tactic(auto, using(crate::proofs::PassingLaws::holding))]
pub fn hold<S: Steps>(start: S, n: usize) -> S
    ensures { result ≡ times S.step n start }
{
    let mut state = start;
    let mut left = n;
    // The steps taken at once are of unequal number, so they use up what is left: no index is counted.
    while 0 < left {
        if state.rests() {
            return state;
        }
        match state.counted(left) {
            Some(passed) => {
                state = passed.state;
                left -= passed.steps;
            }
            None => {
                state = state.stepped();
                left -= 1;
            }
        }
    }
    state
}
