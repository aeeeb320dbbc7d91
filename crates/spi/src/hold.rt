// One level of each pin held for many clocks. A unit at rest stays as it is, however many there are; a master counts
// many at once.
ghost use Rattle.std.specs.Prelude.{◌≡◌, ◌≤◌};
ghost use Rattle.spi.specs.Holding.{held_of, is_presented, slave_rests, master_rests, step_rests, is_at_rest};
ghost use Rattle.spi.specs.Holding.{stays_master, waits_for, counted_of, clocked, rests_held, counted_held};

use crate::clock::Levels;
use crate::unit::Spi;
use advance::{Passed, Steps, hold};
use span::Span;

// A unit and the levels that are held: a step is a clock with these.
#[derive(Clone, Copy)]
struct Held {
    spi: Spi,
    levels: Levels,
}

impl Spi {
    #[tactic(auto, using(crate::proofs::Differing::differs_ne), unfolding(crate::specs::Holding::is_presented))]
    fn is_presented(self) -> bool
        ensures { result ≡ is_presented self }
    {
        let mode = self.control.mode();
        self.transfer.edges != 0
            || self.pins.miso == mode.first_out(self.transfer.shift, self.pins.miso)
    }

    #[tactic(auto, unfolding(crate::specs::Holding::slave_rests))]
    fn slave_rests(self, ss: bool) -> bool
        ensures { result ≡ slave_rests self ss }
    {
        if ss {
            !self.transfer.under_way()
        } else {
            self.is_presented()
        }
    }

    #[tactic(auto, unfolding(crate::specs::Holding::master_rests))]
    fn master_rests(self, ss: bool) -> bool
        ensures { result ≡ master_rests self ss }
    {
        !self.control.mode_fault(ss) && self.transfer.left.0 == 0
    }

    #[tactic(auto, unfolding(crate::specs::Holding::step_rests))]
    fn step_rests(self, ss: bool) -> bool
        ensures { result ≡ step_rests self ss }
    {
        if !self.control.enabled() {
            true
        } else if self.control.master() {
            self.master_rests(ss)
        } else {
            self.slave_rests(ss)
        }
    }

    // At these levels a clock changes nothing.
    #[tactic(auto, using(crate::proofs::Differing::differs_ne), unfolding(crate::specs::Holding::is_at_rest))]
    pub fn rests(self, levels: Levels) -> bool
        ensures { result ≡ is_at_rest self levels }
    {
        levels.sck == self.pins.sck && self.step_rests(levels.ss)
    }

    #[tactic(auto, unfolding(crate::specs::Holding::stays_master))]
    fn stays_master(self, ss: bool) -> bool
        ensures { result ≡ stays_master self.control ss }
    {
        let c = self.control;
        c.enabled() && c.master() && !c.mode_fault(ss)
    }

    #[tactic(auto, unfolding(crate::specs::Holding::waits_for))]
    fn waits(self, ss: bool) -> u8
        ensures value { result ≡ waits_for self ss }
        ensures upper_bound { result ≤ self.transfer.left.0 }
    {
        if self.stays_master(ss) {
            self.transfer.left.0.saturating_sub(1)
        } else {
            0
        }
    }

    fn counted(mut self, sck: bool, k: u8) -> Spi
        requires { k ≤ self.transfer.left.0 }
        ensures { result ≡ counted_of self sck k }
    {
        self.transfer.left.0 -= k;
        self.pins.sck = sck;
        self
    }

    // As many clocks, each with the same levels.
    #[tactic(auto, using(crate::proofs::HoldingLaws::holding))]
    pub fn hold(self, levels: Levels, n: Span) -> Spi
        ensures { result ≡ held_of self levels n.0 }
    {
        let held = Held { spi: self, levels };
        hold(held, n.0).spi
    }
}

impl Steps for Held {
    ghost step = { clocked };

    ghost at_rest = { rests_held };

    ghost at_once = { counted_held };

    #[tactic(auto, using(crate::proofs::HoldingLaws::holding))]
    fn rests(self) -> bool {
        self.spi.rests(self.levels)
    }

    fn stepped(self) -> Held {
        Held {
            spi: self.spi.clock(self.levels),
            ..self
        }
    }

    // All that a master only counts, or none.
    #[tactic(auto, using(crate::proofs::HoldingLaws::holding))]
    fn counted(self, n: usize) -> Option<Passed<Held, usize>> {
        let waits = self.spi.waits(self.levels.ss);
        if waits == 0 || n < waits as usize {
            return None;
        }
        Some(Passed {
            state: Held {
                spi: self.spi.counted(self.levels.sck, waits),
                ..self
            },
            steps: waits as usize,
        })
    }
}
