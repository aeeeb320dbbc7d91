ghost use Rattle.std.specs.Prelude.{◌≡◌};
ghost use Rattle.spi.specs.Means.{with_transfer, with_miso, with_sck};
ghost use Rattle.spi.specs.Transfer.{edged_out};
ghost use Rattle.spi.specs.Clock.{master_edge, master_of, master_clock, fault_of, is_sck_edge, presented_of};
ghost use Rattle.spi.specs.Clock.{after_edge, slave_edge, selected_of, slave_of, by_mode_of, clock_of};

use crate::divisor::half;
use crate::transfer::Transfer;
use crate::unit::Spi;
use shifter::{Edged, Shifter, next_edge};

// The levels of the pins at a clock.
#[derive(Clone, Copy)]
pub struct Levels {
    pub miso: bool,
    pub mosi: bool,
    pub sck: bool,
    pub ss: bool,
}

// Whether SCK has an edge that counts: the first of a byte must be a leading one.
#[tactic(auto, using(crate::proofs::Differing::differs_ne), unfolding(crate::specs::Clock::is_sck_edge))]
fn edge_seen(cpol: bool, edges: u8, last: bool, sck: bool) -> bool
    ensures { result ≡ is_sck_edge cpol edges last sck }
{
    sck != last && (edges != 0 || sck != cpol)
}

// The bit that is out after an edge.
fn out_after(edge: Edged) -> bool
    ensures { result ≡ edged_out edge }
{
    match edge {
        Edged::Onward(next) => next.register.out,
        Edged::Complete(last) => last.out,
    }
}

impl Spi {
    // What an edge makes of transfer and flags, with the clocks to the next one.
    fn after_edge(mut self, edge: Edged, left: u8) -> Spi
        ensures { result ≡ after_edge self edge left }
    {
        // Written over the fields, as a master's edge is: a transfer and flags made anew cost more than the edge does.
        match edge {
            Edged::Onward(next) => {
                self.transfer.shift = next.register.shift;
                self.transfer.edges = next.edges;
                self.transfer.left.0 = left;
                self
            }
            Edged::Complete(last) => {
                self.transfer.received = last.shift;
                self.transfer.shift = last.shift;
                self.transfer.edges = 0;
                self.transfer.left.0 = 0;
                self.flags = self.flags.raised();
                self
            }
        }
    }

    // Written over the fields, and not by `Exchange::edged`: in a run of a master every clock may be an edge, and
    // copies of the transfer cost more than the edge does.
    #[tactic(auto, unfolding(shifter::specs::Exchange::edged_of))]
    fn master_edge(mut self, miso: bool) -> Spi
        ensures { result ≡ master_edge self miso }
    {
        let c = self.control;
        let n = next_edge(self.transfer.edges);
        let s = Shifter {
            shift: self.transfer.shift,
            out: self.pins.mosi,
        };
        let r = c.mode().edge(s, n, miso);
        self.transfer.shift = r.shift;
        self.pins.mosi = r.out;
        if n < 16 {
            let h = half(c.divisor_number());
            self.transfer.edges = n;
            self.transfer.left.0 = h;
            return self;
        }
        let f = self.flags.raised();
        self.transfer.received = r.shift;
        self.transfer.edges = 0;
        self.transfer.left.0 = 0;
        self.flags = f;
        self
    }

    // A clock of the master: its clocks to the next edge run down.
    #[tactic(auto, unfolding(crate::specs::Clock::master_of))]
    fn mastered(mut self, miso: bool) -> Spi
        ensures { result ≡ master_of self miso }
    {
        match self.transfer.left.0 {
            0 => self,
            1 => self.master_edge(miso),
            _ => {
                self.transfer.left.0 -= 1;
                self
            }
        }
    }

    // A mode fault makes the master a slave.
    fn faulted(self) -> Spi
        ensures { result ≡ fault_of self }
    {
        Spi {
            control: self.control.slave(),
            transfer: self.transfer.dropped(),
            flags: self.flags.raised(),
            ..self
        }
    }

    fn with_miso(mut self, miso: bool) -> Spi
        ensures { result ≡ with_miso self miso }
    {
        self.pins.miso = miso;
        self
    }

    // With CPHA 0 and no edge seen the slave shows the first bit.
    #[tactic(auto, unfolding(crate::specs::Clock::presented_of))]
    fn presented(self) -> Spi
        ensures { result ≡ presented_of self }
    {
        if self.transfer.edges != 0 {
            return self;
        }
        let mode = self.control.mode();
        self.with_miso(mode.first_out(self.transfer.shift, self.pins.miso))
    }

    fn slave_edge(mut self, mosi: bool) -> Spi
        ensures { result ≡ slave_edge self mosi }
    {
        let byte = self.transfer.byte(self.pins.miso);
        let edge = byte.edged(self.control.mode(), mosi);
        self.pins.miso = out_after(edge);
        self.after_edge(edge, 0)
    }

    // A clock of the slave with SS low.
    #[tactic(auto, unfolding(crate::specs::Clock::selected_of))]
    fn selected(self, levels: Levels) -> Spi
        ensures { result ≡ selected_of self levels }
    {
        let shown = self.presented();
        if edge_seen(
            self.control.cpol(),
            self.transfer.edges,
            self.pins.sck,
            levels.sck,
        ) {
            return shown.slave_edge(levels.mosi);
        }
        shown
    }

    pub fn with_transfer(mut self, t: Transfer) -> Spi
        ensures { result ≡ with_transfer self t }
    {
        self.transfer = t;
        self
    }

    // A clock of the slave: SS high drops a partial byte.
    #[tactic(auto, unfolding(crate::specs::Clock::slave_of))]
    fn slaved(self, levels: Levels) -> Spi
        ensures { result ≡ slave_of self levels }
    {
        if levels.ss {
            return self.with_transfer(self.transfer.dropped());
        }
        self.selected(levels)
    }

    #[tactic(auto, unfolding(crate::specs::Clock::by_mode_of))]
    fn stepped(self, levels: Levels) -> Spi
        ensures { result ≡ by_mode_of self levels }
    {
        let c = self.control;
        if !c.enabled() {
            self
        } else if !c.master() {
            self.slaved(levels)
        } else if c.mode_fault(levels.ss) {
            self.faulted()
        } else {
            self.mastered(levels.miso)
        }
    }

    fn with_sck(mut self, sck: bool) -> Spi
        ensures { result ≡ with_sck self sck }
    {
        self.pins.sck = sck;
        self
    }

    // One clock of a master that keeps it.
    pub fn master_clock(self, levels: Levels) -> Spi
        ensures { result ≡ master_clock self levels }
    {
        self.mastered(levels.miso).with_sck(levels.sck)
    }

    // One clock, with the levels of the pins; that of SCK is kept at every clock.
    pub fn clock(self, levels: Levels) -> Spi
        ensures { result ≡ clock_of self levels }
    {
        self.stepped(levels).with_sck(levels.sck)
    }
}
