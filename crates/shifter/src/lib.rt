// The eight-bit shift register of an SPI master or slave, and what edge k of a byte's 16 does. It knows nothing of who
// clocks it, of pins or of registers.
#![tactic(auto)]

ghost use Rattle.std.specs.Prelude.{◌≡◌};
ghost use Rattle.shifter.specs.Order.{out_bit, shifted_in};
ghost use Rattle.shifter.specs.Edge.{is_sampling, is_putting, edge_of};
ghost use Rattle.shifter.specs.Exchange.{first_out, next_edge, edged_of};

// How a byte goes over the wire: CPHA, and DORD (low bit first).
#[derive(Clone, Copy)]
pub struct Mode {
    pub cpha: bool,
    pub dord: bool,
}

// A shift register and the last bit that it put out.
#[derive(Clone, Copy)]
pub struct Shifter {
    pub shift: u8,
    pub out: bool,
}

// A byte in exchange for another: the register, and the edges that have passed, 0 to 15.
#[derive(Clone, Copy)]
pub struct Exchange {
    pub register: Shifter,
    pub edges: u8,
}

// What an edge leads to. Both cases hold a value and neither is a failure, so it is no Result.
#[derive(Clone, Copy)]
pub enum Edged {
    // Edges 1 to 15.
    Onward(Exchange),
    // Edge 16: a byte has gone out, and another stands in the register.
    Complete(Shifter),
}

// The number of the next edge.
#[tactic(auto, unfolding(crate::specs::Exchange::next_edge))]
pub fn next_edge(edges: u8) -> u8
    ensures { result ≡ next_edge edges }
{
    edges.min(15) + 1
}

impl Mode {
    // The bit that leaves next.
    #[tactic(auto, unfolding(crate::specs::Order::out_bit))]
    pub fn out_bit(self, shift: u8) -> bool
        ensures { result ≡ out_bit self.dord shift }
    {
        if self.dord {
            shift % 2 == 1
        } else {
            shift / 128 % 2 == 1
        }
    }

    // The sent bit leaves and `bit` enters.
    #[tactic(auto, unfolding(crate::specs::Order::shifted_in))]
    pub fn shifted_in(self, shift: u8, bit: bool) -> u8
        ensures { result ≡ shifted_in self.dord shift bit }
    {
        if self.dord {
            shift / 2 + u8::from(bit) * 128
        } else {
            shift % 128 * 2 + u8::from(bit)
        }
    }

    // With CPHA 0 odd edges sample, with CPHA 1 even ones.
    #[tactic(auto, unfolding(crate::specs::Edge::is_sampling))]
    pub fn sampling(self, edge: u8) -> bool
        ensures { result ≡ is_sampling self.cpha edge }
    {
        if self.cpha {
            edge % 2 == 0
        } else {
            edge % 2 == 1
        }
    }

    // With CPHA 0 edges 2 to 14 put out the next bit, with CPHA 1 odd ones.
    #[tactic(auto, unfolding(crate::specs::Edge::is_putting))]
    pub fn putting(self, edge: u8) -> bool
        ensures { result ≡ is_putting self.cpha edge }
    {
        if self.cpha {
            edge % 2 == 1
        } else {
            edge < 16 && edge % 2 == 0
        }
    }

    // Edge number `edge` of a byte, with the level of the input.
    #[tactic(auto, unfolding(crate::specs::Edge::edge_of))]
    pub fn edge(self, r: Shifter, edge: u8, input: bool) -> Shifter
        ensures { result ≡ edge_of self r edge input }
    {
        if self.sampling(edge) {
            Shifter {
                shift: self.shifted_in(r.shift, input),
                ..r
            }
        } else if self.putting(edge) {
            Shifter {
                out: self.out_bit(r.shift),
                ..r
            }
        } else {
            r
        }
    }

    // The bit that is out before edge 1, when it was `out` and a byte is filled in.
    #[tactic(auto, unfolding(crate::specs::Exchange::first_out))]
    pub fn first_out(self, shift: u8, out: bool) -> bool
        ensures { result ≡ first_out self shift out }
    {
        if self.cpha { out } else { self.out_bit(shift) }
    }
}

impl Exchange {
    // The next edge, with the level of the input.
    #[tactic(auto, unfolding(crate::specs::Exchange::edged_of))]
    pub fn edged(self, mode: Mode, input: bool) -> Edged
        ensures { result ≡ edged_of mode self input }
    {
        let edges = next_edge(self.edges);
        let register = mode.edge(self.register, edges, input);
        if edges < 16 {
            Edged::Onward(Exchange { register, edges })
        } else {
            Edged::Complete(register)
        }
    }
}
