ghost use Rattle.std.specs.Prelude.{◌≡◌};
ghost use Rattle.spi.specs.Flag.{is_up, raised_of, armed_of, cleared_of, raised_flags, armed_flags, cleared_flags};
ghost use Rattle.spi.specs.Flag.{collided_flags};

// A flag that a read of SPSR arms, and the SPDR access after it clears.
#[derive(Clone, Copy, Default)]
pub enum Flag {
    #[default]
    Clear,
    Set,
    Armed,
}

#[derive(Clone, Copy, Default)]
pub struct Flags {
    pub spif: Flag,
    pub wcol: Flag,
}

impl Flag {
    pub fn up(self) -> bool
        ensures { result ≡ is_up self }
    {
        matches!(self, Flag::Set | Flag::Armed)
    }

    // Set; one that is armed stays armed.
    pub fn raised(self) -> Flag
        ensures { result ≡ raised_of self }
    {
        match self {
            Flag::Clear | Flag::Set => Flag::Set,
            Flag::Armed => Flag::Armed,
        }
    }

    pub fn armed(self) -> Flag
        ensures { result ≡ armed_of self }
    {
        match self {
            Flag::Clear => Flag::Clear,
            Flag::Set | Flag::Armed => Flag::Armed,
        }
    }

    // An SPDR access clears it if it is armed.
    pub fn cleared(self) -> Flag
        ensures { result ≡ cleared_of self }
    {
        match self {
            Flag::Set => Flag::Set,
            Flag::Clear | Flag::Armed => Flag::Clear,
        }
    }
}

impl Flags {
    // SPIF is set.
    pub fn raised(self) -> Flags
        ensures { result ≡ raised_flags self }
    {
        Flags {
            spif: self.spif.raised(),
            ..self
        }
    }

    pub fn armed(self) -> Flags
        ensures { result ≡ armed_flags self }
    {
        Flags {
            spif: self.spif.armed(),
            wcol: self.wcol.armed(),
        }
    }

    pub fn cleared(self) -> Flags
        ensures { result ≡ cleared_flags self }
    {
        Flags {
            spif: self.spif.cleared(),
            wcol: self.wcol.cleared(),
        }
    }

    // WCOL is set, and not armed.
    pub fn collided(self) -> Flags
        ensures { result ≡ collided_flags self }
    {
        Flags {
            wcol: Flag::Set,
            ..self
        }
    }
}
