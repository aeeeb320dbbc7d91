ghost use Rattle.std.specs.Prelude.{◌≡◌};
ghost use Rattle.usart.specs.Queue.{marked_of, holding, stored_of, started_of, without_oldest, oldest_of, is_empty};

// A received frame, with how many of its votes were split.
#[derive(Clone, Copy, Default)]
pub struct Frame {
    pub data: u16,
    pub fe: bool,
    pub upe: bool,
    pub dor: bool,
    pub splits: u8,
}

// Frames received and not yet read, oldest first. Two are held; a third one waits in the shift register.
// A variant for each number of frames: the memory is fixed, and no length stands beside places that mean nothing.
#[derive(Clone, Copy, Default)]
pub enum Places {
    #[default]
    Empty,
    One(Frame),
    Two(Frame, Frame),
    Three(Frame, Frame, Frame),
}

#[derive(Clone, Copy, Default)]
pub struct Queue {
    pub places: Places,
    // A frame was lost; the next one that completes carries DOR.
    pub lost: bool,
}

impl Frame {
    fn marked(self, dor: bool) -> Frame
        ensures { result ≡ marked_of self dor }
    {
        Frame { dor, ..self }
    }
}

impl Queue {
    // Frames held, and no loss pending.
    fn holding(places: Places) -> Queue
        ensures { result ≡ holding places }
    {
        Queue {
            places,
            lost: false,
        }
    }

    pub fn empty(self) -> bool
        ensures { result ≡ is_empty self.places }
    {
        matches!(self.places, Places::Empty)
    }

    // A frame completes. With both places full it waits.
    pub fn stored(self, f: Frame) -> Queue
        ensures { result ≡ stored_of self f }
    {
        let g = f.marked(self.lost);
        match self.places {
            Places::Empty => Queue::holding(Places::One(g)),
            Places::One(a) => Queue::holding(Places::Two(a, g)),
            Places::Two(a, b) => Queue::holding(Places::Three(a, b, g)),
            Places::Three(a, b, _) => Queue::holding(Places::Three(a, b, f.marked(true))),
        }
    }

    // A start bit is accepted: its frame needs the shift register, and the one that waits there is lost.
    pub fn started(self) -> Queue
        ensures { result ≡ started_of self }
    {
        match self.places {
            Places::Empty | Places::One(_) | Places::Two(_, _) => self,
            Places::Three(a, b, _) => Queue {
                places: Places::Two(a, b),
                lost: true,
            },
        }
    }

    // The oldest frame is taken away, if there is one, and the one that waits moves in.
    pub fn taken(self) -> Queue
        ensures { result ≡ without_oldest self }
    {
        let places = match self.places {
            Places::Empty | Places::One(_) => Places::Empty,
            Places::Two(_, b) => Places::One(b),
            Places::Three(_, b, c) => Places::Two(b, c),
        };
        Queue { places, ..self }
    }

    // The oldest frame; all 0 where there is none.
    pub fn oldest(self) -> Frame
        ensures { result ≡ oldest_of self.places }
    {
        match self.places {
            Places::Empty => Frame::default(),
            Places::One(a) | Places::Two(a, _) | Places::Three(a, _, _) => a,
        }
    }
}
