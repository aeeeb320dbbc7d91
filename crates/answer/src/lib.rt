// What a rig is answered: why a call is refused, and the number for it. It knows nothing of what is refused.
#![tactic(auto)]

ghost use Rattle.std.specs.Prelude.{◌≡◌};
ghost use Rattle.answer.specs.Number.{number_of, number_in, value_or};

// Document 01's refusals, and document 02's from 9 on.
#[derive(Clone, Copy)]
pub enum Refusal {
    // No such register address or vector.
    Unknown,
    // A reserved setting.
    Reserved,
    // A mode that is not modelled.
    Unmodelled,
    // A setting changed while a frame or transfer is under way.
    UnderWay,
    // No record of a device.
    Record,
    // An output slice that is not as long as the level slice.
    Length,
    // A level byte with bit 5, 6 or 7 set.
    Level,
    // A vector taken without its request.
    Unrequested,
    // A trace whose text is malformed, or a list of items that has no text.
    Malformed,
    // A call of a trace that was answered otherwise than recorded.
    Different,
    // A clock or a rate out of its range, where a baud setting is asked for.
    Range,
    // A text that is longer than the buffer for it.
    Room,
}

impl Refusal {
    // The number that the rig sees. A rig has these numbers by the header, so each stands here by its name, as in
    // `number_of`: by their order, a refusal that is put in between would change those after it.
    pub fn number(self) -> u8
        ensures { result ≡ number_of self }
    {
        match self {
            Refusal::Unknown => 1,
            Refusal::Reserved => 2,
            Refusal::Unmodelled => 3,
            Refusal::UnderWay => 4,
            Refusal::Record => 5,
            Refusal::Length => 6,
            Refusal::Level => 7,
            Refusal::Unrequested => 8,
            Refusal::Malformed => 9,
            Refusal::Different => 10,
            Refusal::Range => 11,
            Refusal::Room => 12,
        }
    }
}

// A byte that is read of a unit, and the unit after it.
#[derive(Clone, Copy)]
pub struct Reading<U> {
    pub value: u8,
    pub after: U,
}

// Puts what a call came to in its place, `none` where it is refused, and answers the number.
pub fn told<T: Copy>(got: Result<T, Refusal>, none: T, place: &mut T) -> u8
    ensures value { result ≡ number_in got }
    ensures place_after { place.new ≡ value_or none got }
{
    match got {
        Ok(value) => {
            *place = value;
            0
        }
        Err(r) => {
            *place = none;
            r.number()
        }
    }
}
