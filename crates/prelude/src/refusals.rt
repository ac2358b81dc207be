// The papers' refusals: each a number with a place, 0 where none is meant. It is a byte's; from 30 on an entry's or a record's.
ghost use Rattle.std.specs.Prelude.{◌≡◌};
ghost use Rattle.prelude.specs.Refusals.{refusal_at, number_of};

// What is refused, by the papers' numbers.
#[derive(Clone, Copy)]
pub enum Fault {
    BookTooLong = 1,
    NotABook = 2,
    BadSettings = 3,
    CutShort = 4,
    UnknownType = 5,
    BadLength = 6,
    BadField = 7,
    BadText = 8,
    AfterEnd = 9,
    NoSuchNumber = 10,
    OutOfRange = 11,
    NoRoom = 12,
    TooManyBlocks = 13,
    NotOpen = 14,
    CalendarTooLong = 20,
    NotACalendar = 21,
    BadTable = 22,
    BadBlock = 23,
    BadAppointment = 24,
    BadArrays = 30,
    BadDayTable = 31,
    BadChain = 32,
    BadChainOrder = 33,
    BadCancelled = 43,
    HasCancelled = 44,
}

// Kept: the number is a u32 and no `Fault`, since marshal's definition `count_out` and its like say what crosses C for any number; a place that is not meant is 0, as there.
#[derive(Clone, Copy)]
pub struct Refusal {
    pub number: u32,
    pub place: usize,
}

// Why a list was not filled: it has not room for all, which is refusal 12, with their number; or another refusal.
#[derive(Clone, Copy)]
pub enum ListRefusal {
    Short(usize),
    Refused(Refusal),
}

impl Fault {
    // The refusal with its place.
    pub fn at(self, place: usize) -> Refusal
        ensures { result ≡ refusal_at (number_of self) place }
    {
        Refusal {
            number: self as u32,
            place,
        }
    }
}
