// The refusals: why a call refuses, and where.
ghost use Rattle.std.specs.Prelude.{◌≡◌, ◌<◌, ◌^◌};
ghost use Rattle.outcome.specs.Why.{number};

// Why a call refuses, by the names that the definitions give; specs/Refusals.antt has the documents' words for each. Its number is that of
// the documents.
#[derive(Clone, Copy, PartialEq, Eq)]
pub enum Refusal {
    BadSize = 1,
    BadIdentifier,
    BadVersion,
    BadLength,
    BadHeader,
    Past,
    BadView,
    BadLine,
    TooManyLines,
    BadIndex,
    BadSegment,
    BytesOver,
    NoView,
    OtherCount,
    BadLines,
    Extended,
    NoIndex,
    AlreadySo,
    TooLong,
    NoRoom,
    BadSheet,
    BadValue,
    NoSegment,
    BadQuality,
    BadPairs,
    BadPores,
    BadObject,
    OtherScale,
    BadRun,
    NoRule,
    BelowRule,
}

impl Refusal {
    // The number that a host gets.
    pub fn number(self) -> u32
        ensures { result ≡ number self }
    {
        self as u32
    }

    // Its fault, of what begins at this place.
    pub fn at(self, place: usize) -> Fault
        ensures { result ≡ record { why = self; place = place } }
    {
        Fault { why: self, place }
    }
}

// A refusal of bits that are read, and the place of the first bit of what is refused, counted from the first that is read.
#[derive(Clone, Copy, PartialEq, Eq)]
pub struct Fault {
    pub why: Refusal,
    pub place: usize,
}

impl Fault {
    // The same as the refusal of a call.
    pub fn refused(self) -> Refused
        requires { self.place < 2 ^ 32 }
        ensures { result ≡ record { why = self.why; place = self.place } }
    {
        Refused {
            why: self.why,
            place: self.place as u32,
        }
    }
}

// A refusal of a call, and the place that its answer gives.
#[derive(Clone, Copy, PartialEq, Eq)]
pub struct Refused {
    pub why: Refusal,
    pub place: u32,
}

// A refusal without a place.
impl From<Refusal> for Refused {
    ghost from_gives = { λ why r. r ≡ record { why = why; place = 0 } };

    fn from(why: Refusal) -> Self {
        Refused { why, place: 0 }
    }
}
