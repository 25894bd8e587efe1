// The types that all crates share. The rules themselves are definitions (specs/), with theorems about them (proofs/).
#![tactic(auto)]

ghost use Rattle.std.specs.Prelude.{◌≡◌, ◌^◌, ◌<◌, Some, None};
ghost use Rattle.rules.specs.Reported.{number_of, place_told, told};

// How a check or a call ends: number 0 is accepted, else document 01's refusal. A place is itself plus 1, or 0 for none.
#[repr(C)]
#[derive(Clone, Copy)]
pub struct Refused {
    pub number: u32,
    pub place: u32,
}

// A state: a mark for each of `count` items and 0 after them, the number of unused places in scope, the current place plus
// 1 or 0 for none, and the scope.
#[repr(C)]
#[derive(Clone, Copy)]
pub struct State {
    pub marks: [u16; 256],
    pub count: u32,
    pub remaining: u32,
    pub current: u32,
    pub start: u32,
    pub end: u32,
}

// Document 01's refusals by name, and 50, which is ours.
#[derive(Clone, Copy, PartialEq, Eq, Debug)]
pub enum Refusal {
    BadCounts = 1,
    BadName = 2,
    BadNode = 3,
    BadUse = 4,
    BadSheet = 5,
    TooManyArguments = 6,
    ShortSlice = 7,
    TooManyItems = 8,
    Ambiguous = 9,
    BadTable = 11,
    ShortList = 14,
    BadBatch = 15,
    BadAlphabet = 16,
    NotShort = 17,
    TooLarge = 18,
    ShortOutput = 19,
    Missing = 20,
    NothingCounted = 21,
    NoArgument = 22,
    NotStrict = 23,
    Strict = 24,
    NotNumber = 25,
    OutOfBounds = 26,
    LeftOver = 27,
    NotThere = 28,
    BadState = 29,
    BadItem = 30,
    NoCommand = 31,
    Misread = 50,
}

impl Refusal {
    pub fn number(self) -> u32
        ensures { result ≡ number_of self }
    {
        self as u32
    }
}

// A refusal, and its place if it has one.
#[derive(Clone, Copy, PartialEq, Eq, Debug)]
pub struct RefusedAt {
    pub refusal: Refusal,
    pub place: Option<u32>,
}

impl RefusedAt {
    pub fn at(refusal: Refusal, place: usize) -> RefusedAt
        requires { place < 2 ^ 32 }
        ensures { result ≡ record { refusal = refusal; place = Some place } }
    {
        RefusedAt {
            refusal,
            place: Some(place as u32),
        }
    }

    // As the answers have it.
    pub fn told(self) -> Refused
        requires { place_told self.place < 2 ^ 32 }
        ensures { result ≡ told self }
    {
        let place = match self.place {
            Some(i) => i + 1,
            None => 0,
        };
        Refused {
            number: self.refusal.number(),
            place,
        }
    }
}

impl From<Refusal> for RefusedAt {
    ghost from_gives = { λ e r. r ≡ record { refusal = e; place = None } };

    fn from(refusal: Refusal) -> RefusedAt {
        RefusedAt {
            refusal,
            place: None,
        }
    }
}
