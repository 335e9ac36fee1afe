// Why a program, an instance or a run is refused, and where.
#![tactic(auto)]

ghost use Rattle.std.specs.Prelude.{◌≡◌};
ghost use Rattle.refusals.specs.Reasons.{number_of};

// A reason, whose number is what a call answers. include/metaqasm_numbers.def says each in words.
#[derive(Clone, Copy, Debug, PartialEq, Eq)]
pub enum Reason {
    TooLong = 1,
    BadHeader = 2,
    BadTag = 3,
    BadContent = 4,
    TooDeep = 5,
    TooMany = 6,
    TooLarge = 7,
    NotInScope = 8,
    WrongKind = 9,
    ProductOfVariables = 10,
    FormOutOfRange = 11,
    NotShown = 12,
    BadCondition = 13,
    NoSuchFamily = 20,
    WrongSizesLength = 21,
    SizeTooLarge = 22,
    TooManyWires = 23,
    IndexOutOfRange = 24,
    OneWireTwice = 25,
    OutOfSteps = 26,
    OutputFull = 27,
    TextFull = 30,
    LowNumber = 31,
    KTooLarge = 32,
    PassedTooLate = 33,
    HasFamilyParameter = 34,
    SameWire = 35,
}

impl Reason {
    // What a call answers.
    pub fn number(self) -> u32
        ensures { result ≡ number_of self }
    {
        self as u32
    }
}

// A reason, and the position in the program of what is refused.
#[derive(Clone, Copy, Debug, PartialEq, Eq)]
pub struct Refusal(pub Reason, pub usize);
