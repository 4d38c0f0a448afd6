// Refusals, what every small code gives, and the instants and marks as numbers.
#![tactic(auto)]

ghost use Rattle.std.specs.Prelude.{◌≡◌};
ghost use Rattle.base.specs.Refusals.{refusal_number};

// Why something is refused.
#[derive(Clone, Copy, PartialEq, Eq)]
pub enum Refusal {
    // More may come: more bytes are needed.
    NotYet,
    // This is all, and the bytes end in the version or in a field.
    CutShort,
    // The version is not 0.
    WrongVersion,
    // A largest size is passed.
    TooLarge,
    // A field is out of order or stands twice.
    FieldOrder,
    // The first field is not the string pool.
    FirstField,
    // A count, size, offset or transition code that is not allowed, or a value without a code.
    BadCode,
    // A string is not UTF-8, or a pool number is too high.
    BadText,
    // An unknown flag, or data that end early or are left over.
    BadData,
    // An interval count, start, end or standard offset that is not allowed.
    BadInterval,
    // A recurrence or a tail sum is out of its ranges.
    BadRecurrence,
    // No such zone, text, location or entry.
    NotFound,
    // A second zone has the same ID.
    SecondZone,
    // The instant is outside years 1 to 9999.
    OutOfRange,
    // The output, or the buffer of a receiver, is too short.
    TooShort,
    // No instant reads as the local time.
    NoInstant,
    // The eighth target of an alias is again only an alias.
    TooManySteps,
    // A second alias or key has the same bytes.
    SecondAlias,
    // A location is out of its ranges.
    BadLocation,
    // A part of the trace leaves it, or a name leaves the names.
    BadTrace,
    // A field that is not read stands in the way of closing up the pool.
    UnreadField,
    // A number that nothing here gives: what only passes a refusal on takes any.
    Other(u8),
}

impl Refusal {
    // The number that callers are given: document 01's.
    pub fn number(self) -> u8
        ensures { result ≡ refusal_number self }
    {
        match self {
            Refusal::NotYet => 1,
            Refusal::CutShort => 2,
            Refusal::WrongVersion => 3,
            Refusal::TooLarge => 4,
            Refusal::FieldOrder => 5,
            Refusal::FirstField => 6,
            Refusal::BadCode => 7,
            Refusal::BadText => 8,
            Refusal::BadData => 9,
            Refusal::BadInterval => 10,
            Refusal::BadRecurrence => 11,
            Refusal::NotFound => 12,
            Refusal::SecondZone => 13,
            Refusal::OutOfRange => 14,
            Refusal::TooShort => 15,
            Refusal::NoInstant => 17,
            Refusal::TooManySteps => 18,
            Refusal::SecondAlias => 19,
            Refusal::BadLocation => 20,
            Refusal::BadTrace => 21,
            Refusal::UnreadField => 22,
            Refusal::Other(k) => k,
        }
    }
}

// What reading a code gives: a value, and how many bytes its code takes; a reader at a place gives the place behind it instead.
pub type Coded<T> = Result<(T, usize), Refusal>;

// A refusal and its place.
pub type Fault = (Refusal, usize);

// The first and the last instant: year 1 to the end of 9999.
pub const FIRST: u64 = 126227808000000000;

pub const LAST: u64 = 3281606783999999999;

// The mark end of time, as a moment.
pub const END: u64 = 3281606784000000000;
