// What every check answers: `Ok`, or the refusal: a rule of the refusal table and a place in the file (01-scope.md, "Refusal
// numbers"). The table's own rows stand in the crates that judge them; specs/Table.antt says what a list of rows decides.
#![tactic(auto)]

ghost use Rattle.std.specs.Prelude.{◌≡◌};
ghost use Rattle.refusal.specs.Table.{number_of, refusal};

use std::fmt;

// The rules, each with its number in the table; those from 25 on are of 02-change-requests.md.
#[derive(Clone, Copy, PartialEq, Eq)]
pub enum Rule {
    // Fewer than 348 bytes.
    ShortHeader = 1,
    // dim[0] is in 1..7 in neither byte order.
    AxisCount = 2,
    // sizeof_hdr is not 348.
    HeaderSize = 3,
    // The magic is neither n+1 nor ni1.
    UnknownMagic = 4,
    // A dim[i] is below 1.
    AxisBelowOne = 5,
    // The datatype is not in the table.
    UnknownDatatype = 6,
    // bitpix is not the datatype's.
    WrongBitpix = 7,
    // vox_offset is not finite, below zero, or has a fraction.
    OffsetNotWhole = 8,
    // vox_offset is outside what its kind of file allows.
    OffsetOutside = 9,
    // The image has too many bytes.
    ImageTooLarge = 10,
    // A single file ends before its image does.
    FileCut = 11,
    // A pair's header file ends inside its extender.
    ExtenderCut = 12,
    // An extension breaks the size rule.
    WrongSize = 13,
    // An extension's code is negative.
    NegativeCode = 14,
    // A 65th extension.
    TooManyExtensions = 15,
    // A pair's image file ends before the image does.
    ImageCut = 16,
    // A voxel or slice index outside its axis.
    IndexOutside = 17,
    // No extension with that number.
    NoSuchExtension = 18,
    // The code offered is negative.
    NegativeCodeOffered = 19,
    // An append where the extender is zero and bytes follow 352.
    PrivateBytes = 20,
    // The edited file would have 65 extensions, or its region would end too far on.
    ListTooLong = 21,
    // The result is longer than the buffer.
    ShortBuffer = 22,
    // There is no position, or a new number of the sform is not finite.
    NoPosition = 23,
    // The stated file length is above the buffer's.
    LengthAboveBuffer = 24,
    // A piece would pass the total.
    TooManyBytes = 25,
    // A stored size of a record is wrong, or its aligned fact.
    WrongRecord = 26,
    // Fewer than three dims.
    FewerThanThreeAxes = 29,
    // The turn is not a permutation.
    NoPermutation = 30,
}

// A refusal: the rule that refuses, and the place.
#[derive(Clone, Copy, PartialEq, Eq)]
pub struct Refusal {
    pub rule: Rule,
    pub place: usize,
}

impl Rule {
    // The refusal by this rule.
    pub fn at(self, place: usize) -> Refusal
        ensures { result ≡ refusal self place }
    {
        Refusal { rule: self, place }
    }
}

impl Refusal {
    // The rule's number in the table.
    pub fn number(self) -> u64
        ensures { result ≡ number_of self.rule }
    {
        self.rule as u64
    }
}

impl fmt::Display for Refusal {
    fn fmt<W: fmt::Write>(&self, f: &mut fmt::Formatter<W>) -> fmt::Result {
        write!(f, "refused {} at {}", self.number(), self.place)
    }
}
