// Why a call refuses, by the numbers that C gets: those of documents 01 to 03.
ghost use Rattle.std.specs.Prelude.{◌≡◌};
ghost use Rattle.numbers.specs.Fault.{number_of};
ghost use Rattle.numbers.specs.Reply.{refusal, plain};

use crate::refusal::{Refusal, plain, refuse};

#[derive(Clone, Copy)]
pub enum Fault {
    // The file, or the writer's earlier data, is over 1 GiB.
    FileTooLarge = 1,
    // Under 7 bytes; detail: the length.
    FileTooShort = 2,
    // Not `PLB`; detail: the three bytes, the first highest.
    NoMagic = 3,
    // Neither `T` nor `C`; detail: the byte.
    UnknownType = 4,
    // Version 2 or more; detail: the byte.
    UnknownVersion = 5,
    // A bad field name, with a cause; detail: its index.
    BadName = 6,
    // A bad notice, with a cause.
    BadNotice = 7,
    // The first size can't be read.
    NoFirstSize = 8,
    // The second size can't be read.
    NoSecondSize = 9,
    // The third size can't be read.
    NoThirdSize = 10,
    // Another length than the header's; detail: the header's.
    WrongLength = 11,
    // An eleventh byte of a varint.
    LongNumber = 12,
    // An integer step on which the checked Rust panics.
    OutOfRange = 13,
    // A string byte past the end.
    StringPastEnd = 14,
    // A bad field value, with a cause.
    BadField = 15,
    // Precision 0 or above 32, not by opening.
    BadPrecision = 16,
    // More hits than slots.
    HitsFull = 17,
    // Text that does not fit.
    TextFull = 18,
    // No points, over 65,535, or two lists of different length.
    BadBorder = 19,
    // A coordinate beyond ±1,073,741,823.
    TooFar = 20,
    // A point equal to the one before it.
    RepeatedPoint = 21,
    // The first point at (0,0).
    StartsAtZero = 22,
    // The piece list; detail: a piece's index.
    BadPieces = 23,
    // A border that does not fit the output.
    OutputFull = 24,
    // No yards, over 4,096, over 255 names, or another number of values than of names.
    BadYards = 25,
    // A text over 255 bytes or not UTF-8.
    BadText = 26,
    // A precision outside 1 to 31, a version above 1, or another type.
    UnknownForm = 27,
    // An output or a working list that is too short, or a file over 1 GiB.
    FileFull = 28,
    // The builder holds no yard.
    NoYard = 29,
    // No such yard or field.
    NoValue = 30,
    // A number that the file's end cuts, where it is read strictly.
    Incomplete = 31,
    // No entry is left.
    NothingLeft = 32,
    // Lists of unequal length, over 4,096 fixes, or too few answers.
    BadFixes = 33,
    // The table is not in order, can't be read, or runs past the metadata.
    BadTable = 34,
    // The index or atlas does not fit the words.
    IndexFull = 35,
    // Index, atlas or marks and file do not go together.
    OtherIndex = 36,
    // A header does not begin with `TZif`; of 40 to 60 the detail is a place.
    TzifMagic = 40,
    // The version is missing, unknown, or not the first header's.
    TzifVersion = 41,
    // The file ends inside a header.
    TzifHeader = 42,
    // `isutcnt` is neither 0 nor `typecnt`.
    TzifUts = 43,
    // `isstdcnt` is neither 0 nor `typecnt`.
    TzifStandards = 44,
    // `typecnt` is 0.
    TzifTypes = 45,
    // `charcnt` is 0.
    TzifCharacters = 46,
    // The file ends inside the data block.
    TzifBlock = 47,
    // A transition time not above the one before it.
    TzifTime = 48,
    // A transition type not below `typecnt`.
    TzifType = 49,
    // An offset of -2^31.
    TzifOffset = 50,
    // `isdst` is neither 0 nor 1.
    TzifDaylight = 51,
    // `desigidx` is not below `charcnt`.
    TzifIndex = 52,
    // No NUL at or after `desigidx`.
    TzifDesignation = 53,
    // A leap second too early, or an expiry not after the last.
    TzifOccurrence = 54,
    // A correction not exactly 1 away from the one before it.
    TzifCorrection = 55,
    // A standard indicator other than 0 and 1.
    TzifStandard = 56,
    // A UT indicator other than 0 and 1, or 1 without the standard one.
    TzifUt = 57,
    // The footer's newlines, or a NUL in it.
    TzifFooter = 58,
    // Bytes behind the end.
    TzifRest = 59,
    // No TZ string, or one that contradicts the last transition.
    TzifString = 60,
    // An instant outside the years 1 to 9999.
    YearOutside = 61,
    // Salvage: an entry that can't be read.
    EntryFails = 70,
    // Salvage: a border that can't be read.
    BorderFails = 71,
    // Salvage: a string outside the metadata.
    StringOutside = 72,
    // Salvage: no entry behind this one can be read.
    NothingFollows = 73,
    // Neither a sentence nor a plain line; detail: the place.
    NotRequest = 80,
    // The receiver has no fix, or one that is not measured.
    NoFix = 81,
    // A wrong checksum; detail: where its `*` is looked for.
    BadChecksum = 82,
    // A sentence, but not RMC.
    OtherSentence = 83,
    // A number, date or time out of its range; detail: the place.
    NoPlace = 84,
    // A search that was not whole; detail: its mark.
    NotWhole = 85,
    // No zone holds the fix.
    NoZone = 86,
    // The map is not one of time zones, or has not both names.
    NoNames = 87,
    // No file in the bundle under the zone's name.
    NoFile = 88,
    // A damaged bundle; detail: the place.
    DamagedBundle = 89,
    // The zone's file says nothing of the instant.
    UnknownHour = 90,
    // The zone's file counts leap seconds.
    LeapSeconds = 91,
    // Zones hold the fix whose hours differ.
    HoursDiffer = 92,
}

impl Fault {
    pub fn number(self) -> u8
        ensures { result ≡ number_of self }
    {
        self as u8
    }

    // The refusal, with neither cause nor detail.
    pub fn alone(self) -> Refusal
        ensures { result ≡ plain (number_of self) }
    {
        plain(self.number())
    }

    // The refusal with a detail.
    pub fn with(self, detail: u64) -> Refusal
        ensures { result ≡ refusal (number_of self) 0 detail }
    {
        refuse(self.number(), 0, detail)
    }

    // The refusal at a place of what was lent.
    pub fn at(self, place: usize) -> Refusal
        ensures { result ≡ refusal (number_of self) 0 place }
    {
        refuse(self.number(), 0, place as u64)
    }
}
