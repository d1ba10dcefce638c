// A refusal, and the sentence that all entries share: an answer is one number, item × 256 + code. What an entry comes to stands in specs/.
#![tactic(auto)]

ghost use Rattle.std.specs.Prelude.{◌≡◌};
ghost use Rattle.lent.specs.Refusals.{code_of};
ghost use Rattle.lent.specs.Told.{number_of};

// Why a refusal is given: the rows of document 01's table "Refusal numbers" and those that document 02's requests add, with their codes.
#[derive(Clone, Copy, Debug, PartialEq, Eq)]
pub enum Reason {
    // fewer bytes remain than the next field needs
    Short = 1,
    // byte order neither 0 nor 1
    ByteOrder = 2,
    // type not allowed at this place
    Kind = 3,
    // a count outside its limits
    Count = 4,
    // not a coordinate
    Coordinate = 5,
    // a ring's last point differs from its first
    Unclosed = 6,
    // bytes after the sheet
    Behind = 7,
    // a collection at depth 5
    Deep = 8,
    // rules A, B and C of the table
    Flat = 10,
    Repeated = 11,
    Outline = 12,
    // no set of triangles carries the polygon, or it has no ground
    NotCarried = 20,
    NoGround = 21,
    // repair can't be done: no triangle has an owner, or one can't be given any
    NoOwner = 30,
    Ungiven = 31,
    // the answer is longer than the lent bytes
    Room = 40,
    // the polygon that is asked for isn't on the sheet
    OffSheet = 41,
    // the numbers given to the writer are no sheet's
    NoSheet = 42,
    // not a blob, and an envelope kind above 1
    NoBlob = 50,
    EnvelopeKind = 51,
    // an envelope that isn't the frame, and an index that isn't the table's own
    OtherFrame = 52,
    OtherIndex = 53,
    // an unknown way to fill gaps
    Way = 54,
    // a point that belongs to no triangle
    OffTable = 55,
    // an unknown mode
    Mode = 57,
}

impl Reason {
    // The code of the reason.
    pub fn code(self) -> u32
        ensures { result ≡ code_of self }
    {
        self as u32
    }
}

// A refusal: its reason, and its item.
#[derive(Clone, Copy, Debug, PartialEq, Eq)]
pub struct Refusal {
    pub reason: Reason,
    pub item: u32,
}

// A refusal of reading, and the byte that the field at fault begins at.
#[derive(Clone, Copy, Debug, PartialEq, Eq)]
pub struct Fault {
    pub refusal: Refusal,
    pub position: usize,
}

impl From<Fault> for Refusal {
    ghost from_gives = { λ f r. r ≡ f.refusal };

    fn from(f: Fault) -> Refusal {
        f.refusal
    }
}

// The number that is answered: the item of success × 256, or the item of the refusal × 256 and its code.
pub fn answer(r: Result<u32, Refusal>) -> u64
    ensures { result ≡ number_of r }
{
    match r {
        Ok(item) => item as u64 * 256,
        Err(refusal) => refusal.item as u64 * 256 + refusal.reason.code() as u64,
    }
}
