// The kinds of geometry with their type numbers, which geometry stands at a place, and what is wrong with a type there.
#![tactic(auto)]

ghost use Rattle.std.specs.Prelude.{◌≡◌};
ghost use Rattle.wkb_kinds.specs.Kinds.{type_of, slot_at};
ghost use Rattle.wkb_kinds.specs.Types.{crowded_at, deep_at, fault_at};

use lent::Reason;

// The kinds of geometry, with their type numbers.
#[derive(Clone, Copy)]
pub enum Kind {
    Polygon = 3,
    MultiPolygon = 6,
    Collection = 7,
    Tin = 16,
    Triangle = 17,
}

impl Kind {
    pub const LINE_STRING: u32 = 2;

    pub const POLYGON: u32 = Kind::Polygon as u32;

    pub const MULTI_LINE_STRING: u32 = 5;

    pub const MULTI_POLYGON: u32 = Kind::MultiPolygon as u32;

    pub const COLLECTION: u32 = Kind::Collection as u32;

    pub const TIN: u32 = Kind::Tin as u32;

    pub const TRIANGLE: u32 = Kind::Triangle as u32;

    // The kind's type number.
    pub fn number(self) -> u32
        ensures { result ≡ type_of self }
    {
        match self {
            Kind::Polygon => Kind::POLYGON,
            Kind::MultiPolygon => Kind::MULTI_POLYGON,
            Kind::Collection => Kind::COLLECTION,
            Kind::Tin => Kind::TIN,
            Kind::Triangle => Kind::TRIANGLE,
        }
    }
}

// Which geometry stands at a place: the sheet, the table, a piece of it, a part of a MultiPolygon, or a member at some depth.
#[derive(Clone, Copy)]
pub enum Slot {
    Sheet,
    Table,
    Piece,
    Part,
    Member,
}

impl Slot {
    // Which geometry stands where the place names this member, and so many of its parts are still to come.
    pub fn standing(member: u32, parts: u32) -> Slot
        ensures { result ≡ slot_at member parts }
    {
        match (member, parts) {
            (0, _) => Slot::Sheet,
            (1, 0) => Slot::Table,
            (1, _) => Slot::Piece,
            (_, 0) => Slot::Member,
            _ => Slot::Part,
        }
    }
}

// The fault of a type here, by the polygons begun under the member and the members to come at depth 4; none where it is allowed. The type is any
// number that the bytes have, so it is no Kind.
pub fn fault(slot: Slot, kind: u32, polygons: u32, fourth: u32) -> Option<Reason>
    ensures { result ≡ fault_at slot (crowded_at polygons) (deep_at fourth) kind }
{
    match (slot, kind) {
        (Slot::Sheet, Kind::COLLECTION) => None,
        (Slot::Table, Kind::TIN) => None,
        (Slot::Piece, Kind::TRIANGLE | Kind::POLYGON) => None,
        (Slot::Member, Kind::MULTI_POLYGON) => None,
        (Slot::Part | Slot::Member, Kind::POLYGON) => if polygons < 64 {
            None
        } else {
            Some(Reason::Count)
        },
        (Slot::Member, Kind::COLLECTION) => if fourth == 0 {
            None
        } else {
            Some(Reason::Deep)
        },
        _ => Some(Reason::Kind),
    }
}
