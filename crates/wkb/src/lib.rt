// The binary form of OGC Simple Features, read by steps. A step takes the reading place and hands back the next one.
#![tactic(auto)]

ghost use Rattle.std.specs.Prelude.{◌≡◌, ◌+◌, ◌-◌, ◌^◌, ◌<◌, true};
ghost use Rattle.wkb.specs.Steps.{start, complete, renewed, count_fits, popped, with_rings, with_parts, with_members, with_sheet, fewer_parts, opened, refusal, geometry_at, ring_fits, with_points, ring_at, after_point, point_at, end_at, step_at, told_at};

use lent::Reason;
use lent_fields::{double, remain, word};
use wkb_kinds::{Kind, Slot};

// A reading place: where it stands, the member it names, and what is still to come there.
#[derive(Clone, Copy)]
pub struct Cursor {
    // the byte it stands at
    pub at: usize,
    // the member of the sheet that it names: 0 in the sheet's own header, 1 for the table
    pub member: u32,
    // members of the sheet after this one
    pub members: u32,
    // the member's own header is still to come; the byte order of the open polygon
    pub header: bool,
    pub little: bool,
    // members still to come of the open collections at depth 2, 3 and 4
    pub second: u32,
    pub third: u32,
    pub fourth: u32,
    // pieces of the table or parts of the open MultiPolygon still to come
    pub parts: u32,
    // rings of the open polygon still to come
    pub rings: u32,
    // points of the open ring still to come
    pub points: u32,
    // polygons begun under this member, and points of polygons counted in the sheet
    pub polygons: u32,
    pub total: u32,
    // the most members that the sheet may have, the table among them
    pub limit: u32,
}

// What a step answers, each with the next place: a geometry opened with its type and count, a ring with its count, a point with its two
// doubles as they stand, the end, or a refusal with its reason, its item and the byte that the field at fault begins at, one by one as the
// theorems of demands name them. A type is any number that the bytes have.
#[derive(Clone, Copy)]
pub enum Step {
    Geometry(u32, u32, Cursor),
    Ring(u32, Cursor),
    Point(f64, f64, Cursor),
    End(Cursor),
    Refused(Reason, u32, usize, Cursor),
}

// A step's answer with the byte that the step began at.
#[derive(Clone, Copy)]
pub struct Told {
    pub began: usize,
    pub step: Step,
}

impl Cursor {
    // The place before the first byte of a sheet that may have so many members.
    pub fn start(limit: u32) -> Cursor
        ensures { result ≡ start limit }
    {
        Cursor {
            at: 0,
            member: 0,
            members: 0,
            header: false,
            second: 0,
            third: 0,
            fourth: 0,
            parts: 0,
            rings: 0,
            little: false,
            points: 0,
            polygons: 0,
            total: 0,
            limit,
        }
    }

    #[tactic(auto, unfolding(crate::specs::Steps::complete))]
    fn is_complete(self) -> bool
        ensures { result ≡ complete self }
    {
        !self.header
            && self.second == 0
            && self.third == 0
            && self.fourth == 0
            && self.parts == 0
            && self.rings == 0
            && self.points == 0
    }

    #[tactic(auto, unfolding(crate::specs::Steps::renewed))]
    fn renewed(mut self) -> Cursor
        ensures { result ≡ renewed self }
    {
        if !self.is_complete() || self.members == 0 {
            return self;
        }
        self.members -= 1;
        if self.member < self.limit {
            self.member += 1;
        }
        self.header = true;
        self.polygons = 0;
        self
    }

    #[tactic(auto, unfolding(crate::specs::Steps::popped))]
    fn popped(mut self) -> Cursor
        ensures { result ≡ popped self }
    {
        if self.header {
            self.header = false;
        } else if 0 < self.fourth {
            self.fourth -= 1;
        } else if 0 < self.third {
            self.third -= 1;
        } else {
            self.second = self.second.saturating_sub(1);
        }
        self
    }

    #[tactic(auto, unfolding(crate::specs::Steps::with_rings))]
    fn with_rings(mut self, counted: bool, n: u32, little: bool) -> Cursor
        requires { self.at + 9 < 2 ^ 64 }
        ensures { result ≡ with_rings counted n little self }
    {
        self.at += 9;
        self.rings = n;
        self.little = little;
        if counted && self.polygons < 64 {
            self.polygons += 1;
        }
        self
    }

    #[tactic(auto, unfolding(crate::specs::Steps::with_parts))]
    fn with_parts(mut self, n: u32) -> Cursor
        requires { self.at + 9 < 2 ^ 64 }
        ensures { result ≡ with_parts n self }
    {
        self.at += 9;
        self.parts = n;
        self
    }

    // A collection is opened under a member; `stood` is the place where its header stood.
    #[tactic(auto, unfolding(crate::specs::Steps::with_members))]
    fn with_members(mut self, stood: Cursor, n: u32) -> Cursor
        requires { self.at + 9 < 2 ^ 64 }
        ensures { result ≡ with_members stood n self }
    {
        self.at += 9;
        if stood.header {
            self.second = n;
        } else if 0 < stood.third {
            self.fourth = n;
        } else {
            self.third = n;
        }
        self
    }

    #[tactic(auto, unfolding(crate::specs::Steps::with_sheet))]
    fn with_sheet(mut self, n: u32) -> Cursor
        requires { (self.at + 9 < 2 ^ 64) × (0 < n) }
        ensures { result ≡ with_sheet n self }
    {
        self.at += 9;
        self.member = 1;
        self.members = n - 1;
        self.header = true;
        self
    }

    #[tactic(auto, unfolding(crate::specs::Steps::fewer_parts))]
    fn fewer_parts(mut self) -> Cursor
        ensures { result ≡ fewer_parts self }
    {
        self.parts = self.parts.saturating_sub(1);
        self
    }

    // The place after a header.
    #[tactic(auto, unfolding(crate::specs::Steps::opened, crate::specs::Steps::popped, crate::specs::Steps::fewer_parts))]
    fn opened(self, slot: Slot, little: bool, kind: u32, n: u32) -> Cursor
        requires { (self.at + 9 < 2 ^ 64) × (0 < n) }
        ensures { result ≡ opened slot self little kind n }
    {
        match slot {
            Slot::Sheet => self.with_sheet(n),
            Slot::Table => self.popped().with_parts(n),
            Slot::Piece => self.fewer_parts().with_rings(false, n, little),
            Slot::Part => self.fewer_parts().with_rings(true, n, little),
            Slot::Member => match kind {
                Kind::POLYGON => self.popped().with_rings(true, n, little),
                Kind::MULTI_POLYGON => self.popped().with_parts(n),
                _ => self.popped().with_members(self, n),
            },
        }
    }

    // A refusal at the field that begins at a byte.
    fn refused(self, reason: Reason, field: usize) -> Step
        ensures { result ≡ refusal reason field self }
    {
        Step::Refused(reason, self.member, field, self)
    }

    // A geometry's header.
    #[tactic(auto, using(crate::proofs::Steps::count_some), unfolding(crate::specs::Steps::geometry_at, crate::specs::Steps::kind_fault, crate::specs::Steps::crowded, crate::specs::Steps::deep, crate::specs::Steps::slot_of))]
    fn geometry(self, s: &[u8]) -> Step
        ensures { result ≡ geometry_at s.now self }
    {
        let at = self.at;
        if !remain(s, at, 1) {
            return self.refused(Reason::Short, at);
        }
        let order = s[at];
        if 2 <= order {
            return self.refused(Reason::ByteOrder, at);
        }
        if !remain(s, at, 5) {
            return self.refused(Reason::Short, at + 1);
        }
        let little = order == 1;
        let kind = word(s, at + 1, little);
        let slot = Slot::standing(self.member, self.parts);
        if let Some(fault) = wkb_kinds::fault(slot, kind, self.polygons, self.fourth) {
            return self.refused(fault, at + 1);
        }
        if !remain(s, at, 9) {
            return self.refused(Reason::Short, at + 5);
        }
        let count = word(s, at + 5, little);
        if !count_fits(self.limit, slot, count) {
            return self.refused(Reason::Count, at + 5);
        }
        Step::Geometry(kind, count, self.opened(slot, little, kind, count))
    }

    #[tactic(auto, unfolding(crate::specs::Steps::ring_fits))]
    pub fn ring_fits(self, n: u32) -> bool
        ensures { result ≡ ring_fits self n }
    {
        if self.member == 1 {
            return n == 4;
        }
        (4..=4096).contains(&n) && self.total <= 4096 - n
    }

    #[tactic(auto, unfolding(crate::specs::Steps::with_points, crate::specs::Steps::ring_fits))]
    pub fn with_points(mut self, n: u32) -> Cursor
        requires { (self.at + 4 < 2 ^ 64) × (ring_fits self n ≡ true) }
        ensures { result ≡ with_points n self }
    {
        self.at += 4;
        self.rings = self.rings.saturating_sub(1);
        self.points = n;
        if self.member != 1 {
            self.total += n;
        }
        self
    }

    // A ring's count.
    #[tactic(auto, unfolding(crate::specs::Steps::ring_at))]
    fn ring(self, s: &[u8]) -> Step
        ensures { result ≡ ring_at s.now self }
    {
        let at = self.at;
        if !remain(s, at, 4) {
            return self.refused(Reason::Short, at);
        }
        let n = word(s, at, self.little);
        if !self.ring_fits(n) {
            return self.refused(Reason::Count, at);
        }
        Step::Ring(n, self.with_points(n))
    }

    #[tactic(auto, unfolding(crate::specs::Steps::after_point))]
    pub fn after_point(mut self) -> Cursor
        requires { self.at + 16 < 2 ^ 64 }
        ensures { result ≡ after_point self }
    {
        self.at += 16;
        self.points = self.points.saturating_sub(1);
        self.renewed()
    }

    // A point.
    #[tactic(auto, unfolding(crate::specs::Steps::point_at))]
    fn point(self, s: &[u8]) -> Step
        ensures { result ≡ point_at s.now self }
    {
        let at = self.at;
        if !remain(s, at, 16) {
            return self.refused(Reason::Short, at);
        }
        let little = self.little;
        let x = double(s, at, little);
        let y = double(s, at + 8, little);
        Step::Point(x, y, self.after_point())
    }

    #[tactic(auto, unfolding(crate::specs::Steps::end_at))]
    fn end(self, s: &[u8]) -> Step
        ensures { result ≡ end_at s.now self }
    {
        let at = self.at;
        if at < s.len() {
            return Step::Refused(Reason::Behind, 0, at, self);
        }
        if at == s.len() {
            return Step::End(self);
        }
        self.refused(Reason::Short, at)
    }

    // What one step of reading answers: what is to come says which field is read.
    #[tactic(auto, unfolding(crate::specs::Steps::step_at))]
    fn answer(self, s: &[u8]) -> Step
        ensures { result ≡ step_at s.now self }
    {
        if 0 < self.points {
            return self.point(s);
        }
        if 0 < self.rings {
            return self.ring(s);
        }
        if self.member != 0 && self.is_complete() {
            return self.end(s);
        }
        self.geometry(s)
    }

    // One step of reading, at any place and for any bytes.
    pub fn step(self, s: &[u8]) -> Told
        ensures { result ≡ told_at s.now self }
    {
        Told {
            began: self.at,
            step: self.answer(s),
        }
    }
}

// The count is within its limits.
#[tactic(auto, unfolding(crate::specs::Steps::count_fits))]
fn count_fits(limit: u32, slot: Slot, n: u32) -> bool
    ensures { result ≡ count_fits limit slot n }
{
    match slot {
        Slot::Sheet => (1..=limit).contains(&n),
        Slot::Table => (2..=1024).contains(&n),
        Slot::Piece => n == 1,
        Slot::Part | Slot::Member => (1..=64).contains(&n),
    }
}
