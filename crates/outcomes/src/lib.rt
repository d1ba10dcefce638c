// What is asked of the entries that judge a sheet. Each entry fills it in.
#![tactic(auto)]

// What is wanted of a judged sheet: the owners of each triangle before repair; the owner of each after repair; the boundary sides of a polygon
// after repair, by its number, as they stand, joined into closed rings, and the room that these take; the owner after repair at a point, by its x and y.
#[derive(Clone, Copy)]
pub enum Wanted {
    OwnerSets,
    Owners,
    Boundary(u32),
    Rings(u32),
    RingRoom(u32),
    At(i32, i32),
}

// What is asked besides the bytes: the mode of reading, the way to fill gaps, what is wanted, and whether an index is lent.
#[derive(Clone, Copy)]
pub struct Asked {
    pub mode: u32,
    pub way: u32,
    pub wanted: Wanted,
    pub indexed: bool,
}
