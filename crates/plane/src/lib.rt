// No function: how code holds a corner.
#![tactic(auto)]

// Every number of a sheet, coordinates and counts, is held with this added, so that it is no negative number.
pub const OFFSET: u32 = 10_000_000;

// A corner, each coordinate as it is held.
#[derive(Clone, Copy)]
pub struct Corner {
    pub x: u32,
    pub y: u32,
}
