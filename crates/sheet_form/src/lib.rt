// A sheet in numbers, and its numbers form.
#![tactic(auto)]

// A sheet has at most 65 members, the table and 64 polygons.
pub const MEMBERS: u32 = 65;
