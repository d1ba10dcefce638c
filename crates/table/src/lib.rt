// No function: how code holds a count at a side.
#![tactic(auto)]

// A net count is held with 2,147,483,648 added: so the count of none, and the count of one.
pub const EVEN: u32 = 2_147_483_648;

pub const ONCE: u32 = 2_147_483_649;
