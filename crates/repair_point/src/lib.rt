// What is at a point: the owner after repair of the triangle that it belongs to.
#![tactic(auto)]

ghost use Rattle.std.specs.Prelude.{◌≡◌, [], map, IfSome, ◌+◌, ◌≤◌, ◌<◌, length};
ghost use Rattle.lent.specs.Answered.{answer_of};
ghost use Rattle.lent.specs.Told.{number_of};
ghost use Rattle.plane_winding.specs.Winding.{belongs};
ghost use Rattle.table_points.specs.Points.{triangle_of};
ghost use Rattle.owners_marks.specs.Sets.{owners_of};
ghost use Rattle.repair_regions.specs.Spreading.{Paired};
ghost use Rattle.repair_longest.specs.Held.{TableIn, lengths_held};
ghost use Rattle.repair.specs.Giving.{numbered};
ghost use Rattle.repair_point.specs.Point.{owner_there};
ghost use Rattle.repair_point.specs.Held.{triangle_held, triangles_held, point_outcome};

use lent::{Reason, Refusal};
use plane::Corner;

// The point belongs to triangle t of the table, counted from 0.
fn belongs_to(table: &[u32], t: usize, x: i32, y: i32) -> bool
    requires { TableIn table.now (t + 1) }
    ensures { result ≡ belongs (record { x = x; y = y }) (triangle_held table.now t) }
{
    let i = 6 * t;
    let a = Corner {
        x: table[i + 1],
        y: table[i + 2],
    };
    let b = Corner {
        x: table[i + 3],
        y: table[i + 4],
    };
    let c = Corner {
        x: table[i + 5],
        y: table[i + 6],
    };
    plane_belongs::belongs(a, b, c, x, y)
}

// The first of n triangles that the point belongs to.
fn triangle_of(table: &[u32], n: usize, x: i32, y: i32) -> Option<usize>
    requires { TableIn table.now n }
    ensures first { numbered result ≡ triangle_of (record { x = x; y = y }) (triangles_held table.now n) }
    ensures within { IfSome result (λ t. t < n) }
{
    for t in 0..n {
        if belongs_to(table, t, x, y) {
            return Some(t);
        }
    }
    None
}

// What is at the point, by the owner number of each triangle: that of the triangle that it belongs to; 55 where it belongs to none.
fn owner_there(table: &[u32], owners: &[u8], x: i32, y: i32) -> Result<u32, Refusal>
    requires { TableIn table.now (length owners.now) }
    ensures { number_of result ≡ answer_of (owner_there (triangle_of (record { x = x; y = y }) (triangles_held table.now (length owners.now))) owners.now) [] }
{
    match triangle_of(table, owners.len(), x, y) {
        Some(t) => Ok(u32::from(owners[t])),
        None => Err(Refusal {
            reason: Reason::OffTable,
            item: 0,
        }),
    }
}

// What is at the point after repair in a way, by the table's corners off the numbers form; a refusal of repair is passed on.
pub fn owner_at(
    way: u32,
    table: &[u32],
    opposite: &[usize],
    sets: &[u64],
    x: i32,
    y: i32,
) -> Result<u32, Refusal>
    requires { Paired opposite.now (length sets.now) × (length sets.now ≤ 1024) × TableIn table.now (length sets.now) }
    ensures { number_of result ≡ answer_of (point_outcome (record { x = x; y = y }) (triangles_held table.now (length sets.now)) way
        (lengths_held table.now (length opposite.now)) opposite.now (map owners_of sets.now)) [] }
{
    let n = sets.len();
    let mut owners = [0u8; 1024];
    repair::repair(way, table, opposite, sets, &mut owners[..n])?;
    owner_there(table, &owners[..n], x, y)
}
