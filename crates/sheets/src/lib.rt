// The entries that both products call, on numbers and byte slices only; `sheets_c` gives them to C. Each answers item × 256 + code, and only fills in what is asked. Those that
// take no mode and no way are the others in mode 0 and way 0.
#![tactic(auto)]

ghost use Rattle.std.specs.Prelude.{◌≡◌, []};
ghost use Rattle.lent.specs.Answered.{Answered, answer_of};
ghost use Rattle.outcomes.specs.Entries.{sheet_numbers, sheet_numbers_by, sheet_areas, sheet_position, sheet_write, sheet_write_blob, sheet_owner_sets, sheet_owner_sets_by, sheet_owners, sheet_owners_by, sheet_boundary, sheet_boundary_by, sheet_listing, sheet_listing_by, sheet_at, sheet_index, sheet_owner_sets_indexed, sheet_owners_indexed, sheet_boundary_indexed, sheet_rings, sheet_rings_indexed, sheet_ring_room};

use outcomes::{Asked, Wanted};

// The numbers of a sheet: its numbers form as little-endian i32; the item is the number of bytes.
pub fn sheet_numbers(sheet: &[u8], out: &mut [u8]) -> u64
    ensures { Answered (sheet_numbers sheet.now) out.old result out.new }
{
    sheet_numbers_by(sheet, 0, out)
}

// Where in the file: the answer of sheet_numbers_by with room enough, and the byte position of the field at fault, each as a little-endian u64; the item
// is 16.
pub fn sheet_position(sheet: &[u8], mode: u32, out: &mut [u8]) -> u64
    ensures { Answered (sheet_position mode sheet.now) out.old result out.new }
{
    lent::answer(sheets_position::position(sheet, mode, out))
}

// The normal bytes of the sheet that the numbers give, as little-endian i32; the item is the number of bytes.
pub fn sheet_write(numbers: &[u8], out: &mut [u8]) -> u64
    ensures { Answered (sheet_write numbers.now) out.old result out.new }
{
    lent::answer(sheet_writer::write(numbers, out))
}

// The owners of each triangle before repair, in table order, as a little-endian u64 whose bit k-1 stands for polygon k; the item is the
// number of triangles.
pub fn sheet_owner_sets(sheet: &[u8], out: &mut [u8]) -> u64
    ensures { Answered (sheet_owner_sets sheet.now) out.old result out.new }
{
    sheet_owner_sets_by(sheet, 0, out)
}

// The number of each triangle after repair, one byte each, in table order; the item is the number of triangles.
pub fn sheet_owners(sheet: &[u8], out: &mut [u8]) -> u64
    ensures { Answered (sheet_owners sheet.now) out.old result out.new }
{
    sheet_owners_by(sheet, 0, 0, out)
}

// The boundary sides of a polygon of the sheet after repair: ux, uy, vx, vy as little-endian i32 for each; the item is the number of sides.
pub fn sheet_boundary(sheet: &[u8], polygon: u32, out: &mut [u8]) -> u64
    ensures { Answered (sheet_boundary polygon sheet.now) out.old result out.new }
{
    sheet_boundary_by(sheet, 0, 0, polygon, out)
}

// The printed listing of a sheet; the item is the number of bytes. A refused sheet has a listing too.
pub fn sheet_listing(sheet: &[u8], out: &mut [u8]) -> u64
    ensures { Answered (sheet_listing sheet.now) out.old result out.new }
{
    sheet_listing_by(sheet, 0, 0, out)
}

// The normal bytes of the blob that the numbers give: its reference-system number, and then the numbers of its sheet.
pub fn sheet_write_blob(numbers: &[u8], out: &mut [u8]) -> u64
    ensures { Answered (sheet_write_blob numbers.now) out.old result out.new }
{
    lent::answer(sheet_blob_writer::write(numbers, out))
}

// ---- the entries that take what is asked as numbers
// The numbers of a sheet that is read in a mode: 0 the present edition, 1 the older one, whose rings are turned, 2 and 3 the same in GeoPackage blobs.
pub fn sheet_numbers_by(sheet: &[u8], mode: u32, out: &mut [u8]) -> u64
    ensures { Answered (sheet_numbers_by mode sheet.now) out.old result out.new }
{
    lent::answer(sheets_numbers::numbers(sheet, mode, out))
}

// The double area of each polygon, from its corners alone, of a sheet that is read in a mode: a little-endian i64 for each, in number order; the item is the number
// of polygons. Nothing is judged.
pub fn sheet_areas(sheet: &[u8], mode: u32, out: &mut [u8]) -> u64
    ensures { Answered (sheet_areas mode sheet.now) out.old result out.new }
{
    lent::answer(sheets_numbers::areas(sheet, mode, out))
}

// The owners of each triangle before repair, of a sheet that is read in a mode.
pub fn sheet_owner_sets_by(sheet: &[u8], mode: u32, out: &mut [u8]) -> u64
    ensures { Answered (sheet_owner_sets_by mode sheet.now) out.old result out.new }
{
    lent::answer(sheets_answers::answer(
        Asked {
            mode,
            way: 0,
            wanted: Wanted::OwnerSets,
            indexed: false,
        },
        sheet,
        &[0u8; 0],
        out,
    ))
}

// The number of each triangle after repair in a way, of a sheet that is read in a mode.
pub fn sheet_owners_by(sheet: &[u8], mode: u32, way: u32, out: &mut [u8]) -> u64
    ensures { Answered (sheet_owners_by mode way sheet.now) out.old result out.new }
{
    lent::answer(sheets_answers::answer(
        Asked {
            mode,
            way,
            wanted: Wanted::Owners,
            indexed: false,
        },
        sheet,
        &[0u8; 0],
        out,
    ))
}

// The boundary sides of a polygon after repair in a way, of a sheet that is read in a mode.
pub fn sheet_boundary_by(sheet: &[u8], mode: u32, way: u32, polygon: u32, out: &mut [u8]) -> u64
    ensures { Answered (sheet_boundary_by mode way polygon sheet.now) out.old result out.new }
{
    lent::answer(sheets_answers::answer(
        Asked {
            mode,
            way,
            wanted: Wanted::Boundary(polygon),
            indexed: false,
        },
        sheet,
        &[0u8; 0],
        out,
    ))
}

// The boundary sides of a polygon after repair in a way, joined into closed rings, of a sheet that is read in a mode: a WKB MultiLineString; the item is the number
// of bytes.
pub fn sheet_rings(sheet: &[u8], mode: u32, way: u32, polygon: u32, out: &mut [u8]) -> u64
    ensures { Answered (sheet_rings mode way polygon sheet.now) out.old result out.new }
{
    lent::answer(sheets_answers::answer(
        Asked {
            mode,
            way,
            wanted: Wanted::Rings(polygon),
            indexed: false,
        },
        sheet,
        &[0u8; 0],
        out,
    ))
}

// The printed listing of a sheet that is read in a mode and repaired in a way.
pub fn sheet_listing_by(sheet: &[u8], mode: u32, way: u32, out: &mut [u8]) -> u64
    ensures { Answered (sheet_listing_by mode way sheet.now) out.old result out.new }
{
    lent::answer(sheets_listing::listing(sheet, mode, way, out))
}

// The number of bytes that sheet_rings writes, as the item. No bytes are lent.
pub fn sheet_ring_room(sheet: &[u8], mode: u32, way: u32, polygon: u32) -> u64
    ensures { result ≡ answer_of (sheet_ring_room mode way polygon sheet.now) [] }
{
    let mut none = [0u8; 0];
    lent::answer(sheets_answers::answer(
        Asked {
            mode,
            way,
            wanted: Wanted::RingRoom(polygon),
            indexed: false,
        },
        sheet,
        &[0u8; 0],
        &mut none,
    ))
}

// What is at the point: the number of the polygon that owns it after repair in a way, as the item, of a sheet that is read in a mode. No bytes are lent.
pub fn sheet_at(sheet: &[u8], mode: u32, way: u32, x: i32, y: i32) -> u64
    ensures { result ≡ answer_of (sheet_at mode way x y sheet.now) [] }
{
    let mut none = [0u8; 0];
    lent::answer(sheets_answers::answer(
        Asked {
            mode,
            way,
            wanted: Wanted::At(x, y),
            indexed: false,
        },
        sheet,
        &[0u8; 0],
        &mut none,
    ))
}

// ---- the index, and the entries that take one
// The index of a sheet that is read in a mode: for each triangle and side the number of the triangle with the reversed side, 0 for none, as little-endian u16 by triangle
// and then ab, bc, ca; the item is the number of bytes.
pub fn sheet_index(sheet: &[u8], mode: u32, out: &mut [u8]) -> u64
    ensures { Answered (sheet_index mode sheet.now) out.old result out.new }
{
    lent::answer(sheets_index::index(sheet, mode, out))
}

// The owners of each triangle before repair, with an index that is lent; 53 where it isn't the table's own.
pub fn sheet_owner_sets_indexed(sheet: &[u8], index: &[u8], mode: u32, out: &mut [u8]) -> u64
    ensures { Answered (sheet_owner_sets_indexed mode index.now sheet.now) out.old result out.new }
{
    lent::answer(sheets_answers::answer(
        Asked {
            mode,
            way: 0,
            wanted: Wanted::OwnerSets,
            indexed: true,
        },
        sheet,
        index,
        out,
    ))
}

// The number of each triangle after repair in a way, with an index that is lent.
pub fn sheet_owners_indexed(sheet: &[u8], index: &[u8], mode: u32, way: u32, out: &mut [u8]) -> u64
    ensures { Answered (sheet_owners_indexed mode way index.now sheet.now) out.old result out.new }
{
    lent::answer(sheets_answers::answer(
        Asked {
            mode,
            way,
            wanted: Wanted::Owners,
            indexed: true,
        },
        sheet,
        index,
        out,
    ))
}

// The boundary sides of a polygon after repair in a way, with an index that is lent.
pub fn sheet_boundary_indexed(
    sheet: &[u8],
    index: &[u8],
    mode: u32,
    way: u32,
    polygon: u32,
    out: &mut [u8],
) -> u64
    ensures { Answered (sheet_boundary_indexed mode way polygon index.now sheet.now) out.old result out.new }
{
    lent::answer(sheets_answers::answer(
        Asked {
            mode,
            way,
            wanted: Wanted::Boundary(polygon),
            indexed: true,
        },
        sheet,
        index,
        out,
    ))
}

// The same sides joined into closed rings, with an index that is lent.
pub fn sheet_rings_indexed(
    sheet: &[u8],
    index: &[u8],
    mode: u32,
    way: u32,
    polygon: u32,
    out: &mut [u8],
) -> u64
    ensures { Answered (sheet_rings_indexed mode way polygon index.now sheet.now) out.old result out.new }
{
    lent::answer(sheets_answers::answer(
        Asked {
            mode,
            way,
            wanted: Wanted::Rings(polygon),
            indexed: true,
        },
        sheet,
        index,
        out,
    ))
}
