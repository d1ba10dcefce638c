// The entries as C functions, for libsheets.a: each calls the entry of its name in `sheets`, and promises what that promises.
#![tactic(auto)]

ghost use Rattle.std.specs.Prelude.{◌≡◌, []};
ghost use Rattle.lent.specs.Answered.{Answered, answer_of};
ghost use Rattle.outcomes.specs.Entries.{sheet_numbers, sheet_numbers_by, sheet_areas, sheet_position, sheet_write, sheet_write_blob, sheet_owner_sets, sheet_owner_sets_by, sheet_owners, sheet_owners_by, sheet_boundary, sheet_boundary_by, sheet_listing, sheet_listing_by, sheet_at, sheet_index, sheet_owner_sets_indexed, sheet_owners_indexed, sheet_boundary_indexed, sheet_rings, sheet_rings_indexed, sheet_ring_room};

#[unsafe(no_mangle)]
pub extern "C" fn sheet_numbers(sheet: &[u8], out: &mut [u8]) -> u64
    ensures { Answered (sheet_numbers sheet.now) out.old result out.new }
{
    sheets::sheet_numbers(sheet, out)
}

#[unsafe(no_mangle)]
pub extern "C" fn sheet_position(sheet: &[u8], mode: u32, out: &mut [u8]) -> u64
    ensures { Answered (sheet_position mode sheet.now) out.old result out.new }
{
    sheets::sheet_position(sheet, mode, out)
}

#[unsafe(no_mangle)]
pub extern "C" fn sheet_write(numbers: &[u8], out: &mut [u8]) -> u64
    ensures { Answered (sheet_write numbers.now) out.old result out.new }
{
    sheets::sheet_write(numbers, out)
}

#[unsafe(no_mangle)]
pub extern "C" fn sheet_owner_sets(sheet: &[u8], out: &mut [u8]) -> u64
    ensures { Answered (sheet_owner_sets sheet.now) out.old result out.new }
{
    sheets::sheet_owner_sets(sheet, out)
}

#[unsafe(no_mangle)]
pub extern "C" fn sheet_owners(sheet: &[u8], out: &mut [u8]) -> u64
    ensures { Answered (sheet_owners sheet.now) out.old result out.new }
{
    sheets::sheet_owners(sheet, out)
}

#[unsafe(no_mangle)]
pub extern "C" fn sheet_boundary(sheet: &[u8], polygon: u32, out: &mut [u8]) -> u64
    ensures { Answered (sheet_boundary polygon sheet.now) out.old result out.new }
{
    sheets::sheet_boundary(sheet, polygon, out)
}

#[unsafe(no_mangle)]
pub extern "C" fn sheet_listing(sheet: &[u8], out: &mut [u8]) -> u64
    ensures { Answered (sheet_listing sheet.now) out.old result out.new }
{
    sheets::sheet_listing(sheet, out)
}

#[unsafe(no_mangle)]
pub extern "C" fn sheet_write_blob(numbers: &[u8], out: &mut [u8]) -> u64
    ensures { Answered (sheet_write_blob numbers.now) out.old result out.new }
{
    sheets::sheet_write_blob(numbers, out)
}

#[unsafe(no_mangle)]
pub extern "C" fn sheet_numbers_by(sheet: &[u8], mode: u32, out: &mut [u8]) -> u64
    ensures { Answered (sheet_numbers_by mode sheet.now) out.old result out.new }
{
    sheets::sheet_numbers_by(sheet, mode, out)
}

#[unsafe(no_mangle)]
pub extern "C" fn sheet_areas(sheet: &[u8], mode: u32, out: &mut [u8]) -> u64
    ensures { Answered (sheet_areas mode sheet.now) out.old result out.new }
{
    sheets::sheet_areas(sheet, mode, out)
}

#[unsafe(no_mangle)]
pub extern "C" fn sheet_owner_sets_by(sheet: &[u8], mode: u32, out: &mut [u8]) -> u64
    ensures { Answered (sheet_owner_sets_by mode sheet.now) out.old result out.new }
{
    sheets::sheet_owner_sets_by(sheet, mode, out)
}

#[unsafe(no_mangle)]
pub extern "C" fn sheet_owners_by(sheet: &[u8], mode: u32, way: u32, out: &mut [u8]) -> u64
    ensures { Answered (sheet_owners_by mode way sheet.now) out.old result out.new }
{
    sheets::sheet_owners_by(sheet, mode, way, out)
}

#[unsafe(no_mangle)]
pub extern "C" fn sheet_boundary_by(
    sheet: &[u8],
    mode: u32,
    way: u32,
    polygon: u32,
    out: &mut [u8],
) -> u64
    ensures { Answered (sheet_boundary_by mode way polygon sheet.now) out.old result out.new }
{
    sheets::sheet_boundary_by(sheet, mode, way, polygon, out)
}

#[unsafe(no_mangle)]
pub extern "C" fn sheet_rings(
    sheet: &[u8],
    mode: u32,
    way: u32,
    polygon: u32,
    out: &mut [u8],
) -> u64
    ensures { Answered (sheet_rings mode way polygon sheet.now) out.old result out.new }
{
    sheets::sheet_rings(sheet, mode, way, polygon, out)
}

#[unsafe(no_mangle)]
pub extern "C" fn sheet_listing_by(sheet: &[u8], mode: u32, way: u32, out: &mut [u8]) -> u64
    ensures { Answered (sheet_listing_by mode way sheet.now) out.old result out.new }
{
    sheets::sheet_listing_by(sheet, mode, way, out)
}

#[unsafe(no_mangle)]
pub extern "C" fn sheet_ring_room(sheet: &[u8], mode: u32, way: u32, polygon: u32) -> u64
    ensures { result ≡ answer_of (sheet_ring_room mode way polygon sheet.now) [] }
{
    sheets::sheet_ring_room(sheet, mode, way, polygon)
}

#[unsafe(no_mangle)]
pub extern "C" fn sheet_at(sheet: &[u8], mode: u32, way: u32, x: i32, y: i32) -> u64
    ensures { result ≡ answer_of (sheet_at mode way x y sheet.now) [] }
{
    sheets::sheet_at(sheet, mode, way, x, y)
}

#[unsafe(no_mangle)]
pub extern "C" fn sheet_index(sheet: &[u8], mode: u32, out: &mut [u8]) -> u64
    ensures { Answered (sheet_index mode sheet.now) out.old result out.new }
{
    sheets::sheet_index(sheet, mode, out)
}

#[unsafe(no_mangle)]
pub extern "C" fn sheet_owner_sets_indexed(
    sheet: &[u8],
    index: &[u8],
    mode: u32,
    out: &mut [u8],
) -> u64
    ensures { Answered (sheet_owner_sets_indexed mode index.now sheet.now) out.old result out.new }
{
    sheets::sheet_owner_sets_indexed(sheet, index, mode, out)
}

#[unsafe(no_mangle)]
pub extern "C" fn sheet_owners_indexed(
    sheet: &[u8],
    index: &[u8],
    mode: u32,
    way: u32,
    out: &mut [u8],
) -> u64
    ensures { Answered (sheet_owners_indexed mode way index.now sheet.now) out.old result out.new }
{
    sheets::sheet_owners_indexed(sheet, index, mode, way, out)
}

#[unsafe(no_mangle)]
pub extern "C" fn sheet_boundary_indexed(
    sheet: &[u8],
    index: &[u8],
    mode: u32,
    way: u32,
    polygon: u32,
    out: &mut [u8],
) -> u64
    ensures { Answered (sheet_boundary_indexed mode way polygon index.now sheet.now) out.old result out.new }
{
    sheets::sheet_boundary_indexed(sheet, index, mode, way, polygon, out)
}

#[unsafe(no_mangle)]
pub extern "C" fn sheet_rings_indexed(
    sheet: &[u8],
    index: &[u8],
    mode: u32,
    way: u32,
    polygon: u32,
    out: &mut [u8],
) -> u64
    ensures { Answered (sheet_rings_indexed mode way polygon index.now sheet.now) out.old result out.new }
{
    sheets::sheet_rings_indexed(sheet, index, mode, way, polygon, out)
}
