// The checks of all yards' borders, in turn, before anything else is asked.
// Stays, point 6: C lends latitudes and longitudes as two lists, and no heap holds pairs.
ghost use mathlib.Core.{Path.{◌≡◌}, List.{[]}};
ghost use Rattle.std.specs.Prelude.{◌≤◌, length, drop};
ghost use Rattle.writer.specs.Writer.{checks};
ghost use Rattle.builder.specs.{File.{borders_good}, Yards.{part_of, part_end, next_part, yards_from}};

use crate::borders::check_border;
use numbers::refusal::Refusal;

// Where so many items end; a part that is not all there is empty.
pub fn part_end(size: usize, at: usize, count: usize) -> usize
    requires { at ≤ size }
    ensures { result ≡ part_end size at count }
{
    if count <= size - at {
        return at + count;
    }
    at
}

// Where the part behind so many items begins.
pub fn next_part(size: usize, at: usize, count: usize) -> usize
    requires { at ≤ size }
    ensures { result ≡ next_part size at count }
{
    if count <= size - at {
        return at + count;
    }
    size
}

// 19 to 22 of the border of so many latitudes and longitudes from these places on.
// Stays apart: three lines, as `box_part` of build; a closure for what is asked of the part would be no plainer.
fn check_part(
    lats: &[i32],
    lat: usize,
    tall: usize,
    lons: &[i32],
    lon: usize,
    wide: usize,
) -> Result<(), Refusal>
    requires { (lat ≤ length lats.now) × (lon ≤ length lons.now) }
    ensures { result ≡ checks 0 (part_of tall (drop lat lats.now)) (part_of wide (drop lon lons.now)) [] }
{
    let lat_end = part_end(lats.len(), lat, tall);
    let lon_end = part_end(lons.len(), lon, wide);
    check_border(&lats[lat..lat_end], &lons[lon..lon_end])
}

// 19 to 22, yard by yard.
// Stays parameters: any two lists are taken (19 is said of unequal ones), so a struct of them would hold no fact.
pub fn check_yards(yards: &[u32], lats: &[i32], lons: &[i32]) -> Result<(), Refusal>
    ensures { result ≡ borders_good (yards_from yards.now lats.now lons.now [] []) }
{
    let mut lat = 0;
    let mut lon = 0;
    for yard in yards.chunks_exact(4) {
        let tall = yard[0] as usize;
        let wide = yard[1] as usize;
        check_part(lats, lat, tall, lons, lon, wide)?;
        lat = next_part(lats.len(), lat, tall);
        lon = next_part(lons.len(), lon, wide);
    }
    Ok(())
}
