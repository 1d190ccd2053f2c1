// The boxes of the yards, four numbers each.
// Stays, point 6: C lends latitudes and longitudes as two lists, and no heap holds pairs.
ghost use mathlib.Core.{Path.{◌≡◌}, List.{[], ◌∷◌}};
ghost use Rattle.std.specs.Prelude.{◌+◌, ◌≤◌};
ghost use lib.{ListN.{length, drop}, Seq.{sets}};
ghost use Rattle.builder.specs.{Entries.{box_of}, Yards.{part_of, yards_from}};
ghost use Rattle.build.specs.Entries.Corners.{corners_of};

use builder::boxes::{Bounds, box_of};
use builder::yards::{next_part, part_end};

pub fn put_corners(boxes: &mut [i32], at: usize, bounds: Bounds)
    requires { at + 4 ≤ length boxes.old }
    ensures { boxes.new ≡ sets boxes.old at (bounds.south ∷ bounds.west ∷ bounds.north ∷ bounds.east ∷ []) }
{
    let south = bounds.south;
    let west = bounds.west;
    let north = bounds.north;
    let east = bounds.east;
    boxes[at] = south;
    boxes[at + 1] = west;
    boxes[at + 2] = north;
    boxes[at + 3] = east;
}

// The box of the border of so many latitudes and longitudes from these places on.
// Stays apart: three lines, as `check_part` of builder; a closure for what is asked of the part would be no plainer.
fn box_part(lats: &[i32], lat: usize, tall: usize, lons: &[i32], lon: usize, wide: usize) -> Bounds
    requires { (lat ≤ length lats.now) × (lon ≤ length lons.now) }
    ensures { result ≡ box_of (part_of tall (drop lat lats.now)) (part_of wide (drop lon lons.now)) }
{
    let lat_end = part_end(lats.len(), lat, tall);
    let lon_end = part_end(lons.len(), lon, wide);
    box_of(&lats[lat..lat_end], &lons[lon..lon_end])
}

// Stays parameters: any two lists are taken, so a struct of `lats, lons` would hold no fact.
pub(crate) fn box_yards(yards: &[u32], lats: &[i32], lons: &[i32], boxes: &mut [i32])
    requires { length yards.now ≤ length boxes.old }
    ensures { boxes.new ≡ sets boxes.old 0 (corners_of (yards_from yards.now lats.now lons.now [] [])) }
{
    let mut lat = 0;
    let mut lon = 0;
    for (count, yard) in yards.chunks_exact(4).enumerate() {
        let tall = yard[0] as usize;
        let wide = yard[1] as usize;
        let bounds = box_part(lats, lat, tall, lons, lon, wide);
        put_corners(boxes, 4 * count, bounds);
        lat = next_part(lats.len(), lat, tall);
        lon = next_part(lons.len(), lon, wide);
    }
}
