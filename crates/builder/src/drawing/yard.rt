// A yard's border, from where its parts begin in the lent lists.
// Stays, point 6: C lends latitudes and longitudes as two lists, and no heap holds pairs.
ghost use Rattle.std.specs.Prelude.{◌*◌, ◌≤◌, ◌<◌, ◌^◌, length, drop};
ghost use Rattle.builder.specs.Borders.{Draws};
ghost use Rattle.builder.specs.inner.Drawing.Section.{yard_appended, LentFor};

use crate::borders::draw_border;
use crate::yards::{next_part, part_end};
use numbers::refusal::Refusal;

// No more of the output than a border of so many points can take: all that is lent is zeroed first.
pub fn lent_for(points: usize, room: usize) -> usize
    requires { points < 2 ^ 32 }
    ensures { LentFor points room result }
{
    (170 * points + 400).min(room)
}

// The border behind the earlier data, at the front of the output: 23, then 28.
pub fn draw_yard(
    version: u8,
    lats: &[i32],
    lat: usize,
    tall: usize,
    lons: &[i32],
    lon: usize,
    wide: usize,
    pieces: &[u32],
    piece: usize,
    words: usize,
    earlier: &[u8],
    room: usize,
    out: &mut [u8],
) -> Result<usize, Refusal>
    requires { (lat ≤ length lats.now) × (lon ≤ length lons.now) × (piece ≤ length pieces.now) × (tall < 2 ^ 32) × (room ≤ length out.old) }
    ensures { Draws (yard_appended version room earlier.now (drop lat lats.now) tall (drop lon lons.now) wide (drop piece pieces.now) words) earlier.now out.new result }
{
    let lat_end = part_end(lats.len(), lat, tall);
    let lon_end = part_end(lons.len(), lon, wide);
    let piece_end = next_part(pieces.len(), piece, words);
    let cut = pieces.len() - piece < words;
    let lent = lent_for(tall, out.len());
    draw_border(
        version,
        &lats[lat..lat_end],
        &lons[lon..lon_end],
        &pieces[piece..piece_end],
        cut,
        earlier,
        room,
        &mut out[..lent],
    )
}
