// The data section: its zero byte, and each yard's border behind those before it.
// Stays, point 6: C lends latitudes and longitudes as two lists, and no heap holds pairs.
ghost use mathlib.Core.{Path.{◌≡◌}, List.{[]}};
ghost use Rattle.std.specs.Prelude.{◌+◌, ◌≤◌, ◌<◌, length, set, get_or};
ghost use Rattle.builder.specs.{Borders.{drawn_of}, Yards.{yards_from}};
ghost use Rattle.builder.specs.inner.Drawing.Section.{DrawsAll};

use crate::drawing::yard::draw_yard;
use crate::put::put_bytes;
use crate::yards::next_part;
use numbers::refusal::Refusal;

// A word at a place, if the list has it.
fn store(list: &mut [u32], place: usize, word: u32)
    ensures { list.new ≡ set list.old place word }
{
    if place < list.len() {
        list[place] = word;
    }
}

// All borders into a list whose first byte is zero, and how long the data then is; each border's place goes to every second word from the first on. The output is working room.
pub fn draw_yards(
    version: u8,
    yards: &[u32],
    lats: &[i32],
    lons: &[i32],
    pieces: &[u32],
    room: usize,
    places: &mut [u32],
    bytes: &mut [u8],
    out: &mut [u8],
) -> Result<usize, Refusal>
    requires { (0 < room) × (room ≤ length bytes.old) × (room ≤ length out.old) × (room ≤ 1073741824) × (get_or bytes.old 0 0 ≡ 0) }
    ensures { DrawsAll (drawn_of version room (yards_from yards.now lats.now lons.now pieces.now [])) places.old places.new bytes.new result }
{
    let mut size = 1;
    let mut lat = 0;
    let mut lon = 0;
    let mut piece = 0;
    for (count, yard) in yards.chunks_exact(4).enumerate() {
        let tall = yard[0] as usize;
        let wide = yard[1] as usize;
        let words = 5 * (yard[2] as usize);
        let drawn = draw_yard(
            version,
            lats,
            lat,
            tall,
            lons,
            lon,
            wide,
            pieces,
            piece,
            words,
            &bytes[..size],
            room,
            out,
        )?;
        store(places, 2 * count + 1, size as u32);
        size = put_bytes(bytes, size, &out[..drawn]);
        lat = next_part(lats.len(), lat, tall);
        lon = next_part(lons.len(), lon, wide);
        piece = next_part(pieces.len(), piece, words);
    }
    Ok(size)
}
