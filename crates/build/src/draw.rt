// The data section, with any room.
// Stays, point 6: C lends latitudes and longitudes as two lists, and no heap holds pairs.
ghost use mathlib.Core.{Path.{◌≡◌}, List.{List, []}};
ghost use Rattle.std.specs.Prelude.{ℕ, ◌≤◌, length, get_or};
ghost use Rattle.builder.specs.{Borders.{drawn_of}, Yards.{yards_from}};
ghost use Rattle.builder.specs.inner.Drawing.Section.{DrawsAll};

use crate::lent::Lent;
use builder::drawing::section::draw_yards;
use builder::drawing::yard::draw_yard;
use numbers::refusal::Refusal;

// With no room at all the first border is refused, by 23 before 28.
// Stays parameters: of a list in a struct the check knows no range of its words, and `5 * word` was not proved.
fn draw_nothing(
    version: u8,
    yards: &[u32],
    lats: &[i32],
    lons: &[i32],
    pieces: &[u32],
    out: &mut [u8],
) -> Result<usize, Refusal>
    requires { 4 ≤ length yards.now }
    ensures { (places bytes : List ℕ) → DrawsAll (drawn_of version 0 (yards_from yards.now lats.now lons.now pieces.now [])) places places bytes result }
{
    let zero = [0u8; 1];
    let tall = yards[0] as usize;
    let wide = yards[1] as usize;
    let words = 5 * (yards[2] as usize);
    draw_yard(
        version, lats, 0, tall, lons, 0, wide, pieces, 0, words, &zero, 0, out,
    )
}

pub(crate) fn draw(
    plan: Lent,
    room: usize,
    places: &mut [u32],
    bytes: &mut [u8],
    out: &mut [u8],
) -> Result<usize, Refusal>
    requires { (4 ≤ length plan.yards.now) × (room ≤ length bytes.old) × (room ≤ length out.old) × (room ≤ 1073741824) × (get_or bytes.old 0 0 ≡ 0) }
    ensures { DrawsAll (drawn_of plan.entry.asked.version room (yards_from plan.entry.yards.now plan.entry.lats.now plan.entry.lons.now plan.entry.pieces.now [])) places.old places.new bytes.new result }
{
    if room == 0 {
        return draw_nothing(
            plan.asked.version,
            plan.yards,
            plan.lats,
            plan.lons,
            plan.pieces,
            out,
        );
    }
    draw_yards(
        plan.asked.version,
        plan.yards,
        plan.lats,
        plan.lons,
        plan.pieces,
        room,
        places,
        bytes,
        out,
    )
}
