// The table's order: the boxes of the yards, and their words by lower latitude.
// Stays, point 6: C lends latitudes and longitudes as two lists, and no heap holds pairs.
ghost use mathlib.Core.{Path.{◌≡◌}, List.{[]}};
ghost use Rattle.std.specs.Prelude.{◌*◌, ◌/◌, ◌≤◌, length};
ghost use Rattle.builder.specs.Yards.{yards_from};
ghost use Rattle.build.specs.Entries.Corners.{InOrder};

use crate::entries::corners::box_yards;
use crate::entries::south::put_yard_words;
use layout::order::sort;

// The last list is room to sort in.
pub(crate) fn order_yards(
    yards: &[u32],
    lats: &[i32],
    lons: &[i32],
    boxes: &mut [i32],
    keys: &mut [u64],
    spare: &mut [u64],
)
    requires { (length keys.old ≡ length yards.now / 4) × (length keys.old ≤ 4096) × (4 * length keys.old ≤ length boxes.old) × (length keys.old ≤ length spare.old) }
    ensures { InOrder (yards_from yards.now lats.now lons.now [] []) boxes.old boxes.new keys.new spare.old spare.new }
{
    // A remainder of words is no yard.
    let words = 4 * keys.len();
    box_yards(&yards[..words], lats, lons, boxes);
    put_yard_words(boxes, keys);
    sort(keys, spare);
}
