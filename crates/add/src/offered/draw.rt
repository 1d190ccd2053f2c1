// The border of an offered yard, behind the data that is held.
// Stays, point 6: C lends these lists, longer than what stands in them, and keeps the builder's bytes between the calls.
ghost use mathlib.Core.{Path.{◌≡◌}, List.{List}};
ghost use Rattle.std.specs.Prelude.{ℕ, ◌≤◌, min, length, take};
ghost use Rattle.builder.specs.{Borders.{Draws}, File.{up_to}};
ghost use Rattle.builder.specs.inner.Drawing.Section.{LentFor};
ghost use Rattle.add.specs.Offered.{Offer.{offer_of}, Offers.{border_behind, Offers}};

use crate::offered::checks::check_offer;
use crate::offered::offer::Offer;
use build::room::data_room;
use builder::borders::draw_border;
use builder::drawing::yard::lent_for;
use draft::held::state::Held;
use numbers::refusal::Refusal;

// How much of an output of this length a border of so many points is drawn in: as much as it can take. One with more points than a border may have is refused undrawn.
pub(crate) fn lent_to(points: usize, wide: usize) -> usize
    ensures { LentFor (min points 65536) wide result }
{
    if points < 65536 {
        return lent_for(points, wide);
    }
    lent_for(65536, wide)
}

// At the front of what is lent of an output of this length: 23, then 28 for the room of the file to come, of the list for the data, and of the output.
fn draw_offer(
    version: u8,
    offer: Offer,
    bytes: &[u8],
    size: usize,
    room: usize,
    wide: usize,
    out: &mut [u8],
) -> Result<usize, Refusal>
    requires { (size ≤ length bytes.now) × LentFor (length offer.lats.now) wide (length out.old) }
    ensures { Draws (border_behind version (up_to (min room (min (length bytes.now) wide))) (take size bytes.now) offer.entry.lats.now offer.entry.lons.now offer.entry.pieces.now) (take size bytes.now) out.new result }
{
    let most = data_room(bytes.len(), wide);
    let limit = data_room(room, most);
    draw_border(
        version,
        offer.lats,
        offer.lons,
        offer.pieces,
        false,
        &bytes[..size],
        limit,
        out,
    )
}

// The checks of the yard, then its border.
pub(crate) fn take_offer(
    builder: Held,
    offer: Offer,
    bytes: &[u8],
    wide: usize,
    out: &mut [u8],
) -> Result<usize, Refusal>
    requires { (builder.bytes ≤ length bytes.now) × LentFor (min (length offer.lats.now) 65536) wide (length out.old) }
    ensures { Offers builder (offer_of offer.entry) bytes.now wide out.new result }
{
    let names = builder.names as usize;
    check_offer(builder.yards, names, offer)?;
    draw_offer(
        builder.version,
        offer,
        bytes,
        builder.bytes,
        builder.room,
        wide,
        out,
    )
}
