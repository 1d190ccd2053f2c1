// The data section, border by border. A border is written to the front of the output, which is working room until the file goes in.
// Stays, point 7: `cut` is what was found of a list of pieces, and the definitions take a Bool.
// Stays, point 6: C lends latitudes and longitudes as two lists, and no heap holds pairs; writing into no room tells what is wrong.
// Stays, point 5: any two lists are taken (19 is said of unequal ones), so a struct of `lats, lons` would hold no fact.
ghost use mathlib.Core.{Path.{◌≡◌}, List.{[]}};
ghost use Rattle.std.specs.Prelude.{◌/◌, length};
ghost use Rattle.writer.specs.{Pieces.{pieces_of}, Writer.{checks, border_of}};
ghost use Rattle.builder.specs.Borders.{appended, unwritten_as, Draws, Lends, good_if};

use numbers::fault::Fault;
use numbers::refusal::Refusal;
use writer::write::write_border_words;

// Why a border was not written: one that does not fit the output is too long for the data too, once its pieces are all there.
fn unwritten(why: Refusal, cut: bool, count: u64) -> Refusal
    ensures { result ≡ unwritten_as why cut count }
{
    if why.number != Fault::OutputFull.number() {
        return why;
    }
    if cut {
        return Fault::BadPieces.with(count);
    }
    Fault::FileFull.alone()
}

// Only the room was missing, or the border is refused.
fn good_if(why: Refusal) -> Result<(), Refusal>
    ensures { result ≡ good_if why }
{
    if why.number == Fault::OutputFull.number() {
        return Ok(());
    }
    Err(why)
}

// 19 to 22 of a yard's border, which is written into no room: a good one has no other fault.
pub fn check_border(lats: &[i32], lons: &[i32]) -> Result<(), Refusal>
    ensures { result ≡ checks 0 lats.now lons.now [] }
{
    let pieces = [0u32; 0];
    let earlier = [0u8; 0];
    let mut nothing = [0u8; 0];
    match write_border_words(0, lats, lons, &pieces, &earlier, &mut nothing) {
        Ok(_) => Ok(()),
        Err(why) => good_if(why),
    }
}

// A yard's border behind the earlier data, written to the front of the output, and how many bytes it has: 23, also where its list of pieces is cut,
// then 28 where the data with it has no room.
pub fn draw_border(
    version: u8,
    lats: &[i32],
    lons: &[i32],
    pieces: &[u32],
    cut: bool,
    earlier: &[u8],
    room: usize,
    out: &mut [u8],
) -> Result<usize, Refusal>
    requires { Lends room earlier.now (border_of version lats.now lons.now (pieces_of pieces.now) earlier.now) (length out.old) }
    ensures { Draws (appended room earlier.now cut (length pieces.now / 5) (border_of version lats.now lons.now (pieces_of pieces.now) earlier.now)) earlier.now out.new result }
{
    let count = (pieces.len() / 5) as u64;
    let size = match write_border_words(version, lats, lons, pieces, earlier, out) {
        Ok(size) => size,
        Err(why) => return Err(unwritten(why, cut, count)),
    };
    if cut {
        return Err(Fault::BadPieces.with(count));
    }
    if room < size {
        return Err(Fault::FileFull.alone());
    }
    if room - size < earlier.len() {
        return Err(Fault::FileFull.alone());
    }
    Ok(size)
}
