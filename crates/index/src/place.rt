// Where the list of a fix's tile stands in the words.
ghost use Rattle.std.specs.Prelude.{◌≡◌, ◌<◌, ◌≤◌, length};
ghost use Rattle.index.specs.{Index.{records_at}, Through.{is_inside, place_of}};

use crate::tied::{is_headed, wide};
use crate::tiles::tile_of;
use header::header::Head;
use numbers::fault::Fault;
use numbers::refusal::Refusal;
use table::find::{fix_of, is_precision};
use table::location::Location;

#[derive(Clone, Copy)]
pub struct Place {
    pub from: usize,
    pub end: usize,
}

// Whether a tile's list stands inside the lists.
fn is_inside(index: &[u32], t: usize) -> bool
    requires { (records_at ≤ length index.now) × (t < 2048) }
    ensures { result ≡ is_inside index.now t }
{
    let from = index[3 + t];
    let end = index[3 + (t + 1)];
    index[3] <= from && (from <= end && end <= index[2051])
}

// Of words whose head goes with a file of this length.
pub fn list_of(
    length: usize,
    head: Head,
    index: &[u32],
    location: Location,
) -> Result<Place, Refusal>
    ensures { result ≡ place_of length head index.now location }
{
    let preamble = head.preamble;
    let sections = head.sections;
    let precision = preamble.precision;
    let size = sections.metadata;
    if !is_precision(precision) {
        return Err(Fault::BadPrecision.alone());
    }
    if !is_headed(index, size, length) {
        return Err(Fault::OtherIndex.alone());
    }
    let t = tile_of(precision, fix_of(location, precision));
    if is_inside(index, t) {
        let from = wide(index[3 + t]);
        let end = wide(index[3 + (t + 1)]);
        return Ok(Place { from, end });
    }
    Err(Fault::OtherIndex.alone())
}
