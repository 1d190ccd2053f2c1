// Files from yards: 40 bytes of what is asked, four words a yard, the latitudes, the longitudes, the pieces as five words each, the texts' lengths, their bytes; the
// reply's 34 bytes and the output.
ghost use Rattle.std.specs.Prelude.{◌≡◌, ◌+◌, ◌*◌, ◌≤◌, length};

use office::yards::uskelzar_build;
use recorded::lists::{coordinates, lengths_at, piece_words};
use recorded::record::{byte_at, word_at};
use recorded::reply::{Reply, spoken, unspoken};

// How many there are of each: words of yards, points, words of pieces, texts.
#[derive(Clone, Copy)]
pub struct Asked {
    pub yards: usize,
    pub lats: usize,
    pub lons: usize,
    pub pieces: usize,
    pub texts: usize,
}

// Where the texts' bytes begin.
pub fn texts_at(asked: Asked) -> usize
    requires { (asked.yards ≤ 160) × (asked.lats ≤ 1024) × (asked.lons ≤ 1024) × (asked.pieces ≤ 160) × (asked.texts ≤ 1024) }
    ensures { result ≡ 40 + 4 * asked.yards + 4 * asked.lats + 4 * asked.lons + 4 * asked.pieces + 4 * asked.texts }
{
    40 + 4 * asked.yards + 4 * asked.lats + 4 * asked.lons + 4 * asked.pieces + 4 * asked.texts
}

// Lends lists to work in that are filled, and longer than any record needs.
fn build_into(
    record: &[u8],
    yards: &[u32],
    lats: &[i32],
    lons: &[i32],
    pieces: &[u32],
    lengths: &[u32],
    texts: &[u8],
    out: &mut [u8],
) -> Reply {
    let mut starts = [0xAAAA_AAAA; 1025];
    let mut keys = [0xAAAA_AAAA_AAAA_AAAA; 1024];
    let mut spare = [0xAAAA_AAAA_AAAA_AAAA; 1024];
    let mut kept = [0xAAAA_AAAA; 1024];
    let mut held = [0xAA; 32768];
    let mut words = [0xAAAA_AAAA; 1024];
    let mut places = [0xAAAA_AAAA; 80];
    let mut boxes = [-1; 160];
    let mut bytes = [0xAA; 32768];
    let mut said = unspoken();
    let number = uskelzar_build(
        byte_at(record, 5),
        byte_at(record, 6),
        byte_at(record, 7),
        word_at(record, 8),
        yards,
        lats,
        lons,
        pieces,
        lengths,
        texts,
        &mut starts,
        &mut keys,
        &mut spare,
        &mut kept,
        &mut held,
        &mut words,
        &mut places,
        &mut boxes,
        &mut bytes,
        out,
        &mut said,
    );
    spoken(number, said)
}

// Builds into the lent output what the record asks for.
pub fn run_build(record: &[u8], asked: Asked, texts: &[u8], out: &mut [u8]) -> Reply
    requires { (asked.yards ≤ 160) × (asked.lats ≤ 1024) × (asked.lons ≤ 1024) × (asked.pieces ≤ 160) × (asked.texts ≤ 1024) }
{
    let x = 40 + 4 * asked.yards;
    let y = x + 4 * asked.lats;
    let z = y + 4 * asked.lons;
    let yards = piece_words(record, 40, asked.yards);
    let lats = coordinates(record, x, asked.lats);
    let lons = coordinates(record, y, asked.lons);
    let pieces = piece_words(record, z, asked.pieces);
    let lengths = lengths_at(record, z + 4 * asked.pieces, asked.texts);
    build_into(
        record,
        &yards[..asked.yards],
        &lats[..asked.lats],
        &lons[..asked.lons],
        &pieces[..asked.pieces],
        &lengths[..asked.texts],
        texts,
        out,
    )
}
