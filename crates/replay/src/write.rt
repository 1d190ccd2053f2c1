// The border writer's records: version, how many latitudes, longitudes and pieces, how many bytes of earlier data and of room; then
// the coordinates, the pieces as five words each, the earlier data, the reply and the output.
ghost use Rattle.std.specs.Prelude.{◌≡◌, ◌+◌, ◌*◌, ◌≤◌, length};

use office::borders::uskelzar_write_border;
use recorded::lists::{coordinates, piece_words};
use recorded::reply::{Reply, spoken, unspoken};

// Writes into the lent output what the record asks for.
pub fn run_write(
    record: &[u8],
    version: u8,
    lats: usize,
    lons: usize,
    words: usize,
    earlier: &[u8],
    out: &mut [u8],
) -> Reply
    requires { (lats ≤ 1024) × (lons ≤ 1024) × (words ≤ 160) }
{
    let x = coordinates(record, 26, lats);
    let y = coordinates(record, 26 + 4 * lats, lons);
    let pieces = piece_words(record, 26 + 4 * lats + 4 * lons, words);
    let mut said = unspoken();
    let number = uskelzar_write_border(
        version,
        &x[..lats],
        &y[..lons],
        &pieces[..words],
        earlier,
        out,
        &mut said,
    );
    spoken(number, said)
}
