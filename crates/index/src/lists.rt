// For each tile the numbers of the records whose box meets it.
// Stays, point 2: writing says a place, comparing (own.rt) ends at the first difference with a refusal; what is listed is told once.
// Stays, point 6: `n` counts records, which have seven words each of the longer list.
ghost use Rattle.std.specs.Prelude.{◌≡◌, ◌+◌, ◌*◌, ◌^◌, ◌<◌, ◌≤◌, length};
ghost use Rattle.writer.specs.inner.Stored.{Stored};
ghost use Rattle.index.specs.{inner.Building.{is_met_in, list_in, lists_in, Listed}, Index.{records_at, tiles}};

use crate::build::RECORDS_AT;
use crate::tiles::{Tile, meets, tile_at};
use crate::words::put;

pub(crate) fn is_met_in(index: &[u32], tile: Tile, k: usize) -> bool
    requires { (k < 2 ^ 32) × (records_at + 7 * k + 7 ≤ length index.now) }
    ensures { result ≡ is_met_in index.now tile k }
{
    let at = RECORDS_AT + 7 * k;
    meets(
        tile,
        index[at + 3],
        index[at + 4],
        index[at + 5],
        index[at + 6],
    )
}

fn put_list(index: &mut [u32], tile: Tile, n: usize, from: usize) -> usize
    requires { (n < 2 ^ 32) × (records_at + 7 * n ≤ «from») × («from» < 2 ^ 50) × (records_at + 7 * n ≤ length index.old) }
    ensures { Stored index.old «from» (list_in index.old tile n 0) index.new result }
{
    let mut at = from;
    for k in 0..n {
        if is_met_in(index, tile, k) {
            at = put(index, at, k as u32);
        }
    }
    at
}

pub(crate) fn put_lists(index: &mut [u32], precision: u8, n: usize, from: usize) -> usize
    requires { (n < 2 ^ 32) × (records_at + 7 * n ≤ «from») × («from» < 2 ^ 40) × (records_at + 7 * n ≤ length index.old) × (1 ≤ precision) × (precision ≤ 32) }
    ensures { Listed index.old «from» (lists_in index.old precision n tiles 0) index.new result }
{
    let mut at = from;
    for t in 0..2048usize {
        put(index, 3 + t, (at % 0x1_0000_0000) as u32);
        let tile = tile_at(precision, t as u64);
        at = put_list(index, tile, n, at);
    }
    put(index, 2051, (at % 0x1_0000_0000) as u32);
    at
}
