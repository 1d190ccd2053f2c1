// The rest of the table, behind the row at which a search stopped early: what its mark is to be.
// Stays, point 7: a file is read plainly or strictly as C asks; the definitions take a Bool, a const parameter would compile it twice.
// Stays, point 5: a struct of file, place and strictness, made for each number that is read, is no plainer.
ghost use Rattle.std.specs.Prelude.{◌≡◌, ◌<◌, nat_lt, if◌then◌else◌};
ghost use Rattle.numbers.specs.Varint.{nowhere, reading_of, end_of};
ghost use Rattle.table.specs.{Rows.{rows_from, start_at}, Rest.{rest_mark, five_by, held_by, is_held}};

use crate::codes::{OUT_OF_ORDER, UNREADABLE, WHOLE};
use crate::pass::skip_over;
use crate::table::{bounded_at, holds, lat_below};
use border::place::{FixedLat, Point};
use numbers::point::signed;
use numbers::varint::{NOWHERE, number_end, read_number};

// Where the fifth of five numbers ends, or NOWHERE.
// Stays a sentinel: the caller's one comparison with the end tells it too, as of `number_end` (numbers).
fn past_five(file: &[u8], strict: bool, place: usize) -> usize
    ensures { result ≡ end_of (five_by (reading_of strict file.now) place) }
{
    let second = number_end(file, place);
    let third = number_end(file, second);
    let fourth = number_end(file, third);
    let fifth = number_end(file, fourth);
    let past = number_end(file, fifth);
    if strict {
        if file.len() < past {
            return NOWHERE;
        }
    }
    past
}

// Whether the box at a place holds the location. Only a table out of order has one here that is not above it.
fn held_at(file: &[u8], strict: bool, place: usize, fix: Point) -> bool
    ensures { result ≡ is_held (held_by (reading_of strict file.now) place fix) }
{
    match bounded_at(file, place, strict) {
        Ok(bounded) => holds(bounded.bounds, fix),
        Err(_) => false,
    }
}

// The mark of a search that stopped at a row which ends at a place. In a table that is in order each row is above the location, so that
// its lower latitude and its end are all that is worked out.
// Stays a loop: where the next row begins is known when this one is read.
pub(crate) fn rest_mark(file: &[u8], strict: bool, end: usize, fix: Point, from: usize) -> u8
    requires { end < nowhere }
    ensures { result ≡ (if nat_lt end «from» then 2 else rest_mark end fix (rows_from (reading_of strict file.now) end (start_at «from»))) }
{
    if end < from {
        return UNREADABLE;
    }
    let mut place = skip_over(file, end, fix, from);
    while place < end {
        let Ok(min_lat) = read_number(file, place, strict) else {
            return UNREADABLE;
        };
        let next = past_five(file, strict, min_lat.place);
        if end < next {
            return UNREADABLE;
        }
        if lat_below(fix.lat, FixedLat(signed(min_lat.value))) {
            place = skip_over(file, end, fix, next);
        } else {
            if held_at(file, strict, place, fix) {
                return OUT_OF_ORDER;
            }
            place = skip_over(file, end, fix, next);
        }
    }
    WHOLE
}
