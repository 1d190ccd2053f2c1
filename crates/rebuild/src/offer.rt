// The steps that take something: a yard that is added, and a text.
ghost use Rattle.std.specs.Prelude.{◌≤◌};

use crate::desk::{Desk, Notes, Yard};
use recorded::lists::{coordinates, lengths_at, piece_words};
use recorded::record::{size_at, word_at};
use recorded::reply::{Reply, refused};

// How many there are of each: latitudes, longitudes, words of pieces, values, bytes of values.
#[derive(Clone, Copy)]
pub(crate) struct Offer {
    pub lats: usize,
    pub lons: usize,
    pub pieces: usize,
    pub values: usize,
    pub bytes: usize,
}

// What no record holds, for one that is too large or ends too early.
pub(crate) fn unread() -> Reply {
    refused(255, [0; 5])
}

// So many words' bytes; 0 of more than any record has.
fn times_4(count: usize) -> usize {
    if count < 65536 { 4 * count } else { 0 }
}

fn times_5(count: usize) -> usize {
    if count < 65536 { 5 * count } else { 0 }
}

pub(crate) fn offered_at(record: &[u8], at: usize) -> Offer {
    Offer {
        lats: size_at(record, at.wrapping_add(1)),
        lons: size_at(record, at.wrapping_add(5)),
        pieces: times_5(size_at(record, at.wrapping_add(9))),
        values: size_at(record, at.wrapping_add(13)),
        bytes: size_at(record, at.wrapping_add(17)),
    }
}

// Where the bytes of the values begin.
pub(crate) fn values_at(offer: Offer, at: usize) -> usize {
    let lons = at.wrapping_add(21).wrapping_add(times_4(offer.lats));
    let pieces = lons.wrapping_add(times_4(offer.lons));
    let sizes = pieces.wrapping_add(times_4(offer.pieces));
    sizes.wrapping_add(times_4(offer.values))
}

// Its lists, which stand one behind the other, cut to what is the yard's.
fn add_lists(
    record: &[u8],
    at: usize,
    offer: Offer,
    values: &[u8],
    desk: &mut Desk,
    notes: &mut Notes,
) -> Reply
    requires { (offer.lats ≤ 1024) × (offer.lons ≤ 1024) × (offer.pieces ≤ 160) × (offer.values ≤ 1024) }
{
    let x = at.wrapping_add(21);
    let y = x.wrapping_add(times_4(offer.lats));
    let z = y.wrapping_add(times_4(offer.lons));
    let w = z.wrapping_add(times_4(offer.pieces));
    let lats = coordinates(record, x, offer.lats);
    let lons = coordinates(record, y, offer.lons);
    let pieces = piece_words(record, z, offer.pieces);
    let sizes = lengths_at(record, w, offer.values);
    let yard = Yard {
        lats: &lats[..offer.lats],
        lons: &lons[..offer.lons],
        pieces: &pieces[..offer.pieces],
        sizes: &sizes[..offer.values],
        values,
    };
    desk.add(notes, yard)
}

// The yard of the step at a place.
pub(crate) fn add_at(record: &[u8], at: usize, desk: &mut Desk, notes: &mut Notes) -> Reply {
    let offer = offered_at(record, at);
    if 1024 < offer.lats {
        return unread();
    }
    if 1024 < offer.lons {
        return unread();
    }
    if 160 < offer.pieces {
        return unread();
    }
    if 1024 < offer.values {
        return unread();
    }
    let from = values_at(offer, at);
    let to = from.wrapping_add(offer.bytes);
    match record.get(from..to) {
        Some(values) => add_lists(record, at, offer, values, desk, notes),
        None => unread(),
    }
}

// The text of the step at a place.
pub(crate) fn replace_at(record: &[u8], at: usize, desk: &mut Desk) -> Reply {
    let from = at.wrapping_add(13);
    let to = from.wrapping_add(size_at(record, at.wrapping_add(9)));
    let yard = word_at(record, at.wrapping_add(1));
    let field = word_at(record, at.wrapping_add(5));
    match record.get(from..to) {
        Some(text) => desk.replace(yard, field, text),
        None => unread(),
    }
}
