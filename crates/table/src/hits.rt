// Hits in the lent words: the polygon id, the metadata id and the kind of each, and where its entry begins in the file.
ghost use Rattle.std.specs.Prelude.{◌≡◌, ◌+◌, ◌*◌, ◌/◌, ◌<◌, length};
ghost use Rattle.table.specs.Hits.{width, hit_at, put_hit, no_hit};

// How many words a hit takes.
pub const WIDTH: usize = 4;

// Stays a number: `hit_at` reads any four words of a lent list, and can't fail.
#[derive(Clone, Copy)]
pub struct Hit {
    pub polygon: u32,
    pub metadata: u32,
    pub kind: u32,
    pub place: u32,
}

// A slot with kind 0 holds no hit.
pub fn none() -> Hit
    ensures { result ≡ no_hit }
{
    Hit {
        polygon: 0,
        metadata: 0,
        kind: 0,
        place: 0,
    }
}

// How many hits have room.
pub fn room(hits: &[u32]) -> usize
    ensures { result ≡ length hits.now / width }
{
    hits.len() / WIDTH
}

pub fn hit_at(hits: &[u32], i: usize) -> Hit
    requires { i < length hits.now / width }
    ensures { result ≡ hit_at hits.now i }
{
    let at = WIDTH * i;
    Hit {
        polygon: hits[at],
        metadata: hits[at + 1],
        kind: hits[at + 2],
        place: hits[at + 3],
    }
}

pub(crate) fn put_hit(hits: &mut [u32], i: usize, hit: Hit)
    requires { i < length hits.old / width }
    ensures { hits.new ≡ put_hit hits.old i hit }
{
    let at = WIDTH * i;
    hits[at] = hit.polygon;
    hits[at + 1] = hit.metadata;
    hits[at + 2] = hit.kind;
    hits[at + 3] = hit.place;
}
