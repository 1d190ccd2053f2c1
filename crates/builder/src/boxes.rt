// The box of a border.
// Stays, point 2: `lowest_of` and `highest_of` are one line of std's words each.
// Stays, point 6: C lends latitudes and longitudes as two lists, and no heap holds pairs.
ghost use Rattle.std.specs.Prelude.{◌≡◌};
ghost use Rattle.builder.specs.Entries.{lowest_of, highest_of, box_of};

#[derive(Clone, Copy)]
pub struct Bounds {
    pub south: i32,
    pub west: i32,
    pub north: i32,
    pub east: i32,
}

// The least of some numbers; of none it is 0.
fn lowest_of(list: &[i32]) -> i32
    ensures { result ≡ lowest_of list.now }
{
    list.iter().copied().min().unwrap_or(0)
}

// The greatest of some numbers; of none it is 0.
fn highest_of(list: &[i32]) -> i32
    ensures { result ≡ highest_of list.now }
{
    list.iter().copied().max().unwrap_or(0)
}

// Stays parameters: any two lists are taken, so a struct of `lats, lons` would hold no fact.
pub fn box_of(lats: &[i32], lons: &[i32]) -> Bounds
    ensures { result ≡ box_of lats.now lons.now }
{
    Bounds {
        south: lowest_of(lats),
        west: lowest_of(lons),
        north: highest_of(lats),
        east: highest_of(lons),
    }
}
