// The counts of a plan: 25 looks at no text.
ghost use Rattle.std.specs.Prelude.{◌≡◌, ◌+◌, ◌*◌, ◌≤◌};
ghost use lib.{Dec.{eqb}, ListN.{length}};
ghost use Rattle.writer.specs.Writer.{every};
ghost use Rattle.builder.specs.Yards.{values_from, counts_good, lengths_good};

// Every yard has a value for each name, and no other.
fn are_numbered(names: u32, yards: &[u32]) -> bool
    ensures { result ≡ every (eqb names) (values_from yards.now) }
{
    for yard in yards.chunks_exact(4) {
        if names != yard[3] {
            return false;
        }
    }
    true
}

// There are lengths for the names, the notice and the values.
fn are_lengths(names: u32, count: usize, lengths: usize) -> bool
    requires { (names ≤ 255) × (count ≤ 4096) }
    ensures { result ≡ lengths_good names count lengths }
{
    let each = names as usize;
    each + 1 + each * count <= lengths
}

// 25 is not met.
pub fn are_counted(names: u32, yards: &[u32], lengths: usize) -> bool
    ensures { result ≡ counts_good names yards.now lengths }
{
    let count = yards.len() / 4;
    if count == 0 {
        return false;
    }
    if 4096 < count {
        return false;
    }
    if 255 < names {
        return false;
    }
    if !are_numbered(names, yards) {
        return false;
    }
    are_lengths(names, count, lengths)
}
