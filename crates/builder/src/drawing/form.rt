// What a file is like.
ghost use mathlib.Core.{Path.{◌≡◌}, Bool.{◌&&◌}};
ghost use Rattle.std.specs.Prelude.{ltb, leb};
ghost use Rattle.header.specs.Header.{is_kind};

fn is_kind(kind: u8) -> bool
    ensures { result ≡ is_kind kind }
{
    kind == b'T' || kind == b'C'
}

// 27 is not met: precision 1 to 31, version 0 or 1, type T or C.
pub fn is_known(kind: u8, version: u8, precision: u8) -> bool
    ensures { result ≡ ((leb 1 precision && leb precision 31) && (ltb version 2 && is_kind kind)) }
{
    if precision < 1 {
        return false;
    }
    if 31 < precision {
        return false;
    }
    if 2 <= version {
        return false;
    }
    is_kind(kind)
}
