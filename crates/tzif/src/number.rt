// Numbers of the file: most significant octet first, signed ones in two's complement.
ghost use Rattle.std.specs.Prelude.{◌≡◌, ◌+◌, ◌^◌, ◌≤◌, ◌<◌, length};
ghost use mir.{Syntax.{w32}, Val.{to_z}};
ghost use Rattle.tzif.specs.Number.{Octet, Word, octet, octets, be32, raised, time_at, lift};

// The width of a time: four octets, or eight.
pub fn octets(wide: bool) -> usize
    ensures { result ≡ octets wide }
{
    if wide { 8 } else { 4 }
}

// Stays a clause: what an index asks.
pub fn octet(file: &[u8], place: usize) -> usize
    requires { place < length file.now }
    ensures { Octet result (octet file.now place) }
{
    file[place] as usize
}

// Four octets as a number without a sign.
pub(crate) fn be32(file: &[u8], place: usize) -> usize
    requires { place + 4 ≤ length file.now }
    ensures { Word result (be32 file.now place) }
{
    let first = octet(file, place);
    let second = octet(file, place + 1);
    let third = octet(file, place + 2);
    let fourth = octet(file, place + 3);
    first * 0x100_0000 + second * 0x1_0000 + third * 0x100 + fourth
}

// A signed number of 32 bits, by its bits, more 2^31; and back.
// Stays a function: the definitions' word (specs/Number).
pub fn raised(bits: usize) -> usize
    requires { bits < 2 ^ 32 }
    ensures { Word result (raised bits) }
{
    if bits < 0x8000_0000 {
        bits + 0x8000_0000
    } else {
        bits - 0x8000_0000
    }
}

// A time of either width, more 2^63.
pub(crate) fn time_at(file: &[u8], place: usize, width: usize) -> usize
    requires { (4 ≤ width) × (place + width ≤ length file.now) }
    ensures { result ≡ time_at file.now width place }
{
    let high = raised(be32(file, place));
    if width == 8 {
        high * 0x1_0000_0000 + be32(file, place + 4)
    } else {
        high + 0x7FFF_FFFF_8000_0000
    }
}

// The i32 that has these bits. Both arms compile to no instruction.
pub(crate) fn signed(bits: usize) -> i32
    requires { bits < 2 ^ 32 }
    ensures { result ≡ to_z w32 bits }
{
    if bits < 0x8000_0000 {
        bits as i32
    } else {
        -1 - (0xffff_ffff - bits) as i32
    }
}

// An instant more 2^63.
pub fn lifted(instant: i64) -> usize
    ensures { result ≡ lift instant }
{
    if instant < 0 {
        let below = -1 - instant;
        return 0x7FFF_FFFF_FFFF_FFFF - below as usize;
    }
    instant as usize + 0x8000_0000_0000_0000
}
