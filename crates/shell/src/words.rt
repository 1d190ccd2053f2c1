// The words of a refusal.
ghost use Rattle.std.specs.Prelude.{◌≤◌, ◌<◌};
ghost use Rattle.line.specs.Put.{Put};
ghost use Rattle.shell.specs.{Text.{bytes}, Words.{words_of, Says}};

use line::put::put;

// The line with this number, in a text whose lines are numbered from a first on.
fn put_line_of(out: &mut [u8], at: usize, text: &[u8], first: u8, number: u8) -> usize
    requires { Says text.now first number }
    ensures { Put out.old at (bytes (words_of number)) out.new result }
{
    let mut next = at;
    let mut left = number - first;
    let mut i = 0;
    while i < text.len() {
        let byte = text[i];
        i += 1;
        if byte == b'\n' {
            if left == 0 {
                return next;
            }
            left -= 1;
        } else {
            if left == 0 {
                next = put(out, next, byte);
            }
        }
    }
    next
}

// Those of a file of borders, as docs/FORMAT.md has them; none above 18.
fn put_map_words(out: &mut [u8], at: usize, number: u8) -> usize
    requires { number < 40 }
    ensures { Put out.old at (bytes (words_of number)) out.new result }
{
    put_line_of(
        out,
        at,
        b"\
        \n\
        file, or the writer's earlier data, over 1,073,741,824 bytes\n\
        under 7 bytes\n\
        magic\n\
        table type\n\
        version 2 or more\n\
        field name\n\
        notice\n\
        first size can't be read\n\
        second size can't be read\n\
        third size can't be read\n\
        length mismatch\n\
        eleventh varint byte\n\
        an integer step leaves its range\n\
        string byte past the end\n\
        field value\n\
        precision 0 or above 32\n\
        more hits than slots\n\
        text doesn't fit\n",
        0,
        number,
    )
}

// Those of a TZif file, as docs/TZIF.md has them; none above 61.
fn put_zone_words(out: &mut [u8], at: usize, number: u8) -> usize
    requires { (40 ≤ number) × (number < 80) }
    ensures { Put out.old at (bytes (words_of number)) out.new result }
{
    put_line_of(
        out,
        at,
        b"\
        a header does not begin with TZif\n\
        version missing, unknown, or the second header's not the first's\n\
        the file ends inside a header\n\
        isutcnt is neither 0 nor typecnt\n\
        isstdcnt is neither 0 nor typecnt\n\
        typecnt is 0\n\
        charcnt is 0\n\
        the file ends inside the data block\n\
        a transition time not above the one before it\n\
        a transition type not below typecnt\n\
        a utoff of -2^31\n\
        an isdst other than 0 and 1\n\
        a desigidx not below charcnt\n\
        no NUL at or after desigidx\n\
        a leap-second occurrence too early\n\
        a leap-second correction not 1 away from the one before it\n\
        a standard/wall indicator other than 0 and 1\n\
        a UT/local indicator that is not allowed\n\
        a footer that is not newline, string, newline\n\
        bytes behind the end\n\
        no TZ string, or one that contradicts the last transition\n\
        the rule's instant, or the clock, is outside the years 1 to 9999\n",
        40,
        number,
    )
}

// A slip's own; none above 92.
fn put_slip_words(out: &mut [u8], at: usize, number: u8) -> usize
    requires { 80 ≤ number }
    ensures { Put out.old at (bytes (words_of number)) out.new result }
{
    put_line_of(
        out,
        at,
        b"\
        not a request\n\
        the receiver has no fix\n\
        the checksum is wrong\n\
        another sentence\n\
        out of range\n\
        the search was not whole\n\
        no zone holds the fix\n\
        not a map of time zones\n\
        the zone is not in the bundle\n\
        the bundle is damaged\n\
        the local time is unknown\n\
        the zone's file counts leap seconds\n\
        the hours differ\n",
        80,
        number,
    )
}

// None for a number that no slip meets.
pub fn put_words(out: &mut [u8], at: usize, number: u8) -> usize
    ensures { Put out.old at (bytes (words_of number)) out.new result }
{
    if number < 40 {
        return put_map_words(out, at, number);
    }
    if number < 80 {
        return put_zone_words(out, at, number);
    }
    put_slip_words(out, at, number)
}
