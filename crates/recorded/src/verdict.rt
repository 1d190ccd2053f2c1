// What is said of a case, and what is printed of one that came out otherwise than recorded.
use crate::record::{byte_at, long_at};
use crate::reply::{Reply, print_reply};
use line::output::{say, say_number};
use std::io::Stdout;

#[derive(Clone, Copy)]
pub enum Verdict {
    Right,
    Wrong,
    // Too large for the buffers, of another length than its parts have, or of an unknown op.
    Skipped,
}

fn print_case(out: Stdout, record: &[u8]) {
    say(out, b": op ");
    say_number(out, u64::from(byte_at(record, 0)));
    say(out, b" id ");
    say_number(out, long_at(record, 1));
}

// What was got, where a part is another than recorded.
pub fn print_wrong(out: Stdout, part: &[u8], record: &[u8], got: Reply) -> Verdict {
    say(out, b"wrong ");
    say(out, part);
    print_case(out, record);
    say(out, b" got");
    print_reply(out, got);
    say(out, b"\n");
    Verdict::Wrong
}

// Of a record whose parts are looked at elsewhere.
pub fn judged(out: Stdout, right: bool, record: &[u8]) -> Verdict {
    if right {
        return Verdict::Right;
    }
    say(out, b"wrong");
    print_case(out, record);
    say(out, b"\n");
    Verdict::Wrong
}
