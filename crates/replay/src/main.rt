// Runs the recorded cases of standard input and prints each that does not come out as recorded.
// Stays, point 6: one room and one tally, each once, of a known size; a Vec could fail.
#![tactic(auto)]

mod calls;
mod case;
mod indexed;
mod many;
mod salvaged;
mod slips;
mod write;
mod yards;

use case::judge;
use recorded::record::byte_at;
use recorded::run::run_all;
use recorded::tally::{print_end, print_op};
use std::io::Stdout;

fn report(to: Stdout, tally: &[u64]) {
    print_op(to, tally, b"open", 1);
    print_op(to, tally, b"lookup", 14);
    print_op(to, tally, b"simple", 15);
    print_op(to, tally, b"lookup in three words", 2);
    print_op(to, tally, b"simple in three words", 3);
    print_op(to, tally, b"open strictly", 7);
    print_op(to, tally, b"lookup strictly", 16);
    print_op(to, tally, b"lookup strictly in three words", 8);
    print_op(to, tally, b"index", 18);
    print_op(to, tally, b"index in three words", 13);
    print_op(to, tally, b"write", 4);
    print_op(to, tally, b"string", 5);
    print_op(to, tally, b"utf8", 6);
    print_op(to, tally, b"many", 17);
    print_op(to, tally, b"many in three words", 9);
    print_op(to, tally, b"build", 10);
    print_op(to, tally, b"salvage", 12);
    print_op(to, tally, b"local", 20);
    print_op(to, tally, b"listed", 21);
    print_op(to, tally, b"request", 22);
    print_op(to, tally, b"slip", 23);
    print_op(to, tally, b"slip at", 24);
    print_end(to, tally, b"replay");
}

fn main(rt: HostRuntime) {
    let to = rt.stdout();
    let mut space = [0u8; 131072];
    let mut tally = [0u64; 28];
    run_all(&mut rt.stdin(), &mut space, &mut tally, |record| {
        (byte_at(record, 0), judge(to, record))
    });
    report(to, &tally);
}
