// Replays recorded cases of a builder that holds yards: 28 bytes of what is asked, the lengths and the bytes of names and notice, the reply to begin; for each step its kind, what it
// takes and its reply; then the reply of the end and the output. Each reply is held against the record, those of refused steps with the totals of the state.
// Stays, point 6: one room and one tally, each once, of a known size; a Vec could fail.
#![tactic(auto)]

mod desk;
mod offer;
mod steps;
mod whole;

use recorded::record::byte_at;
use recorded::run::run_all;
use recorded::tally::{print_end, print_op};
use recorded::verdict::{Verdict, judged};
use std::io::Stdout;
use whole::draft_right;

// A case of a builder has op 11.
fn judge(to: Stdout, record: &[u8]) -> (u8, Verdict) {
    if byte_at(record, 0) != 11 {
        return (11, Verdict::Skipped);
    }
    (11, judged(to, draft_right(to, record), record))
}

fn main(rt: HostRuntime) {
    let to = rt.stdout();
    let mut space = [0u8; 131072];
    let mut tally = [0u64; 28];
    run_all(&mut rt.stdin(), &mut space, &mut tally, |record| {
        judge(to, record)
    });
    print_op(to, &tally, b"builder", 11);
    print_end(to, &tally, b"rebuild");
}
