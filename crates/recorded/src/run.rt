// An input's records, judged one by one.
use crate::input::{Found, next_record};
use crate::tally::note;
use crate::verdict::Verdict;
use std::io::Read;

// The next record, judged and noted with its op, and whether there may be more; one that is too long is of the op 0.
fn run_next<R: Read, F: Fn(&[u8]) -> (u8, Verdict)>(
    input: &mut R,
    space: &mut [u8],
    tally: &mut [u64],
    judge: &F,
) -> bool
    requires { F.IsAlwaysCallable judge.now }
{
    let came = next_record(input, space);
    match came.found {
        Found::Record => {
            let (op, verdict) = judge(&space[..came.size]);
            note(tally, op, verdict);
        }
        Found::TooLong => note(tally, 0, Verdict::Skipped),
        Found::Nothing => return false,
    }
    true
}

// Nothing says that the input ends, so the turns are counted up to a number that no run comes to.
pub fn run_all<R: Read, F: Fn(&[u8]) -> (u8, Verdict)>(
    input: &mut R,
    space: &mut [u8],
    tally: &mut [u64],
    judge: F,
)
    requires { F.IsAlwaysCallable judge }
{
    for _ in 0..u64::MAX {
        if !run_next(input, space, tally, &judge) {
            return;
        }
    }
}
