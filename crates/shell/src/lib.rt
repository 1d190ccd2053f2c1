// The shell of `stamp MAP ZONES`: two files by path, requests line by line from standard input, a line for each.
// What a request's line is, is `answer`'s alone.
// Stays, point 2: the two mains call these, one with rooms of its own and one that has a heap.
#![tactic(auto)]

pub mod answer;
pub mod file;
pub mod gather;
pub mod messages;
pub mod stream;
pub mod turn;
pub mod words;

use file::read_argument;
use messages::no_memory;
use std::alloc::AllocError;
use std::io;
use std::rt::{Env, Files};
use stream::serve;

// The program's exit status, with room for both files that the caller lends.
pub fn shell_run_in<R: Env + Files + Input + Print>(
    rt: &R,
    errors: &impl Print,
    map: &mut [u8],
    zones: &mut [u8],
) -> u8 {
    let Some(map_size) = read_argument(rt, errors, 1, map) else {
        return 2;
    };
    let Some(zones_size) = read_argument(rt, errors, 2, zones) else {
        return 2;
    };
    serve(
        errors,
        &mut rt.reader(),
        &mut io::writer(rt),
        &map[..map_size],
        &zones[..zones_size],
    )
}

fn run_with_rooms<R: Env + Files + Input + Print + Alloc>(
    rt: &R,
    errors: &impl Print,
) -> Result<u8, AllocError> {
    let mut map = vec![in rt.alloc(); 0u8; 4194304]?;
    let mut zones = vec![in rt.alloc(); 0u8; 1048576]?;
    Ok(shell_run_in(rt, errors, &mut map, &mut zones))
}

// The same, with room for both on the heap: five MiB of it.
pub fn shell_run<R: Env + Files + Input + Print + Alloc>(rt: &R, errors: &impl Print) -> u8 {
    match run_with_rooms(rt, errors) {
        Ok(status) => status,
        Err(_) => {
            no_memory(errors);
            2
        }
    }
}
