// Salvage, by the exported form.
use office::salvaged::uskelzar_salvage;
use recorded::reply::{Reply, spoken, unspoken};

pub fn run_salvage(file: &[u8], list: &mut [u32], out: &mut [u8]) -> Reply {
    let mut said = unspoken();
    let number = uskelzar_salvage(file, list, out, &mut said);
    spoken(number, said)
}
