// The head of a bundle.
ghost use Rattle.std.specs.Prelude.{◌≡◌};
ghost use Rattle.bundle.specs.{Bundle.{is_bundle, is_index, is_data, is_end, head_of}};

use crate::bytes::word_at;
use numbers::fault::Fault;
use numbers::refusal::Refusal;

// Where the index begins, and where the data begins and ends.
#[derive(Clone, Copy)]
pub struct Head {
    pub index: u64,
    pub start: u64,
    pub end: u64,
}

fn is_bundle(bundle: &[u8]) -> bool
    ensures { result ≡ is_bundle bundle.now }
{
    24 <= bundle.len() && bundle.starts_with(b"tzdata")
}

fn is_index(i: u64) -> bool
    ensures { result ≡ is_index i }
{
    i <= 0x7fff_ffff && 24 <= i
}

fn is_data(i: u64, d: u64) -> bool
    ensures { result ≡ is_data i d }
{
    d <= 0x7fff_ffff && i <= d && (d - i) % 52 == 0
}

fn is_end(d: u64, e: u64, length: u64) -> bool
    ensures { result ≡ is_end d e length }
{
    e <= 0x7fff_ffff && d <= e && e <= length
}

pub(crate) fn read_head(bundle: &[u8]) -> Result<Head, Refusal>
    ensures { result ≡ head_of bundle.now }
{
    if !is_bundle(bundle) {
        return Err(Fault::DamagedBundle.at(0));
    }
    if bundle[11] != 0 {
        return Err(Fault::DamagedBundle.at(11));
    }
    let index = word_at(bundle, 12);
    if !is_index(index) {
        return Err(Fault::DamagedBundle.at(12));
    }
    let start = word_at(bundle, 16);
    if !is_data(index, start) {
        return Err(Fault::DamagedBundle.at(16));
    }
    let end = word_at(bundle, 20);
    if !is_end(start, end, bundle.len() as u64) {
        return Err(Fault::DamagedBundle.at(20));
    }
    Ok(Head { index, start, end })
}
