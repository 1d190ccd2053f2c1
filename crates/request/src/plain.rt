// A plain line: latitude, longitude and instant, with blanks between them.
ghost use Rattle.std.specs.Prelude.{◌≡◌, ◌≤◌, length, drop};
ghost use Rattle.request.specs.{Request.{plain_of, meaning}, Told.{shown}};

use crate::clock::when;
use crate::degrees::signed_degrees;
use crate::read::Fix;
use crate::text::{find, skip};
use numbers::fault::Fault;
use numbers::refusal::Refusal;

pub(crate) fn plain(line: &[u8]) -> Result<Fix, Refusal>
    ensures { result ≡ shown (plain_of line.now) meaning }
{
    let first = find(line, 0, b' ', b'\t');
    let lat = signed_degrees(&line[..first], 90, 0)?;
    let second = skip(line, first);
    let second_end = find(line, second, b' ', b'\t');
    let lon = signed_degrees(&line[second..second_end], 180, second)?;
    let third = skip(line, second_end);
    let third_end = find(line, third, b' ', b'\t');
    let instant = when(&line[third..third_end], third)?;
    if third_end < line.len() {
        let fourth = skip(line, third_end);
        return Err(Fault::NotRequest.at(fourth));
    }
    Ok(Fix { lat, lon, instant })
}
