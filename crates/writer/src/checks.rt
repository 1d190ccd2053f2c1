// The checks of a border: 1, 5 and 19 to 22, each over the whole border.
ghost use Rattle.std.specs.Prelude.{◌≡◌, ◌<◌, length, drop};
ghost use Rattle.writer.specs.{Moves.{moves_of, is_move}, Writer.{every, near, sized, checks}};

use crate::limits::MOST_POINTS;
use crate::moves::moves_at;
use numbers::fault::Fault;
use numbers::limits::LARGEST_FILE;
use numbers::refusal::Refusal;

// Stays apart: those of equal shape elsewhere have other bounds.
fn is_near(z: i32) -> bool
    ensures { result ≡ near z }
{
    -1073741823 <= z && z <= 1073741823
}

fn all_near(list: &[i32]) -> bool
    ensures { result ≡ every near list.now }
{
    for z in list {
        if !is_near(*z) {
            return false;
        }
    }
    true
}

// No point equals the one before it in the list.
fn none_repeated(lats: &[i32], lons: &[i32]) -> bool
    requires { (0 < length lats.now) × (length lons.now ≡ length lats.now) }
    ensures { result ≡ every is_move (drop 1 (moves_of lats.now lons.now)) }
{
    for i in 1..lats.len() {
        if !moves_at(lats, lons, i) {
            return false;
        }
    }
    true
}

// Stays, points 5 and 6: the two lists may still differ in length, which is tested here.
fn is_sized(lats: &[i32], lons: &[i32]) -> bool
    ensures { result ≡ sized lats.now lons.now }
{
    if lats.len() != lons.len() {
        return false;
    }
    0 < lats.len() && lats.len() <= MOST_POINTS
}

// The first refusal, if there is one.
// Stays, points 5 and 6: the two lists may still differ in length, which is tested here.
pub(crate) fn border_fault(
    version: u8,
    lats: &[i32],
    lons: &[i32],
    earlier: &[u8],
) -> Result<(), Refusal>
    ensures { result ≡ checks version lats.now lons.now earlier.now }
{
    if LARGEST_FILE < earlier.len() {
        return Err(Fault::FileTooLarge.alone());
    }
    if 2 <= version {
        return Err(Fault::UnknownVersion.with(u64::from(version)));
    }
    if !is_sized(lats, lons) {
        return Err(Fault::BadBorder.alone());
    }
    if !all_near(lats) {
        return Err(Fault::TooFar.alone());
    }
    if !all_near(lons) {
        return Err(Fault::TooFar.alone());
    }
    if !none_repeated(lats, lons) {
        return Err(Fault::RepeatedPoint.alone());
    }
    if !moves_at(lats, lons, 0) {
        return Err(Fault::StartsAtZero.alone());
    }
    Ok(())
}
