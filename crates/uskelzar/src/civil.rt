// The date and time of day that a clock shows, for C.
ghost use Rattle.uskelzar.specs.Civil.{CivilSpoken};

use calendar::civil::civil_time;
use numbers::fault::Fault;

// Values: year, month, day, hour, minute, second, weekday (0 is Sunday). 61 outside the years 1 to 9999.
pub fn uskelzar_civil_time(instant: i64, offset: i32, reply: &mut [u64; 7]) -> u8
    ensures { CivilSpoken instant offset result reply.new }
{
    match civil_time(instant, offset) {
        Some(shown) => {
            *reply = [
                shown.year,
                shown.month,
                shown.day,
                shown.hour,
                shown.minute,
                shown.second,
                shown.weekday,
            ];
            0
        }
        None => {
            *reply = [0; 7];
            Fault::YearOutside.number()
        }
    }
}
