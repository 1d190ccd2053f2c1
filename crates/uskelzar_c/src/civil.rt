// The date and time of day that a clock shows, for C.
ghost use Rattle.uskelzar.specs.Civil.{CivilSpoken};

// Values: year, month, day, hour, minute, second, weekday (0 is Sunday). 61 outside the years 1 to 9999.
#[unsafe(no_mangle)]
pub extern "C" fn uskelzar_civil_time(instant: i64, offset: i32, reply: &mut [u64; 7]) -> u8
    ensures { CivilSpoken instant offset result reply.new }
{
    uskelzar::civil::uskelzar_civil_time(instant, offset, reply)
}
