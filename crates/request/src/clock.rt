// Dates, times of day and instants of a request.
ghost use Rattle.std.specs.Prelude.{◌≡◌, ◌≤◌, ◌<◌, true, IfOk};
ghost use Rattle.calendar.specs.Moments.{instant_of};
ghost use Rattle.request.specs.{Text.{formed}, Clock.{is_time, time_of, full_year, date_of, moment_form, moment_of, seconds_of, when_of, day_of, second_of, instant_at}, Request.{at}, Told.{shown, timely, dated, is_month, signed_to}};

use crate::degrees::{first, sign_size};
use crate::number::{has_form, part, value};
use crate::text::{every, formed};
use calendar::month::days_of_months;
use calendar::rule::{When, day_of};
use calendar::year::is_leap;
use numbers::fault::Fault;
use numbers::refusal::Refusal;

#[tactic(auto, unfolding(crate::specs::Clock::is_time))]
fn is_time(hour: u64, minute: u64, second: u64) -> bool
    ensures { result ≡ is_time (record { hour = hour; minute = minute; second = second }) }
{
    hour <= 23 && minute <= 59 && second <= 59
}

// The second of the day.
fn second_of(hour: u64, minute: u64, second: u64, place: usize) -> Result<u64, Refusal>
    ensures { (result ≡ at place (timely (record { hour = hour; minute = minute; second = second }))) × IfOk result (λ n. n < 86400) }
{
    if !is_time(hour, minute, second) {
        return Err(Fault::NoPlace.at(place));
    }
    Ok(3600 * hour + 60 * minute + second)
}

// A month of the years 1 to 9999, and a day from 1 on.
#[tactic(auto, unfolding(crate::specs::Told::is_month))]
fn is_month(year: u64, month: u64, day: u64) -> bool
    ensures { result ≡ is_month (record { year = year; month = month; day = day }) }
{
    1 <= year && year <= 9999 && 1 <= month && month <= 12 && 1 <= day
}

// The day of a date.
fn day_number(year: u64, month: u64, day: u64, place: usize) -> Result<u64, Refusal>
    ensures { (result ≡ at place (dated (record { year = year; month = month; day = day }))) × IfOk result (λ n. n < 3652059) }
{
    if !is_month(year, month, day) {
        return Err(Fault::NoPlace.at(place));
    }
    let leap = is_leap(year);
    let before = days_of_months(leap, month - 1);
    let after = days_of_months(leap, month);
    if after - before < day {
        return Err(Fault::NoPlace.at(place));
    }
    let when = When::Zero(before + (day - 1));
    Ok(day_of(when, year - 1))
}

// hhmmss, and decimals.
pub(crate) fn time(text: &[u8], place: usize) -> Result<u64, Refusal>
    ensures { (result ≡ shown (at place (time_of text.now)) second_of) × IfOk result (λ n. n < 86400) }
{
    if !has_form(text, 6, 255) {
        return Err(Fault::NotRequest.at(place));
    }
    let hour = part(text, 0, 2);
    let minute = part(text, 2, 2);
    let second = part(text, 4, 2);
    second_of(hour, minute, second, place)
}

// Stays a function: no conversion; it chooses the century.
fn full_year(year: u64) -> u64
    requires { year < 100 }
    ensures { result ≡ full_year year }
{
    if year < 80 {
        return 2000 + year;
    }
    1900 + year
}

// ddmmyy.
pub(crate) fn date(text: &[u8], place: usize) -> Result<u64, Refusal>
    ensures { (result ≡ shown (at place (date_of text.now)) day_of) × IfOk result (λ n. n < 3652059) }
{
    if !has_form(text, 6, 0) {
        return Err(Fault::NotRequest.at(place));
    }
    let day = part(text, 0, 2);
    let month = part(text, 2, 2);
    let year = full_year(part(text, 4, 2));
    day_number(year, month, day, place)
}

// Seconds from 1970 to a second of a day.
pub(crate) fn instant_of(day: u64, second: u64) -> i64
    requires { (day < 3652059) × (second < 86400) }
    ensures { result ≡ instant_of day second }
{
    (86400 * day + second) as i64 - 62135596800
}

// Of the form 0000-00-00T00:00:00Z.
fn moment(text: &[u8], place: usize) -> Result<i64, Refusal>
    requires { formed moment_form text.now ≡ true }
    ensures { result ≡ shown (at place (moment_of text.now)) instant_at }
{
    let year = part(text, 0, 4);
    let month = part(text, 5, 2);
    let day = part(text, 8, 2);
    let hour = part(text, 11, 2);
    let minute = part(text, 14, 2);
    let second = part(text, 17, 2);
    let days = day_number(year, month, day, place)?;
    let seconds = second_of(hour, minute, second, place)?;
    Ok(instant_of(days, seconds))
}

// A size with its sign.
// Stays a flag: the sign is what the line says.
fn signed(minus: bool, size: u64, place: usize) -> Result<i64, Refusal>
    ensures { result ≡ at place (signed_to minus size) }
{
    if minus {
        if size == 0 {
            return Ok(0);
        }
        if 0x8000_0000_0000_0000 < size {
            return Err(Fault::NoPlace.at(place));
        }
        return Ok(-1 - (size - 1) as i64);
    }
    if 0x7fff_ffff_ffff_ffff < size {
        return Err(Fault::NoPlace.at(place));
    }
    Ok(size as i64)
}

// An optional sign and one to nineteen digits.
fn seconds(text: &[u8], place: usize) -> Result<i64, Refusal>
    ensures { result ≡ shown (at place (seconds_of text.now)) instant_at }
{
    let sign = sign_size(text);
    let minus = first(text) == b'-';
    let digits = &text[sign..];
    let length = digits.len();
    if length < 1 {
        return Err(Fault::NotRequest.at(place));
    }
    if 19 < length {
        return Err(Fault::NotRequest.at(place));
    }
    if !every(digits, false) {
        return Err(Fault::NotRequest.at(place));
    }
    let size = value(0, digits);
    signed(minus, size.value, place)
}

// The instant that a word says.
pub(crate) fn when(text: &[u8], place: usize) -> Result<i64, Refusal>
    ensures { result ≡ shown (at place (when_of text.now)) instant_at }
{
    if formed(b"0000-00-00T00:00:00Z", text) {
        return moment(text, place);
    }
    seconds(text, place)
}
