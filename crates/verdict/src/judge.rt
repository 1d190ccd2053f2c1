// A border's verdict on a location, over its points as they are read.
// Stays, point 7: `asked` is the caller's question; a const parameter would compile each loop twice (docs/DECISIONS.md: 8 kB).
ghost use mathlib.Core.{Bool.{false, ◌&&◌}, Path.{◌≡◌}};
ghost use Rattle.std.specs.Prelude.{◌-◌, ◌==◌, Err};
ghost use Rattle.border.specs.Trace.{trace_of};
ghost use Rattle.verdict.specs.{inner.{Kept.{Sighted, last_of, unread_at}, Walk.{OpensUnless, judgement_of, step_of, WalkedOn}}, Stretch.{leapt, passing_first}};
ghost use Rattle.verdict.specs.Verdict.{told, judged_as, after, along, passing, on_border, closed_at, then_on, judged_at};
ghost use Rattle.numbers.specs.Varint as N;
ghost use Rattle.verdict.specs.Step as step;
ghost use Rattle.verdict.specs.Verdict as verdict;

use crate::distance::measure;
use crate::edge::{Seen, Spot, quadrant_of, same_point, seen_from, spot_of};
use crate::far::open_field;
use crate::field::Field;
use crate::glide::glide_on;
use crate::step::{Halt, Tally, Verdict};
use crate::winding::{quarter, wound};
use border::place::{FixedLat, FixedLon, Point};
use border::reader::{Encoding, Reader, next_point, open_border};
use numbers::fault::Fault;
use numbers::varint::Stop;

// What a border says: a verdict, or none where it can't be read to its end, whose distances count too; and the least squared distance so far.
#[derive(Clone, Copy)]
pub struct Judged {
    pub verdict: Option<Verdict>,
    pub least: u64,
}

// The edge between two points: the winding, then the distance, if it is asked for.
fn judge_edge(
    fix: Point,
    at: Spot,
    asked: bool,
    from: Seen,
    to: Seen,
    tally: Tally,
) -> Result<Tally, Halt>
    requires { Sighted fix at asked «from» to }
    ensures { step.told result ≡ along fix asked (after «from».point) to.point tally }
{
    let counted = wound(fix, at, from, to, tally)?;
    if asked {
        return measure(fix, at, from, to, counted);
    }
    Ok(counted)
}

// One more point. The vertex is tested first; no edge leads to the first point.
fn judge_point(
    fix: Point,
    at: Spot,
    asked: bool,
    begun: bool,
    last: Seen,
    to: Seen,
    tally: Tally,
) -> Result<Tally, Halt>
    requires { Sighted fix at asked last to }
    ensures { step.told result ≡ passing fix asked (last_of begun last.point) to.point tally }
{
    let point = to.point;
    if same_point(point, fix) {
        return Err(Halt::Meets(Verdict::OnBorderVertex));
    }
    if begun {
        return judge_edge(fix, at, asked, last, to, tally);
    }
    Ok(tally)
}

// The answer where the location is on the border.
pub fn on_border(verdict: Verdict, asked: bool, least: u64) -> Judged
    ensures { judged_as result ≡ on_border verdict asked least }
{
    Judged {
        verdict: Some(verdict),
        least: if asked { 0 } else { least },
    }
}

// The one edge of a stretch that lies to one side of the location: a quarter turn, or none.
pub fn leap(fix: Point, from: Point, to: Point, tally: Tally) -> Result<Tally, Halt>
    ensures { step.told result ≡ leapt fix «from» to tally }
{
    let quarters = (quadrant_of(fix, to) + 4 - quadrant_of(fix, from)) % 4;
    quarter(quarters, tally)
}

// The answer of a border that was read to its end.
pub fn closed(asked: bool, tally: Tally) -> Judged
    ensures { judged_as result ≡ closed_at asked tally }
{
    // Stays tests in a row: of a match on a number the check learns nothing in the arms.
    let winding = tally.winding;
    let least = tally.least;
    if winding == -4 {
        return Judged {
            verdict: Some(Verdict::InZone),
            least,
        };
    }
    if winding == 4 {
        return Judged {
            verdict: Some(Verdict::InExcludedZone),
            least,
        };
    }
    if winding == 0 {
        return Judged {
            verdict: Some(Verdict::NotInZone),
            least,
        };
    }
    on_border(Verdict::OnBorderSegment, asked, least)
}

// The answer where the next point can't be read.
fn unread(stop: Stop, least: u64) -> Result<Judged, Fault>
    ensures { told result ≡ unread_at (N.told {A = Unit {0}} (Err stop)) least }
{
    match stop {
        Stop::Failed => Ok(Judged {
            verdict: None,
            least,
        }),
        Stop::TooLong => Err(Fault::LongNumber),
        Stop::Incomplete => Err(Fault::Incomplete),
        Stop::OutOfRange => Err(Fault::OutOfRange),
        Stop::PastEnd => Err(Fault::StringPastEnd),
    }
}

// The answer where a step ends the walk.
fn halted(halt: Halt, asked: bool, least: u64) -> Result<Judged, Fault>
    ensures { told result ≡ then_on asked least (step.told (Err halt)) (closed_at asked) }
{
    match halt {
        Halt::Meets(verdict) => Ok(on_border(verdict, asked, least)),
        Halt::Over => Err(Fault::OutOfRange),
    }
}

// The answer of a step that does not go on; one that does is out of range.
pub fn stopped(passed: Result<Tally, Halt>, asked: bool, least: u64) -> Result<Judged, Fault>
    ensures { told result ≡ then_on asked least (step.told passed) (λ tally. verdict.refused 13) }
{
    match passed {
        Ok(_) => Err(Fault::OutOfRange),
        Err(halt) => halted(halt, asked, least),
    }
}

// Why a walk along a border breaks off: the next point can't be read, or a step does not go on.
#[derive(Clone, Copy)]
pub(crate) enum Break {
    Unread { stop: Stop, tally: Tally },
    Halted { halt: Halt, least: u64 },
}

fn is_done(limited: bool, left: usize) -> bool
    ensures { result ≡ limited && (left == 0) }
{
    limited && left == 0
}

// A field to glide over; none where edges are counted.
fn open_along(limited: bool, fix: Point, asked: bool, tally: Tally, p: Point) -> Option<Field>
    ensures { OpensUnless limited fix asked tally p result }
{
    if limited {
        return None;
    }
    open_field(fix, asked, tally, p)
}

// Along a border, from its start to its end; or, limited, over so many edges from a point of it on. The only loop over a border's points, for the reader's step
// is then compiled into it.
// Stays a loop: it ends in four ways and goes on in two.
// A flag and a number, and no Option: the number goes down from turn to turn while the flag stays.
// Stays parameters: they are handed on as they came, and the one loop takes them all; a struct would be taken apart at once.
fn judge_on(
    file: &[u8],
    encoding: Encoding,
    fix: Point,
    asked: bool,
    limited: bool,
    edges: usize,
    start: Reader,
    tally: Tally,
) -> Result<Tally, Break>
    ensures { WalkedOn file.now encoding fix asked limited edges start tally result }
{
    let at = spot_of(fix);
    let mut reader = start;
    let mut begun = limited;
    let mut last = seen_from(fix, at, asked, start.point);
    let mut tally = tally;
    let mut left = edges;
    loop {
        if is_done(limited, left) {
            return Ok(tally);
        }
        left = left.saturating_sub(1);
        let later = match next_point(file, encoding, reader) {
            Ok(Some(later)) => later,
            Ok(None) => return Ok(tally),
            Err(stop) => return Err(Break::Unread { stop, tally }),
        };
        let here = seen_from(fix, at, asked, later.point);
        let counted = match judge_point(fix, at, asked, begun, last, here, tally) {
            Ok(counted) => counted,
            Err(halt) => {
                return Err(Break::Halted {
                    halt,
                    least: tally.least,
                });
            }
        };
        begun = true;
        tally = counted;
        // As long as the border stays in such a field, nothing changes.
        match open_along(limited, fix, asked, counted, later.point) {
            None => {
                reader = later;
                last = here;
            }
            Some(field) => {
                reader = glide_on(file, encoding, field, later);
                last = seen_from(fix, at, asked, reader.point);
            }
        }
    }
}

// What a walk along a whole border says.
fn answer(walk: Result<Tally, Break>, asked: bool) -> Result<Judged, Fault>
    ensures { told result ≡ judgement_of asked walk }
{
    match walk {
        Ok(tally) => Ok(closed(asked, tally)),
        Err(Break::Unread { stop, tally }) => unread(stop, tally.least),
        Err(Break::Halted { halt, least }) => halted(halt, asked, least),
    }
}

// The step that a walk over so many edges is. Where the border can't be read on, it goes as far as it was read.
// Stays a function: the definitions' word; a broken reading becomes a good step.
fn step_of(walk: Result<Tally, Break>) -> Result<Tally, Halt>
    ensures { step.told result ≡ step_of walk }
{
    match walk {
        Ok(tally) => Ok(tally),
        Err(Break::Unread { stop: _, tally }) => Ok(tally),
        Err(Break::Halted { halt, least: _ }) => Err(halt),
    }
}

// Over so many edges of a border from one of its points on, or up to its end.
// Stays parameters: they are handed on as they came, and the one loop takes them all; a struct would be taken apart at once.
pub fn pass_edges(
    file: &[u8],
    encoding: Encoding,
    fix: Point,
    asked: bool,
    edges: usize,
    start: Reader,
    tally: Tally,
) -> Result<Tally, Halt>
    ensures { step.told result ≡ passing_first fix asked edges (after start.point) (trace_of file.now encoding start) tally }
{
    let walk = judge_on(file, encoding, fix, asked, true, edges, start, tally);
    step_of(walk)
}

// What the border at a place of the file says of a location, with the least squared distance so far.
pub fn point_in_polygon(
    file: &[u8],
    encoding: Encoding,
    place: usize,
    lat: FixedLat,
    lon: FixedLon,
    asked: bool,
    least: u64,
) -> Result<Judged, Fault>
    ensures { told result ≡ judged_at file.now encoding place lat lon asked least }
{
    let fix = Point { lat, lon };
    let start = open_border(place);
    let tally = Tally { winding: 0, least };
    let walk = judge_on(file, encoding, fix, asked, false, 0, start, tally);
    answer(walk, asked)
}
