// Which borders have marks, and how many stretches: a border is read to its end once.
ghost use Rattle.std.specs.Prelude.{◌≡◌, ◌^◌, ◌≤◌, ltb};
ghost use lib.Signed.{mag};
ghost use Rattle.marks.specs.Marks.{is_short_run, is_narrow, is_markable, edges_from, most_points, stretches_from, marks_at};
ghost use Rattle.atlas.specs.inner.Marking.{told_edges, marks_of};

use border::place::Point;
use border::reader::{Encoding, Reader, Run, next_point, open_border};
use verdict::edge::same_point;

// The state at a border's first point, and how many stretches it has, 0 for a border without marks.
#[derive(Clone, Copy)]
pub struct Course {
    pub first: Reader,
    pub count: usize,
}

fn is_short_run(run: Run) -> bool
    ensures { result ≡ is_short_run run }
{
    match run {
        Run::Idle => true,
        Run::Forward { next, end } => next < 0x1_0000_0000 && end < 0x1_0000_0000,
        Run::Backward { next, end } => next < 0x1_0000_0000 && end < 0x1_0000_0000,
    }
}

// Every coordinate is an i32: this compiles to no instruction.
fn is_i32(coordinate: i32) -> bool
    ensures { result ≡ ltb (mag coordinate) (2 ^ 31) }
{
    true
}

fn is_narrow(point: Point) -> bool
    ensures { result ≡ is_narrow point }
{
    is_i32(point.lat.0) && is_i32(point.lon.0)
}

// Whether a mark gives the state back.
#[tactic(auto, unfolding(marks::specs::Marks::is_markable))]
fn is_markable(first: Point, reader: Reader) -> bool
    ensures { result ≡ is_markable first reader }
{
    reader.begun
        && !reader.closed
        && same_point(reader.first, first)
        && reader.place < 0x1_0000_0000
        && reader.moves < 0x1_0000_0000
        && is_short_run(reader.run)
        && is_narrow(reader.point)
}

// How many edges a border has that comes round.
fn edges_from(file: &[u8], encoding: Encoding, start: Reader) -> Option<usize>
    ensures { told_edges result ≡ edges_from most_points file.now encoding start.point start 0 }
{
    let first = start.point;
    let mut reader = start;
    for n in 0..0x100_0000usize {
        let Ok(next) = next_point(file, encoding, reader) else {
            return None;
        };
        let Some(later) = next else {
            return if same_point(reader.point, first) {
                Some(n)
            } else {
                None
            };
        };
        if !is_markable(first, reader) {
            return None;
        }
        reader = later;
    }
    None
}

fn stretches_of(edges: Option<usize>) -> usize
    ensures { result ≡ stretches_from (told_edges edges) }
{
    let Some(n) = edges else {
        return 0;
    };
    if n <= 256 {
        return 0;
    }
    n / 128 + (n % 128 + 127) / 128
}

// The border at a place of the file.
pub(crate) fn course_at(file: &[u8], encoding: Encoding, place: usize) -> Course
    ensures { (marks_of file.now encoding result ≡ marks_at file.now encoding place) × (result.count ≤ 2 ^ 18) }
{
    let start = open_border(place);
    let Some(first) = next_point(file, encoding, start).unwrap_or(None) else {
        return Course {
            first: start,
            count: 0,
        };
    };
    let edges = edges_from(file, encoding, first);
    let count = stretches_of(edges);
    Course { first, count }
}
