// A border's verdict by its marks: only stretches are read whose box, and whose group's, holds the location or, with the distance, is not far from it.
// Stays, point 7: `asked` is the caller's question; a const parameter would compile each loop twice (docs/DECISIONS.md: 8 kB).
ghost use Rattle.std.specs.Prelude.{IfSome, None, ◌≡◌, ◌+◌, ◌*◌, ◌≤◌, ◌<◌, min, length};
ghost use Rattle.verdict.specs.{Distance.{to_vertex}, Verdict.{told, closed_at, then_on}};
ghost use Rattle.verdict.specs.Step as step;
ghost use Rattle.marks.specs.{Judging.{can_pass, stretch_by, end_in, points_by, stretches_by, groups_by, count_in, judged_from, nearer_by, nearest_of, near_in, is_below, judged_by}, Marks.{group_wide, groups_of}, Words.{low_in, high_in}};

use crate::words::{MARK, STRETCH, groups_of, point_at, state_at};
use border::place::{FixedLat, FixedLon, Point};
use border::reader::Encoding;
use numbers::fault::Fault;
use verdict::afar::is_afar;
use verdict::distance::to_vertex;
use verdict::edge::{in_box, same_point};
use verdict::judge::{Judged, closed, leap, on_border, pass_edges, stopped};
use verdict::step::{Halt, Tally, Verdict};

// Whether a stretch with such a box is passed as its one edge.
fn can_pass(fix: Point, asked: bool, least: u64, low: Point, high: Point) -> bool
    ensures { result ≡ can_pass fix asked least low high }
{
    if in_box(low, fix, high) {
        return false;
    }
    !asked || is_afar(fix, least, low, high)
}

// Where a stretch leads that has so many behind it.
fn end_at(words: &[u32], last: Point, behind: usize, at: usize) -> Point
    requires { at + 11 + 11 * behind ≤ length words.now }
    ensures { result ≡ end_in words.now last behind at }
{
    if behind == 0 {
        return last;
    }
    point_at(words, at + MARK + 4)
}

// A border with its marks and its first point, and the location that is asked for.
#[derive(Clone, Copy)]
pub(crate) struct Course<'a> {
    pub file: &'a [u8],
    pub encoding: Encoding,
    pub fix: Point,
    pub asked: bool,
    pub words: &'a [u32],
    pub first: Point,
}

impl Course<'_> {
    // Whether the stretch of a mark is passed as its one edge.
    fn is_passed(self, at: usize, least: u64) -> bool
        requires { at + 11 ≤ length self.words.now }
        ensures { result ≡ can_pass self.entry.fix self.entry.asked least (low_in self.entry.words.now at) (high_in self.entry.words.now at) }
    {
        let low = point_at(self.words, at);
        let high = point_at(self.words, at + 2);
        can_pass(self.fix, self.asked, least, low, high)
    }

    // The stretch of a mark, which leads to a point.
    fn pass_stretch(self, at: usize, to: Point, tally: Tally) -> Result<Tally, Halt>
        requires { at + 11 ≤ length self.words.now }
        ensures { step.told result ≡ stretch_by self.entry.file.now self.entry.encoding self.entry.fix self.entry.asked self.entry.words.now self.entry.first at to
            (points_by self.entry.file.now self.entry.encoding self.entry.fix self.entry.asked self.entry.words.now self.entry.first at) tally }
    {
        if self.is_passed(at, tally.least) {
            let from = point_at(self.words, at + 4);
            return leap(self.fix, from, to, tally);
        }
        let start = state_at(self.words, at, self.first);
        pass_edges(
            self.file,
            self.encoding,
            self.fix,
            self.asked,
            STRETCH,
            start,
            tally,
        )
    }

    // So many stretches, which lead to a point.
    fn pass_stretches(
        self,
        count: usize,
        place: usize,
        end: Point,
        tally: Tally,
    ) -> Result<Tally, Halt>
        requires { place + 11 * count ≤ length self.words.now }
        ensures { step.told result ≡ stretches_by self.entry.file.now self.entry.encoding self.entry.fix self.entry.asked self.entry.words.now self.entry.first count place end tally }
    {
        let mut at = place;
        let mut counted = tally;
        for left in (0..count).rev() {
            let to = end_at(self.words, end, left, at);
            counted = self.pass_stretch(at, to, counted)?;
            at += MARK;
        }
        Ok(counted)
    }

    // A group, which leads to a point, with so many stretches inside.
    fn pass_group(
        self,
        at: usize,
        few: usize,
        fine: usize,
        to: Point,
        tally: Tally,
    ) -> Result<Tally, Halt>
        requires { (at + 11 ≤ length self.words.now) × (fine + 11 * few ≤ length self.words.now) }
        ensures { step.told result ≡ stretch_by self.entry.file.now self.entry.encoding self.entry.fix self.entry.asked self.entry.words.now self.entry.first at to
            (stretches_by self.entry.file.now self.entry.encoding self.entry.fix self.entry.asked self.entry.words.now self.entry.first few fine to) tally }
    {
        if self.is_passed(at, tally.least) {
            let from = point_at(self.words, at + 4);
            return leap(self.fix, from, to, tally);
        }
        self.pass_stretches(few, fine, to, tally)
    }

    // All groups of so many stretches, whose marks stand from a place on.
    fn pass_groups(self, count: usize, place: usize, tally: Tally) -> Result<Tally, Halt>
        requires { place + 11 * (count + groups_of count) ≤ length self.words.now }
        ensures { step.told result ≡ groups_by self.entry.file.now self.entry.encoding self.entry.fix self.entry.asked self.entry.words.now self.entry.first (groups_of count) (place + count * 11) count place tally }
    {
        let mut at = place + count * MARK;
        let mut left = count;
        let mut fine = place;
        let mut counted = tally;
        for groups in (0..groups_of(count)).rev() {
            let few = left.min(16);
            let to = end_at(self.words, self.first, groups, at);
            counted = self.pass_group(at, few, fine, to, counted)?;
            at += MARK;
            left -= few;
            fine += few * MARK;
        }
        Ok(counted)
    }
}

// What is said of a border that was passed so.
fn answer(passed: Result<Tally, Halt>, asked: bool, least: u64) -> Result<Judged, Fault>
    ensures { told result ≡ then_on asked least (step.told passed) (closed_at asked) }
{
    match passed {
        Ok(tally) => Ok(closed(asked, tally)),
        Err(_) => stopped(passed, asked, least),
    }
}

// How many stretches have their marks, and those of their groups, from a place of the words on; None where there is none, or no room for as many as it says.
fn count_at(words: &[u32], at: usize) -> Option<usize>
    ensures some { IfSome result (λ n. (0 < n) × (n ≡ count_in words.now at) × (at + 1 + 11 * (n + groups_of n) ≤ length words.now)) }
    ensures none { result ≡ None → 0 ≡ count_in words.now at }
{
    if words.len() <= at {
        return None;
    }
    let count = words[at] as usize;
    if count == 0 {
        return None;
    }
    if (words.len() - (at + 1)) / MARK < count + groups_of(count) {
        return None;
    }
    Some(count)
}

// From a least distance on.
// Stays parameters: the `Course` is made here of them.
fn judge_from(
    file: &[u8],
    encoding: Encoding,
    words: &[u32],
    at: usize,
    fix: Point,
    asked: bool,
    least: u64,
) -> Result<Judged, Fault>
    ensures { told result ≡ judged_from file.now encoding words.now at fix asked least }
{
    let Some(count) = count_at(words, at) else {
        return Err(Fault::OtherIndex);
    };
    let place = at + 1;
    let first = point_at(words, place + 4);
    if same_point(first, fix) {
        return Ok(on_border(Verdict::OnBorderVertex, asked, least));
    }
    let tally = Tally { winding: 0, least };
    let course = Course {
        file,
        encoding,
        fix,
        asked,
        words,
        first,
    };
    let passed = course.pass_groups(count, place, tally);
    answer(passed, asked, least)
}

// One more than the distance of a point, if that is less.
fn nearer(fix: Point, p: Point, near: u64) -> u64
    ensures { result ≡ nearer_by (to_vertex p fix) near }
{
    match to_vertex(p, fix) {
        Ok(squared) => near.min(squared.saturating_add(1)),
        Err(_) => near,
    }
}

// The same of the first points of so many stretches.
fn nearest(words: &[u32], fix: Point, count: usize, place: usize, least: u64) -> u64
    requires { place + 11 * count ≤ length words.now }
    ensures { result ≡ nearest_of words.now fix count place least }
{
    let mut near = least;
    for i in 0..count {
        near = nearer(fix, point_at(words, place + MARK * i + 4), near);
    }
    near
}

// The distance to begin with: with the distance asked for, one that most borders come to less than.
fn near_by(words: &[u32], at: usize, fix: Point, asked: bool, least: u64) -> u64
    ensures { result ≡ near_in words.now at fix asked least }
{
    if !asked {
        return least;
    }
    match count_at(words, at) {
        Some(count) => nearest(words, fix, count, at + 1, least),
        None => least,
    }
}

// Whether there is a verdict with less than this.
// Stays a function: no order, but a test of an answer.
fn is_below(judged: Result<Judged, Fault>, near: u64) -> bool
    ensures { result ≡ is_below near (told judged) }
{
    match judged {
        Ok(judged) => judged.verdict.is_some() && judged.least < near,
        Err(_) => false,
    }
}

// What a border says of a location, by the marks at a place of the words. Refused: 36 where the words end before them, and what judging gives.
pub fn judge_by(
    file: &[u8],
    encoding: Encoding,
    words: &[u32],
    at: usize,
    lat: FixedLat,
    lon: FixedLon,
    asked: bool,
    least: u64,
) -> Result<Judged, Fault>
    ensures { told result ≡ judged_by file.now encoding words.now at lat lon asked least }
{
    let fix = Point { lat, lon };
    let near = near_by(words, at, fix, asked, least);
    if least <= near {
        return judge_from(file, encoding, words, at, fix, asked, least);
    }
    let judged = judge_from(file, encoding, words, at, fix, asked, near);
    if is_below(judged, near) {
        return judged;
    }
    judge_from(file, encoding, words, at, fix, asked, least)
}
