//! The longest walks of a digraph, or a circle where they have no end.

ghost use Rattle.std.specs.Prelude.{◌≡◌, ℕ, ◌+◌, ◌-◌, ◌<◌, ◌≤◌, ◌↔◌, List, [], true, false, length, map, max, slice_index, All, IfErr, IfOk, OnOk};
ghost use Rattle.csp_base.specs.Prelude.{Tells};
ghost use Rattle.digraph.specs.Prelude.{IsTurnedFrom, targets_of, HasArc, InRange, IsLongestWalk, AreHeights, HasNoCircle, IsLeastCircle, IsSearch, IsStep, height_of, mark_at};

use crate::circle::{Circle, circle_from};
use crate::heights::Heights;
use crate::rows::Rows;
use csp_base::{Made, NoMemory, Stop};
use std::alloc::Global;

// How far the search is with a vertex.
#[derive(Clone, Copy)]
enum Mark {
    // Not come to yet.
    New,
    // On the trail: so many of its targets, the first ones, are left to look at, and walks over the others have `height` arcs at most.
    Open { left: usize, height: u32 },
    // Walks from it have so many arcs at most.
    Done(u32),
}

impl Mark {
    // The height, where it is known.
    fn height(&self) -> u32
        ensures { result ≡ height_of self.now }
    {
        match self {
            Mark::Done(height) => *height,
            Mark::New | Mark::Open { .. } => 0,
        }
    }
}

// Walks that are followed to their ends: the marks of the vertices, the trail that is being walked, and the vertex below which each
// was come to.
#[derive(Drop)]
struct Search {
    marks: Vec<Mark>,
    trail: Vec<u32>,
    next: usize,
}

/// For each vertex the greatest number of arcs of a walk that begins there, or a circle, where there is one.
///
/// It takes time linear in the number of vertices and arcs (not proved), and no recursion.
pub fn longest_walks(alloc: Global, rows: &Rows) -> Result<Heights, Stop<Circle>>
    ensures heights { IfOk result (AreHeights (HasArc rows.now) (length rows.now)) }
    ensures no_circle { OnOk result (HasNoCircle (HasArc rows.now)) }

    // Heights fall along each arc, by one along some arc from each vertex with arcs, and are 0 just where none leaves.
    ensures falls { IfOk result (λ heights. (v w : ℕ) → HasArc rows.now v w
        → slice_index heights w < slice_index heights v) }
    ensures steps { IfOk result (λ heights. (v : ℕ) → v < length rows.now → 0 < slice_index heights v
        → (w : ℕ) × HasArc rows.now v w × (slice_index heights v ≡ slice_index heights w + 1)) }
    ensures sinks { IfOk result (λ heights. (v : ℕ) → v < length rows.now
        → (slice_index heights v ≡ 0) ↔ (targets_of rows.now v ≡ [])) }
    ensures below { IfOk result (λ heights. All (λ height. height < length rows.now) heights) }

    ensures circle { IfErr result (Tells (IsLeastCircle (HasArc rows.now))) }
    ensures unbounded { IfErr result (Tells (All (λ v. (n : ℕ) → ¬ IsLongestWalk (HasArc rows.now) v n))) }
    ensures no_heights { IfErr result (Tells (λ _. (heights : List ℕ)
        → ¬ AreHeights (HasArc rows.now) (length rows.now) heights)) }
{
    let heights = find_heights(alloc, rows)?;
    Ok(heights)
}

// The heights of the vertices, or a circle.
fn find_heights(alloc: Global, rows: &Rows) -> Result<Heights, Stop<Circle>>
    ensures in_range { OnOk result (InRange rows.now) }
    ensures heights { IfOk result (AreHeights (HasArc rows.now) (length rows.now)) }
    ensures below { IfOk result (All (λ height. height < length rows.now)) }
    ensures circle { IfErr result (Tells (IsLeastCircle (HasArc rows.now))) }
{
    let mut search = Search::new(alloc, rows)?;
    while search.goes_on(rows) {
        search.step(alloc, rows)?;
    }
    let heights = search.heights(alloc)?;
    Ok(Heights::from_vec(heights))
}

impl Search {
    // Before the first walk each vertex is new.
    fn new(alloc: Global, rows: &Rows) -> Made<Search>
        ensures { IfOk result (IsSearch rows.now) }
    {
        let marks = vec![in alloc; Mark::New; rows.len()]?;
        Ok(Search {
            marks,
            trail: Vec::new(alloc),
            next: 0,
        })
    }

    // Whether a vertex is left to come to, or to go on from.
    fn goes_on(&self, rows: &Rows) -> bool
        ensures on { result ≡ true → self.now.trail.items ≡ [] → self.now.next < length rows.now }
        ensures over { result ≡ false → (self.now.trail.items ≡ []) × (length rows.now ≤ self.now.next) }
    {
        if self.next < rows.len() {
            return true;
        }
        !self.trail.is_empty()
    }

    // The heights that are known.
    fn heights(&self, alloc: Global) -> Made<Vec<u32>>
        ensures { IfOk result (λ heights. heights.items ≡ map height_of self.now.marks.items) }
    {
        self.marks.iter().map(|mark| mark.height()).collect(alloc)
    }

    // Goes on at the end of the trail, or starts a trail where there is none.
    fn step(&mut self, alloc: Global, rows: &Rows) -> Result<(), Stop<Circle>>
        requires search { IsSearch rows.now self.old }
        requires goes_on { self.old.trail.items ≡ [] → self.old.next < length rows.now }
        ensures step { OnOk result (IsStep rows.now self.old self.new) }
        ensures circle { IfErr result (Tells (IsLeastCircle (HasArc rows.now))) }
    {
        match self.trail.last().copied() {
            Some(v) => self.look(alloc, rows, v),
            None => {
                self.start(rows)?;
                Ok(())
            }
        }
    }

    // Looks at one target of the last vertex of the trail, or ends with that vertex where none is left.
    fn look(&mut self, alloc: Global, rows: &Rows, v: u32) -> Result<(), Stop<Circle>>
        requires search { IsSearch rows.now self.old }
        requires not_empty { 0 < length self.old.trail.items }
        requires last { slice_index self.old.trail.items (length self.old.trail.items - 1) ≡ v }
        ensures step { OnOk result (IsStep rows.now self.old self.new) }
        ensures circle { IfErr result (Tells (IsLeastCircle (HasArc rows.now))) }
    {
        let Mark::Open { left, height } = self.marks[v as usize] else {
            unreachable!()
        };
        if left == 0 {
            self.marks[v as usize] = Mark::Done(height);
            self.trail.pop();
            return Ok(());
        }
        let w = target(rows, v, left - 1);
        match self.marks[w as usize] {
            Mark::New => {
                self.enter(rows, w)?;
                Ok(())
            }
            Mark::Open { .. } => Err(circle_of(alloc, &self.trail, w)),
            Mark::Done(below) => {
                self.marks[v as usize] = Mark::Open {
                    left: left - 1,
                    height: larger(height, below + 1),
                };
                Ok(())
            }
        }
    }

    // Starts a trail at the next vertex, or leaves it where it was come to.
    fn start(&mut self, rows: &Rows) -> Made<()>
        requires search { IsSearch rows.now self.old }
        requires empty { self.old.trail.items ≡ [] }
        requires next { self.old.next < length rows.now }
        ensures { OnOk result (IsStep rows.now self.old self.new) }
    {
        if let Mark::New = self.marks[self.next] {
            return self.enter(rows, self.next as u32);
        }
        self.next += 1;
        Ok(())
    }

    // Puts a new vertex on the trail.
    fn enter(&mut self, rows: &Rows, w: u32) -> Made<()>
        requires search { IsSearch rows.now self.old }
        requires vertex { w < length rows.now }
        requires new { mark_at self.old.marks.items w ≡ Mark.New }
        requires follows { (k : ℕ) → k + 1 ≡ length self.old.trail.items
            → HasArc rows.now (slice_index self.old.trail.items k) w }
        ensures { OnOk result (IsStep rows.now self.old self.new) }
    {
        self.trail.push(w)?;
        self.marks[w as usize] = Mark::Open {
            left: rows.targets(w).len(),
            height: 0,
        };
        Ok(())
    }
}

// The target in a place of a vertex's row.
fn target(rows: &Rows, v: u32, place: usize) -> u32
    requires vertex { v < length rows.now }
    requires place { place < length (targets_of rows.now v) }
    ensures value { result ≡ slice_index (targets_of rows.now v) place }
    ensures within { result < length rows.now }
{
    rows.targets(v)[place]
}

// The circle on a trail that comes back to a vertex, or that memory ran out.
fn circle_of(alloc: Global, trail: &[u32], first: u32) -> Stop<Circle>
    requires { (k : ℕ) × (k < length trail.now) × (slice_index trail.now k ≡ first) }
    ensures { Tells (IsTurnedFrom trail.now first) result }
{
    circle_from(alloc, trail, first).map_or(Stop::NoMemory, Stop::Told)
}

// The larger of two numbers.
fn larger(a: u32, b: u32) -> u32
    ensures { result ≡ max a b }
{
    if a < b { b } else { a }
}
