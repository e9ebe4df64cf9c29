//! The frontier of a search: which places are reached and at what cost, which are settled, and which is settled next.
//!
//! It is kept in a lent record table, one record for each place, and in a row of flags for the places that wait: those reached and
//! not settled. A `Frontier` holds both, with as many flags as its type says; the functions take any rows that are long enough.
#![tactic(auto)]

ghost use Rattle.std.specs.Prelude.{◌≡◌, ℕ, ◌+◌, ◌<◌, ◌≤◌, Bool, true, false, List, length, drop, count_by, if◌then◌else◌, Some, None, Option, slice_index_or, slice_set};
ghost use Rattle.hierarchy.specs.Kinds.{kind_of, add};
ghost use Rattle.hierarchy.specs.Searches.{begin as begin_of, nearest as nearest_of, settle as settled_by, table_after, tally as tally_of};
ghost use Rattle.frontier.specs.Fronts.{front_of, Inside, Waiting, renewed, blank as blank_of, reached_at, closer, accepts as accepts_of, offered, flagged};

use cost::Cost;
use hierarchy::SearchRecord;

/// The steps of a search.
// a trait and no closure: the clauses below name the function `step`, and of a closure they could name only a relation
pub trait Steps {
    type C: Cost;

    ghost step: { Self → ℕ → ℕ → Option Self.C };

    /// The cost of the step from one place to another, or none.
    fn step(&self, from: usize, to: usize) -> Option<Self::C>
        ensures { result ≡ step self.now from to };
}

/// A search among as many places as the lent table has records, one a place, with a flag for each place that waits: reached and not
/// settled. The flags run beside the table, since a lent record has a mark, a cost and a predecessor and no more. Each step is the
/// function of that name, on these two rows.
#[derive(Drop)]
pub struct Frontier<'t, C, const N: usize> {
    table: &'t mut [SearchRecord<C>],
    waiting: [bool; N],
    ghost fits: { length table.now ≤ N },
}

impl<'t, C: Cost, const N: usize> Frontier<'t, C, N> {
    ghost use Rattle.frontier.specs.Searching.{size, front, Waits};

    /// Begins a search: only `start` is reached, at zero.
    pub fn begin(table: &'t mut [SearchRecord<C>], start: usize) -> Self
        requires { (length table.old ≤ N) × (start < length table.old) }
        ensures same_reference { result.table.ghost_name ≡ table.entry.ghost_name }
        ensures size { size result ≡ length table.old }
        ensures front { front C.Cost result ≡ begin_of (kind_of C.Cost) start }
    {
        let size = table.len();
        let mut waiting = [false; N];
        begin_at(table, &mut waiting, size, start);
        Frontier { table, waiting }
    }

    /// Of the places that wait, the one of least cost, the smaller of equals.
    pub fn nearest(&self) -> Option<usize>
        ensures is { result ≡ nearest_of (front C.Cost self.now) (size self.now) }
        ensures waits { Waits self.now result }
    {
        nearest(self.table, &self.waiting, self.table.len())
    }

    /// The cost at which a place that waits is reached.
    pub fn cost(&self, place: usize) -> C
        requires { Waits self.now (Some place) }
        ensures { Some result ≡ (front C.Cost self.now).reached place }
    {
        self.table[place].cost
    }

    /// Whether a place is settled.
    pub fn is_settled(&self, place: usize) -> bool
        requires { place < size self.now }
        ensures { result ≡ (front C.Cost self.now).settled place }
    {
        self.table[place].settled
    }

    /// Settles a place that waits, and offers its cost plus the step's to each place that is not settled.
    pub fn settle<S: Steps<C = C>>(&mut self, graph: &S, place: usize)
        requires waits { Waits self.old (Some place) }
        requires inside { Inside (size self.old) (S.Steps.step graph.now) }
        ensures same_reference { self.new.table.ghost_name ≡ self.old.table.ghost_name }
        ensures size { size self.new ≡ size self.old }
        ensures front { front C.Cost self.new ≡ settled_by (S.Steps.step graph.now) (front C.Cost self.old) place }
    {
        let size = self.table.len();
        settle(graph, self.table, &mut self.waiting, size, place);
    }

    /// Ends the search: each record that is not settled is blank again.
    pub fn finish(self)
        ensures { self.exit.0.now ≡ table_after (front C.Cost self.entry) (size self.entry) self.entry.table.now }
    {
        let Frontier { table, .. } = self;
        let size = table.len();
        finish(table, size);
    }
}

/// Begins a search among `size` places: only `start` is reached, at zero.
pub fn begin_at<C: Cost>(
    table: &mut [SearchRecord<C>],
    waiting: &mut [bool],
    size: usize,
    start: usize,
)
    requires { (size ≤ length table.old) × ((size ≤ length waiting.old) × (start < size)) }
    ensures front { front_of C.Cost size table.new waiting.new ≡ begin_of (kind_of C.Cost) start }
    ensures rest { drop size table.new ≡ drop size table.old }
{
    clear(table, waiting, size);
    reach(table, waiting, start, C::zero(), start);
}

/// Of the places that wait, the one of least cost, the smaller of equals.
pub fn nearest<C: Cost>(table: &[SearchRecord<C>], waiting: &[bool], size: usize) -> Option<usize>
    requires { (size ≤ length table.now) × (size ≤ length waiting.now) }
    ensures is { result ≡ nearest_of (front_of C.Cost size table.now waiting.now) size }
    ensures waits { Waiting size waiting.now result }
{
    // no chain with `min_by_key`: a cost says what is less, and has no key that is ordered
    let mut best = None;
    for place in 0..size {
        best = nearer(table, waiting, best, place);
    }
    best
}

/// Settles a place that waits, and offers its cost plus the step's to each place that is not settled.
pub fn settle<S: Steps>(
    graph: &S,
    table: &mut [SearchRecord<S::C>],
    waiting: &mut [bool],
    size: usize,
    place: usize,
)
    requires rows { (size ≤ length table.old) × (size ≤ length waiting.old) }
    requires waits { Waiting size waiting.old (Some place) }
    requires inside { Inside size (S.Steps.step graph.now) }
    ensures front { front_of S.C.Cost size table.new waiting.new ≡ settled_by (S.Steps.step graph.now) (front_of S.C.Cost size table.old waiting.old) place }
    ensures rest { drop size table.new ≡ drop size table.old }
{
    let cost = table[place].cost;
    table[place].settled = true;
    waiting[place] = false;
    // by number, since a step is asked for by the number of its place
    for other in 0..size {
        offer(graph, table, waiting, place, cost, other);
    }
}

/// Ends a search: each record that is not settled is blank again.
pub fn finish<C: Cost>(table: &mut [SearchRecord<C>], size: usize)
    requires { size ≤ length table.old }
    ensures { (waiting : List Bool) → table.new ≡ table_after (front_of C.Cost size table.old waiting) size table.old }
{
    // by number, since the table may have more records, which stay
    for place in 0..size {
        table[place] = finished(table[place]);
    }
}

/// The number of settled places.
pub fn tally<C: Cost>(table: &[SearchRecord<C>], size: usize) -> usize
    requires { size ≤ length table.now }
    ensures { (waiting : List Bool) → result ≡ tally_of (front_of C.Cost size table.now waiting) size }
{
    settled_in(&table[..size])
}

// The number of settled records.
fn settled_in<C: Cost>(table: &[SearchRecord<C>]) -> usize
    ensures { result ≡ count_by (λ known. known.settled) table.now }
{
    table.iter().filter(|known| known.settled).count()
}

// The record of a place that is not reached.
fn blank<C: Cost>() -> SearchRecord<C>
    ensures { result ≡ blank_of C.Cost }
{
    SearchRecord::default()
}

// What a search leaves of a record: all of a settled one, nothing of another.
fn finished<C: Cost>(known: SearchRecord<C>) -> SearchRecord<C>
    ensures { result ≡ (if known.settled then known else blank_of C.Cost) }
{
    if known.settled { known } else { blank() }
}

// No place is reached.
// no `fill`: it asks for a clone that cannot fail, which no bound of a cost says
fn clear<C: Cost>(table: &mut [SearchRecord<C>], waiting: &mut [bool], size: usize)
    requires { (size ≤ length table.old) × (size ≤ length waiting.old) }
    ensures table { table.new ≡ renewed size (λ _. blank_of C.Cost) table.old }
    ensures waiting { waiting.new ≡ renewed size (λ _. false) waiting.old }
{
    for place in 0..size {
        table[place] = blank();
        waiting[place] = false;
    }
}

// Reaches a place at a cost from its predecessor.
fn reach<C: Cost>(
    table: &mut [SearchRecord<C>],
    waiting: &mut [bool],
    place: usize,
    cost: C,
    predecessor: usize,
)
    requires { (place < length table.old) × (place < length waiting.old) }
    ensures table { table.new ≡ slice_set table.old place (reached_at cost predecessor) }
    ensures waiting { waiting.new ≡ slice_set waiting.old place true }
{
    table[place] = SearchRecord {
        settled: false,
        cost,
        predecessor,
    };
    waiting[place] = true;
}

// The nearer of the best place so far and a later one.
fn nearer<C: Cost>(
    table: &[SearchRecord<C>],
    waiting: &[bool],
    best: Option<usize>,
    place: usize,
) -> Option<usize>
    requires { (place < length table.now) × ((place < length waiting.now) × (Waiting place waiting.now best)) }
    ensures is { result ≡ closer C.Cost table.now waiting.now best place }
    ensures waits { Waiting (place + 1) waiting.now result }
{
    if !waiting[place] {
        return best;
    }
    // a settled place does not wait, whatever its flag says
    if table[place].settled {
        return best;
    }
    match best {
        None => Some(place),
        Some(other) => {
            if table[place].cost.is_less(table[other].cost) {
                Some(place)
            } else {
                best
            }
        }
    }
}

// Offers the cost of a settled place plus the step's to another place.
fn offer<S: Steps>(
    graph: &S,
    table: &mut [SearchRecord<S::C>],
    waiting: &mut [bool],
    place: usize,
    cost: S::C,
    other: usize,
)
    requires { (other < length table.old) × (other < length waiting.old) }
    ensures table { table.new ≡ slice_set table.old other (offered S.C.Cost place (slice_index_or table.old other (blank_of S.C.Cost)) (slice_index_or waiting.old other false) (add (kind_of S.C.Cost) (Some cost) (S.Steps.step graph.now place other))) }
    ensures waiting { waiting.new ≡ slice_set waiting.old other (flagged S.C.Cost (slice_index_or table.old other (blank_of S.C.Cost)) (slice_index_or waiting.old other false) (add (kind_of S.C.Cost) (Some cost) (S.Steps.step graph.now place other))) }
{
    let Some(step) = graph.step(place, other) else {
        return;
    };
    let sum = cost.plus(step);
    if accepts(table, waiting, other, sum) {
        reach(table, waiting, other, sum, place);
    }
}

// Whether a place takes an offer: it is not settled, and not reached at that cost or less.
fn accepts<C: Cost>(table: &[SearchRecord<C>], waiting: &[bool], place: usize, sum: C) -> bool
    requires { (place < length table.now) × (place < length waiting.now) }
    ensures { result ≡ accepts_of C.Cost (slice_index_or table.now place (blank_of C.Cost)) (slice_index_or waiting.now place false) sum }
{
    if table[place].settled {
        return false;
    }
    if !waiting[place] {
        return true;
    }
    sum.is_less(table[place].cost)
}
