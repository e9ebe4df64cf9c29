//! Routing: the search for a route, and the places that it visits.
ghost use Rattle.std.specs.Prelude.{◌≡◌, ◌<◌, ◌≤◌, length, OnOk};
ghost use Rattle.ground.specs.Refusals.{outcome};
ghost use Rattle.hierarchy.specs.Kinds.{kind_of};
ghost use Rattle.hierarchy.specs.Lands.{Land, land_of};
ghost use Rattle.hierarchy.specs.Answers.{before_search, searched, routing};
ghost use Rattle.hierarchy.specs.Searches.{search};
ghost use Rattle.hierarchy.specs.Layouts.{laid as laid_over};
ghost use Rattle.levelling.specs.Halves.{MiddlesNear};
ghost use Rattle.levelling.specs.Meaning.{meaning};
ghost use Rattle.routing.specs.Found.{chain_in};
ghost use Rattle.routing.specs.Placed.{places_of, LaidOut, Near};
ghost use Rattle.routing.specs.Routes.{routed, Handed};

use crate::find::{chain_back, find};
use crate::laid::Laid;
use crate::layout::DividedBook;
use crate::relevant::relevant_links;
use cost::Cost;
use ground::{Ground, Refusal};
use hierarchy::{Route, SearchRecord};
use levelling::{Book, Full};

/// The route from one place to another over the links of a book with that top level. Its places are written into the list. Refused
/// with 9 where a place is not on the ground, with 10 where it is shut, with 12 where the table has fewer records than there are
/// places, with 13 where there is no way, with 14 where the route has more than 256 places, and with 15 where the list is too short.
pub fn route<G: Ground>(
    ground: &G,
    book: &Book<G::C>,
    top: usize,
    from: usize,
    to: usize,
    table: &mut [SearchRecord<G::C>],
    list: &mut [u16],
) -> Result<Route<G::C>, Refusal>
    requires middles { MiddlesNear (meaning G.C.Cost book.now).shortcuts }
    ensures { routed (kind_of G.C.Cost) result table.new list.new ≡ routing (land_of G.C.Cost G.Ground ground.now) (meaning G.C.Cost book.now) top from to table.old list.old }
{
    check_ends(ground, from, to, table.len())?;
    let query = Query {
        divided: DividedBook { book },
        size: ground.size(),
        top,
        from,
        to,
    };
    query.answer(table, list)
}

// Whether a route may be searched: both places are on the ground and free, and there is a record for each place.
fn check_ends<G: Ground>(ground: &G, from: usize, to: usize, records: usize) -> Result<(), Refusal>
    ensures is { result ≡ outcome (before_search (land_of G.C.Cost G.Ground ground.now) from to records) }
    ensures asked { OnOk result ((from < G.Ground.size ground.now) × (to < G.Ground.size ground.now) × (G.Ground.size ground.now ≤ records)) }
{
    // Twice each, since both places are looked for on the ground before either is refused as shut.
    let size = ground.size();
    if from >= size {
        return Err(Refusal::OffGround { asked: 0 });
    }
    if to >= size {
        return Err(Refusal::OffGround { asked: 1 });
    }
    if ground.is_shut(from) {
        return Err(Refusal::AlreadyShut { asked: 0 });
    }
    if ground.is_shut(to) {
        return Err(Refusal::AlreadyShut { asked: 1 });
    }
    if records < size {
        return Err(Refusal::TableTooShort);
    }
    Ok(())
}

// A route that is asked for, between two places below `size`, over the links of a book with that top level.
#[derive(Drop)]
struct Query<'a, C> {
    divided: DividedBook<'a, C>,
    size: usize,
    top: usize,
    from: usize,
    to: usize,
    ghost few: { size ≤ 256 },
    ghost ends: { (from < size) × (to < size) },
}

impl<'a, C: Cost> Query<'a, C> {
    // Searches the route, and writes its places into the list.
    fn answer(&self, table: &mut [SearchRecord<C>], list: &mut [u16]) -> Result<Route<C>, Refusal>
        requires { self.now.size ≤ length table.old }
        ensures { (land : Land (kind_of C.Cost)) → land.size ≡ self.now.size → routed (kind_of C.Cost) result table.new list.new ≡ searched land (meaning C.Cost self.now.divided.book.now) (search land (meaning C.Cost self.now.divided.book.now) self.now.top self.now.from self.now.to) self.now.from self.now.to table.old list.old }
    {
        let links = relevant_links(self.divided.book, self.size, self.top, self.from, self.to);
        if !find(&links, self.size, self.from, self.to, table) {
            return Err(Refusal::NoWay);
        }
        let Ok(laid) = self.lay_found(table) else {
            return Err(Refusal::RouteTooLong);
        };
        self.hand_over(&laid, table, list)
    }

    // The places of the chain that a search found, if they are at most 256.
    fn lay_found(&self, table: &[SearchRecord<C>]) -> Result<Laid, Full>
        requires { Near (chain_in C.Cost table.now self.now.from self.now.size self.now.to) }
        ensures { LaidOut result (laid_over (meaning C.Cost self.now.divided.book.now) (chain_in C.Cost table.now self.now.from self.now.size self.now.to)) }
    {
        let chain = chain_back(table, self.size, self.from, self.to);
        self.divided.lay_out(chain.places())
    }

    // Writes the places into the list and answers the route, if the list has room for them.
    fn hand_over(
        &self,
        laid: &Laid,
        table: &[SearchRecord<C>],
        list: &mut [u16],
    ) -> Result<Route<C>, Refusal>
        requires { self.now.size ≤ length table.now }
        ensures { Handed C.Cost self.now.size self.now.to (places_of laid.now) table.now list.old result list.new }
    {
        let places = laid.places();
        if list.len() < places.len() {
            return Err(Refusal::ListTooShort);
        }
        list[..places.len()].copy_from_slice(places);
        Ok(Route {
            cost: table[self.to].cost,
            tally: frontier::tally(table, self.size),
            length: places.len(),
        })
    }
}
