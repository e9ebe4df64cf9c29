//! Writing and reading the places of a route.
ghost use Rattle.std.specs.Prelude.{◌≡◌, ◌<◌, ◌≤◌, [], ◌∷◌, length};
ghost use Rattle.routing.specs.Placed.{places_of, Appended};

use super::Laid;
use arrayvec::ArrayVec;
use levelling::Full;

impl Laid {
    /// No place yet.
    pub fn none() -> Laid
        ensures { places_of result ≡ [] }
    {
        Laid {
            places: ArrayVec::new(),
        }
    }

    /// Appends a place if there is room for it.
    pub fn append(&mut self, place: usize) -> Result<(), Full>
        requires { place < 256 }
        ensures { Appended result (places_of self.old) (place ∷ []) (places_of self.new) }
    {
        self.places.try_push(place as u16).map_err(|_| Full)
    }

    /// The places in their order.
    pub fn places(&self) -> &[u16]
        ensures places { result.now ≡ places_of self.now }
        ensures few { length result.now ≤ 256 }
    {
        self.places.as_slice()
    }
}
