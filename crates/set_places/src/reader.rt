// A walk over the records of a set.
ghost use Rattle.std.specs.Prelude.{◌≡◌};
ghost use Rattle.set_places.specs.Offsets.{place_at, next_at};

use crate::{Place, place_at};

// A set's bytes and the offset of the next record's length in them.
#[derive(Clone, Copy)]
pub struct Reader<'a> {
    pub set: &'a [u8],
    pub at: usize,
}

impl<'a> Reader<'a> {
    // A reader of a set from an offset on; the first record's is 1.
    pub fn new(set: &'a [u8], at: usize) -> Reader<'a>
        ensures answer { (result.set ≡ set.entry) × (result.at ≡ at) }
    {
        Reader { set, at }
    }

    // The next record, which the reader goes past. Where none is whole it stays.
    pub fn next(&mut self) -> Option<Place>
        ensures answer { result ≡ place_at self.old.set.now self.old.at }
        ensures set { self.new.set ≡ self.old.set }
        ensures onward { self.new.at ≡ next_at self.old.set.now self.old.at }
    {
        let place = place_at(self.set, self.at)?;
        self.at = place.start + place.len;
        Some(place)
    }
}
