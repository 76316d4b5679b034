// Where the records of a set stand: one count byte, then each record after a two-byte length, most significant first.
// The records are walked one by one from the lent bytes.
#![tactic(auto)]

ghost use Rattle.std.specs.Prelude.{◌≡◌};
ghost use Rattle.set_places.specs.Offsets.{place_at, record_place};

pub mod reader;

pub use reader::Reader;

// Where a record stands in a set: its first byte and its length.
#[derive(Clone, Copy)]
pub struct Place {
    pub start: usize,
    pub len: usize,
}

// The record whose two-byte length stands at an offset of a set.
pub fn place_at(set: &[u8], at: usize) -> Option<Place>
    ensures answer { result ≡ place_at set.now at }
{
    let first = *set.get(at)? as usize;
    let second = *set.get(at + 1)? as usize;
    let len = first * 256 + second;
    let start = at + 2;
    if set.len() - start < len {
        return None;
    }
    Some(Place { start, len })
}

// Where record i of a set stands, counted from 0: its bytes need not be a good record.
pub fn find(set: &[u8], i: usize) -> Option<Place>
    ensures answer { result ≡ record_place set.now i }
{
    let count = *set.first()? as usize;
    if count <= i {
        return None;
    }
    let mut reader = Reader::new(set, 1);
    for passed in 0..i {
        reader.next()?;
    }
    reader.next()
}
