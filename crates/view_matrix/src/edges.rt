// The word and the next state of an edge of a table. Two functions, as the definitions are two: one that is given the
// array would say less where it is called.
ghost use Rattle.std.specs.Prelude.{◌≡◌, ◌<◌};
ghost use Rattle.table.specs.Value.{word_at, next_at};

use table::Table;
use table::chains::wide;

// The word of the edge of state s that carries d.
pub fn word_at(code: &Table, s: usize, d: usize) -> usize
    requires { (s < 128) × (d < 16) }
    ensures answer { (result ≡ word_at code.now s d) × (result < 256) }
{
    wide(code.word[s * 16 + d])
}

// The next state of the edge of state s that carries d.
pub fn next_at(code: &Table, s: usize, d: usize) -> usize
    requires { (s < 128) × (d < 16) }
    ensures answer { result ≡ next_at code.now s d }
{
    wide(code.next[s * 16 + d])
}
