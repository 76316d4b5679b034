// What the search finds.
ghost use Rattle.std.specs.Prelude.{◌≤◌};

// Memory and lookahead of a window, each 0 to 15.
#[derive(Clone, Copy)]
pub struct Window {
    pub memory: usize,
    pub lookahead: usize,
    pub ghost small: { (memory ≤ 15) × (lookahead ≤ 15) },
}
