// The lines of a text.
ghost use Rattle.std.specs.Prelude.{◌≡◌, ◌+◌, ◌≤◌, min, length, drop};
ghost use Rattle.view_refusals.specs.TextLines.{line_end, rest, line_of};

// The place after another, within a size.
fn behind(at: usize, size: usize) -> usize
    requires { at ≤ size }
    ensures answer { (result ≡ min (at + 1) size) × (result ≤ size) }
{
    if at < size { at + 1 } else { size }
}

// Where the line ends that starts at a place.
fn line_end(text: &[u8], from: usize) -> usize
    requires { from ≤ length text.now }
    ensures answer { (result ≡ from + line_end (drop from text.now)) × (result ≤ length text.now) }
{
    for i in from..text.len() {
        if text[i] == b'\n' {
            return i;
        }
    }
    text.len()
}

// Where line n starts, counted from 0.
fn line_start(text: &[u8], n: usize) -> usize
    ensures answer { (drop result text.now ≡ rest n text.now) × (result ≤ length text.now) }
{
    let mut from = 0;
    for _i in 0..n {
        let end = line_end(text, from);
        from = behind(end, text.len());
    }
    from
}

// Line n, counted from 0.
pub fn line(text: &[u8], n: usize) -> &[u8]
    ensures answer { result.now ≡ line_of n text.now }
{
    let from = line_start(text, n);
    let to = line_end(text, from);
    &text[from..to]
}
