// Text put into lent bytes, one piece after the other. What there is no room for is left out, so that no function has
// a premise.
#![tactic(auto)]

ghost use Rattle.std.specs.Prelude.{◌≡◌, [], ◌∷◌, ◌++◌, ◌/◌, ◌%◌, ◌^◌, ◌≤◌, ◌<◌};
ghost use Rattle.text.specs.Texts.{decimal, hex, Added};
ghost use Rattle.text.specs.Words.{digit, binary, same};

// Lent bytes, and the place in them after which the next text is put.
#[derive(Drop)]
pub struct Writer<'a> {
    pub out: &'a mut [u8],
    pub at: usize,
}

impl<'a> Writer<'a> {
    // A writer that puts its first text after the first `at` bytes.
    pub fn new(out: &'a mut [u8], at: usize) -> Writer<'a>
        ensures lent { result.out.ghost_name ≡ out.entry.ghost_name }
        ensures bytes { result.out.now ≡ out.old }
        ensures place { result.at ≡ at }
    {
        Writer { out, at }
    }

    // A text.
    pub fn put(&mut self, text: &[u8])
        ensures lent { self.new.out.ghost_name ≡ self.old.out.ghost_name }
        ensures written { Added text.now self.old.at self.old.out.now self.new.out.now self.new.at }
    {
        let from = self.at.min(self.out.len());
        let n = text.len().min(self.out.len() - from);
        self.out[from..from + n].copy_from_slice(&text[..n]);
        self.at = from + n;
    }

    // A number in decimal.
    pub fn decimal(&mut self, n: u64)
        ensures lent { self.new.out.ghost_name ≡ self.old.out.ghost_name }
        ensures written { Added (decimal n) self.old.at self.old.out.now self.new.out.now self.new.at }
    {
        let mut digits = [0u8; 20];
        let k = io::decimal(n, &mut digits);
        self.put(&digits[..k]);
    }

    // A number in hexadecimal, in lower case, with zeros in front up to `width` digits (from 1 to 16).
    pub fn hex(&mut self, n: u64, width: usize)
        ensures lent { self.new.out.ghost_name ≡ self.old.out.ghost_name }
        ensures written { Added (hex width n) self.old.at self.old.out.now self.new.out.now self.new.at }
    {
        let mut digits = [0u8; 16];
        let k = io::hex(n, width, &mut digits);
        self.put(&digits[..k]);
    }

    // A name and a number in decimal.
    pub fn number(&mut self, name: &[u8], n: u64)
        ensures lent { self.new.out.ghost_name ≡ self.old.out.ghost_name }
        ensures written { Added (name.now ++ decimal n) self.old.at self.old.out.now self.new.out.now self.new.at }
    {
        self.put(name);
        self.decimal(n);
    }

    // A name, a number in decimal and a newline.
    pub fn line(&mut self, name: &[u8], n: u64)
        ensures lent { self.new.out.ghost_name ≡ self.old.out.ghost_name }
        ensures written { Added (name.now ++ decimal n ++ 10 ∷ []) self.old.at self.old.out.now self.new.out.now
            self.new.at }
    {
        self.number(name, n);
        self.put(b"\n");
    }

    // Bit k of w, counted from the lowest.
    fn bit(&mut self, w: usize, k: usize)
        requires { k < 8 }
        ensures lent { self.new.out.ghost_name ≡ self.old.out.ghost_name }
        ensures written { Added (digit (w / 2 ^ k % 2) ∷ []) self.old.at self.old.out.now self.new.out.now
            self.new.at }
    {
        if w / bits::power(k) % 2 == 0 {
            self.put(b"0");
        } else {
            self.put(b"1");
        }
    }

    // A word as q binary digits.
    pub fn word(&mut self, q: usize, w: usize)
        requires { q ≤ 8 }
        ensures lent { self.new.out.ghost_name ≡ self.old.out.ghost_name }
        ensures written { Added (binary q w) self.old.at self.old.out.now self.new.out.now self.new.at }
    {
        self.put(b"");
        for k in (0..q).rev() {
            self.bit(w, k);
        }
    }
}

// A text after the first `at` bytes; the answer is the place after it.
pub fn put(out: &mut [u8], at: usize, text: &[u8]) -> usize
    ensures written { Added text.now at out.old out.new result }
{
    let mut writer = Writer::new(out, at);
    writer.put(text);
    writer.at
}

// A number in decimal after the first `at` bytes; the answer is the place after it.
pub fn put_decimal(out: &mut [u8], at: usize, n: u64) -> usize
    ensures written { Added (decimal n) at out.old out.new result }
{
    let mut writer = Writer::new(out, at);
    writer.decimal(n);
    writer.at
}

// A number in hexadecimal, in lower case, with zeros in front up to `width` digits (from 1 to 16), after the first
// `at` bytes; the answer is the place after it.
pub fn put_hex(out: &mut [u8], at: usize, n: u64, width: usize) -> usize
    ensures written { Added (hex width n) at out.old out.new result }
{
    let mut writer = Writer::new(out, at);
    writer.hex(n, width);
    writer.at
}

// A name and a number in decimal after the first `at` bytes; the answer is the place after them.
pub fn put_number(out: &mut [u8], at: usize, name: &[u8], n: u64) -> usize
    ensures written { Added (name.now ++ decimal n) at out.old out.new result }
{
    let mut writer = Writer::new(out, at);
    writer.number(name, n);
    writer.at
}

// A name, a number in decimal and a newline after the first `at` bytes; the answer is the place after them.
pub fn put_line(out: &mut [u8], at: usize, name: &[u8], n: u64) -> usize
    ensures written { Added (name.now ++ decimal n ++ 10 ∷ []) at out.old out.new result }
{
    let mut writer = Writer::new(out, at);
    writer.line(name, n);
    writer.at
}

// A word as q binary digits after the first `at` bytes; the answer is the place after them.
pub fn put_word(out: &mut [u8], at: usize, q: usize, w: usize) -> usize
    requires { q ≤ 8 }
    ensures written { Added (binary q w) at out.old out.new result }
{
    let mut writer = Writer::new(out, at);
    writer.word(q, w);
    writer.at
}

// Whether two texts are the same.
pub fn is_same(a: &[u8], b: &[u8]) -> bool
    ensures answer { result ≡ same a.now b.now }
{
    a == b
}
