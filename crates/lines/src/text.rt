// Text at the front of a buffer, piece behind piece: what does not fit is left off.
ghost use Rattle.std.specs.Prelude.{◌++◌, ◌≤◌, ◌≡◌, length};

// The buffer, and where the text in it ends.
#[derive(Drop)]
pub struct Text<'a> {
    buffer: &'a mut [u8],
    end: usize,
    ghost within: { end ≤ length buffer.now },
}

impl<'a> Text<'a> {
    ghost use Rattle.lines.specs.Text.{Starts, Grows, end_of, numeral};

    // No text yet.
    pub fn new(buffer: &'a mut [u8]) -> Text<'a>
        ensures { Starts buffer.entry result }
    {
        Text { buffer, end: 0 }
    }

    // Where the text ends.
    pub fn end(&self) -> usize
        ensures { result ≡ end_of self.now }
    {
        self.end
    }

    // Adds bytes.
    pub(crate) fn bytes(&mut self, piece: &[u8])
        ensures { Grows piece.now self.old self.new }
    {
        let n = piece.len().min(self.buffer.len() - self.end);
        self.buffer[self.end..self.end + n].copy_from_slice(&piece[..n]);
        self.end += n;
    }

    // Adds a number in decimal.
    fn number(&mut self, count: usize)
        ensures { Grows (numeral count) self.old self.new }
    {
        let mut digits = [0u8; 20];
        // Rust has no `From<usize>` for `u64`.
        let k = io::decimal(count as u64, &mut digits);
        self.bytes(&digits[..k]);
    }

    // Adds a number behind its label. A `write!` in its place may fail by its contract, which then says nothing of the text; what puts a
    // line out can't fail.
    pub(crate) fn labelled(&mut self, label: &[u8], count: usize)
        ensures { Grows (label.now ++ numeral count) self.old self.new }
    {
        self.bytes(label);
        self.number(count);
    }
}
