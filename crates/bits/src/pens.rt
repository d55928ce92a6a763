// Bits written on a card in order, most significant first.
ghost use Rattle.std.specs.Prelude.{◌≡◌, ◌+◌, ◌*◌, ◌≤◌, ◌<◌, length, replicate};
ghost use Rattle.yard.specs.Bits.{to_bits, packed};

// A pen: how many bytes of a card it has written, and the bits still pending, the lowest `count` of a number.
#[derive(Clone, Copy)]
pub struct Pen {
    pub at: usize,
    pub count: usize,
    pub pending: usize,
}

// A pen on a card, whose bytes it writes.
#[derive(Drop)]
pub struct CardPen<'a> {
    card: &'a mut [u8],
    pen: Pen,
    ghost few: { pen.count < 32 },
}

impl<'a> CardPen<'a> {
    ghost use Rattle.bits.specs.Pens.{IsFresh, HasRoom, Draws, reach};

    // A pen at the front of a card.
    pub fn new(card: &'a mut [u8]) -> CardPen<'a>
        ensures { IsFresh card.entry result }
    {
        let pen = Pen {
            at: 0,
            count: 0,
            pending: 0,
        };
        CardPen { card, pen }
    }

    // Draws the lowest `width` bits of x. Of 32 pending bits or more the first 32 are written, as one store of four bytes.
    pub fn put(&mut self, width: usize, x: usize)
        requires { (width ≤ 16) × HasRoom width self.old }
        ensures drawn { Draws (to_bits width x) self.old self.new }
        ensures reached { reach self.new ≡ reach self.old + width }
    {
        let count = self.pen.count + width;
        self.pen.pending = (self.pen.pending << width) + x % intake::power(width);
        if count < 32 {
            self.pen.count = count;
        } else {
            let at = self.pen.at;
            // Of 32 bits, so that it fits; the bytes below are of eight.
            let word = (self.pen.pending >> (count - 32)) % (1 << 32);
            let four = (word as u32).to_be_bytes();
            self.card[at..at + 4].copy_from_slice(&four);
            self.pen.at = at + 4;
            self.pen.count = count - 32;
        }
    }

    // Draws each number of a list in `width` bits.
    pub fn puts(&mut self, width: usize, xs: &[u16])
        requires { (width ≤ 16) × HasRoom (length xs.now * width) self.old }
        ensures drawn { Draws (packed (replicate (length xs.now) width) xs.now) self.old self.new }
        ensures reached { reach self.new ≡ reach self.old + length xs.now * width }
    {
        for &x in xs {
            self.put(width, usize::from(x));
        }
    }

    // Draws seven zero bits, and writes each whole byte that is pending.
    pub fn close(&mut self)
        requires { HasRoom 7 self.old }
        ensures drawn { Draws (to_bits 7 0) self.old self.new }
        ensures reached { reach self.new ≡ reach self.old + 7 }
        ensures few { self.new.pen.count < 8 }
    {
        self.put(7, 0);
        while 8 <= self.pen.count {
            self.card[self.pen.at] = ((self.pen.pending >> (self.pen.count - 8)) % 256) as u8;
            self.pen.at += 1;
            self.pen.count -= 8;
        }
    }
}
