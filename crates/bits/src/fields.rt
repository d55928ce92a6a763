// Numbers read from the bits of a slice of bytes, most significant bit first. A bit behind the end counts as 0.
ghost use Rattle.std.specs.Prelude.{◌≡◌, ◌+◌, ◌-◌, ◌*◌, ◌≤◌, length, get_or};
ghost use Rattle.bits.specs.Fields.{longest, field_at, fields_at, ends_at};
ghost use Rattle.bits.specs.Eyes.{Sees};

// An eye on bytes, at the place of a bit: the byte that it reads next, and the bits that it holds before that byte, the lowest `held` of a
// number. A contract speaks of the bytes and the place, its sight.
#[derive(Clone, Copy)]
pub struct Eye<'a> {
    pub bytes: &'a [u8],
    pub next: usize,
    pub held: usize,
    pub word: usize,
    ghost sees: { Sees bytes.now next held word },
}

// The byte at a place.
fn byte(bytes: &[u8], i: usize) -> u8
    ensures { result ≡ get_or bytes.now i 0 }
{
    bytes.get(i).copied().unwrap_or(0)
}

// The 32 bits from a byte on: where all four bytes are there none is tested, so that they are one load. The others go by a number of
// 64 bits, since with 32 the compiler joined the two ways, and the load took a jump more.
fn window(bytes: &[u8], i: usize) -> usize
    requires { i ≤ longest }
    ensures { result ≡ field_at bytes.now (i * 8) 32 }
{
    if i + 4 <= bytes.len() {
        // `as`, since Rust has no From of a u32 for a usize.
        u32::from_be_bytes([bytes[i], bytes[i + 1], bytes[i + 2], bytes[i + 3]]) as usize
    } else {
        let first = byte(bytes, i);
        let second = byte(bytes, i + 1);
        let third = byte(bytes, i + 2);
        let fourth = byte(bytes, i + 3);
        usize::from_be_bytes([0, 0, 0, 0, first, second, third, fourth])
    }
}

impl<'a> Eye<'a> {
    ghost use Rattle.bits.specs.Sights.{sight, sight_of};

    // An eye on the bits from a place on.
    pub fn new(bytes: &'a [u8], at: usize) -> Eye<'a>
        requires { at ≤ longest }
        ensures { sight_of result ≡ sight bytes.now at }
    {
        Eye {
            bytes,
            next: at / 8 + 4,
            held: 32 - at % 8,
            word: window(bytes, at / 8),
        }
    }

    // The number of `width` bits at the place, and the eye moves on behind it. It reads four bytes at once, and only where it holds too few.
    #[tactic(auto, unfolding(crate::specs::Sights::sight_of))]
    pub fn take(&mut self, width: usize) -> usize
        requires { (width ≤ 16) × ((sight_of self.old).at ≤ longest) }
        ensures number { let s = sight_of self.old in result ≡ field_at s.bytes s.at width }
        ensures onward { let s = sight_of self.old in sight_of self.new ≡ sight s.bytes (s.at + width) }
    {
        if self.held < width {
            self.word = (self.word << 32) + window(self.bytes, self.next);
            self.next += 4;
            self.held += 32;
        }
        self.held -= width;
        (self.word >> self.held) % intake::power(width)
    }

    // Fills a list with the numbers of `width` bits each that follow. The eye comes by value, so that it is in registers, and the loop
    // stands by itself: inlined into its callers it took longer.
    #[inline(never)]
    pub fn fill(mut self, width: usize, out: &mut [u16])
        requires { (width ≤ 16) × ((sight_of self).at + length out.old * width ≤ longest) }
        ensures { let s = sight_of self.entry in out.new ≡ fields_at s.bytes s.at width (length out.old) }
    {
        for item in out {
            // Of at most 16 bits, so that it fits.
            *item = self.take(width) as u16;
        }
    }
}

// Whether the bytes end with the byte of this place, and the bits from the place on are 0.
pub fn ends(bytes: &[u8], at: usize) -> bool
    requires { at ≤ longest }
    ensures { result ≡ ends_at bytes.now at }
{
    let whole = at.div_ceil(8);
    bytes.len() == whole && Eye::new(bytes, at).take(whole * 8 - at) == 0
}
