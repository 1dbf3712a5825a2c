// A scratch of fixed size, into which contents are written before they are copied out at once.
ghost use Rattle.std.specs.Prelude.{◌≡◌, ◌+◌, ◌^◌, ◌<◌, ◌≤◌, [], ◌∷◌, decimal};
ghost use Rattle.notation.specs.Digits.{digits};
ghost use Rattle.pieces.specs.Notation.{print, dec};
ghost use Rattle.pieces.specs.Plain.{places, whole_text, fraction_text, plain};
ghost use Rattle.pieces.specs.Scratches.{held, Grown, Copied};

use crate::decimals::Scale;
use arrayvec::ArrayVec;

// How many bytes it has room for. The longest text of a trade has 276; what is written past the room is let go.
const ROOM: usize = 320;

// Bytes written so far.
#[derive(Drop)]
pub struct Scratch {
    bytes: ArrayVec<u8, ROOM>,
}

impl Scratch {
    pub fn new() -> Scratch
        ensures empty { held result ≡ [] }
    {
        Scratch {
            bytes: ArrayVec::new(),
        }
    }

    // Writes one byte.
    pub fn push(&mut self, b: u8)
        ensures grown { Grown self.old self.new (b ∷ []) }
    {
        if !self.bytes.is_full() {
            self.bytes.push(b);
        }
    }

    // Writes bytes as they are.
    pub fn append(&mut self, xs: &[u8])
        ensures grown { Grown self.old self.new xs.now }
    {
        for b in xs {
            self.push(*b);
        }
    }

    // Writes a number with so many digits.
    pub fn digits(&mut self, width: usize, n: u32)
        ensures grown { Grown self.old self.new (digits width n) }
    {
        if width > 0 {
            self.digits(width - 1, n / 10);
            self.push(b'0' + (n % 10) as u8);
        }
    }

    // Writes a number without leading zeros.
    fn number(&mut self, n: u64)
        ensures { Grown self.old self.new (decimal n) }
    {
        if n >= 10 {
            self.number(n / 10);
        }
        self.push(b'0' + (n % 10) as u8);
    }

    // Writes what stands before the comma: nothing for 0.
    fn whole(&mut self, n: u64)
        ensures { Grown self.old self.new (whole_text n) }
    {
        if n > 0 {
            self.number(n);
        }
    }

    // Writes what stands after the comma, as far as the last digit that is not 0.
    fn fraction(&mut self, r: u64, places: u32)
        requires { (r < 10 ^ places) × (places ≤ 18) }
        ensures { Grown self.old self.new (fraction_text places r) }
    {
        let mut rest = r;
        // a `for` over the exponents themselves, downwards
        for k in (0..places).rev() {
            let unit = 10u64.pow(k);
            self.push(b'0' + (rest / unit) as u8);
            rest %= unit;
            if rest == 0 {
                break;
            }
        }
    }

    // Writes units of a scale as a decimal.
    pub fn decimal(&mut self, units: u64, scale: Scale)
        ensures grown { Grown self.old self.new (print (dec 0 0) (plain (places scale) units)) }
    {
        let unit = scale.unit();
        self.whole(units / unit);
        self.push(b',');
        self.fraction(units % unit, scale.places() as u32);
    }

    // Copies all to the front of an output that is long enough, and answers how much it was.
    pub fn copy_to(&self, out: &mut [u8]) -> Option<usize>
        ensures copied { Copied (held self.now) out.old out.new result }
    {
        let text = self.bytes.as_slice();
        if out.len() < text.len() {
            return None;
        }
        out[..text.len()].copy_from_slice(text);
        Some(text.len())
    }
}
