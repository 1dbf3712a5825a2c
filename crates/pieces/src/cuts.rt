// Runs of bytes: what stands at the front of contents, and the rest.
ghost use Rattle.std.specs.Prelude.{◌≡◌, ℕ, ◌<◌, ◌≤◌, min, List, ◌∷◌, length, take, Decides, MatchOption, ◌≢◌, slice_index};
ghost use Rattle.notation.specs.Digits.{value};
ghost use Rattle.notation.specs.declared.classes.Class.TheVariants.{Digit};
ghost use Rattle.pieces.specs.Cuts.{Cut, NotSlash, Front, seen_both, seen_rest};
ghost use Rattle.pieces.specs.Notation.{Of, Finds, exactly, number};
ghost use Rattle.std.specs.List.{AllByRecursion};
ghost use Rattle.std.proofs.Props.{props};

use notation::classes::Class;

// Whether each byte is of the class.
pub fn all_of(s: &[u8], class: Class) -> bool
    ensures each_of_the_class { Decides result (AllByRecursion (Of class) s.now) }
{
    s.iter().all(|b| class.has(*b))
}

// How many digits stand at the front.
pub fn leading_digits(s: &[u8]) -> usize
    ensures within { result ≤ length s.now }
    ensures digits { AllByRecursion (Of Digit) (take result s.now) }
    ensures stops { result < length s.now → Of Digit (slice_index s.now result) → ⊥ }
{
    s.iter()
        .position(|b| !Class::Digit.has(*b))
        .unwrap_or(s.len())
}

// Digits and nothing else. It holds a proof beside its bytes, and nothing compares or prints it.
#[derive(Clone, Copy)]
pub struct Digits<'a> {
    bytes: &'a [u8],
    ghost alone: { AllByRecursion (Of Digit) bytes.now } by { Prim.hlevel props },
}

impl<'a> Digits<'a> {
    // The bytes themselves.
    pub fn as_slice(self) -> &'a [u8]
        ensures the_bytes { result.now ≡ self.entry.bytes.now }
    {
        self.bytes // as they stand in the contents
    }

    // How many they are.
    pub fn len(self) -> usize
        ensures all_of_them { result ≡ length self.entry.bytes.now }
    {
        self.bytes.len()
    }

    // The number that they write, if they are few enough that it fits.
    pub(crate) fn number(self) -> u64
        requires few { length self.bytes.now ≤ 18 }
        ensures as_written { result ≡ value self.entry.bytes.now }
    {
        let mut n = 0;
        for b in self.bytes {
            n = n * 10 + u64::from(*b - b'0');
        }
        n
    }
}

// The digits at the front, and the rest.
pub fn split_digits(s: &[u8]) -> (Digits<'_>, &[u8])
    ensures at_the_first_other { Cut (Of Digit) s.now result.0.bytes.now result.1.now }
{
    let (bytes, rest) = s.split_at(leading_digits(s));
    (Digits { bytes }, rest)
}

// How many bytes stand before the first slash. One line as above; a function over the test would have to say in its contract what the
// test means, and be no plainer.
fn before_slash(s: &[u8]) -> usize
    ensures within { result ≤ length s.now }
    ensures others { AllByRecursion NotSlash (take result s.now) }
    ensures stops { result < length s.now → NotSlash (slice_index s.now result) → ⊥ }
{
    s.iter().position(|b| *b == b'/').unwrap_or(s.len())
}

// What stands before the first slash, and the rest.
pub fn split_slash(s: &[u8]) -> (&[u8], &[u8])
    ensures at_the_first_slash { Cut NotSlash s.now result.0.now result.1.now }
{
    s.split_at(before_slash(s))
}

// What follows the byte `b` at the front.
pub fn after(s: &[u8], b: u8) -> Option<&[u8]>
    ensures follows { MatchOption result ((t : List ℕ) → s.now ≢ b ∷ t) (λ t. s.now ≡ b ∷ t.now) }
{
    s.strip_prefix(&[b])
}

// The first `n` bytes, if they are of the class, and the rest.
pub fn front_of(s: &[u8], n: usize, class: Class) -> Option<(&[u8], &[u8])>
    ensures stands_in_front { Front (exactly n class) s.now (seen_both result) }
{
    let (head, rest) = s.split_at_checked(n)?;
    all_of(head, class).then_some((head, rest))
}

// The number of so many digits, 9 at most, at the front, and the rest.
pub fn front_number(s: &[u8], width: usize) -> Option<(u32, &[u8])>
    ensures stands_in_front { Front (number (min width 9)) s.now (seen_rest result) }
{
    let (bytes, rest) = front_of(s, width.min(9), Class::Digit)?;
    let digits = Digits { bytes };
    Some((digits.number() as u32, rest))
}

// The number that contents of so many digits write, 9 at most.
pub fn read_number(s: &[u8], width: usize) -> Option<u32>
    ensures as_written { Finds (number (min width 9)) s.now result }
{
    let (n, rest) = front_number(s, width)?;
    rest.is_empty().then_some(n)
}
