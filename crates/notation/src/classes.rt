// Classes of bytes, by the letters that the formats are written with: n, a, c and x.
ghost use Rattle.notation.specs.Classes.{is_digit, is_capital, is_free, is_of};
ghost use Rattle.std.specs.Prelude.{◌≡◌};

#[derive(Clone, Copy, PartialEq, Eq, Debug)]
pub enum Class {
    // n: a digit
    Digit,
    // a: a capital letter
    Capital,
    // c: a digit or a capital letter
    Either,
    // x: a letter of either case, a digit, a space, or one of / - ? : ( ) . , ' +
    Free,
}

impl Class {
    pub fn has(self, b: u8) -> bool
        ensures by_class { result ≡ is_of self b }
    {
        match self {
            Class::Digit => is_digit(b),
            Class::Capital => is_capital(b),
            Class::Either => is_digit(b) || is_capital(b),
            Class::Free => is_free(b),
        }
    }
}

pub fn is_digit(b: u8) -> bool
    ensures digits_alone { result ≡ is_digit b }
{
    b.is_ascii_digit()
}

pub fn is_capital(b: u8) -> bool
    ensures capitals_alone { result ≡ is_capital b }
{
    b.is_ascii_uppercase()
}

pub fn is_free(b: u8) -> bool
    ensures free_bytes_alone { result ≡ is_free b }
{
    b.is_ascii_alphanumeric()
        || matches!(
            b,
            b' ' | b'/' | b'-' | b'?' | b':' | b'(' | b')' | b'.' | b',' | b'\'' | b'+'
        )
}
