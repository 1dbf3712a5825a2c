// Where contents end.
ghost use Rattle.std.specs.Prelude.{◌≡◌, ℕ, ◌+◌, ◌<◌, length, IfSome, MatchOption, ◌≢◌, slice_index};
ghost use Rattle.walk.specs.Lines.{Ends, Endless};

// Where the first CR LF stands.
fn line_end(s: &[u8]) -> Option<usize>
    ensures found { MatchOption result ((k : ℕ) → k + 1 < length s.now → slice_index s.now k ≡ 13 → slice_index s.now (k + 1) ≢ 10) (λ i. (i + 1 < length s.now) × (slice_index s.now i ≡ 13) × (slice_index s.now (i + 1) ≡ 10)) }
    ensures before { IfSome result (λ i. (k : ℕ) → k < i → slice_index s.now k ≡ 13 → slice_index s.now (k + 1) ≢ 10) }
{
    s.windows(2).position(|pair| pair == b"\r\n".as_slice())
}

// The contents up to the first CR LF, and the rest after it.
pub fn split_line(s: &[u8]) -> Option<(&[u8], &[u8])>
    ensures at_the_first_break { MatchOption result (Endless s.now) (λ x. Ends s.now x.0.now x.1.now) }
{
    let end = line_end(s)?;
    Some((&s[..end], &s[end + 2..]))
}
