// A refusal in words, with the line of the text where it stands.
use notation::refusals::Refusal;
use std::io;
use std::io::Write;

// A trade that no text means.
pub fn tell_write_fault(rt: &HostRuntime, refusal: Refusal) -> io::Result<()> {
    println!(rt; "refused: {refusal}")
}

// A text that is refused, with its line and a caret under the byte.
pub fn tell_text_fault(rt: &HostRuntime, text: &[u8], refusal: Refusal) -> io::Result<()> {
    println!(rt; "refused: {refusal}")?;
    let at = refusal.offset.min(text.len());
    let (before, after) = text.split_at(at);
    let start = before.rsplit(|b| *b == b'\n').next().unwrap_or_default();
    let rest = after.split(|b| *b == b'\n').next().unwrap_or_default();
    let line = text
        .get(at.saturating_sub(start.len())..at.saturating_add(rest.len()))
        .unwrap_or_default();
    show(rt, line.strip_suffix(b"\r").unwrap_or(line))?;
    for _ in start {
        print!(rt; " ")?;
    }
    println!(rt; "^")
}

// A line; bytes that a terminal cannot show are shown as dots.
fn show(rt: &HostRuntime, bytes: &[u8]) -> io::Result<()> {
    for b in bytes {
        let shown = if b.is_ascii_graphic() || *b == b' ' {
            *b
        } else {
            b'.'
        };
        rt.stdout().write_all(&[shown])?;
    }
    println!(rt; "")
}
