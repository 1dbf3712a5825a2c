// A part of what is read.

// A part of a text or of a frame, and where it begins there.
#[derive(Clone, Copy, PartialEq, Eq, Debug)]
pub struct Part<'a> {
    pub bytes: &'a [u8],
    pub at: usize,
}
