// What the contents of a field mean, whatever field it is.
ghost use Rattle.pieces.specs.Rows.{Row, Reads, Checks, text_of};
ghost use Rattle.pieces.specs.Scratches.{Grown};

use crate::scratch::Scratch;
use notation::refusals::Why;

// What a field of the format table means: read from its contents, judged as if it were written, and written.
pub trait Contents: Sized {
    // its row of the format table
    ghost format: { Row Self };

    // What contents mean, or what is wrong with them.
    fn read(s: &[u8]) -> Result<Self, Why>
        ensures as_the_row_has_it { Reads format s.now result };

    // What is wrong with it, were it written.
    fn check(&self) -> Result<(), Why>
        ensures as_its_contents_would { Checks format self.now result };

    // Writes it as contents.
    fn write(&self, out: &mut Scratch)
        ensures as_the_row_has_it { Grown out.old out.new (text_of format self.now) };
}
