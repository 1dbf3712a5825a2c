// The numbered table: place k has one entry or none.
#![tactic(auto)]

ghost use Rattle.std.specs.Prelude.{◌≡◌, length, replicate, Some, None, nat_lt, slice_index_or, slice_set};
ghost use Rattle.std.specs.Borrow.{sem};
ghost use Rattle.table.specs.Lent.{LendsEntries};
ghost use Rattle.table.specs.Places.{taken_places};

use std::marker::Model;

pub mod mask;

// A table over lent entries. A place past the last one counts as empty.
#[derive(Drop)]
pub struct Table<'a, E> {
    entries: &'a mut [Option<E>],
}

// A table is the list of its places.
impl<'a, E> Model for Table<'a, E> {
    ghost use Rattle.std.specs.Prelude.{List, Option};

    ghost Value = { List (Option E) };

    ghost view = { λ table. table.entries.now };
}

impl<'a, E: Copy> Table<'a, E> {
    // A table with every place empty, whatever the lent entries were.
    pub fn new(entries: &'a mut [Option<E>]) -> Table<'a, E>
        ensures all_empty { result ≡ replicate (length entries.old) None }
    {
        entries.fill(None);
        Table { entries }
    }

    // Empties every place.
    pub fn clear(&mut self)
        ensures all_empty { self.new ≡ replicate (length self.old) None }
    {
        self.entries.fill(None);
    }

    // How many places there are.
    pub fn places(&self) -> usize
        ensures answer { result ≡ length self.now }
    {
        self.entries.len()
    }

    pub fn get(&self, place: usize) -> Option<E>
        ensures answer { result ≡ slice_index_or self.now place None }
    {
        self.entries.get(place).copied().flatten()
    }

    // Puts the entry at the place, over any that stands there; no, and nothing changes, if there is no such place.
    pub fn put(&mut self, place: usize, entry: E) -> bool
        ensures answer { result ≡ nat_lt place (length self.old) }
        ensures entries_after { self.new ≡ slice_set self.old place (Some entry) }
    {
        // An index, and no `get_mut`: the library does not say what the entries are after that.
        let there = place < self.entries.len();
        if there {
            self.entries[place] = Some(entry);
        }
        there
    }

    // Empties the place, and gives what stood there.
    pub fn remove(&mut self, place: usize) -> Option<E>
        ensures answer { result ≡ slice_index_or self.old place None }
        ensures entries_after { self.new ≡ slice_set self.old place None }
    {
        if place >= self.entries.len() {
            return None;
        }
        self.entries[place].take()
    }

    // The places, to change in their order: the table then has the entries that were left there.
    pub fn entries_mut(&mut self) -> &mut [Option<E>]
        ensures* writes_back { sem 𝓛 (LendsEntries E.row self.entry result) }
        ensures value { result.now ≡ self.old }
    {
        self.entries // all of them, the empty ones too
    }

    // How many places have an entry.
    #[tactic(auto, using(crate::proofs::Places::taken_counted))]
    pub fn count(&self) -> usize
        ensures answer { result ≡ taken_places self.now }
    {
        self.entries.iter().filter(|entry| entry.is_some()).count()
    }
}
