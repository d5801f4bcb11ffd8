// A table that grows in memory which the caller lends, one for every kind of record.
//
// An entry goes by its key, its place from 0. Contracts speak of the entries and the room alone, never of the cells.
#![tactic(auto)]

ghost use Rattle.std.specs.Prelude.{◌≡◌, ◌≤◌, [], length};
ghost use Rattle.std.specs.List.{slice_get};
ghost use Rattle.table.specs.Held.{pushed, written, cut};

use std::marker::Model;

// The table has no room for another entry.
#[derive(Clone, Copy, Debug, PartialEq, Eq)]
pub struct Full;

// The entries are the first `count` cells.
#[derive(Drop)]
pub struct Table<'a, T> {
    cells: &'a mut [T],
    count: usize,
}

impl<'a, T> Model for Table<'a, T> {
    ghost use Rattle.std.specs.Prelude.{◌≤◌, length, take};
    ghost use Rattle.table.specs.Held.{Held};

    ghost Value = { Held T };

    ghost view = { λ t. record { held = take t.count t.cells.now; room = length t.cells.now } };

    ghost invariant = { λ t. t.count ≤ length t.cells.now };
}

impl<'a, T: Copy> Table<'a, T> {
    pub fn new(cells: &'a mut [T]) -> Self
        ensures { result ≡ record { held = []; room = length cells.old } }
    {
        Table { cells, count: 0 }
    }

    pub fn room(&self) -> usize
        ensures value { result ≡ self.now.room }
        ensures fits { length self.now.held ≤ self.now.room }
    {
        self.cells.len()
    }

    pub fn count(&self) -> usize
        ensures { result ≡ length self.now.held }
    {
        self.entries().len()
    }

    pub fn entries(&self) -> &[T]
        ensures { result.now ≡ self.now.held }
    {
        &self.cells[..self.count]
    }

    pub fn get(&self, key: usize) -> Option<T>
        ensures { result ≡ slice_get self.now.held key }
    {
        self.entries().get(key).copied()
    }

    // Adds an entry, and answers its key.
    pub fn push(&mut self, item: T) -> Result<usize, Full>
        ensures { (result, self.new) ≡ pushed self.old item }
    {
        let key = self.count;
        if key == self.cells.len() {
            return Err(Full);
        }
        self.cells[key] = item;
        self.count = key + 1;
        Ok(key)
    }

    // Writes over an entry that is there, and answers what stood there.
    pub fn replace(&mut self, key: usize, item: T) -> Option<T>
        ensures value { result ≡ slice_get self.old.held key }
        ensures after { self.new ≡ written self.old key item }
    {
        let entries = &mut self.cells[..self.count];
        let old = entries.get(key).copied()?;
        entries[key] = item;
        Some(old)
    }

    // Drops the entries whose keys are `count` or more.
    pub fn truncate(&mut self, count: usize)
        ensures { self.new ≡ cut count self.old }
    {
        self.count = self.count.min(count);
    }
}

#[cfg(test)]
mod tests {
    use super::*;

    #[derive(Clone, Copy, Debug, PartialEq)]
    struct Span {
        from: u32,
        to: u32,
    }

    #[derive(Clone, Copy, Debug, PartialEq)]
    enum Shape {
        Empty,
        Line(Span),
    }

    #[test]
    fn a_full_table_refuses(rt: HostRuntime) {
        let mut cells = [0u32; 2];
        let mut table = Table::new(&mut cells);
        assert_eq!(rt; table.push(7), Ok(0));
        assert_eq!(rt; table.push(8), Ok(1));
        assert_eq!(rt; table.push(9), Err(Full));
        assert_eq!(rt; table.get(1), Some(8));
        table.truncate(1);
        assert_eq!(rt; table.get(1), None);
        assert_eq!(rt; table.room(), 2);
    }

    #[test]
    fn records_and_variants(rt: HostRuntime) {
        let span = Span { from: 1, to: 2 };
        let mut spans = [span; 1];
        let mut spans = Table::new(&mut spans);
        assert_eq!(rt; spans.push(span), Ok(0));
        assert_eq!(rt; spans.replace(0, Span { from: 3, to: 4 }), Some(span));
        assert_eq!(rt; spans.replace(1, span), None);
        assert_eq!(rt; spans.get(0), Some(Span { from: 3, to: 4 }));
        let mut shapes = [Shape::Empty; 3];
        let mut shapes = Table::new(&mut shapes);
        assert_eq!(rt; shapes.push(Shape::Line(span)), Ok(0));
        assert_eq!(rt; shapes.entries().len(), 1);
        assert_eq!(rt; shapes.get(0), Some(Shape::Line(span)));
    }
}
