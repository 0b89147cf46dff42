ghost use Rattle.std.specs.Prelude.{◌≡◌, ◌+◌, ◌<◌, ◌≤◌, [], ◌∷◌, ◌++◌, length, take, drop};
ghost use Rattle.lexer.specs.Fields.{spelled};
ghost use Rattle.grammar.specs.Names.{number_of};
ghost use Rattle.grammar.specs.Reading.{entry};
ghost use Rattle.arrayvec.specs.ArrayVec.{array_vec_len};
ghost use Rattle.reader.specs.Marked.{Within};

use super::source::Source;
use arrayvec::ArrayVec;
use lexer::Name;

/// A name that a text declares: where it stands in the text, and the number of what it names.
/// A text has at most 8192 bytes, so small numbers do.
#[derive(Clone, Copy, Default)]
struct Mark {
    from: u16,
    to: u16,
    number: u16,
}

/// The names that a text declares, at most so many, and the number of what each names.
/// They lie in a vector of a fixed size, as marks in the text and not as its parts, since there is no heap: 6 bytes for each.
#[derive(Drop)]
pub(crate) struct Names<'a, const N: usize> {
    text: &'a [u8],
    marks: ArrayVec<Mark, N>,
    ghost short: { length text.now ≤ 8192 },
    ghost within: { Within text.now marks.items },
}

impl<'a, const N: usize> Names<'a, N> {
    ghost use Rattle.reader.specs.Entries.{entries_in};

    /// No names, of the text that is read.
    pub(crate) fn new(source: Source<'a>) -> Names<'a, N>
        ensures text { result.text.now ≡ source.entry.lexer.text.now }
        ensures none { array_vec_len result.marks ≡ 0 }
    {
        Names {
            text: source.lexer.text(),
            marks: ArrayVec::new(),
        }
    }

    pub(crate) fn len(&self) -> usize
        ensures value { result ≡ array_vec_len self.now.marks }
        ensures fits { result ≤ N }
    {
        self.marks.len()
    }

    /// The number of what the name stands for, if it is declared.
    pub(crate) fn get(&self, name: &[u8]) -> Option<usize>
        ensures { result ≡ number_of (entries_in self.now) name.now }
    {
        // No map without a heap, and no `find`: its closure could not know that each mark lies in the text.
        for mark in self.marks.as_slice() {
            if &self.text[usize::from(mark.from)..usize::from(mark.to)] == name {
                return Some(usize::from(mark.number));
            }
        }
        None
    }

    /// One name more, which lies in the text.
    pub(crate) fn declare(&mut self, name: Name, number: usize)
        requires room { array_vec_len self.old.marks < N }
        requires small { number ≤ 96 }
        requires inside { name.place.at + length name.text.now ≤ length self.old.text.now }
        requires part { name.text.now ≡ take (length name.text.now) (drop name.place.at self.old.text.now) }
        ensures text { self.new.text.now ≡ self.old.text.now }
        ensures count { array_vec_len self.new.marks ≡ array_vec_len self.old.marks + 1 }
        ensures entries { entries_in self.new ≡ entries_in self.old ++ entry (spelled name.entry) number ∷ [] }
    {
        let from = name.place.at;
        let to = from + name.text.len();
        self.marks.push(Mark {
            from: from as u16,
            to: to as u16,
            number: number as u16,
        });
    }
}
