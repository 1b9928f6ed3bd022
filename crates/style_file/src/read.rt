//! Reading a style file.
ghost use Rattle.std.specs.Prelude.{◌≡◌, Some};
ghost use Rattle.style_file.specs.Refusals.{Gives};
ghost use Rattle.style_file.specs.Said.{file_said};
ghost use Rattle.style_file.specs.Files.{no_items};
ghost use Rattle.style_file.specs.Reading.{line_added, lines, going_on, file_of};
ghost use Rattle.style_file.specs.Read.{Adds, Reads};

use crate::file::{Fault, StyleFile};
use crate::line::{item, words_of};
use crate::refusal::Refusal;
use std::alloc::Global;

impl StyleFile {
    /// The file without items.
    fn new(heap: Global) -> StyleFile
        ensures { file_said result ≡ no_items }
    {
        StyleFile {
            rules: Vec::new(heap),
            marks: Vec::new(heap),
            house: Vec::new(heap),
            bytes: Vec::new(heap),
        }
    }

    /// Adds what the line says, if it is understood.
    fn add_line(&mut self, line: &[u8]) -> Result<(), Refusal>
        ensures { Gives (λ _. file_said self.new) result (line_added (file_said self.old) line.now) }
    {
        let words = words_of(*self.bytes.allocator(), line)?;
        let item = item(words.as_slice()).ok_or(Refusal::Misplaced)?;
        self.add(item)
    }

    /// Adds what the lines of the text say.
    fn add_lines(&mut self, text: &[u8]) -> Result<(), Fault>
        ensures { Adds (going_on 0 (Some (file_said self.old)) (lines text.now)) (file_said self.new) result }
    {
        for (i, line) in text.split(|b| *b == b'\n').enumerate() {
            self.add_line(line).map_err(|why| why.at(i + 1))?;
        }
        Ok(())
    }
}

/// The file that the text writes.
pub fn read(heap: Global, text: &[u8]) -> Result<StyleFile, Fault>
    ensures { Reads (file_of text.now) result }
{
    let mut file = StyleFile::new(heap);
    file.add_lines(text)?;
    Ok(file)
}
