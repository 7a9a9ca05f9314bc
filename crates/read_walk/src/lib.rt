// The walk over the sections of a file (01, "Build, Read": "The walk is a reader that carries the borrowed file and an
// offset").
#![tactic(auto)]

ghost use Rattle.std.specs.Prelude.{◌≡◌};
ghost use Rattle.std.specs.Iterator.{at_most};
ghost use Rattle.sections.specs.Decode.{stated_section_size};
ghost use Rattle.read_walk.specs.SectionAt.{section_at};
ghost use Rattle.read_walk.specs.Walks.{Walks, bytes_left};

use codec::fields;

pub mod events;

// How many bytes the section at the front of the bytes has, by section_length: the bytes after its field.
pub fn stated_size(bytes: &[u8]) -> usize
    ensures { result ≡ stated_section_size bytes.now }
{
    3 + (fields::read_field(bytes, 1, 2) % 0x1000) as usize
}

// The bytes of the section at an offset, as far as the file has them; none at the file's end and behind it.
pub fn section_at(file: &[u8], offset: usize) -> &[u8]
    ensures { result.now ≡ section_at file.now offset }
{
    let rest = &file[offset.min(file.len())..];
    &rest[..stated_size(rest).min(rest.len())]
}

// A reader that carries the borrowed file and an offset: it gives each section from there on, and where it begins.
#[derive(Clone, Copy)]
pub struct SectionReader<'a> {
    pub file: &'a [u8],
    pub offset: usize,
}

impl<'a> Iterator for SectionReader<'a> {
    type Item = (usize, &'a [u8]);

    ghost next_gives = { Walks };

    ghost remaining = { λ s. at_most (bytes_left s) };

    fn next(&mut self) -> Option<(usize, &'a [u8])> {
        let offset = self.offset;
        if self.file.len() <= offset {
            return None;
        }
        let section = section_at(self.file, offset);
        self.offset += section.len();
        Some((offset, section))
    }
}

// A reader at an offset of a file.
pub fn sections_from(file: &[u8], offset: usize) -> SectionReader<'_>
    ensures { (result.file ≡ file.entry) × (result.offset ≡ offset) }
{
    SectionReader { file, offset }
}

// All sections of a file.
pub fn sections(file: &[u8]) -> SectionReader<'_>
    ensures { (result.file ≡ file.entry) × (result.offset ≡ 0) }
{
    sections_from(file, 0)
}
