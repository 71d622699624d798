//! Places in a policy.

/// The place of a definition: the number of its line on the walk, and its number in that line, both from 0.
#[derive(Clone, Copy, Debug, PartialEq, Eq)]
pub struct Place {
    pub line: usize,
    pub def: usize,
}

/// A part of a line: the number of the line on the walk, and its offsets from `start` up to, but not with, `stop`, all from 0.
#[derive(Clone, Copy, Debug, PartialEq, Eq)]
pub struct Span {
    pub line: usize,
    pub start: usize,
    pub stop: usize,
}

/// Where a line of the walk stands: the number of its file, its own number there, both from 0, and the physical line of the file on
/// which it begins, from 1.
#[derive(Clone, Copy, Debug, PartialEq, Eq)]
pub struct WalkLineSpot {
    pub file: usize,
    pub line: usize,
    pub row: usize,
}

/// The place of a definition in a file: the number of the file, that of its line there, and its own number in that line, all from 0.
#[derive(Clone, Copy, Debug, PartialEq, Eq)]
pub struct DefinitionFilePlace {
    pub file: usize,
    pub line: usize,
    pub def: usize,
}

/// A part of a line of a file: the number of the file, that of the line there, and its offsets from `start` up to, but not with, `stop`,
/// all from 0.
#[derive(Clone, Copy, Debug, PartialEq, Eq)]
pub struct FileSpan {
    pub file: usize,
    pub line: usize,
    pub start: usize,
    pub stop: usize,
}
