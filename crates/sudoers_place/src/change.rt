//! What is to be put in place, and why it was not.

/// What stands under a path.
#[derive(Drop)]
pub enum Content {
    /// A file with these bytes.
    Bytes(Vec<u8>),
    /// No file, or one without bytes.
    NoFile,
}

/// A file to put in place.
#[derive(Drop)]
pub struct Change {
    /// A number by which the caller knows the file.
    pub number: usize,
    /// The path of the file. No link is at it.
    pub path: Vec<u8>,
    /// The path beside it at which the file is written first. Nothing is there: a file that is there stays.
    pub temp: Vec<u8>,
    /// What stood there before the edits.
    pub before: Content,
    /// What is to stand there.
    pub after: Content,
    /// Whether `after` stands there already, so that the file stays as it is. If not, `before` has to stand there. [`place`](crate::place)
    /// finds it out.
    pub is_done: bool,
}

/// The output of the edits, which is on the disk, and from which the files can be put back.
#[derive(Drop)]
pub struct Output {
    pub path: Vec<u8>,
    pub bytes: Vec<u8>,
}

/// Why files were not put in place. A number is that of a [`Change`].
#[derive(Clone, Copy, PartialEq, Eq)]
pub enum PlaceFault {
    /// Two of the paths are the same. No file was touched.
    SamePath,
    /// The output cannot be read, or cannot be brought to the disk. No file was touched.
    OutputNotKept,
    /// The output has other bytes. No file was touched.
    OutputChanged,
    /// The new file cannot be written. No file was touched.
    NotWritten(usize),
    /// The file cannot be read. No file was touched.
    NotRead(usize),
    /// Other bytes stand there than are expected. No file was touched.
    Changed(usize),
    /// The file cannot be replaced. Files before it may be in place.
    NotMoved(usize),
    /// The disk did not say that it keeps the file. All files are in place, as a reader finds them.
    NotKept(usize),
}
