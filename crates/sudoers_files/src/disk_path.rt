//! Names as paths of a disk.

use std::alloc::{AllocError, Global};
use std::io::ErrorKind;
use std::rt::Files as FileSystem;
use std::{fs, io};

/// How many links a name may lead through.
const LINK_LIMIT: usize = 40;

/// How many bytes a name or the target of a link has at most.
const NAME_LIMIT: usize = 4_095;

/// More parts than a name and the targets of its links have together.
const PART_LIMIT: usize = (LINK_LIMIT + 1) * (NAME_LIMIT + 2);

/// Returns the path on the disk of the file or the folder `name`, for a system whose root and current folder are the folder `top`. Below
/// `top` no part of the path is a link.
///
/// # Errors
///
/// Those of the disk. `FilesystemLoop`: the name leads through more than 40 links. `InvalidData`: a link leads to a name that is not UTF-8,
/// or the path is too long for the disk.
pub fn resolve_path_below<S: FileSystem>(
    system: &S,
    alloc: Global,
    top: &str,
    name: &str,
) -> io::Result<String> {
    if name.is_empty() {
        return Err(io::Error::from(ErrorKind::NotFound));
    }
    if name.len() > NAME_LIMIT {
        return Err(io::Error::from(ErrorKind::InvalidFilename));
    }
    let mut way = PathResolution::new(alloc, name)?;
    for turn in 0..PART_LIMIT {
        // Only the proof uses this number.
        let _ = turn;
        let Some(rest) = way.rest.take() else {
            return way.join_top_and_resolved_parts(alloc, top);
        };
        way.resolve_next_part(system, alloc, top, rest.as_str())?;
    }
    Err(io::Error::from(ErrorKind::FilesystemLoop))
}

/// A name on its way to a path: the folders to which it has led, and the rest of it.
#[derive(Drop)]
struct PathResolution {
    parts: Vec<String>,
    rest: Option<String>,
    links: usize,
}

impl PathResolution {
    /// Returns the way of `name`, of which no part was looked up yet.
    fn new(alloc: Global, name: &str) -> Result<PathResolution, AllocError> {
        Ok(PathResolution {
            parts: Vec::new(alloc),
            rest: Some(String::from_str(alloc, name)?),
            links: 0,
        })
    }

    /// Returns the path to which the way has led, below the folder `top`. The disk takes no longer path than a name, where the system whose
    /// root is `top` may find the file.
    fn join_top_and_resolved_parts(&self, alloc: Global, top: &str) -> io::Result<String> {
        let mut path = String::from_str(alloc, top)?;
        for part in self.parts.as_slice() {
            path.push('/')?;
            path.push_str(part.as_str())?;
        }
        if is_path_too_long(path.as_str()) {
            return Err(io::Error::from(ErrorKind::InvalidData));
        }
        Ok(path)
    }

    /// Looks up the first part of `rest`, which is left of the name.
    fn resolve_next_part<S: FileSystem>(
        &mut self,
        system: &S,
        alloc: Global,
        top: &str,
        rest: &str,
    ) -> io::Result<()> {
        let (part, after) = match rest.split_once('/') {
            Some((part, after)) => (part, Some(after)),
            None => (rest, None),
        };
        match part {
            "" => self.set_unresolved_rest(alloc, after),
            "." => {
                self.check_folder_searchable(system, alloc, top)?;
                self.set_unresolved_rest(alloc, after)
            }
            ".." => {
                self.check_folder_searchable(system, alloc, top)?;
                let _ = self.parts.pop();
                self.set_unresolved_rest(alloc, after)
            }
            _ => self.enter_part_or_link(system, alloc, top, part, after),
        }
    }

    /// Keeps `after` as the rest of the name.
    fn set_unresolved_rest(&mut self, alloc: Global, after: Option<&str>) -> io::Result<()> {
        if let Some(after) = after {
            self.rest = Some(String::from_str(alloc, after)?);
        }
        Ok(())
    }

    /// Returns an error if the folder to which the way has led may not be searched.
    fn check_folder_searchable<S: FileSystem>(
        &self,
        system: &S,
        alloc: Global,
        top: &str,
    ) -> io::Result<()> {
        let mut path = self.join_top_and_resolved_parts(alloc, top)?;
        path.push_str("/.")?;
        if is_path_too_long(path.as_str()) {
            return Err(io::Error::from(ErrorKind::InvalidData));
        }
        fs::metadata(system, path.as_str())?;
        Ok(())
    }

    /// Goes to `part` in the folder to which the way has led, or to where that leads as a link. `after` is the rest of the name.
    fn enter_part_or_link<S: FileSystem>(
        &mut self,
        system: &S,
        alloc: Global,
        top: &str,
        part: &str,
        after: Option<&str>,
    ) -> io::Result<()> {
        self.parts.push(String::from_str(alloc, part)?)?;
        let path = self.join_top_and_resolved_parts(alloc, top)?;
        let metadata = fs::symlink_metadata(system, path.as_str())?;
        if metadata.is_symlink() {
            let _ = self.parts.pop();
            return self.follow_link_target(
                alloc,
                read_link_target(system, alloc, path.as_str())?,
                after,
            );
        }
        if after.is_some() && !metadata.is_dir() {
            return Err(io::Error::from(ErrorKind::NotADirectory));
        }
        self.set_unresolved_rest(alloc, after)
    }

    /// Goes to the target `target` of a link. `after` is the rest of the name.
    fn follow_link_target(
        &mut self,
        alloc: Global,
        target: String,
        after: Option<&str>,
    ) -> io::Result<()> {
        if self.links >= LINK_LIMIT {
            return Err(io::Error::from(ErrorKind::FilesystemLoop));
        }
        self.links += 1;
        if target.starts_with('/') {
            self.parts = Vec::new(alloc);
        }
        let mut rest = target;
        if let Some(after) = after {
            rest.push('/')?;
            rest.push_str(after)?;
        }
        self.rest = Some(rest);
        Ok(())
    }
}

/// Returns whether the disk refuses the path `path` for its length.
pub fn is_path_too_long(path: &str) -> bool {
    path.len() > NAME_LIMIT
}

/// Returns the target of the link `path`.
fn read_link_target<S: FileSystem>(system: &S, alloc: Global, path: &str) -> io::Result<String> {
    match system.read_link(alloc, path) {
        Ok(target) => Ok(target.into_string()),
        Err(error) if error.kind() == ErrorKind::InvalidFilename => Err(io::Error::from(
            ErrorKind::InvalidData,
        )),
        Err(error) => Err(error),
    }
}
