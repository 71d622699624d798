//! Where include lines lead.

ghost use Rattle.std.specs.Prelude.{◌≡◌, ◌++◌, ℕ, List, None, codes, false, true, IfOk};
ghost use Rattle.sudoers_line_rows.specs.View.{node_of_view};
ghost use Rattle.sudoers_tree.specs.Lead.{folder_of, lead_of_parsed_line, include_lead_of_line, resolved_include_path, name_without_trailing_slashes};

use crate::single_line::read_line;
use memchr::{memmem, memrchr};
use std::alloc::{AllocError, Global};
use sudoers_grammar::Items;
use sudoers_line_rows::Node;

/// Where an include line leads: to a file or to the files of a folder, by its name (sudoers(5), Including other files from within
/// sudoers).
#[derive(Debug, Drop)]
pub enum Lead {
    /// The file of this name.
    File(Items<u8>),
    /// The files of the folder of this name, which does not end in `/`.
    Dir(Items<u8>),
}

/// Returns the folder of the file `name`: its name up to its last `/`, which it holds; nothing if there is none.
pub fn folder_of(name: &[u8]) -> &[u8]
    ensures { result.now ≡ folder_of name.now }
{
    match memrchr(b'/', name) {
        Some(at) => &name[..at + 1],
        None => &[],
    }
}

/// Returns `name` without the `/` at its end, however many.
fn drop_trailing_slashes(name: &[u8]) -> &[u8]
    ensures { result.now ≡ name_without_trailing_slashes name.now }
{
    let mut front = name;
    while let Some((last, rest)) = front.split_last() {
        if *last != b'/' {
            break;
        }
        front = rest;
    }
    front
}

/// Returns the name to which `path` leads in the file `name`: `path` itself if it begins with `/`, else the folder of the file and `path`.
fn resolve_include_path(alloc: Global, name: &[u8], path: &[u8]) -> Result<Vec<u8>, AllocError>
    ensures { IfOk result (λ whole. whole.items ≡ resolved_include_path name.now path.now) }
{
    if path.first() == Some(&b'/') {
        return Vec::from_slice(alloc, path);
    }
    let mut whole = Vec::from_slice(alloc, folder_of(name))?;
    whole.extend_from_slice(path)?;
    Ok(whole)
}

/// Returns where a line that says `node` leads in the file `name`.
///
/// # Errors
///
/// Memory ran out.
pub fn lead_of_include_node(
    alloc: Global,
    name: &[u8],
    node: &Node<'_>,
) -> Result<Option<Lead>, AllocError>
    ensures { IfOk result (λ lead. lead ≡ lead_of_parsed_line name.now (node_of_view node.now)) }
{
    let Node::Include { dir, path } = *node else {
        return Ok(None);
    };
    let whole = resolve_include_path(alloc, name, path)?;
    if dir {
        let folder = Items::from_slice(alloc, drop_trailing_slashes(whole.as_slice()))?;
        return Ok(Some(Lead::Dir(folder)));
    }
    Ok(Some(Lead::File(Items::from_vec(whole))))
}

/// Returns whether a line of `text` may lead somewhere. If it returns false, no part of `text` leads anywhere; if true, the bytes
/// `include` stand in `text`.
pub fn may_include_files(text: &[u8]) -> bool
    ensures nowhere { result ≡ false → (name before line after : List ℕ) → text.now ≡ before ++ (line ++ after) → include_lead_of_line name line ≡ None }
    ensures held { result ≡ true → (before : List ℕ) × (after : List ℕ) × (text.now ≡ before ++ (codes "include" ++ after)) }
{
    // Each word with which an include begins has these bytes.
    memmem::find(text, b"include").is_some()
}

/// Returns where the line `line` of the file `name` leads. Bytes that are not one line that parses lead nowhere.
///
/// # Errors
///
/// Memory ran out.
pub fn leads(alloc: Global, name: &[u8], line: &[u8]) -> Result<Option<Lead>, AllocError>
    ensures { IfOk result (λ lead. lead ≡ include_lead_of_line name.now line.now) }
{
    if !may_include_files(line) {
        return Ok(None);
    }
    parse_lead_of_line(alloc, name, line)
}

/// Returns where the line `line` of the file `name` leads. Parses the line for that.
fn parse_lead_of_line(alloc: Global, name: &[u8], line: &[u8]) -> Result<Option<Lead>, AllocError>
    ensures { IfOk result (λ lead. lead ≡ include_lead_of_line name.now line.now) }
{
    match read_line(alloc, line)? {
        Some(reading) => lead_of_include_node(alloc, name, &reading.node()),
        None => Ok(None),
    }
}
