//! What is printed behind the error of `edit`, for people.

use crate::explaining::{advice_of_fault, append_reason_of_file, explain_gather_fault};
use crate::file_trouble::FileTrouble;
use crate::files::{STDIN, TOP, words_of_error_kind};
use clap::ArgMatches;
use std::alloc::{AllocError, Global};
use std::fs;
use sudoers_explain::{append_help, explain_load_fault};
use sudoers_explain_edits::{
    EditHint, explain_bad_bundle, explain_missing_mark, explain_refused_edit, explain_script_fault,
    split_edit_input, words_of_edit_hint,
};
use sudoers_run::{LayerFault, ToolFault};
use sudoers_tree::{LoadFault, NamedFile};

/// The explanation of the error of a run of `edit`: whether errors are explained, whether one was, and the lines.
#[derive(Drop)]
pub struct EditExplanation {
    is_wanted: bool,
    is_explained: bool,
    lines: Vec<u8>,
}

impl EditExplanation {
    /// Returns an explanation without lines, for a run whose errors are explained if `is_wanted`.
    pub fn new(alloc: Global, is_wanted: bool) -> EditExplanation {
        EditExplanation {
            is_wanted,
            is_explained: false,
            lines: Vec::new(alloc),
        }
    }

    /// Returns whether errors are explained.
    pub fn is_wanted(&self) -> bool {
        self.is_wanted
    }

    /// Returns the lines.
    pub fn lines(&self) -> &[u8] {
        self.lines.as_slice()
    }

    /// Takes the lines `lines`; none if memory ran out.
    fn take_lines(&mut self, lines: Result<Vec<u8>, AllocError>) {
        self.is_explained = true;
        if let Ok(lines) = lines {
            self.lines = lines;
        }
    }

    /// Explains why the run on the input `input` ended with `fault`.
    pub fn explain_input(&mut self, alloc: Global, input: &[u8], fault: &ToolFault) {
        if self.is_wanted {
            self.take_lines(explain_input_fault(alloc, input, fault));
        }
    }

    /// Explains why the run of the script `script` on the files `files` ended with `fault`.
    pub fn explain_run(
        &mut self,
        alloc: Global,
        script: &[u8],
        files: &[NamedFile],
        fault: &LayerFault,
    ) {
        if self.is_wanted {
            self.take_lines(explain_layer_fault(alloc, script, files, fault));
        }
    }

    /// Explains why a run of the words `words`, if it had any, ended with `outcome`, unless that is explained already.
    pub fn explain_outcome(
        &mut self,
        rt: &HostRuntime,
        words: Option<&ArgMatches<'_>>,
        outcome: &Result<u8, FileTrouble>,
    ) {
        if let Err(trouble) = outcome
            && self.is_wanted
            && !self.is_explained
        {
            self.take_lines(explain_trouble(rt, words, trouble));
        }
    }
}

/// Returns the lines that explain why the input `input` ended with `fault`.
fn explain_input_fault(
    alloc: Global,
    input: &[u8],
    fault: &ToolFault,
) -> Result<Vec<u8>, AllocError> {
    match fault {
        ToolFault::NoMark => explain_missing_mark(alloc, input),
        ToolFault::BadBundle { .. } => explain_bad_bundle(alloc, input),
        ToolFault::Layer(fault) => match split_edit_input(input) {
            Some(parts) => explain_layer_fault(
                alloc,
                parts.script,
                parts.read_files(alloc)?.as_slice(),
                fault,
            ),
            None => Ok(Vec::new(alloc)),
        },
        _ => Ok(Vec::new(alloc)),
    }
}

/// Returns the lines that explain why the script `script` on the files `files` ended with `fault`.
fn explain_layer_fault(
    alloc: Global,
    script: &[u8],
    files: &[NamedFile],
    fault: &LayerFault,
) -> Result<Vec<u8>, AllocError> {
    match fault {
        LayerFault::Script(fault) => explain_script_fault(alloc, script, fault),
        LayerFault::Load(fault) => explain_load_fault(alloc, files, fault),
        LayerFault::Edit(place, fault) => explain_refused_edit(alloc, script, files, *place, fault),
        _ => Ok(Vec::new(alloc)),
    }
}

/// Returns the lines that explain the error `trouble` of a file, or of the standard input.
fn explain_trouble(
    rt: &HostRuntime,
    words: Option<&ArgMatches<'_>>,
    trouble: &FileTrouble,
) -> Result<Vec<u8>, AllocError> {
    let name = trouble.file().unwrap_or(b"");
    match trouble.fault() {
        ToolFault::Layer(LayerFault::Gather(fault)) => match words {
            Some(words) => explain_gather_fault(rt, words.get_str(TOP), name, *fault),
            None => Ok(Vec::new(rt.alloc())),
        },
        fault => explain_fault_of_file(rt, name, fault),
    }
}

/// Returns the lines that explain the error `fault` of the file `name`, or of the standard input if `name` has no bytes.
fn explain_fault_of_file(
    rt: &HostRuntime,
    name: &[u8],
    fault: &ToolFault,
) -> Result<Vec<u8>, AllocError> {
    let mut lines = Vec::new(rt.alloc());
    match fault {
        ToolFault::Read if !name.is_empty() => {
            let reason = find_reason_of_script(rt, name);
            append_reason_of_file(rt.alloc(), &mut lines, name, reason)?;
        }
        ToolFault::Layer(LayerFault::Load(LoadFault::SameName { .. })) => {
            append_edit_advice(&mut lines, EditHint::AlsoTwice)?;
        }
        ToolFault::BadBundle { .. } => append_edit_advice(&mut lines, EditHint::HeaderName)?,
        ToolFault::InputTooLarge => append_edit_advice(&mut lines, EditHint::InputLimit)?,
        fault => {
            if let Some(advice) = advice_of_fault(fault) {
                append_help(&mut lines, &[advice])?;
            }
        }
    }
    Ok(lines)
}

/// Appends the line with the advice of `hint`.
fn append_edit_advice(lines: &mut Vec<u8>, hint: EditHint) -> Result<(), AllocError> {
    append_help(lines, &[words_of_edit_hint(hint).as_bytes()])
}

/// Returns the system's reason why the script `name` cannot be read.
fn find_reason_of_script(rt: &HostRuntime, name: &[u8]) -> &'static str {
    match str::from_utf8(name) {
        Ok(name) if name != STDIN => match fs::metadata(rt, name) {
            Ok(metadata) if metadata.is_dir() => "it is a folder",
            Ok(_) => match fs::open(rt, name) {
                Ok(_) => "it cannot be read",
                Err(error) => words_of_error_kind(error.kind()),
            },
            Err(error) => words_of_error_kind(error.kind()),
        },
        _ => "it cannot be read",
    }
}
