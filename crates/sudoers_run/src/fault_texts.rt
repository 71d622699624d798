//! The texts of the program's faults.
ghost use Rattle.std.specs.Prelude.{◌≡◌, ◌+◌, ◌<◌, ◌^◌, ◌++◌, IfOk, OnOk};
ghost use Rattle.std.specs.Fmt.{decimal};
ghost use Rattle.sudoers_run.specs.FaultText.{ask_fault_name, convert_fault_name, people_file_name, filter_fault_name, gather_fault_name, include_line_text, load_fault_message, people_fault_message, tool_fault_message, layer_fault_message, policy_file_fault_message, text_fault_message, script_fault_message, edit_fault_message, script_line_message, numbered_edit_message, alias_name_in_file_text, who_fault_name, syntax_reason_name};

use crate::fault::{LayerFault, ToolFault};
use std::alloc::{AllocError, Global};
use sudoers_cvt_rewrite::FilterFault;
use sudoers_cvt_rules::CvtFault;
use sudoers_edit::{EditFault, ScriptFault};
use sudoers_files::{FileFault, GatherFault};
use sudoers_grammar::{Kind, Why, alias_keyword_of_kind};
use sudoers_list_people::{PeopleFault, PeopleFile, WhoFault};
use sudoers_match_list::AskFault;
use sudoers_text::{TextFault, append_decimal_number};
use sudoers_tree::{LoadFault, ReadFault};

/// Returns the text of the fault `fault`, without LF.
///
/// # Errors
///
/// Want of memory alone.
pub fn fault_text(alloc: Global, fault: &ToolFault) -> Result<Vec<u8>, AllocError>
    ensures { IfOk result (λ text. text.items ≡ tool_fault_message fault.now) }
{
    match fault {
        ToolFault::Read => Vec::from_slice(alloc, b"Read"),
        ToolFault::Write => Vec::from_slice(alloc, b"Write"),
        ToolFault::NoEnd => Vec::from_slice(alloc, b"NoEnd"),
        ToolFault::NoMark => Vec::from_slice(alloc, b"NoMark"),
        ToolFault::BadBundle { .. } => Vec::from_slice(alloc, b"BadBundle"),
        ToolFault::InputTooLarge => Vec::from_slice(alloc, b"InputTooLarge"),
        ToolFault::Layer(fault) => make_layer_fault_text(alloc, fault),
    }
}

fn make_layer_fault_text(alloc: Global, fault: &LayerFault) -> Result<Vec<u8>, AllocError>
    ensures { IfOk result (λ text. text.items ≡ layer_fault_message fault.now) }
{
    match fault {
        LayerFault::Gather(fault) => Vec::from_slice(alloc, name_of_gather_fault(*fault)),
        LayerFault::Load(fault) => make_load_fault_text(alloc, fault),
        LayerFault::Script(fault) => make_script_fault_text(alloc, fault),
        LayerFault::Edit(place, fault) => make_edit_fault_text(alloc, *place, fault),
        LayerFault::Convert(fault) => Vec::from_slice(alloc, name_of_cvt_fault(*fault)),
        LayerFault::Filter(fault) => Vec::from_slice(alloc, name_of_filter_fault(*fault)),
        LayerFault::People(fault) => make_people_fault_text(alloc, fault),
        LayerFault::Who(fault) => Vec::from_slice(alloc, name_of_who_fault(*fault)),
        LayerFault::Ask(fault) => Vec::from_slice(alloc, name_of_ask_fault(*fault)),
        LayerFault::NoMemory => Vec::from_slice(alloc, b"NoMemory"),
    }
}

/// Returns the text of a fault of passwd or of group.
fn make_people_fault_text(alloc: Global, fault: &PeopleFault) -> Result<Vec<u8>, AllocError>
    ensures { IfOk result (λ text. text.items ≡ people_fault_message fault.now) }
{
    match fault {
        PeopleFault::BadRow { file, line } => {
            let mut text = join_two_texts(alloc, name_of_people_file(*file), b":")?;
            append_decimal_number(alloc, &mut text, *line)?;
            text.extend_from_slice(b": BadRow")?;
            Ok(text)
        }
        PeopleFault::TooLarge => Vec::from_slice(alloc, b"TooLarge"),
        PeopleFault::NoMemory => Vec::from_slice(alloc, b"NoMemory"),
    }
}

/// Returns the name of a file of people.
fn name_of_people_file(file: PeopleFile) -> &'static [u8]
    ensures { result.now ≡ people_file_name file }
{
    match file {
        PeopleFile::Passwd => b"passwd",
        PeopleFile::Group => b"group",
    }
}

/// Returns the name of a fault of words.
fn name_of_who_fault(fault: WhoFault) -> &'static [u8]
    ensures { result.now ≡ who_fault_name fault }
{
    match fault {
        WhoFault::NoUser => b"NoUser",
        WhoFault::NoGroup => b"NoGroup",
        WhoFault::BadAddress => b"BadAddress",
        WhoFault::BadMoment => b"BadMoment",
        WhoFault::NoMemory => b"NoMemory",
    }
}

/// Returns the name of a fault of asking.
fn name_of_ask_fault(fault: AskFault) -> &'static [u8]
    ensures { result.now ≡ ask_fault_name fault }
{
    match fault {
        AskFault::Cycle => b"Cycle",
        AskFault::TooLong => b"TooLong",
        AskFault::NoMemory => b"NoMemory",
    }
}

/// Returns the name of a fault of converting.
fn name_of_cvt_fault(fault: CvtFault) -> &'static [u8]
    ensures { result.now ≡ convert_fault_name fault }
{
    match fault {
        CvtFault::Cycle => b"Cycle",
        CvtFault::TooLarge => b"TooLarge",
        CvtFault::NotUtf8 => b"NotUtf8",
        CvtFault::NoMemory => b"NoMemory",
    }
}

/// Returns the name of a fault of a filter.
fn name_of_filter_fault(fault: FilterFault) -> &'static [u8]
    ensures { result.now ≡ filter_fault_name fault }
{
    match fault {
        FilterFault::BadKey => b"BadKey",
        FilterFault::Empty => b"Empty",
        FilterFault::NoMemory => b"NoMemory",
    }
}

/// Returns the text of a fault of the policy file `file`.
fn make_policy_file_fault_text(
    alloc: Global,
    fault: &ReadFault,
    file: &[u8],
) -> Result<Vec<u8>, AllocError>
    ensures { IfOk result (λ text. text.items ≡ policy_file_fault_message fault.now file.now) }
{
    match fault {
        ReadFault::Text(fault) => make_text_fault_text(alloc, fault, file),
        ReadFault::Syntax { line, col, why } => make_syntax_fault_text(
            alloc, *line, *col, *why, file,
        ),
        ReadFault::Reserved { kind, name } => {
            make_reserved_or_duplicate_alias_text(alloc, *kind, name.as_slice(), b" reserved", file)
        }
        ReadFault::Duplicate { kind, name } => {
            make_reserved_or_duplicate_alias_text(
                alloc,
                *kind,
                name.as_slice(),
                b" defined twice",
                file,
            )
        }
        ReadFault::TooMany { kind } => {
            let mut text = join_two_texts(alloc, file, b": too many ")?;
            text.extend_from_slice(alias_keyword_of_kind(*kind))?;
            Ok(text)
        }
        ReadFault::NotLoaded { line, name } => {
            make_include_fault_text(alloc, *line, name.as_slice(), b" not loaded", file)
        }
        ReadFault::Twice { line, name } => {
            make_include_fault_text(alloc, *line, name.as_slice(), b" twice", file)
        }
        ReadFault::TooDeep { line } => {
            let mut text = join_two_texts(alloc, file, b":")?;
            append_decimal_number(alloc, &mut text, *line)?;
            text.extend_from_slice(b":1: includes nested too deep")?;
            Ok(text)
        }
        ReadFault::NoMemory => Vec::from_slice(alloc, b"NoMemory"),
    }
}

/// Returns the text of a fault of files that are loaded.
pub fn make_load_fault_text(alloc: Global, fault: &LoadFault) -> Result<Vec<u8>, AllocError>
    ensures { IfOk result (λ text. text.items ≡ load_fault_message fault.now) }
{
    match fault {
        LoadFault::TooManyFiles => Vec::from_slice(alloc, b"TooManyFiles"),
        LoadFault::SameName { .. } => Vec::from_slice(alloc, b"SameName"),
        LoadFault::InFile { file, fault } => make_policy_file_fault_text(
            alloc,
            fault,
            file.as_slice(),
        ),
        LoadFault::NoMemory => Vec::from_slice(alloc, b"NoMemory"),
    }
}

/// Returns the name of a fault of files that are gathered.
fn name_of_gather_fault(fault: GatherFault) -> &'static [u8]
    ensures { result.now ≡ gather_fault_name fault }
{
    match fault {
        GatherFault::NoRoot => b"NoRoot",
        GatherFault::Device(FileFault::Failed) => b"Failed",
        GatherFault::Device(FileFault::NoEnd) => b"NoEnd",
        GatherFault::TooManyFiles => b"TooManyFiles",
        GatherFault::Device(FileFault::NoMemory) | GatherFault::NoMemory => b"NoMemory",
    }
}

fn make_syntax_fault_text(
    alloc: Global,
    line: usize,
    col: usize,
    why: Why,
    file: &[u8],
) -> Result<Vec<u8>, AllocError>
    ensures { IfOk result (λ text. text.items ≡ policy_file_fault_message (ReadFault.Syntax line col why) file.now) }
{
    let mut text = join_two_texts(alloc, file, b":")?;
    append_decimal_number(alloc, &mut text, line)?;
    text.extend_from_slice(b":")?;
    append_decimal_number(alloc, &mut text, col)?;
    text.extend_from_slice(b": syntax error: ")?;
    text.extend_from_slice(name_of_syntax_reason(why))?;
    Ok(text)
}

/// Returns the place of the line with the number `line` of the file `file`, which includes `name`, and what is wrong with it.
fn make_include_fault_text(
    alloc: Global,
    line: usize,
    name: &[u8],
    wrong: &[u8],
    file: &[u8],
) -> Result<Vec<u8>, AllocError>
    ensures { IfOk result (λ text. text.items ≡ include_line_text file.now line name.now ++ wrong.now) }
{
    let mut text = join_two_texts(alloc, file, b":")?;
    append_decimal_number(alloc, &mut text, line)?;
    text.extend_from_slice(b":1: include ")?;
    text.extend_from_slice(name)?;
    text.extend_from_slice(wrong)?;
    Ok(text)
}

/// Returns the file `file`, the kind `kind`, the name `name`, and what is wrong with it.
fn make_reserved_or_duplicate_alias_text(
    alloc: Global,
    kind: Kind,
    name: &[u8],
    wrong: &[u8],
    file: &[u8],
) -> Result<Vec<u8>, AllocError>
    ensures { IfOk result (λ text. text.items ≡ alias_name_in_file_text file.now kind name.now ++ wrong.now) }
{
    let mut text = join_two_texts(alloc, file, b": ")?;
    text.extend_from_slice(alias_keyword_of_kind(kind))?;
    text.extend_from_slice(b" ")?;
    text.extend_from_slice(name)?;
    text.extend_from_slice(wrong)?;
    Ok(text)
}

fn name_of_syntax_reason(why: Why) -> &'static [u8]
    ensures { result.now ≡ syntax_reason_name why }
{
    match why {
        Why::UnexpectedByte => b"UnexpectedByte",
        Why::UnexpectedToken => b"UnexpectedToken",
        Why::EndOfLine => b"EndOfLine",
        Why::OpenQuote => b"OpenQuote",
        Why::EmptyName => b"EmptyName",
        Why::BadId => b"BadId",
        Why::BadAddress => b"BadAddress",
        Why::BadStamp => b"BadStamp",
        Why::Regex => b"Regex",
    }
}

fn make_text_fault_text(
    alloc: Global,
    fault: &TextFault,
    file: &[u8],
) -> Result<Vec<u8>, AllocError>
    ensures { IfOk result (λ text. text.items ≡ text_fault_message fault.now file.now) }
{
    match fault {
        TextFault::TooLarge => join_two_texts(alloc, file, b": TooLarge"),
        TextFault::OpenContinuation => join_two_texts(alloc, file, b": OpenContinuation"),
        TextFault::NoMemory => Vec::from_slice(alloc, b"NoMemory"),
        TextFault::LineTooLong { line } => {
            let mut text = join_two_texts(alloc, file, b":")?;
            append_decimal_number(alloc, &mut text, *line)?;
            text.extend_from_slice(b":1: line too long")?;
            Ok(text)
        }
        TextFault::Nul { at } => {
            let mut text = join_two_texts(alloc, file, b": NUL at byte ")?;
            append_decimal_number(alloc, &mut text, *at)?;
            Ok(text)
        }
    }
}

fn make_script_fault_text(alloc: Global, fault: &ScriptFault) -> Result<Vec<u8>, AllocError>
    ensures { IfOk result (λ text. text.items ≡ script_fault_message fault.now) }
{
    match fault {
        ScriptFault::BadWord { line } => make_script_line_text(alloc, *line, b"BadWord"),
        ScriptFault::BadNumber { line } => make_script_line_text(alloc, *line, b"BadNumber"),
        ScriptFault::NoPayload { line } => make_script_line_text(alloc, *line, b"NoPayload"),
        ScriptFault::TooMany => Vec::from_slice(alloc, b"TooMany"),
        ScriptFault::NoMemory => Vec::from_slice(alloc, b"NoMemory"),
    }
}

fn make_edit_fault_text(
    alloc: Global,
    place: usize,
    fault: &EditFault,
) -> Result<Vec<u8>, AllocError>
    ensures { IfOk result (λ text. text.items ≡ edit_fault_message place fault.now) }
{
    match fault {
        EditFault::NoMemory => Vec::from_slice(alloc, b"NoMemory"),
        EditFault::NoFile => make_numbered_edit_text(alloc, place, b"NoFile"),
        EditFault::NoLine => make_numbered_edit_text(alloc, place, b"NoLine"),
        EditFault::NotOneLine => make_numbered_edit_text(alloc, place, b"NotOneLine"),
        EditFault::OpenLine => make_numbered_edit_text(alloc, place, b"OpenLine"),
        EditFault::NoAlias => make_numbered_edit_text(alloc, place, b"NoAlias"),
        EditFault::NoPlace => make_numbered_edit_text(alloc, place, b"NoPlace"),
        EditFault::OnlyOne => make_numbered_edit_text(alloc, place, b"OnlyOne"),
        EditFault::BadName => make_numbered_edit_text(alloc, place, b"BadName"),
        EditFault::NameTaken => make_numbered_edit_text(alloc, place, b"NameTaken"),
        EditFault::BadSplice => make_numbered_edit_text(alloc, place, b"BadSplice"),
        EditFault::EndAsIs => make_numbered_edit_text(alloc, place, b"EndAsIs"),
        EditFault::TooLarge => make_numbered_edit_text(alloc, place, b"TooLarge"),
        EditFault::NotPolicy(fault) => {
            let mut text = make_numbered_edit_text(alloc, place, b"NotPolicy: ")?;
            text.extend_from_slice(make_load_fault_text(alloc, fault)?.as_slice())?;
            Ok(text)
        }
    }
}

fn make_script_line_text(alloc: Global, line: usize, name: &[u8]) -> Result<Vec<u8>, AllocError>
    ensures { IfOk result (λ text. text.items ≡ script_line_message line name.now) }
{
    let mut text = Vec::from_slice(alloc, b"script:")?;
    append_decimal_number(alloc, &mut text, line)?;
    text.extend_from_slice(b": ")?;
    text.extend_from_slice(name)?;
    Ok(text)
}

fn make_numbered_edit_text(alloc: Global, place: usize, name: &[u8]) -> Result<Vec<u8>, AllocError>
    ensures { IfOk result (λ text. text.items ≡ numbered_edit_message place name.now) }
{
    let mut text = Vec::from_slice(alloc, b"edit ")?;
    let number = (place as u128 + 1).to_string(alloc)?;
    text.extend_from_slice(number.as_bytes())?;
    text.extend_from_slice(b": ")?;
    text.extend_from_slice(name)?;
    Ok(text)
}

fn join_two_texts(alloc: Global, front: &[u8], back: &[u8]) -> Result<Vec<u8>, AllocError>
    ensures { IfOk result (λ text. text.items ≡ front.now ++ back.now) }
{
    let mut text = Vec::from_slice(alloc, front)?;
    text.extend_from_slice(back)?;
    Ok(text)
}
