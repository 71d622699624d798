//! What a line says, read into tables.

ghost use Rattle.std.specs.Prelude.{◌≡◌, ◌≤◌, ◌-◌, ℕ, false, length, map, All, IfErr, IfOk, OnErr};
ghost use Rattle.sudoers_text.specs.Token.{IsTokenWithinLine};
ghost use Rattle.sudoers_text.specs.LineMode.{line_mode};
ghost use Rattle.sudoers_text.specs.Found.{tokens_of_line};
ghost use Rattle.sudoers_grammar.specs.Fault.{syntax_fault_cause, sample_name_word, sample_time_stamp, sample_path_token};
ghost use Rattle.sudoers_grammar.specs.declared.fault.Why.{Why as WhyOf};
ghost use Rattle.sudoers_grammar.specs.Node.{Node as NodeOf};
ghost use Rattle.sudoers_grammar.specs.Line.{LineReadsAsNode, IsLineSyntaxFault, IsFaultOfLine, ReturnsNodeOrNoMemory, ReturnsFaultOrNoMemory, line_end_size_at_end};
ghost use Rattle.sudoers_line_rows.specs.View.{node_of_view};
ghost use Rattle.sudoers_grammar.specs.Piece.{tokens_with_bytes};
ghost use Rattle.sudoers_grammar.specs.Seen.{model_of_token_part};
ghost use Rattle.sudoers_line_reader.specs.Descent.{expected_tokens_after, whole_line_reader as reading, is_token_allowed_after};
ghost use Rattle.sudoers_line_reader.specs.Reader.{Halt};
ghost use Rattle.sudoers_line_reader.specs.Outcome.{RowShowsOutcomeOrNoMemory, IsLineOutcomeOrNoMemory, fault_after_tokens, outcome_of_line};
ghost use Rattle.sudoers_line_rows.specs.Tables.{TablesHaveGrown};

use crate::cursor::{HaltCause, TokenCursor};
use crate::laws::{one_reading, outcome_is};
use crate::whole_lines::read_line_tokens as read_whole;
use std::alloc::{AllocError, Global};
use std::boxed::Box;
use std::fmt;
use std::marker::Model;
use sudoers_grammar::laws::{no_fault, one_fault};
use sudoers_grammar::{
    ExpectedTokens, LineFault, TokenWithText, Why, add_text_to_token, cause_of, ends_with_byte,
};
use sudoers_line_rows::{Node, NodeRow, Tables};
use sudoers_text::{Token, TokenKind, choose_line_mode, tokens};

/// Returns how many bytes the line end has with which the line ends.
fn final_line_end_len(line: &[u8]) -> usize
    ensures value { result ≡ line_end_size_at_end line.now }
    ensures within { result ≤ length line.now }
{
    if !ends_with_byte(b'\n', line) {
        0
    } else if ends_with_byte(b'\r', &line[..line.len() - 1]) {
        2
    } else {
        1
    }
}

/// Returns the tokens with their texts.
fn add_texts_to_tokens<'a>(
    alloc: Global,
    line: &'a [u8],
    tokens: &[Token],
) -> Result<Vec<TokenWithText<'a>>, AllocError>
    requires { All (IsTokenWithinLine (length line.now)) tokens.now }
    ensures { IfOk result (λ parts. map model_of_token_part parts.items ≡ tokens_with_bytes line.now tokens.now) }
{
    let mut parts = Vec::with_capacity(alloc, tokens.len())?;
    for token in tokens {
        parts.push(add_text_to_token(line, token))?;
    }
    Ok(parts)
}

/// Returns whether a line may go on with the last of these tokens behind the others.
fn may_token_follow(
    alloc: Global,
    parts: &[TokenWithText<'_>],
    sample: TokenWithText<'_>,
) -> Result<bool, AllocError>
    ensures { IfOk result (λ may. may ≡ is_token_allowed_after (map model_of_token_part parts.now) (model_of_token_part sample.entry)) }
{
    let mut sampled = Vec::with_capacity(alloc, parts.len() + 1)?;
    sampled.extend_from_slice(parts)?;
    sampled.push(sample)?;
    let mut cursor = TokenCursor::new(sampled.as_slice());
    let mut tables = Tables::new(alloc);
    match read_whole(alloc, &mut cursor, &mut tables) {
        Ok(_) => Ok(true),
        Err(HaltCause::Fault) => Ok(cursor.has_no_tokens_left()),
        Err(HaltCause::NoMemory) => Err(AllocError),
    }
}

/// Returns a token of this kind and text, to try whether it may stand at a place.
fn make_sample_token(kind: TokenKind, text: &[u8]) -> TokenWithText<'_>
    ensures { model_of_token_part result ≡ record { kind = kind; text = text.now; start = 0; stop = 0; last = false } }
{
    TokenWithText {
        kind,
        text,
        start: 0,
        stop: 0,
        last: false,
    }
}

/// Returns what may stand behind these tokens.
fn find_expected_tokens(
    alloc: Global,
    before: &[TokenWithText<'_>],
) -> Result<ExpectedTokens, AllocError>
    ensures { IfOk result (λ place. place ≡ expected_tokens_after (map model_of_token_part before.now)) }
{
    Ok(ExpectedTokens {
        word: may_token_follow(alloc, before, make_sample_token(TokenKind::Word, b"h"))?,
        stamp: may_token_follow(
            alloc,
            before,
            make_sample_token(TokenKind::Word, b"2030010100Z"),
        )?,
        path: may_token_follow(alloc, before, make_sample_token(TokenKind::Path, b"/"))?,
    })
}

/// Returns the fault behind so many tokens of a line that ends at the byte `stop`.
fn find_fault_after_tokens(
    alloc: Global,
    parts: &[TokenWithText<'_>],
    count: usize,
    stop: usize,
) -> Result<LineFault, AllocError>
    requires { count ≤ length parts.now }
    ensures { IfOk result (λ fault. fault ≡ fault_after_tokens stop count (map model_of_token_part parts.now)) }
{
    let (before, rest) = parts.split_at(count);
    match rest {
        [] => Ok(LineFault::Syntax {
            at: stop,
            why: Why::EndOfLine,
        }),
        [part, ..] => {
            let place = find_expected_tokens(alloc, before)?;
            Ok(LineFault::Syntax {
                at: part.start,
                why: cause_of(alloc, place, part)?,
            })
        }
    }
}

/// Returns how many of `parts` stand before the tokens that are left.
fn count_tokens_before(parts: &[TokenWithText<'_>], left: TokenCursor<'_>) -> usize
    ensures value { result ≡ length parts.now - length left.entry }
    ensures within { result ≤ length parts.now }
{
    let mut left = left;
    let mut before = parts.len();
    while before > 0 && !left.has_no_tokens_left() {
        left.pass_next_token();
        before -= 1;
    }
    before
}

/// Returns the fault of the line `line`, before whose tokens `left` its reader halted.
fn find_fault_of_line(
    alloc: Global,
    line: &[u8],
    left: TokenCursor<'_>,
) -> Result<LineFault, AllocError>
    ensures { IfOk result (λ fault. reading (tokens_with_bytes line.now (tokens_of_line (line_mode line.now) line.now)) ≡ Halt left.entry → outcome_of_line line.now ≡ Err fault) }
{
    let Ok(tokens) = tokens(alloc, line, choose_line_mode(line)) else {
        return Err(AllocError);
    };
    let parts = add_texts_to_tokens(alloc, line, tokens.as_slice())?;
    let stop = line.len() - final_line_end_len(line);
    let count = count_tokens_before(parts.as_slice(), left);
    find_fault_after_tokens(alloc, parts.as_slice(), count, stop)
}

/// Reads one logical line into the tables (sudoers(5), SUDOERS FILE FORMAT). It does not check limits, reserved words or
/// names that are defined twice: these are checked for a whole policy. If the line stands in the table of bytes, `place` is where. Its
/// texts are not copied then. Any number gives the same outcome.
///
/// # Errors
///
/// [`LineFault::Syntax`] at the first token that no legal line has there, or at the end of an incomplete line, with the cause;
/// [`LineFault::NoMemory`] where a growth of memory was refused. The tables are then as they were.
pub fn read_line(
    alloc: Global,
    tables: &mut Tables,
    line: &[u8],
    place: usize,
) -> Result<NodeRow, LineFault>
    // The row that is returned says what the line says, for good; a fault is the line's first.
    ensures gives { RowShowsOutcomeOrNoMemory tables.new result (outcome_of_line line.now) }
    // The tables grow.
    ensures grown { TablesHaveGrown tables.old tables.new }
    // A line that is refused leaves no row.
    ensures refused { OnErr result (TablesHaveGrown tables.new tables.old) }
{
    let counts = tables.row_counts();
    let mut cursor = TokenCursor::from_line(line, place);
    match read_whole(alloc, &mut cursor, tables) {
        Ok(row) => Ok(row),
        Err(halted) => {
            tables.cut_back_to_counts(counts);
            match halted {
                HaltCause::NoMemory => Err(LineFault::NoMemory),
                HaltCause::Fault => Err(find_fault_of_line(alloc, line, cursor)?),
            }
        }
    }
}

/// What one line says. Contracts see what it says as a value.
#[derive(Drop)]
pub struct ParsedLine {
    tables: Box<Tables>,
    row: NodeRow,
}

impl Model for ParsedLine {
    ghost use Rattle.sudoers_grammar.specs.Node.{Node};
    ghost use Rattle.sudoers_line_rows.specs.Tables.{node_in_tables};

    ghost Value = { Node };

    ghost view = { λ reading. node_in_tables reading.tables.value reading.row };
}

impl ParsedLine {
    /// Returns what the line says.
    pub fn node(&self) -> Node<'_>
        ensures { node_of_view result ≡ self.now }
    {
        self.tables.node_of_row(&self.row)
    }
}

/// Parses one logical line (sudoers(5), SUDOERS FILE FORMAT). It does not check limits, reserved words or names that are
/// defined twice: these are checked for a whole policy.
///
/// # Errors
///
/// [`LineFault::Syntax`] at the first token that no legal line has there, or at the end of an incomplete line, with the cause;
/// [`LineFault::NoMemory`] where a growth of memory was refused.
pub fn parse(alloc: Global, line: &[u8]) -> Result<ParsedLine, LineFault>
    // What is given is what the line says.
    ensures found { IfOk result (λ node. LineReadsAsNode line.now node) }
    // What the line says is given, unless memory runs out.
    ensures only { (node : NodeOf) → LineReadsAsNode line.now node → ReturnsNodeOrNoMemory result node }
    // A fault is the line's first.
    ensures fault { IfErr result (λ fault. IsFaultOfLine line.now fault) }
    // The line's first fault is told, unless memory runs out.
    ensures refused { (at : ℕ) (why : WhyOf) → IsLineSyntaxFault line.now at why → ReturnsFaultOrNoMemory result at why }
    // In one word: the line's outcome, of which there is exactly one.
    ensures outcome { IsLineOutcomeOrNoMemory result (outcome_of_line line.now) }
{
    outcome_is();
    one_reading();
    no_fault();
    one_fault();
    let mut tables = Tables::new(alloc);
    let row = read_line(alloc, &mut tables, line, 0)?;
    let tables = Box::new(alloc, tables)?;
    Ok(ParsedLine { tables, row })
}

impl fmt::Debug for ParsedLine {
    fn fmt<W: fmt::Write>(&self, f: &mut fmt::Formatter<W>) -> fmt::Result {
        self.node().fmt(f)
    }
}
