//! Where the bytes of a line stand in physical lines.

ghost use Rattle.std.specs.Prelude.{◌≡◌, ◌≤◌, ◌+◌, ◌<◌, ◌^◌, length, take, slice_get, Some, MatchOption, None};
ghost use Rattle.sudoers_text.specs.Fault.{lf_count as lfs};
ghost use Rattle.sudoers_tree.specs.Line.{line_of_view};
ghost use Rattle.sudoers_tree.specs.Physical.{column_behind, byte_count_after_last_lf};
ghost use Rattle.sudoers_tree.specs.Walk.{spot_of_walk_line};
ghost use Rattle.sudoers_check.specs.Places.{text_of_walk_line};
ghost use Rattle.sudoers_check.specs.internal.Cursors.{IsTextOfWalkLineAtSpot};

use sudoers_tree::{Line, Policy, WalkLineSpot, lf_count};

/// A place in a line that stands at `spot`. Places are asked for in rising order; going back is slower.
#[derive(Drop)]
pub struct PhysicalLineCursor<'a> {
    pub text: &'a [u8],
    pub spot: WalkLineSpot,
    at: usize,
    ends: usize,
    behind: usize,
    ghost within: { at ≤ length text.now },
    ghost ends_are: { ends ≡ lfs (take at text.now) },
    ghost behind_is: { behind ≡ byte_count_after_last_lf 0 (take at text.now) },
    ghost most: { behind ≤ at },
    ghost small: { spot.row + length text.now < 2 ^ 62 },
}

impl<'a> PhysicalLineCursor<'a> {
    /// Returns the beginning of the line with the number `number` of the walk of `policy`, if there is one.
    pub fn from_line_of_walk(policy: &'a Policy, number: usize) -> Option<PhysicalLineCursor<'a>>
        ensures { MatchOption result (text_of_walk_line policy.now.walk number ≡ None)
            (λ cursor. IsTextOfWalkLineAtSpot policy.now.walk number cursor.text.now cursor.spot) }
    {
        let lines = policy.lines();
        let row = lines.rows.get(number)?;
        let line = Line::from_line_row(lines.tables, row);
        Some(make_cursor_at_line(policy, number, &line))
    }

    /// Returns the beginning of a line that stands at `spot`.
    fn new(text: &'a [u8], spot: WalkLineSpot) -> PhysicalLineCursor<'a>
        requires { spot.row + length text.now < 2 ^ 62 }
        ensures text { result.text.now ≡ text.now }
        ensures spot { result.spot ≡ spot }
    {
        PhysicalLineCursor {
            text,
            spot,
            at: 0,
            ends: 0,
            behind: 0,
        }
    }

    /// Returns the physical line and the column of a byte of the line, or of its end.
    pub fn find_line_and_column(&mut self, start: usize) -> (usize, usize)
        ensures line { result.0 ≡ self.old.spot.row + lfs (take start self.old.text.now) }
        ensures column { result.1 ≡ column_behind (take start self.old.text.now) }
        ensures text { self.new.text.now ≡ self.old.text.now }
        ensures spot { self.new.spot ≡ self.old.spot }
    {
        let start = start.min(self.text.len());
        if start < self.at {
            self.at = 0;
            self.ends = 0;
            self.behind = 0;
        }
        self.move_forward_to(start);
        (self.spot.row + self.ends, self.behind + 1)
    }

    /// Goes on to a byte, or to the line's end.
    fn move_forward_to(&mut self, start: usize)
        requires here { self.old.at ≤ start }
        requires within { start ≤ length self.old.text.now }
        ensures at { self.new.at ≡ start }
        ensures text { self.new.text.now ≡ self.old.text.now }
        ensures spot { self.new.spot ≡ self.old.spot }
    {
        let between = &self.text[self.at..start];
        self.ends += lf_count(between);
        self.behind = count_bytes_after_last_lf(self.behind, between);
        self.at = start;
    }
}

/// Returns the beginning of `line`, the line with the number `number` of the walk.
pub fn make_cursor_at_line<'a>(
    policy: &Policy,
    number: usize,
    line: &Line<'a>,
) -> PhysicalLineCursor<'a>
    requires { slice_get policy.now.walk.lines number ≡ Some (line_of_view line.now) }
    ensures text { result.text.now ≡ line.now.text.now }
    ensures spot { result.spot ≡ spot_of_walk_line policy.now.walk number }
{
    // laws
    policy.lines_stand();
    PhysicalLineCursor::new(line.text, policy.spots_of_walk_lines()[number])
}

/// Returns how many bytes stand behind the last LF, where `before` bytes stand behind it already and `bytes` follow.
fn count_bytes_after_last_lf(before: usize, bytes: &[u8]) -> usize
    requires { before + length bytes.now < 2 ^ 62 }
    ensures is { result ≡ byte_count_after_last_lf before bytes.now }
    ensures most { result ≤ before + length bytes.now }
{
    let mut behind = before;
    for byte in bytes {
        behind = if *byte == b'\n' { 0 } else { behind + 1 };
    }
    behind
}
