//! Where the bytes of a walk stand in files.

ghost use Rattle.std.specs.Prelude.{◌≡◌, MatchOption, None};
ghost use Rattle.std.proofs.Props.{props};
ghost use Rattle.sudoers_check.specs.Places.{byte_place_on_walk, text_of_walk_line};
ghost use Rattle.sudoers_check.specs.internal.Cursors.{IsTextOfWalkLineAtSpot};

use crate::physical_line_cursor::PhysicalLineCursor;
use sudoers_tree::Policy;

/// Where a byte stands: the number of its file, from 0, and its physical line there and its column, both from 1.
#[derive(Clone, Copy, Debug, PartialEq, Eq)]
pub struct BytePlace {
    pub file: usize,
    pub row: usize,
    pub column: usize,
}

/// A place on the walk of a policy. Places of one line are asked for in rising order; going back is slower.
#[derive(Drop)]
pub struct WalkCursor<'a> {
    pub policy: &'a Policy,
    number: usize,
    line: Option<PhysicalLineCursor<'a>>,
    ghost on_line: { MatchOption line (text_of_walk_line policy.now.walk number ≡ None)
        (λ cursor. IsTextOfWalkLineAtSpot policy.now.walk number cursor.text.now cursor.spot) } by { Prim.hlevel props },
}

impl<'a> WalkCursor<'a> {
    /// Returns the beginning of the walk of `policy`.
    pub fn new(policy: &'a Policy) -> WalkCursor<'a>
        ensures { result.policy.now ≡ policy.now }
    {
        WalkCursor {
            policy,
            number: 0,
            line: PhysicalLineCursor::from_line_of_walk(policy, 0),
        }
    }

    /// Returns where the byte `start`, from 0, of the line with the number `number` of the walk stands, if there is such a line.
    pub fn find_place_of_byte(&mut self, number: usize, start: usize) -> Option<BytePlace>
        ensures place { result ≡ byte_place_on_walk self.old.policy.now.walk number start }
        ensures policy { self.new.policy.now ≡ self.old.policy.now }
    {
        if number != self.number {
            self.line = PhysicalLineCursor::from_line_of_walk(self.policy, number);
            self.number = number;
        }
        match &mut self.line {
            Some(line) => {
                let (row, column) = line.find_line_and_column(start);
                Some(BytePlace {
                    file: line.spot.file,
                    row,
                    column,
                })
            }
            None => None,
        }
    }
}
