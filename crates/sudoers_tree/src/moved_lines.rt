//! Where lines stand after one line came or went before them.

ghost use Rattle.std.specs.Prelude.{◌≡◌, ◌≤◌, ◌<◌, ◌^◌, map};
ghost use Rattle.std.specs.List.{All, list_any};
ghost use Rattle.std.specs.Prelude.{IfSome, false, take};
ghost use Rattle.sudoers_tree.specs.internal.InPlace.{HasRoomToMove, IsFirstSpotOfLine, IsOnlySpotOfLine, IsPlaceWithinReach, IsSpotWithinReach, is_spot_of_line, moved_place, moved_spot};

use crate::place::{Place, WalkLineSpot};

/// By how much lines move: by so many lines up and then down, and by so many physical lines more and then less.
#[derive(Clone, Copy)]
pub struct LineMove {
    pub up: usize,
    pub down: usize,
    pub more: usize,
    pub less: usize,
}

/// Returns whether one of `spots` is that of the line with the number `line` of the file with the number `file`.
fn has_spot_of_line(spots: &[WalkLineSpot], file: usize, line: usize) -> bool
    ensures { result ≡ list_any (is_spot_of_line file line) spots.now }
{
    spots.iter().any(|at| at.file == file && at.line == line)
}

/// Returns the number, from 0, of the first of `spots` that is that of the line with the number `line` of the file with the number `file`.
fn number_of_first_spot(spots: &[WalkLineSpot], file: usize, line: usize) -> Option<usize>
    ensures { IfSome result (IsFirstSpotOfLine spots.now file line) }
{
    for (number, at) in spots.iter().enumerate() {
        if at.file == file && at.line == line {
            return Some(number);
        }
    }
    None
}

/// Returns the number, from 0, of the only one of `spots` that is that of the line with the number `line` of the file with the number
/// `file`. Returns nothing if there is none, or more than one.
pub fn number_of_only_spot(spots: &[WalkLineSpot], file: usize, line: usize) -> Option<usize>
    ensures { IfSome result (IsOnlySpotOfLine spots.now file line) }
{
    let number = number_of_first_spot(spots, file, line)?;
    if has_spot_of_line(&spots[number + 1..], file, line) {
        return None;
    }
    Some(number)
}

/// Returns where the line at the spot `at` stands after those of the file with the number `file` moved by `by`, from the line with the
/// number `from` on.
fn move_spot(at: WalkLineSpot, file: usize, from: usize, by: LineMove) -> WalkLineSpot
    requires reach { IsSpotWithinReach at }
    requires room { HasRoomToMove by }
    ensures { result ≡ moved_spot file from by at }
{
    if at.file == file && from <= at.line {
        WalkLineSpot {
            file: at.file,
            line: (at.line + by.up).saturating_sub(by.down),
            row: (at.row + by.more).saturating_sub(by.less),
        }
    } else {
        at
    }
}

/// Moves those of `spots` that are of the file with the number `file` by `by`, from the line with the number `from` on.
pub fn move_spots(spots: &mut [WalkLineSpot], file: usize, from: usize, by: LineMove)
    requires reach { All IsSpotWithinReach spots.old }
    requires room { HasRoomToMove by }
    ensures { spots.new ≡ map (moved_spot file from by) spots.old }
{
    for number in 0..spots.len() {
        spots[number] = move_spot(spots[number], file, from, by);
    }
}

/// Returns where a definition at `place` stands after the lines of the walk moved by `by`, from the line with the number `from` on.
fn move_place(place: Place, from: usize, by: LineMove) -> Place
    requires reach { IsPlaceWithinReach place }
    requires room { HasRoomToMove by }
    ensures { result ≡ moved_place from by place }
{
    if from <= place.line {
        Place {
            line: (place.line + by.up).saturating_sub(by.down),
            def: place.def,
        }
    } else {
        place
    }
}

/// Moves the places `places` by `by`, from the line with the number `from` on.
pub fn move_places(places: &mut [Place], from: usize, by: LineMove)
    requires reach { All IsPlaceWithinReach places.old }
    requires room { HasRoomToMove by }
    ensures { places.new ≡ map (moved_place from by) places.old }
{
    for number in 0..places.len() {
        places[number] = move_place(places[number], from, by);
    }
}
