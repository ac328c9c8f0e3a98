//! Placement clauses, as this crate writes them.

ghost use Rattle.std.specs.Prelude.{◌≡◌, ◌++◌, OnOk, Some, codes};
ghost use Rattle.std.specs.Fmt.{signed_decimal};
ghost use Rattle.std.specs.Io.KnownBytes.{Appends};
ghost use Rattle.lf_lex.specs.Splices.{joined_words};
ghost use Rattle.lf_team_def.specs.Clauses.{clause_words};
ghost use Rattle.lf_write.specs.Export.{location_clause_words, new_clause};

use itoa::Buffer;
use lf_def::Location;
use lf_floorplan::Place;
use lf_orient::orient_word;
use std::io;
use std::io::Write;

/// Writes the number.
fn put_number<W: Write>(out: &mut W, number: &i32) -> io::Result<()>
    ensures { OnOk result (Appends (W.contents out.old) (W.contents out.new) (signed_decimal number.now)) }
{
    out.write_all(Buffer::new().format(*number).as_bytes())
}

/// Writes `+ PLACED ( x y ) orient`.
fn put_placed<W: Write>(out: &mut W, at: &Location) -> io::Result<()>
    ensures { OnOk result
        (Appends (W.contents out.old) (W.contents out.new) (joined_words (location_clause_words (Some at.now)))) }
{
    out.write_all(b"+ PLACED ( ")?;
    put_number(out, &at.x)?;
    out.write_all(b" ")?;
    put_number(out, &at.y)?;
    out.write_all(b" ) ")?;
    out.write_all(orient_word(at.orient))?;
    Ok(())
}

/// Writes the placement clause of a component at this location: `+ PLACED ( x y ) orient`, or
/// `+ UNPLACED`.
fn put_location<W: Write>(out: &mut W, location: &Option<Location>) -> io::Result<()>
    ensures { OnOk result
        (Appends (W.contents out.old) (W.contents out.new) (joined_words (location_clause_words location.now))) }
{
    match location {
        Some(at) => put_placed(out, at),
        None => out.write_all(b"+ UNPLACED"),
    }
}

/// Returns the place in the form of a document.
fn location_of(place: &Option<Place>) -> Option<Location>
    ensures { location_clause_words result ≡ clause_words place.now }
{
    match place {
        Some(place) => Some(Location {
            x: place.x,
            y: place.y,
            orient: place.orient,
        }),
        None => None,
    }
}

/// Writes the placement clause of a component at this place.
fn put_clause<W: Write>(out: &mut W, place: &Option<Place>) -> io::Result<()>
    ensures { OnOk result (Appends (W.contents out.old) (W.contents out.new) (joined_words (clause_words place.now))) }
{
    put_location(out, &location_of(place))
}

/// Writes the placement clause and a space.
fn put_spaced_clause<W: Write>(out: &mut W, place: &Option<Place>) -> io::Result<()>
    ensures { OnOk result
        (Appends (W.contents out.old) (W.contents out.new) (joined_words (clause_words place.now) ++ codes " ")) }
{
    put_clause(out, place)?;
    out.write_all(b" ")?;
    Ok(())
}

/// Writes the new clause of a component. A component that lacked a clause gets a space after it.
pub(crate) fn put_new_clause<W: Write>(
    out: &mut W,
    lacks: bool,
    place: &Option<Place>,
) -> io::Result<()>
    ensures { OnOk result (Appends (W.contents out.old) (W.contents out.new) (new_clause lacks place.now)) }
{
    if lacks {
        put_spaced_clause(out, place)
    } else {
        put_clause(out, place)
    }
}
