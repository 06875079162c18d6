//! Reading geometries from well-known text.

ghost use Rattle.std.specs.Prelude.{◌≡◌, ◌≤◌, ◌-◌, ◌+◌, ℕ, List, length, [], ◌∷◌, IfOk, Ok, Err, true, false};
ghost use Rattle.isp_wkt.specs.Reading.{Adds, Gives, Reads, Outcome, point_at, marked_at, single_at, line_at, lines_at, list_at, items_at, ruled, geometry_at, members_at, member_at, word_in, rest_at, ReadsForm, text_at, kinds, skipped, Answers, IsRead};
ghost use Rattle.isp_wkt.specs.declared.cause.WktCause.{WktCause};
ghost use Rattle.isp_wkt.specs.declared.cause.WktCause.TheVariants.{Empty};
ghost use Rattle.isp_geom.specs.declared.form.Form.{Form};
ghost use Rattle.isp_wkt.specs.Grammar.{IsText};
ghost use Rattle.isp_wkt.specs.Faults.{StandsAt};

use crate::cause::{Fault, Stop, WktCause, WktError};
use crate::cursor::Cursor;
use crate::kind::{KINDS, Kind};
use crate::number::point;
use isp_geom::{Form, Geometry, Members, Point, Points, Rings, is_closed};
use sqlite_items::Items;
use std::alloc::Global;

/// What a list has between its commas.
trait Item {
    type Out: Drop;

    ghost item_at: { Self → List ℕ → Outcome Self.Out };

    fn read(&self, alloc: Global, from: &mut Cursor<'_>) -> Result<Self::Out, Stop>
        ensures { Gives result (item_at self.now from.old) from.new };
}

// A point of a line.
#[derive(Clone, Copy)]
struct Pair;

// A point of a MULTIPOINT, with or without parentheses.
#[derive(Clone, Copy)]
struct Marked;

// A line or a ring.
#[derive(Clone, Copy)]
struct Line {
    is_ring: bool,
}

// A polygon of a MULTIPOLYGON.
#[derive(Clone, Copy)]
struct Polygon;

impl Item for Pair {
    type Out = Point;

    ghost item_at = { λ _. point_at };

    fn read(&self, _alloc: Global, from: &mut Cursor<'_>) -> Result<Point, Stop> {
        Ok(point(from)?)
    }
}

impl Item for Marked {
    type Out = Point;

    ghost item_at = { λ _. marked_at };

    fn read(&self, _alloc: Global, from: &mut Cursor<'_>) -> Result<Point, Stop> {
        match from.rest {
            [b'(', ..] => Ok(single(from)?),
            _ => Ok(point(from)?),
        }
    }
}

impl Item for Line {
    type Out = Points;

    ghost item_at = { λ line. line_at line.is_ring };

    #[tactic(auto, unfolding(crate::specs::Reading::line_at))]
    fn read(&self, alloc: Global, from: &mut Cursor<'_>) -> Result<Points, Stop> {
        let points = list(alloc, from, WktCause::TooFew, &Pair)?;
        Ok(ruled(from, self.is_ring, points)?)
    }
}

impl Item for Polygon {
    type Out = Rings;

    ghost item_at = { λ _. lines_at true };

    fn read(&self, alloc: Global, from: &mut Cursor<'_>) -> Result<Rings, Stop> {
        lines(alloc, from, true)
    }
}

// A fault at the byte that was read last.
fn fault_before(from: &Cursor<'_>, cause: WktCause) -> Fault
    ensures { result ≡ record { cause = cause; left = length from.now + 1 } }
{
    Fault {
        cause,
        left: from.len() + 1,
    }
}

// The rules of a line that was read up to its parenthesis.
fn ruled(from: &Cursor<'_>, is_ring: bool, points: Points) -> Result<Points, Fault>
    ensures { Reads result (ruled is_ring points from.now) from.now }
{
    let least = if is_ring { 4 } else { 2 };
    if points.len() < least {
        return Err(fault_before(from, WktCause::TooFew));
    }
    if is_ring && !is_closed(points.as_slice()) {
        return Err(fault_before(from, WktCause::Unclosed));
    }
    Ok(points)
}

// A point in parentheses.
#[tactic(auto, unfolding(crate::specs::Reading::single_at))]
fn single(from: &mut Cursor<'_>) -> Result<Point, Fault>
    ensures { Reads result (single_at from.old) from.new }
{
    from.open(WktCause::Empty)?;
    let at = point(from)?;
    from.close()?;
    Ok(at)
}

fn lines(alloc: Global, from: &mut Cursor<'_>, are_rings: bool) -> Result<Rings, Stop>
    ensures { Gives result (lines_at are_rings from.old) from.new }
{
    list(alloc, from, WktCause::Empty, &Line { is_ring: are_rings })
}

// Members in parentheses. `nothing` is the cause where there is none.
#[tactic(auto, unfolding(crate::specs::Reading::list_at))]
fn list<I: Item>(
    alloc: Global,
    from: &mut Cursor<'_>,
    nothing: WktCause,
    item: &I,
) -> Result<Items<I::Out>, Stop>
    ensures { Gives result (list_at nothing (I.item_at item.now) from.old) from.new }
{
    from.open(nothing)?;
    let most = from.len();
    items(alloc, from, most, item)
}

// Puts a member behind those found, and says whether the list goes on behind it.
fn add<I: Item>(
    alloc: Global,
    from: &mut Cursor<'_>,
    item: &I,
    found: &mut Items<I::Out>,
) -> Result<bool, Stop>
    ensures { Adds result (member_at (I.item_at item.now) from.old) found.old found.new from.new }
{
    let next = item.read(alloc, from)?;
    let goes_on = from.more()?;
    found.push(next)?;
    Ok(goes_on)
}

// Members up to the closing parenthesis. Each takes a byte at least, so that none is left behind so many.
fn items<I: Item>(
    alloc: Global,
    from: &mut Cursor<'_>,
    most: usize,
    item: &I,
) -> Result<Items<I::Out>, Stop>
    ensures { Gives result (items_at (I.item_at item.now) most from.old) from.new }
{
    let mut found = Items::new(alloc);
    for _ in 0..most {
        let goes_on = add(alloc, from, item, &mut found)?;
        if !goes_on {
            return Ok(found);
        }
    }
    Err(Stop::Bad(from.fault(WktCause::Truncated)))
}

// A geometry, where so many collections may nest.
#[cycle(geometries)]
#[tactic(auto, unfolding(crate::specs::Reading::geometry_at))]
fn geometry(alloc: Global, from: &mut Cursor<'_>, depth: u8) -> Result<Form, Stop>
    ensures { Gives result (geometry_at (members_at depth) from.old) from.new }
{
    let kind = kind(from)?;
    match kind {
        Kind::Point => Ok(Form::Point(single(from)?)),
        Kind::LineString => Ok(Form::LineString(open_line(alloc, from)?)),
        Kind::Polygon => Ok(Form::Polygon(lines(alloc, from, true)?)),
        Kind::MultiPoint => Ok(Form::MultiPoint(list(alloc, from, WktCause::Empty, &Marked)?)),
        Kind::MultiLineString => Ok(Form::MultiLineString(lines(alloc, from, false)?)),
        Kind::MultiPolygon => Ok(Form::MultiPolygon(list(alloc, from, WktCause::Empty, &Polygon)?)),
        Kind::Collection => Ok(Form::Collection(members(alloc, from, depth)?)),
    }
}

#[tactic(auto, unfolding(crate::specs::Reading::kinds))]
fn kind(from: &mut Cursor<'_>) -> Result<Kind, Fault>
    ensures { Reads result (word_in kinds 0 from.old) from.new }
{
    from.word(&KINDS)
}

fn open_line(alloc: Global, from: &mut Cursor<'_>) -> Result<Points, Stop>
    ensures { Gives result (line_at false from.old) from.new }
{
    Line { is_ring: false }.read(alloc, from)
}

// The members of a collection, where so many collections may still nest, it counted.
#[cycle(geometries)]
#[tactic(auto, unfolding(crate::specs::Reading::members_at, crate::specs::Reading::list_at))]
fn members(alloc: Global, from: &mut Cursor<'_>, depth: u8) -> Result<Members, Stop>
    ensures { Gives result (members_at depth from.old) from.new }
{
    if depth == 0 {
        return Err(Stop::Bad(from.too_deep()));
    }
    from.open(WktCause::Empty)?;
    let most = from.len();
    forms(alloc, from, most, depth - 1)
}

// The members of a collection up to its closing parenthesis.
#[cycle(geometries)]
fn forms(alloc: Global, from: &mut Cursor<'_>, most: usize, depth: u8) -> Result<Members, Stop>
    ensures { Gives result (items_at (geometry_at (members_at depth)) most from.old) from.new }
{
    let mut found = Items::new(alloc);
    for _ in 0..most {
        let goes_on = add_form(alloc, from, depth, &mut found)?;
        if !goes_on {
            return Ok(found);
        }
    }
    Err(Stop::Bad(from.fault(WktCause::Truncated)))
}

// Puts a member of a collection behind those found, and says whether the collection goes on behind it.
#[cycle(geometries)]
fn add_form(
    alloc: Global,
    from: &mut Cursor<'_>,
    depth: u8,
    found: &mut Members,
) -> Result<bool, Stop>
    ensures { Adds result (member_at (geometry_at (members_at depth)) from.old) found.old found.new from.new }
{
    let form = geometry(alloc, from, depth)?;
    let goes_on = from.more()?;
    found.push(form)?;
    Ok(goes_on)
}

// Nothing but blanks stands behind a geometry.
fn rest(from: &mut Cursor<'_>) -> Result<(), Fault>
    ensures { (form : Form) → ReadsForm result (rest_at form (skipped from.old)) form }
{
    from.skip();
    if from.len() == 0 {
        Ok(())
    } else {
        Err(from.fault(WktCause::Trailing))
    }
}

// The form of a text.
#[tactic(auto, unfolding(crate::specs::Reading::text_at))]
fn form_of(alloc: Global, text: &[u8]) -> Result<Form, Stop>
    ensures { Gives result (text_at text.now) [] }
{
    let mut from = Cursor::new(text);
    from.skip();
    let form = geometry(alloc, &mut from, DEPTH)?;
    rest(&mut from)?;
    Ok(form)
}

// How deep collections nest.
const DEPTH: u8 = 8;

/// The geometry that a text means. The text has at most 65,536 bytes. Bad comes exactly where the text is outside the
/// grammar, with the cause and the place of its fault; OutOfMemory is want of memory.
pub fn read(alloc: Global, text: &[u8]) -> Result<Geometry, WktError>
    requires { length text.now ≤ 65536 }
    // What is read is what the text means.
    ensures found { IfOk result (λ g. IsText g text.now) }
    // A text that means a geometry is read, unless memory runs out.
    ensures only { (form : Form) → IsText form text.now → IsRead result form }
    // Which fault it is.
    ensures exact { Answers result text.now }
    // The place of the fault by the grammar, and what its cause says there.
    ensures place { StandsAt result text.now }
{
    match form_of(alloc, text) {
        Ok(form) => Ok(Geometry { form }),
        Err(Stop::Bad(fault)) => {
            let at = text.len().saturating_sub(fault.left);
            Err(WktError::Bad {
                cause: fault.cause,
                at,
            })
        }
        Err(Stop::OutOfMemory) => Err(WktError::OutOfMemory),
    }
}
