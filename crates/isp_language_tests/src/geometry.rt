//! Geometries: their texts, their spellings in bytes, and their boxes.

use isp_base::Duplicate;
use isp_geom::{
    Form, GeomError, Geometry, Point, Points, box_of, bytes_len, from_bytes, law_box_is_least,
    law_no_spelling_begins_another, to_bytes,
};
use isp_mbr::Box4;
use isp_wkt::{
    WktCause, WktError, law_fault_causes, law_fault_place, law_faults_stop, law_fronts_go_on,
    law_one_meaning, law_printed_text_means, print, read,
};
use sqlite_items::Items;
use std::alloc::{AllocError, Global};
use std::test::Fail;

// A text, and the text that is printed of its geometry.
static PRINTED: [(&[u8], &[u8]); 20] = [
    (b"POINT(1.0 2.)", b"POINT(1 2)"),
    (b"multipoint(0 0,(1 1))", b"MULTIPOINT((0 0),(1 1))"),
    (
        b"MULTIPOLYGON(((0 0,1 0,1 1,0 0)))",
        b"MULTIPOLYGON(((0 0,1 0,1 1,0 0)))",
    ),
    (b" \tPoInT\t( +007 \t -0.000 ) ", b"POINT(7 0)"),
    (b"POINT(-0 -00012)", b"POINT(0 -12)"),
    (
        b"POINT(1073741824 -1073741824.0)",
        b"POINT(1073741824 -1073741824)",
    ),
    (b"POINT(00000000000000000000001 1)", b"POINT(1 1)"),
    (b"linestring ( 0 0 , 9 6 )", b"LINESTRING(0 0,9 6)"),
    (b"LINESTRING(1 1,1 1)", b"LINESTRING(1 1,1 1)"),
    (
        b"POLYGON((0 0,4 0,4 4,0.0 -0),( 1 1,2 1,2 2,1 1 ))",
        b"POLYGON((0 0,4 0,4 4,0 0),(1 1,2 1,2 2,1 1))",
    ),
    (b"POLYGON((3 3,3 3,3 3,3 3))", b"POLYGON((3 3,3 3,3 3,3 3))"),
    (b"MULTIPOINT(3 4)", b"MULTIPOINT((3 4))"),
    (b"MULTIPOINT ( ( 3 4 ) , 5 6 )", b"MULTIPOINT((3 4),(5 6))"),
    (
        b"MultiLineString((0 0,1 1),(2 2,3 3,4 4))",
        b"MULTILINESTRING((0 0,1 1),(2 2,3 3,4 4))",
    ),
    (
        b"MULTIPOLYGON(((0 0,1 0,1 1,0 0)), ((5 5,6 5,6 6,5 5)) )",
        b"MULTIPOLYGON(((0 0,1 0,1 1,0 0)),((5 5,6 5,6 6,5 5)))",
    ),
    (
        b"GEOMETRYCOLLECTION(POINT(1 2),linestring(0 0,1 1))",
        b"GEOMETRYCOLLECTION(POINT(1 2),LINESTRING(0 0,1 1))",
    ),
    (
        b"geometrycollection ( geometrycollection(point(1 2)) , multipoint(1 1) )",
        b"GEOMETRYCOLLECTION(GEOMETRYCOLLECTION(POINT(1 2)),MULTIPOINT((1 1)))",
    ),
    (b"POINT(1\t2)", b"POINT(1 2)"),
    (b"POINT(1.\t2.00)\t", b"POINT(1 2)"),
    (b"POINT(+0 +1)", b"POINT(0 1)"),
];

// A text, why it is refused, and where.
static FAULTS: [(&[u8], WktCause, usize); 70] = [
    (b"POINT(1.5 2)", WktCause::NotWhole, 8),
    (b"POINT(1e3 2)", WktCause::NotWhole, 7),
    (b"POINT(1E3 2)", WktCause::NotWhole, 7),
    (b"POINT(1.e3 2)", WktCause::NotWhole, 8),
    (b"POINT(1 2.05)", WktCause::NotWhole, 11),
    (b"POINT(1 2e)", WktCause::NotWhole, 9),
    (b"LINESTRING(0 0,1 1.09)", WktCause::NotWhole, 20),
    (b"POINT(1073741825 2)", WktCause::OutOfRange, 15),
    (b"POINT(1 -1073741825)", WktCause::OutOfRange, 18),
    (b"POINT(10737418240 2)", WktCause::OutOfRange, 16),
    (b"POINT(99999999999 2)", WktCause::OutOfRange, 15),
    (b"POINT(2000000000 2)", WktCause::OutOfRange, 15),
    (b"LINESTRING(0 0)", WktCause::TooFew, 14),
    (b"LINESTRING()", WktCause::TooFew, 11),
    (b"LINESTRING( )", WktCause::TooFew, 12),
    (b"POLYGON(())", WktCause::TooFew, 9),
    (b"POLYGON((0 0,1 1,0 0))", WktCause::TooFew, 20),
    (
        b"POLYGON((0 0,1 0,1 1,0 0),(0 0,0 0,0 0))",
        WktCause::TooFew,
        38,
    ),
    (b"MULTILINESTRING((0 0,1 1),(2 2))", WktCause::TooFew, 30),
    (b"MULTIPOLYGON(((0 0)))", WktCause::TooFew, 18),
    (b"POLYGON((0 0,1 0,1 1,0 1))", WktCause::Unclosed, 24),
    (b"POLYGON((0 0,1 0,1 1,1 0 ))", WktCause::Unclosed, 25),
    (
        b"MULTIPOLYGON(((0 0,1 0,1 1,0 0)),((0 0,1 0,1 1,0 1)))",
        WktCause::Unclosed,
        50,
    ),
    (b"POINT EMPTY", WktCause::Empty, 6),
    (b"POINTe", WktCause::Empty, 5),
    (b"POINT()", WktCause::Empty, 6),
    (b"POINT(\t )", WktCause::Empty, 8),
    (b"POLYGON()", WktCause::Empty, 8),
    (b"POLYGON(E", WktCause::Empty, 8),
    (b"MULTIPOINT()", WktCause::Empty, 11),
    (b"MULTIPOINT(())", WktCause::Empty, 12),
    (b"MULTILINESTRING(EMPTY)", WktCause::Empty, 16),
    (b"MULTIPOLYGON(()", WktCause::Empty, 14),
    (b"MULTIPOLYGON((e", WktCause::Empty, 14),
    (b"GEOMETRYCOLLECTION()", WktCause::Empty, 19),
    (b"GEOMETRYCOLLECTION EMPTY", WktCause::Empty, 19),
    (b"GEOMETRYCOLLECTION(POINT EMPTY)", WktCause::Empty, 25),
    (b"POLYGON((0 0,1 0,1 1,0 0),e", WktCause::Empty, 26),
    (b"POINT(1 2)x", WktCause::Trailing, 10),
    (b"POINT(1 2) )", WktCause::Trailing, 11),
    (b"POINT(1 2);", WktCause::Trailing, 10),
    (b"POINT(1 2)\n", WktCause::Trailing, 10),
    (b"LINESTRING(0 0,1 1) POINT(1 2)", WktCause::Trailing, 20),
    (b"POINT(1 2", WktCause::Truncated, 9),
    (b"", WktCause::Truncated, 0),
    (b"  \t", WktCause::Truncated, 3),
    (b"POLYGON((0 0,1 0,1 1,0 0)", WktCause::Truncated, 25),
    (b"GEOMETRYCOLLECTION(POINT(1 2),", WktCause::Truncated, 30),
    (b"POINT(1 2 3)", WktCause::Unknown, 10),
    (b"POINT(1)", WktCause::Unknown, 7),
    (b"POINT(1,2)", WktCause::Unknown, 7),
    (b"POINT(1 )", WktCause::Unknown, 8),
    (b"POINT(1 e3)", WktCause::Unknown, 8),
    (b"POINT(.5 2)", WktCause::Unknown, 6),
    (b"POINT(- 1 2)", WktCause::Unknown, 7),
    (b"POINT(--1 2)", WktCause::Unknown, 7),
    (b"POINT(1.0.0 2)", WktCause::Unknown, 9),
    (b"POINT(1 2,3 4)", WktCause::Unknown, 9),
    (b"POINX(1 2)", WktCause::Unknown, 4),
    (b"POLYGONE", WktCause::Empty, 7),
    (b"MULTIPOLYLINE", WktCause::Unknown, 9),
    (b"MULTIPOINT(E", WktCause::Unknown, 11),
    (b"MULTIPOINT(1 1,)", WktCause::Unknown, 15),
    (b"LINESTRING(0 0,)", WktCause::Unknown, 15),
    (b"LINESTRING(0 0 1 1)", WktCause::Unknown, 15),
    (b"POINT)", WktCause::Unknown, 5),
    (b"POINT[1 2]", WktCause::Unknown, 5),
    (b"GEOMETRYCOLLECTION(E", WktCause::Unknown, 19),
    (b"GEOMETRYCOLLECTION(POINT(1 2),)", WktCause::Unknown, 30),
    (b"x", WktCause::Unknown, 0),
];

// What stands within eight collections that are begun, how many of them end behind it, and why the text is refused, and
// where.
static DEEP: [(&[u8], usize, WktCause, usize); 12] = [
    (b"GEOMETRYCOLLECTION(POINT(1 2))", 8, WktCause::TooDeep, 170),
    (b"GEOMETRYCOLLECTION  (", 8, WktCause::TooDeep, 172),
    (b"GEOMETRYCOLLECTION EMPTY", 8, WktCause::Empty, 171),
    (b"GEOMETRYCOLLECTION", 8, WktCause::Unknown, 170),
    (b"GEOM", 0, WktCause::Truncated, 156),
    (b"geometrycollection", 0, WktCause::Truncated, 170),
    (b"GEOMETRYCOLLECTION \t", 0, WktCause::Truncated, 172),
    (b"GEOMETRYCOLLECTION \t(", 0, WktCause::TooDeep, 172),
    (b"GEOMETRYCOLLECTION \te", 0, WktCause::Empty, 172),
    (b"GEOMETRYCOLLECTION 1", 0, WktCause::Unknown, 171),
    (b"GEOMETRY(", 0, WktCause::Unknown, 160),
    (b"POINT(1 2),GEOMETRYCOLLECTION(", 0, WktCause::TooDeep, 181),
];

// Whether this is printed of the geometry that the text means.
fn is_printed(alloc: Global, text: &[u8], printed: &[u8]) -> Result<bool, AllocError> {
    if text.len() > 65_536 {
        return Ok(false);
    }
    match read(alloc, text) {
        Ok(geometry) => {
            let again = print(alloc, &geometry)?;
            Ok(again.as_slice() == printed)
        }
        Err(_) => Ok(false),
    }
}

fn are_printed(alloc: Global, rows: &[(&[u8], &[u8])]) -> Result<bool, AllocError> {
    for (text, printed) in rows {
        if !is_printed(alloc, text, printed)? {
            return Ok(false);
        }
    }
    Ok(true)
}

// Whether the text has this fault there.
fn is_fault(alloc: Global, text: &[u8], cause: WktCause, at: usize) -> bool {
    if text.len() > 65_536 {
        return false;
    }
    match read(alloc, text) {
        Err(
            WktError::Bad {
                cause: found,
                at: place,
            },
        ) => found == cause && place == at,
        _ => false,
    }
}

fn are_faults(alloc: Global, rows: &[(&[u8], WktCause, usize)]) -> bool {
    for (text, cause, at) in rows {
        if !is_fault(alloc, text, *cause, *at) {
            return false;
        }
    }
    true
}

// Whether each front of the text ends too early.
fn ends_too_early(alloc: Global, text: &[u8]) -> bool {
    for at in 0..text.len() {
        if !is_fault(alloc, &text[..at], WktCause::Truncated, at) {
            return false;
        }
    }
    true
}

fn repeat(out: &mut Vec<u8>, piece: &[u8], times: usize) -> Result<(), AllocError> {
    for _ in 0..times {
        out.extend_from_slice(piece)?;
    }
    Ok(())
}

// Eight collections begun, each in the one before, what stands within, and so many ends.
fn nested(alloc: Global, inner: &[u8], ends: usize) -> Result<Vec<u8>, AllocError> {
    let mut text = Vec::new(alloc);
    repeat(&mut text, b"GEOMETRYCOLLECTION(", 8)?;
    text.extend_from_slice(inner)?;
    repeat(&mut text, b")", ends)?;
    Ok(text)
}

fn are_deep(alloc: Global, rows: &[(&[u8], usize, WktCause, usize)]) -> Result<bool, AllocError> {
    for (inner, ends, cause, at) in rows {
        let text = nested(alloc, inner, *ends)?;
        if !is_fault(alloc, &text, *cause, *at) {
            return Ok(false);
        }
    }
    Ok(true)
}

fn eight_are_read(alloc: Global) -> Result<bool, AllocError> {
    let text = nested(alloc, b"POINT(1 2)", 8)?;
    is_printed(alloc, &text, &text)
}

// A line of 65,536 bytes whose last byte this is.
fn longest(alloc: Global, last: u8) -> Result<Vec<u8>, AllocError> {
    let mut text = Vec::new(alloc);
    text.extend_from_slice(b"LINESTRING(")?;
    repeat(&mut text, b"1 2,", 16_380)?;
    text.extend_from_slice(b"3  4")?;
    text.push(last)?;
    Ok(text)
}

fn is_long_line(alloc: Global, text: &[u8]) -> bool {
    if text.len() != 65_536 {
        return false;
    }
    match read(alloc, text) {
        Ok(geometry) => has_points(geometry.form(), 16_381),
        Err(_) => false,
    }
}

fn has_points(form: &Form, count: usize) -> bool {
    match form {
        Form::LineString(points) => points.len() == count,
        _ => false,
    }
}

fn longest_are_read(alloc: Global) -> Result<bool, AllocError> {
    let line = longest(alloc, b')')?;
    let bad = longest(alloc, b'x')?;
    let read = is_long_line(alloc, &line);
    Ok(read && is_fault(alloc, &bad, WktCause::Unknown, 65_535))
}

#[test]
fn texts_are_read_and_printed(rt: HostRuntime) -> Result<(), Fail> {
    let printed = are_printed(rt.alloc(), &PRINTED)?;
    assert!(rt; printed);
    Ok(())
}

#[test]
fn faults_have_their_cause_and_place(rt: HostRuntime) {
    assert!(rt; are_faults(rt.alloc(), &FAULTS));
}

#[test]
fn collections_nest_eight_deep(rt: HostRuntime) -> Result<(), Fail> {
    let read = eight_are_read(rt.alloc())?;
    assert!(rt; read);
    Ok(())
}

#[test]
fn a_ninth_collection_is_refused(rt: HostRuntime) -> Result<(), Fail> {
    let refused = are_deep(rt.alloc(), &DEEP)?;
    assert!(rt; refused);
    Ok(())
}

#[test]
fn a_text_ends_too_early_at_each_place(rt: HostRuntime) {
    let text =
        b"GEOMETRYCOLLECTION ( MULTIPOLYGON(((0 0,1 0,1.0 1,0 0))), MULTIPOINT( (-7 +8) ,1 2 ) )";
    assert!(rt; ends_too_early(rt.alloc(), text));
}

#[test]
fn the_longest_texts_are_read(rt: HostRuntime) -> Result<(), Fail> {
    let read = longest_are_read(rt.alloc())?;
    assert!(rt; read);
    Ok(())
}

// A spelling, and the corners of its geometry's box: POINT(1 2), POINT(-1 -2), POINT(1073741824 -1073741824),
// LINESTRING(0 0,9 6), POLYGON((0 0,2 0,2 1,0 0)), MULTIPOINT((3 4)), MULTILINESTRING((0 0,-1 5)),
// MULTIPOLYGON(((0 0,1 0,1 1,0 0))), GEOMETRYCOLLECTION(POINT(1 2),MULTIPOINT((3 4))).
static SPELLED: [(&[u8], [i32; 4]); 9] = [
    (b"\x01\x00\x00\x00\x01\x00\x00\x00\x02", [1, 2, 1, 2]),
    (b"\x01\xFF\xFF\xFF\xFF\xFF\xFF\xFF\xFE", [-1, -2, -1, -2]),
    (
        b"\x01\x40\x00\x00\x00\xC0\x00\x00\x00",
        [1_073_741_824, -1_073_741_824, 1_073_741_824, -1_073_741_824],
    ),
    (
        b"\x02\x00\x02\0\0\0\0\0\0\0\0\0\0\0\x09\0\0\0\x06",
        [0, 0, 9, 6],
    ),
    (
        b"\x03\x00\x01\x00\x04\0\0\0\0\0\0\0\0\0\0\0\x02\0\0\0\0\0\0\0\x02\0\0\0\x01\0\0\0\0\0\0\0\0",
        [0, 0, 2, 1],
    ),
    (b"\x04\x00\x01\0\0\0\x03\0\0\0\x04", [3, 4, 3, 4]),
    (
        b"\x05\x00\x01\x00\x02\0\0\0\0\0\0\0\0\xFF\xFF\xFF\xFF\0\0\0\x05",
        [-1, 0, 0, 5],
    ),
    (
        b"\x06\x00\x01\x00\x01\x00\x04\0\0\0\0\0\0\0\0\0\0\0\x01\0\0\0\0\0\0\0\x01\0\0\0\x01\0\0\0\0\0\0\0\0",
        [0, 0, 1, 1],
    ),
    (
        b"\x07\x00\x02\x01\0\0\0\x01\0\0\0\x02\x04\x00\x01\0\0\0\x03\0\0\0\x04",
        [1, 2, 3, 4],
    ),
];

// Bytes that spell nothing: no byte, kinds 0 and 8, a short point, a byte too much, a coordinate past the limit and one below it, a line of one
// point, no point, a ring of three points, one that isn't closed, an empty collection, two members of which one is there,
// a member that isn't one
static UNSPELLED: [&[u8]; 14] = [
    b"",
    b"\x00\x00\x00\x00\x01\x00\x00\x00\x02",
    b"\x08\x00\x00\x00\x01\x00\x00\x00\x02",
    b"\x01\x00\x00\x00\x01\x00\x00\x00",
    b"\x01\x00\x00\x00\x01\x00\x00\x00\x02\x00",
    b"\x01\x40\x00\x00\x01\x00\x00\x00\x02",
    b"\x01\x00\x00\x00\x01\xBF\xFF\xFF\xFF",
    b"\x02\x00\x01\0\0\0\0\0\0\0\0",
    b"\x04\x00\x00",
    b"\x03\x00\x01\x00\x03\0\0\0\0\0\0\0\0\0\0\0\x02\0\0\0\0\0\0\0\0\0\0\0\0",
    b"\x03\x00\x01\x00\x04\0\0\0\0\0\0\0\0\0\0\0\x02\0\0\0\0\0\0\0\x02\0\0\0\x01\0\0\0\0\0\0\0\x01",
    b"\x07\x00\x00",
    b"\x07\x00\x02\x01\0\0\0\x01\0\0\0\x02",
    b"\x07\x00\x01\x09\0\0\0\x01\0\0\0\x02",
];

fn is_box(b: &Box4, corners: &[i32; 4]) -> bool {
    let [x1, y1, x2, y2] = *corners;
    b.x1 == x1 && b.y1 == y1 && b.x2 == x2 && b.y2 == y2
}

// Whether the geometry has this spelling and this box.
fn has(
    alloc: Global,
    geometry: &Geometry,
    bytes: &[u8],
    corners: &[i32; 4],
) -> Result<bool, AllocError> {
    let written = to_bytes(alloc, geometry)?;
    let same = written.as_slice() == bytes && bytes_len(geometry) == bytes.len();
    Ok(same && is_box(&box_of(geometry), corners))
}

// Whether the bytes are read, and a copy of the geometry has this spelling and this box.
fn is_spelled(alloc: Global, bytes: &[u8], corners: &[i32; 4]) -> Result<bool, AllocError> {
    match from_bytes(alloc, bytes) {
        Ok(geometry) => {
            let copy = geometry.copy(alloc)?;
            has(alloc, &copy, bytes, corners)
        }
        Err(_) => Ok(false),
    }
}

fn are_spelled(alloc: Global, rows: &[(&[u8], [i32; 4])]) -> Result<bool, AllocError> {
    for (bytes, corners) in rows {
        if !is_spelled(alloc, bytes, corners)? {
            return Ok(false);
        }
    }
    Ok(true)
}

fn is_refused(alloc: Global, bytes: &[u8]) -> bool {
    match from_bytes(alloc, bytes) {
        Err(GeomError::NotGeometry) => true,
        _ => false,
    }
}

fn are_refused(alloc: Global, rows: &[&[u8]]) -> bool {
    for bytes in rows {
        if !is_refused(alloc, bytes) {
            return false;
        }
    }
    true
}

// So many collections, each in the one before, round POINT(1 2).
fn collections(alloc: Global, depth: usize) -> Result<Form, AllocError> {
    let mut form = Form::Point(Point { x: 1, y: 2 });
    for _ in 0..depth {
        let mut members = Items::new(alloc);
        members.push(form)?;
        form = Form::Collection(members);
    }
    Ok(form)
}

fn is_geometry(alloc: Global, depth: usize) -> Result<bool, AllocError> {
    let form = collections(alloc, depth)?;
    Ok(Geometry::new(form).is_some())
}

fn nine_are_refused(alloc: Global) -> Result<bool, AllocError> {
    let mut bytes = Vec::new(alloc);
    repeat(&mut bytes, b"\x07\x00\x01", 9)?;
    bytes.extend_from_slice(b"\x01\0\0\0\x01\0\0\0\x02")?;
    Ok(is_refused(alloc, &bytes))
}

fn depth_is_limited(alloc: Global) -> Result<bool, AllocError> {
    let eight = is_geometry(alloc, 8)?;
    let nine = is_geometry(alloc, 9)?;
    let refused = nine_are_refused(alloc)?;
    Ok(eight && !nine && refused)
}

fn row_of_points(alloc: Global, count: i32) -> Result<Form, AllocError> {
    let mut points = Points::new(alloc);
    for x in 0..count {
        points.push(Point { x, y: 0 })?;
    }
    Ok(Form::LineString(points))
}

fn is_counted(alloc: Global) -> Result<bool, AllocError> {
    let form = row_of_points(alloc, 9_000)?;
    let Some(line) = Geometry::new(form) else {
        return Ok(false);
    };
    let written = to_bytes(alloc, &line)?;
    Ok(bytes_len(&line) == 65_536 && written.as_slice().len() == 72_003)
}

#[test]
fn spellings_are_read_and_written(rt: HostRuntime) -> Result<(), Fail> {
    let spelled = are_spelled(rt.alloc(), &SPELLED)?;
    assert!(rt; spelled);
    Ok(())
}

#[test]
fn other_bytes_are_refused(rt: HostRuntime) {
    assert!(rt; are_refused(rt.alloc(), &UNSPELLED));
}

#[test]
fn forms_nest_eight_deep(rt: HostRuntime) -> Result<(), Fail> {
    let limited = depth_is_limited(rt.alloc())?;
    assert!(rt; limited);
    Ok(())
}

#[test]
fn long_geometries_are_counted_up_to_a_limit(rt: HostRuntime) -> Result<(), Fail> {
    let counted = is_counted(rt.alloc())?;
    assert!(rt; counted);
    Ok(())
}

#[test]
fn laws(rt: HostRuntime) {
    law_fault_causes();
    law_fault_place();
    law_faults_stop();
    law_fronts_go_on();
    law_one_meaning();
    law_printed_text_means();
    law_no_spelling_begins_another();
    law_box_is_least();
    assert!(rt; true);
}
