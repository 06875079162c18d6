//! The words of the seven kinds.

ghost use Rattle.std.specs.Prelude.{◌≡◌};
ghost use Rattle.isp_wkt.specs.Words.{word};

/// The kind of a geometry, by its word.
#[derive(Clone, Copy, PartialEq, Eq)]
pub enum Kind {
    Point,
    LineString,
    Polygon,
    MultiPoint,
    MultiLineString,
    MultiPolygon,
    Collection,
}

/// All kinds. No word begins another.
pub const KINDS: [Kind; 7] = [
    Kind::Point,
    Kind::LineString,
    Kind::Polygon,
    Kind::MultiPoint,
    Kind::MultiLineString,
    Kind::MultiPolygon,
    Kind::Collection,
];

/// The word of a kind, in upper case.
#[tactic(auto, unfolding(crate::specs::Words::word))]
pub fn word(kind: Kind) -> &'static [u8]
    ensures { result.now ≡ word kind }
{
    match kind {
        Kind::Point => b"POINT",
        Kind::LineString => b"LINESTRING",
        Kind::Polygon => b"POLYGON",
        Kind::MultiPoint => b"MULTIPOINT",
        Kind::MultiLineString => b"MULTILINESTRING",
        Kind::MultiPolygon => b"MULTIPOLYGON",
        Kind::Collection => b"GEOMETRYCOLLECTION",
    }
}
