//! Values as they are written for a column.

ghost use Rattle.std.specs.Prelude.{◌≡◌, ◌≤◌, ◌<◌, length, Ok, Err};
ghost use Rattle.isp_wkt.specs.Reading.{text_at};
ghost use Rattle.isp_plan.specs.Literals.{compared, geo_of, geometry_of, int_of, read_in, stored, text_within};
ghost use Rattle.isp_plan.specs.Refusals.{Gives};

use crate::number::number_of;
use crate::refusal::{Stop, ensure};
use isp_geom::Geometry;
use isp_mbr::{Bytes, Duplicate};
use isp_plain::{Kind, Refusal, Value};
use isp_sql::Literal;
use isp_wkt::{WktError, read};
use std::alloc::Global;

// No text of a geometry is longer than a line of a script.
const LONGEST: usize = 65_536;

fn int_of(minus: bool, digits: &Bytes) -> Result<Value, Refusal>
    ensures { result ≡ int_of minus digits.now }
{
    match number_of(minus, digits.as_slice()) {
        Some(number) => Ok(Value::Int(number)),
        None => Err(Refusal::OutOfRange),
    }
}

fn text_within(alloc: Global, most: u16, text: &Bytes) -> Result<Value, Stop>
    ensures { Gives result (text_within most text.now) }
{
    ensure(Refusal::TooLong, text.as_slice().len() <= usize::from(most))?;
    let text = text.copy(alloc)?;
    Ok(Value::Text(text))
}

// The geometry of a short text.
fn read_short(alloc: Global, text: &[u8]) -> Result<Geometry, Stop>
    requires { length text.now ≤ 65536 }
    ensures { Gives result (read_in (length text.now) (text_at text.now)) }
{
    match read(alloc, text) {
        Ok(geometry) => Ok(geometry),
        Err(WktError::Bad { cause, at }) => Err(Stop::Refused(Refusal::Geometry {
            cause,
            at: at as u32,
        })),
        Err(WktError::OutOfMemory) => Err(Stop::Memory),
    }
}

/// The geometry that the text means.
#[tactic(auto, unfolding(crate::specs::Literals::geometry_of))]
pub fn geometry_of(alloc: Global, text: &[u8]) -> Result<Geometry, Stop>
    ensures { Gives result (geometry_of text.now) }
{
    ensure(Refusal::TooLong, text.len() <= LONGEST)?;
    read_short(alloc, text)
}

fn geo_of(alloc: Global, text: &Bytes) -> Result<Value, Stop>
    ensures { Gives result (geo_of text.now) }
{
    let geometry = geometry_of(alloc, text.as_slice())?;
    Ok(Value::Geo(geometry))
}

/// The value that is stored in a column of the kind.
pub fn stored(alloc: Global, kind: Kind, literal: &Literal) -> Result<Value, Stop>
    ensures { Gives result (stored kind literal.now) }
{
    match (kind, literal) {
        (Kind::BigInt, Literal::Number { minus, digits }) => Ok(int_of(*minus, digits)?),
        (Kind::VarChar(size), Literal::Text(text)) => text_within(alloc, size, text),
        (Kind::Geo, Literal::Wkt(text)) => geo_of(alloc, text),
        _ => Err(Stop::Refused(Refusal::WrongType)),
    }
}

/// The value that a column of the kind is compared with.
pub fn compared(alloc: Global, kind: Kind, literal: &Literal) -> Result<Value, Stop>
    ensures { Gives result (compared kind literal.now) }
{
    match (kind, literal) {
        (Kind::BigInt, Literal::Number { minus, digits }) => Ok(int_of(*minus, digits)?),
        (Kind::VarChar(_), Literal::Text(text)) => Ok(Value::Text(text.copy(alloc)?)),
        _ => Err(Stop::Refused(Refusal::WrongType)),
    }
}
