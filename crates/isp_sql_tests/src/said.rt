//! A statement as it is written, printed: words and names, a string between < and >, a geometry's text between { and }.

use isp_base::Bytes;
use isp_mbr::Test;
use isp_plain::Op;
use isp_sql::{
    Literal, LiteralRows, Literals, Names, Parsed, ParsedAtom, ParsedAtoms, ParsedColumns,
    ParsedKind, ParsedSets,
};
use std::alloc::Global;

// What was printed, and whether there was memory for all of it.
#[derive(Drop)]
struct Out {
    bytes: Vec<u8>,
    whole: bool,
}

impl Out {
    fn put(&mut self, text: &[u8]) {
        if self.bytes.extend_from_slice(text).is_err() {
            self.whole = false;
        }
    }

    fn name(&mut self, before: &[u8], name: &Bytes) {
        self.put(before);
        self.put(name.as_slice());
    }
}

fn literal(out: &mut Out, v: &Literal) {
    match v {
        Literal::Number { minus, digits } => {
            if *minus {
                out.put(b"-");
            }
            out.put(digits.as_slice());
        }
        Literal::Text(text) => {
            out.name(b"<", text);
            out.put(b">");
        }
        Literal::Wkt(text) => {
            out.name(b"{", text);
            out.put(b"}");
        }
    }
}

fn op_sign(op: Op) -> &'static [u8] {
    match op {
        Op::Eq => b" = ",
        Op::Ne => b" <> ",
        Op::Lt => b" < ",
        Op::Le => b" <= ",
        Op::Gt => b" > ",
        Op::Ge => b" >= ",
    }
}

fn test_word(test: Test) -> &'static [u8] {
    match test {
        Test::Covers => b" covers {",
        Test::Within => b" within {",
        Test::Intersects => b" intersects {",
        Test::Disjoint => b" disjoint {",
        Test::Equals => b" equals {",
    }
}

fn atom(out: &mut Out, before: &[u8], atom: &ParsedAtom) {
    match atom {
        ParsedAtom::Cmp { column, op, v } => {
            out.name(before, column);
            out.put(op_sign(*op));
            literal(out, v);
        }
        ParsedAtom::Box { column, test, g } => {
            out.name(before, column);
            out.name(test_word(*test), g);
            out.put(b"}");
        }
    }
}

fn condition(out: &mut Out, w: &ParsedAtoms) {
    let mut before: &[u8] = b" where ";
    for each in w.as_slice() {
        atom(out, before, each);
        before = b" and ";
    }
}

fn kind(out: &mut Out, kind: &ParsedKind) {
    match kind {
        ParsedKind::BigInt => out.put(b":bigint"),
        ParsedKind::VarChar(size) => out.name(b":varchar ", size),
        ParsedKind::Geo => out.put(b":geo"),
    }
}

fn columns(out: &mut Out, columns: &ParsedColumns) {
    for column in columns.as_slice() {
        out.name(b" ", &column.name);
        kind(out, &column.kind);
    }
}

fn names(out: &mut Out, before: &[u8], names: &Names) {
    for name in names.as_slice() {
        out.name(before, name);
    }
}

fn row(out: &mut Out, row: &Literals) {
    let mut before: &[u8] = b"(";
    for v in row.as_slice() {
        out.put(before);
        literal(out, v);
        before = b",";
    }
    out.put(b")");
}

fn rows(out: &mut Out, rows: &LiteralRows) {
    out.put(b" ");
    for each in rows.as_slice() {
        row(out, each);
    }
}

fn sets(out: &mut Out, sets: &ParsedSets) {
    for set in sets.as_slice() {
        out.name(b" ", &set.column);
        out.put(b":");
        literal(out, &set.v);
    }
}

fn shown(out: &mut Out, columns: &Option<Names>) {
    match columns {
        Some(columns) => names(out, b" ", columns),
        None => out.put(b" *"),
    }
}

fn change(out: &mut Out, parsed: &Parsed) {
    match parsed {
        Parsed::Update { table, sets: s, w } => {
            out.name(b"update ", table);
            sets(out, s);
            condition(out, w);
        }
        Parsed::Delete { table, w } => {
            out.name(b"delete ", table);
            condition(out, w);
        }
        Parsed::Begin => out.put(b"begin"),
        Parsed::Commit => out.put(b"commit"),
        _ => out.put(b"rollback"),
    }
}

fn statement(out: &mut Out, parsed: &Parsed) {
    match parsed {
        Parsed::Create {
            name,
            key,
            columns: c,
            indexes,
        } => {
            out.name(b"create ", name);
            out.name(b" key ", key);
            columns(out, c);
            names(out, b" index ", indexes);
        }
        Parsed::Insert { table, rows: r } => {
            out.name(b"insert ", table);
            rows(out, r);
        }
        Parsed::Select {
            table,
            columns: c,
            w,
        } => {
            out.name(b"select ", table);
            shown(out, c);
            condition(out, w);
        }
        _ => change(out, parsed),
    }
}

/// Whether this is printed of the statement.
pub fn is_said(alloc: Global, parsed: &Parsed, wanted: &[u8]) -> bool {
    let mut out = Out {
        bytes: Vec::new(alloc),
        whole: true,
    };
    statement(&mut out, parsed);
    out.whole && out.bytes.as_slice() == wanted
}
