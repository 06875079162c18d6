//! Statements with what they say, worked out by hand, and texts that are none.

use crate::said::is_said;
use isp_mbr::Test;
use isp_sql::{SqlError, law_one_meaning, law_read_as_written, parse};
use isp_tokens::{
    Cursor, Symbol, Token, Word, exchanged, law_tokens_as_written, law_words_are_known, tokens_of,
};
use std::alloc::Global;

// A statement, and what it says: words and names, a string between < and >, a geometry's text between { and }.
static GOOD: [(&[u8], &[u8]); 21] = [
    (b"BEGIN", b"begin"),
    (b"start\ttransaction", b"begin"),
    (b"CoMmIt", b"commit"),
    (b" \tROLLBACK\t ", b"rollback"),
    (b"CREATE TABLE t (k BIGINT PRIMARY KEY)", b"create t key k"),
    (
        b"create table p(id bigint not null primary key,b BIGINT,c BIGINT NOT NULL,d VARCHAR(007),e varchar ( 20 ) not null,g GEOMETRY NOT NULL SRID 0,SPATIAL INDEX(g),spatial index ( h ))",
        b"create p key id b:bigint c:bigint d:varchar 007 e:varchar 20 g:geo index g index h",
    ),
    (
        b"CREATE TABLE t(k BIGINT PRIMARY KEY,SPATIAL INDEX(k))",
        b"create t key k index k",
    ),
    (
        b"CREATE TABLE Keys(index1 BIGINT PRIMARY KEY,tables VARCHAR(99999999999999999999))",
        b"create Keys key index1 tables:varchar 99999999999999999999",
    ),
    (b"INSERT INTO t VALUES (1)", b"insert t (1)"),
    (
        b"insert into T values(- 5,-007,'it''s',''),(''''),('\t;--%\xc3\xa4'),('a''''b''')",
        b"insert T (-5,-007,<it's>,<>)(<'>)(<\t;--%\xc3\xa4>)(<a''b'>)",
    ),
    (
        b"INSERT INTO t VALUES(ST_GeomFromText('POINT(1 2)')),(st_geomfromtext ( 'x''y' , 0 ))",
        b"insert t ({POINT(1 2)})({x'y})",
    ),
    (b"SELECT*FROM t", b"select t *"),
    (b"SELECT a,b , a FROM _t9", b"select _t9 a b a"),
    (
        b"select Id from BEGINS where id=5AND id<9",
        b"select BEGINS Id where id = 5 and id < 9",
    ),
    (
        b"SELECT a FROM t WHERE b='x'AND c=1and d='AND'and e=2",
        b"select t a where b = <x> and c = 1 and d = <AND> and e = 2",
    ),
    (
        b"DELETE FROM t WHERE a=1 AND a<>2 AND a!=3 AND a<4 AND a<=5 AND a>6 AND a>=-7",
        b"delete t where a = 1 and a <> 2 and a <> 3 and a < 4 and a <= 5 and a > 6 and a >= -7",
    ),
    (b"DELETE FROM _", b"delete _"),
    (
        b"UPDATE t SET a=1,b='x',g=ST_GeomFromText('POINT(0 0)',0),a=-0 WHERE k>=10",
        b"update t a:1 b:<x> g:{POINT(0 0)} a:-0 where k >= 10",
    ),
    (b"update T set A = 00", b"update T A:00"),
    (
        b"DELETE FROM t WHERE MBRContains(g,ST_GeomFromText('A'))AND mbrcovers(g,ST_GeomFromText('B'))AND MBRWithin(g,ST_GeomFromText('C'))AND MBRCOVEREDBY(g,ST_GeomFromText('D'))AND MBRIntersects(g,ST_GeomFromText('E'))AND MBRDisjoint(g,ST_GeomFromText('F'))AND MBREquals(g,ST_GeomFromText('G'))",
        b"delete t where g covers {A} and g covers {B} and g within {C} and g within {D} and g intersects {E} and g disjoint {F} and g equals {G}",
    ),
    (
        b"DELETE FROM t WHERE MBRContains(ST_GeomFromText('A'),g)AND mbrcovers(ST_GeomFromText('B'),g)AND MBRWithin(ST_GeomFromText('C'),g)AND MBRCOVEREDBY(ST_GeomFromText('D',0),g)AND MBRIntersects(ST_GeomFromText('E'),g)AND MBRDisjoint(ST_GeomFromText('F'),g)AND MBREquals(ST_GeomFromText('G'),g)",
        b"delete t where g within {A} and g within {B} and g covers {C} and g covers {D} and g intersects {E} and g disjoint {F} and g equals {G}",
    ),
];

// Texts that are no statements.
static BAD: [&[u8]; 134] = [
    b"",
    b" \t",
    b"5",
    b"'x'",
    b"t",
    b"!",
    b"BEGIN TRANSACTION",
    b"BEGIN BEGIN",
    b"START",
    b"STARTTRANSACTION",
    b"COMMIT;",
    b"COMMIT WORK",
    b"ROLLBACK 1",
    b"BEGIN-",
    b"BEGIN !",
    b"BEGIN\n",
    b"BEGIN\r",
    b"BEGIN\x0b",
    b"BEGIN\x00",
    b"BEGIN\x7f",
    b"BEGIN\xc2\xa0",
    b"\xef\xbb\xbfBEGIN",
    b"CREATE TABLE key (k BIGINT PRIMARY KEY)",
    b"CREATE TABLE SeLeCt(k BIGINT PRIMARY KEY)",
    b"CREATE TABLE t(index BIGINT PRIMARY KEY)",
    b"CREATE TABLE 1t(k BIGINT PRIMARY KEY)",
    b"CREATE TABLE `t`(k BIGINT PRIMARY KEY)",
    b"CREATE TABLE t\xc3\xa4(k BIGINT PRIMARY KEY)",
    b"CREATE TABLE t",
    b"CREATE TABLE t()",
    b"CREATE TABLE t(k BIGINT)",
    b"CREATE TABLE t(k BIGINT KEY)",
    b"CREATE TABLE t(k BIGINT NULL PRIMARY KEY)",
    b"CREATE TABLE t(k BIGINT PRIMARY KEY NOT NULL)",
    b"CREATE TABLE t(k VARCHAR(5) PRIMARY KEY)",
    b"CREATE TABLE t(k BIGINT PRIMARY KEY",
    b"CREATE TABLE t(k BIGINT PRIMARY KEY,)",
    b"CREATE TABLE t(k BIGINT PRIMARY KEY))",
    b"CREATE TABLE t(k BIGINT PRIMARY KEY,SPATIAL INDEX(g),g GEOMETRY NOT NULL SRID 0)",
    b"CREATE TABLE t(k BIGINT PRIMARY KEY,g GEOMETRY SRID 0)",
    b"CREATE TABLE t(k BIGINT PRIMARY KEY,g GEOMETRY NOT NULL)",
    b"CREATE TABLE t(k BIGINT PRIMARY KEY,g GEOMETRY NOT NULL SRID 00)",
    b"CREATE TABLE t(k BIGINT PRIMARY KEY,g GEOMETRY NOT NULL SRID 1)",
    b"CREATE TABLE t(k BIGINT PRIMARY KEY,g GEOMETRY NOT NULL SRID)",
    b"CREATE TABLE t(k BIGINT PRIMARY KEY,s VARCHAR)",
    b"CREATE TABLE t(k BIGINT PRIMARY KEY,s VARCHAR())",
    b"CREATE TABLE t(k BIGINT PRIMARY KEY,s VARCHAR(-5))",
    b"CREATE TABLE t(k BIGINT PRIMARY KEY,s VARCHAR('5'))",
    b"CREATE TABLE t(k BIGINT PRIMARY KEY,s VARCHAR(5) NOT)",
    b"CREATE TABLE t(k BIGINT PRIMARY KEY,s INT)",
    b"CREATE TABLE t(k BIGINT PRIMARY KEY,INDEX(g))",
    b"CREATE TABLE t(k BIGINT PRIMARY KEY,SPATIAL INDEX g)",
    b"CREATE TABLE t(k BIGINT PRIMARY KEY,SPATIAL INDEX(g,h))",
    b"CREATE TABLE t(k BIGINT PRIMARY KEY SPATIAL INDEX(g))",
    b"INSERT t VALUES(1)",
    b"INSERT INTO t(a) VALUES(1)",
    b"INSERT INTO t VALUES",
    b"INSERT INTO t VALUES()",
    b"INSERT INTO t VALUES(1,)",
    b"INSERT INTO t VALUES(1)(2)",
    b"INSERT INTO t VALUES(1),",
    b"INSERT INTO t VALUES 1",
    b"INSERT INTO t VALUES(+1)",
    b"INSERT INTO t VALUES(--1)",
    b"INSERT INTO t VALUES(1.5)",
    b"INSERT INTO t VALUES(1e5)",
    b"INSERT INTO t VALUES(a)",
    b"INSERT INTO t VALUES(NULL)",
    b"INSERT INTO t VALUES(-'x')",
    b"INSERT INTO t VALUES(-)",
    b"INSERT INTO t VALUES('a' 'b')",
    b"INSERT INTO t VALUES('a)",
    b"INSERT INTO t VALUES('a'')",
    b"INSERT INTO t VALUES('\x01')",
    b"INSERT INTO t VALUES('\n')",
    b"INSERT INTO t VALUES('\x1f')",
    b"INSERT INTO t VALUES('\x7f')",
    b"INSERT INTO t VALUES(\"a\")",
    b"INSERT INTO t VALUES(ST_GeomFromText('x',00))",
    b"INSERT INTO t VALUES(ST_GeomFromText('x',1))",
    b"INSERT INTO t VALUES(ST_GeomFromText('x',))",
    b"INSERT INTO t VALUES(ST_GeomFromText())",
    b"INSERT INTO t VALUES(ST_GeomFromText(1))",
    b"INSERT INTO t VALUES(ST_GeomFromText 'x')",
    b"INSERT INTO t VALUES(ST_GeomFromText('x',0,0))",
    b"SELECT FROM t",
    b"SELECT a b FROM t",
    b"SELECT *,a FROM t",
    b"SELECT a,* FROM t",
    b"SELECT a, FROM t",
    b"SELECT *",
    b"SELECT * FROM t,u",
    b"SELECT * FROM from",
    b"SELECT(a)FROM t",
    b"DELETE FROM t WHERE",
    b"DELETE FROM t WHERE a",
    b"DELETE FROM t WHERE a=1 AND",
    b"DELETE FROM t WHERE AND a=1",
    b"DELETE FROM t WHERE a=1 OR a=2",
    b"DELETE FROM t WHERE(a=1)",
    b"DELETE FROM t WHERE a=1 b=2",
    b"DELETE FROM t WHERE a=1ANDb=2",
    b"DELETE FROM t WHERE a==1",
    b"DELETE FROM t WHERE a< >1",
    b"DELETE FROM t WHERE a! =1",
    b"DELETE FROM t WHERE a=!1",
    b"DELETE FROM t WHERE a=>1",
    b"DELETE FROM t WHERE a><1",
    b"DELETE FROM t WHERE a<=>1",
    b"DELETE FROM t WHERE a=b",
    b"DELETE FROM t WHERE 1=a",
    b"DELETE FROM t WHERE a=ST_GeomFromText('x')",
    b"DELETE FROM t WHERE MBRWithin(g,h)",
    b"DELETE FROM t WHERE MBRWithin(g)",
    b"DELETE FROM t WHERE MBRWithin(g,'x')",
    b"DELETE FROM t WHERE MBRWithin(ST_GeomFromText('x'),ST_GeomFromText('y'))",
    b"DELETE FROM t WHERE MBRWithin(g,ST_GeomFromText('x'))=1",
    b"DELETE FROM t WHERE MBRTouches(g,ST_GeomFromText('x'))",
    b"DELETE FROM t WHERE ST_GeomFromText(g,ST_GeomFromText('x'))",
    b"DELETE FROM mbrwithin",
    b"DELETE FROM ST_GEOMFROMTEXT",
    b"DELETE t",
    b"DELETE FROM t u",
    b"DELETE FROM t WHERE a=1 WHERE a=1",
    b"UPDATE t",
    b"UPDATE t SET",
    b"UPDATE t SET a<>1",
    b"UPDATE t SET a",
    b"UPDATE t SET a=1,",
    b"UPDATE t SET a=1 b=2",
    b"UPDATE t SET a=1 AND b=2",
    b"UPDATE t SET a=b",
    b"UPDATE t,u SET a=1",
    b"UPDATE t SET a=1,WHERE a=1",
];

// Whether the text is a statement that says so.
fn says(alloc: Global, text: &[u8], wanted: &[u8]) -> bool {
    match parse(alloc, text) {
        Ok(parsed) => is_said(alloc, &parsed, wanted),
        Err(_) => false,
    }
}

fn all_say(alloc: Global) -> bool {
    for (text, wanted) in &GOOD {
        if !says(alloc, text, wanted) {
            return false;
        }
    }
    true
}

fn is_refused(alloc: Global, text: &[u8]) -> bool {
    match parse(alloc, text) {
        Err(SqlError::Syntax) => true,
        _ => false,
    }
}

fn all_are_refused(alloc: Global) -> bool {
    for text in &BAD {
        if !is_refused(alloc, text) {
            return false;
        }
    }
    true
}

// Whether these are the tokens of `DELETE FROM t , 0`.
fn are_gone_over(tokens: &[Token]) -> bool {
    let mut left = Cursor::new(tokens);
    let delete = left.word(Word::Delete).is_ok();
    let again = left.word(Word::Delete).is_ok();
    let from = left.word(Word::From).is_ok();
    left.skip();
    let comma = left.symbol(Symbol::Comma).is_ok();
    let zero = left.zero().is_ok();
    delete && !again && from && comma && zero && left.len() == 0
}

fn tokens_are_read(alloc: Global) -> bool {
    match tokens_of(alloc, b"DELETE FROM t , 0") {
        Ok(Some(tokens)) => are_gone_over(tokens.as_slice()),
        _ => false,
    }
}

#[test]
fn statements_say_what_they_say(rt: HostRuntime) {
    assert!(rt; all_say(rt.alloc()));
}

#[test]
fn other_texts_are_refused(rt: HostRuntime) {
    assert!(rt; all_are_refused(rt.alloc()));
}

#[test]
fn tokens_one_by_one(rt: HostRuntime) {
    assert!(rt; tokens_are_read(rt.alloc()));
}

#[test]
fn laws(rt: HostRuntime) {
    law_words_are_known();
    law_tokens_as_written();
    law_read_as_written();
    law_one_meaning();
    assert!(rt; exchanged(Test::Covers) == Test::Within);
}
