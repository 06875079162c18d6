//! Scripts, and bytes that are none.

use isp_script::{Script, ScriptError, Texts, read_script};
use std::alloc::{AllocError, Global};
use std::test::Fail;

// A script, and its texts with a | behind each; those of a session stand behind its number and a colon.
static GOOD: [(&[u8], &[u8]); 9] = [
    (b"setup\nschedule\nend", b""),
    (b"setup\nschedule\nend\n", b""),
    (b"setup\r\nschedule\r\nend\r", b""),
    (b"setup\nsession 1\nschedule\nend\n", b"1:"),
    (
        b"setup\nA;\nB C;\nsession 10\nD;\nschedule\nend\n",
        b"A|B C|10:D|",
    ),
    (
        b"\r\n# first\r\n \t\r\nsetup\r\n\nA;\r\n#B;\nC D; \t\r\n\t;\n;\nsession 16\r\n \n'x;y';;\r\n#\nschedule\n#1\n\t\nend\r\n \t\n# last",
        b"A|C D|\t||16:'x;y';|",
    ),
    (
        b"setup\nsetup;\n # no comment;\nsession 9\nsession 1;\n end;\nschedule \t;\nschedule\nend\n\n",
        b"setup| # no comment|9:session 1| end|schedule \t|",
    ),
    (b"setup\nA\rB\r;\r\nschedule\nend\n", b"A\rB\r|"),
    (b"setup\n\x00\xff;\nschedule\nend\n", b"\x00\xff|"),
];

// Bytes that are no script, and their first bad line.
static BAD: [(&[u8], u64); 64] = [
    // nothing, or too little
    (b"", 1),
    (b"\n", 2),
    (b"\n\n", 3),
    (b"# only", 2),
    (b"# only\n", 2),
    (b" \t\r\n#", 3),
    (b"setup", 2),
    (b"setup\n", 2),
    (b"setup\nschedule", 3),
    (b"setup\nschedule\n", 3),
    (b"setup\nA;\nB;\nsession 1\nC;\nschedule\n", 7),
    (b"setup\nA;\nB;\nsession 1\nC;\nschedule\n# end", 8),
    (b"setup\nsession 1\nA;", 4),
    // a line cut short
    (b"setup\nsession 1\nINSERT INTO p VALUES (1,'PO", 3),
    (b"setup\nA;\nsession", 3),
    (b"setup\nschedule\nen", 3),
    (b"set", 1),
    // words out of their order
    (b"end", 1),
    (b"schedule\nend\n", 1),
    (b"session 1\nschedule\nend\n", 1),
    (b"A;\nsetup\nschedule\nend\n", 1),
    (b"setup\nsetup\nschedule\nend\n", 2),
    (b"setup\nend\n", 2),
    (b"setup\nsession 1\nend\n", 3),
    (b"setup\nsession 1\nsetup\nschedule\nend\n", 3),
    (b"setup\nschedule\nschedule\nend\n", 3),
    (b"setup\nschedule\nsession 1\nend\n", 3),
    (b"setup\nschedule\nA;\nend\n", 3),
    // words behind the end
    (b"setup\nschedule\nend\nend\n", 4),
    (b"setup\nschedule\nend\nsetup\n", 4),
    (b"setup\nschedule\nend\n\n# more\nA;\n", 6),
    (b"setup\nschedule\nend\nschedule", 4),
    // sessions, of which one is built
    (b"setup\nsession 1\nsession 2\nschedule\nend\n", 3),
    (b"setup\nsession 2\nA;\nsession 1\nschedule\nend\n", 4),
    (b"setup\nsession 1\nA;\n\nsession 1\nschedule\nend\n", 5),
    (b"setup\nsession 0\nschedule\nend\n", 2),
    (b"setup\nsession 17\nschedule\nend\n", 2),
    (b"setup\nsession 20\nschedule\nend\n", 2),
    (b"setup\nsession 01\nschedule\nend\n", 2),
    (b"setup\nsession 016\nschedule\nend\n", 2),
    (b"setup\nsession 111\nschedule\nend\n", 2),
    (b"setup\nsession  1\nschedule\nend\n", 2),
    (b"setup\nsession\t1\nschedule\nend\n", 2),
    (b"setup\nsession 1 \nschedule\nend\n", 2),
    (b"setup\nsession \nschedule\nend\n", 2),
    (b"setup\nsession1\nschedule\nend\n", 2),
    (b"setup\nsession /\nschedule\nend\n", 2),
    (b"setup\nsession :\nschedule\nend\n", 2),
    // words that don't stand alone, or not in lower case
    (b" setup\nschedule\nend\n", 1),
    (b"setup \nschedule\nend\n", 1),
    (b"SETUP\nschedule\nend\n", 1),
    (b"setup;\nschedule\nend\n", 1),
    (b"setup\nSchedule\nend\n", 2),
    (b"setup\nschedule\nend \n", 3),
    // lines that are nothing
    (b"setup\nA\nschedule\nend\n", 2),
    (b"setup\nA; B\nschedule\nend\n", 2),
    (b"setup\nA; # why\nschedule\nend\n", 2),
    (b"setup\n # no comment\nschedule\nend\n", 2),
    (b"setup\n\n\x0c\nschedule\nend\n", 3),
    // carriage returns
    (b"setup\r\r\nschedule\nend\n", 1),
    (b"setup\rschedule\rend\r", 1),
    (b"setup\nA;\r \nschedule\nend\n", 2),
    // words of a schedule, of which none is built
    (b"setup\nsession 1\nschedule\n1\nend\n", 4),
    (b"setup\nschedule\nstop\nend\n", 3),
];

// Adds the texts, with a | behind each.
fn push_texts(told: &mut Vec<u8>, texts: &Texts) -> Result<(), AllocError> {
    for text in texts.as_slice() {
        told.extend_from_slice(text.as_slice())?;
        told.push(b'|')?;
    }
    Ok(())
}

fn push_sessions(told: &mut Vec<u8>, alloc: Global, script: &Script) -> Result<(), AllocError> {
    for session in script.sessions.as_slice() {
        let number = session.number.to_string(alloc)?;
        told.extend_from_slice(number.as_bytes())?;
        told.push(b':')?;
        push_texts(told, &session.texts)?;
    }
    Ok(())
}

fn is_read(alloc: Global, bytes: &[u8], expected: &[u8]) -> Result<bool, ScriptError> {
    let script = read_script(alloc, bytes)?;
    let mut told = Vec::new(alloc);
    push_texts(&mut told, &script.setup)?;
    push_sessions(&mut told, alloc, &script)?;
    Ok(told.as_slice() == expected && script.words.len() == 0 && !script.stop)
}

fn are_read(alloc: Global) -> Result<bool, ScriptError> {
    for (bytes, expected) in GOOD {
        if !is_read(alloc, bytes, expected)? {
            return Ok(false);
        }
    }
    Ok(true)
}

#[test]
fn scripts_are_read(rt: HostRuntime) -> Result<(), Fail> {
    let are_read = are_read(rt.alloc()) == Ok(true);
    assert!(rt; are_read);
    Ok(())
}

// Whether the bytes are no script, with this first bad line.
fn is_bad(alloc: Global, bytes: &[u8], line: u64) -> bool {
    match read_script(alloc, bytes) {
        Err(ScriptError::Bad { line: found }) => found == line,
        _ => false,
    }
}

fn are_bad(alloc: Global) -> bool {
    for (bytes, line) in BAD {
        if !is_bad(alloc, bytes, line) {
            return false;
        }
    }
    true
}

#[test]
fn the_first_bad_line_is_told(rt: HostRuntime) {
    let are_bad = are_bad(rt.alloc());
    assert!(rt; are_bad);
}

// The first byte of a line, another byte, which fills it, how often, the bytes at its end, and whether that is few enough.
static LONG: [(u8, u8, usize, &[u8], bool); 9] = [
    (b'x', b'y', 65_534, b";", true),
    (b'x', b'y', 65_535, b";", false),
    (b'x', b'y', 65_533, b";\r", true),
    (b'x', b'y', 65_534, b";\r", false),
    (b'#', b'c', 65_535, b"", true),
    (b'#', b'c', 65_536, b"", false),
    (b' ', b'\t', 65_535, b"", true),
    (b' ', b'\t', 65_536, b"", false),
    (b'x', b' ', 65_535, b";", false),
];

fn push_times(bytes: &mut Vec<u8>, byte: u8, times: usize) -> Result<(), AllocError> {
    for _ in 0..times {
        bytes.push(byte)?;
    }
    Ok(())
}

// A script whose second line is such a one.
fn with_line(
    alloc: Global,
    first: u8,
    filler: u8,
    times: usize,
    end: &[u8],
) -> Result<Vec<u8>, AllocError> {
    let mut bytes = Vec::new(alloc);
    bytes.extend_from_slice(b"setup\n")?;
    bytes.push(first)?;
    push_times(&mut bytes, filler, times)?;
    bytes.extend_from_slice(end)?;
    bytes.extend_from_slice(b"\nschedule\nend\n")?;
    Ok(bytes)
}

fn are_lines_limited(alloc: Global) -> Result<bool, AllocError> {
    for (first, filler, times, end, is_few) in LONG {
        let bytes = with_line(alloc, first, filler, times, end)?;
        if is_bad(alloc, &bytes, 2) == is_few {
            return Ok(false);
        }
    }
    Ok(true)
}

#[test]
fn lines_have_at_most_65536_bytes(rt: HostRuntime) -> Result<(), Fail> {
    let limited = are_lines_limited(rt.alloc())?;
    assert!(rt; limited);
    Ok(())
}

// A script of 16,777,216 bytes, nearly all of them in comments.
fn longest(alloc: Global) -> Result<Vec<u8>, AllocError> {
    let mut bytes = Vec::new(alloc);
    bytes.extend_from_slice(b"setup\nschedule\nend\n")?;
    for _ in 0..255 {
        bytes.push(b'#')?;
        push_times(&mut bytes, b'c', 65_535)?;
        bytes.push(b'\n')?;
    }
    bytes.push(b'#')?;
    push_times(&mut bytes, b'c', 65_261)?;
    Ok(bytes)
}

fn is_length_limited(alloc: Global) -> Result<bool, AllocError> {
    let mut bytes = longest(alloc)?;
    let is_whole = bytes.len() == 16_777_216 && read_script(alloc, &bytes).is_ok();
    bytes.push(b'c')?;
    Ok(is_whole && is_bad(alloc, &bytes, 0))
}

#[test]
fn scripts_have_at_most_16777216_bytes(rt: HostRuntime) -> Result<(), Fail> {
    let limited = is_length_limited(rt.alloc())?;
    assert!(rt; limited);
    Ok(())
}
