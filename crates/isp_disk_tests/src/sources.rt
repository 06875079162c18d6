//! A script in memory and on standard input.
use isp_disk::{Failed, MemSource, Source, StdinSource};
use std::alloc::Allocator;
use std::io::{self, BufRead, Lines, Read};
use std::test::Fail;

/// The answers of four calls for pieces of seven bytes, the second of which fails.
fn gives_in_pieces(source: &mut MemSource) -> bool {
    let mut piece = [0; 7];
    let first = source.next(&mut piece) == Ok(7) && piece == *b"0123456";
    let failed = source.next(&mut piece) == Err(Failed);
    let rest = source.next(&mut piece) == Ok(2) && piece == *b"7823456";
    first && failed && rest && source.next(&mut piece) == Ok(0)
}

#[test]
fn a_source_in_memory_gives_its_bytes_in_pieces(rt: HostRuntime) -> Result<(), Fail> {
    let mut source = MemSource::new(rt.alloc(), b"012345678", &[2])?;
    let is_so = gives_in_pieces(&mut source);
    assert!(rt; is_so);
    Ok(())
}

/// A runtime whose standard input has these bytes.
#[derive(Drop)]
struct FakeInput(&'static [u8]);

impl Input for FakeInput {
    type Reader = &'static [u8];

    fn read_line<A: Allocator + Clone>(&self, _buf: &mut String<A>) -> io::Result<usize> {
        Err(io::ErrorKind::Unsupported.into())
    }

    fn lines<A: Allocator>(&self, alloc: A) -> Lines<&'static [u8], A> {
        self.0.lines(alloc)
    }

    fn reader(&self) -> &'static [u8] {
        self.0
    }
}

fn reads_to_the_end(source: &mut StdinSource<FakeInput>) -> bool {
    let mut piece = [0; 7];
    let first = source.next(&mut piece) == Ok(7) && piece == *b"setup\ne";
    let rest = source.next(&mut piece) == Ok(3) && piece == *b"nd\nup\ne";
    first && rest && source.next(&mut piece) == Ok(0)
}

#[test]
fn standard_input_is_read_to_its_end(rt: HostRuntime) {
    let input = FakeInput(b"setup\nend\n");
    let is_so = reads_to_the_end(&mut StdinSource::new(&input));
    assert!(rt; is_so);
}

/// A runtime whose standard input can't be read.
#[derive(Drop)]
struct BrokenInput;

#[derive(Drop)]
struct BrokenReader;

impl Read for BrokenReader {
    fn read(&mut self, _buf: &mut [u8]) -> io::Result<usize> {
        Err(io::ErrorKind::BrokenPipe.into())
    }
}

impl BufRead for BrokenReader {
    fn fill_buf(&mut self) -> io::Result<&[u8]> {
        Err(io::ErrorKind::BrokenPipe.into())
    }

    fn consume(&mut self, _amount: usize) {}
}

impl Input for BrokenInput {
    type Reader = BrokenReader;

    fn read_line<A: Allocator + Clone>(&self, _buf: &mut String<A>) -> io::Result<usize> {
        Err(io::ErrorKind::BrokenPipe.into())
    }

    fn lines<A: Allocator>(&self, alloc: A) -> Lines<BrokenReader, A> {
        BrokenReader.lines(alloc)
    }

    fn reader(&self) -> BrokenReader {
        BrokenReader
    }
}

fn fails_twice(source: &mut StdinSource<BrokenInput>) -> bool {
    source.next(&mut [0]) == Err(Failed) && source.next(&mut [0]) == Err(Failed)
}

#[test]
fn a_failure_of_standard_input_is_told(rt: HostRuntime) {
    let is_so = fails_twice(&mut StdinSource::new(&BrokenInput));
    assert!(rt; is_so);
}
