//! A stable file, on a disk in memory.
ghost use Rattle.std.specs.Prelude.{◌≡◌, IfOk};
ghost use Rattle.isp_disk.specs.Moments.{Quiet};
ghost use Rattle.isp_stable.specs.File.{IsFile};

use isp_disk::{Failed, MemWorld, World};
use isp_format::{PAGE_BYTES, Page, PageNo};
use isp_making::make;
use isp_redo::Log;
use isp_stable::Stable;
use std::test::Fail;

/// A disk that has the first 32 pages.
const SIZE: u64 = 1_445_888;

/// A mini-transaction with a byte of page 20.
const BODY: [u8; 11] = [0, 1, 0, 0, 0, 20, 0, 64, 0, 1, 8];

/// A file of 64 pages made on a disk.
fn made_on<W: World>(world: W) -> Result<Stable<W>, W>
    ensures quiet { IfOk result (λ s. Quiet (W.pending s.world)) }
    ensures file { W.tells → IfOk result (λ s. IsFile W.World s) }
    ensures shape { IfOk result (λ s. (s.pages ≡ 64) × (s.log.end ≡ 0)) }
{
    let mut world = world;
    match make(&mut world, 64, 4) {
        Ok(()) => Ok(Stable::new(world, Log { end: 0 }, 64, 4)),
        Err(_) => Err(world),
    }
}

/// The byte at place 64 of page 20.
fn byte_of<W: World>(stable: &mut Stable<W>) -> Result<u8, Failed>
    requires { Quiet (W.pending stable.old.world) }
    ensures kept { stable.new.log ≡ stable.old.log }
    ensures quiet { Quiet (W.pending stable.new.world) }
{
    let mut page = Page {
        bytes: [1; PAGE_BYTES],
    };
    stable.read_page(PageNo(20), &mut page)?;
    Ok(page.bytes[64])
}

/// The first range of the log: its page, its place there and its first byte.
fn first_range<W: World>(stable: &mut Stable<W>) -> Result<Option<(u32, u16, u8)>, Failed>
    requires { Quiet (W.pending stable.old.world) }
    ensures quiet { Quiet (W.pending stable.new.world) }
{
    let mut into = [0; PAGE_BYTES];
    match stable.read_range(0, &mut into)? {
        Some(range) => Ok(Some((range.page.0, range.at, into[0]))),
        None => Ok(None),
    }
}

/// Whether page 20 is written and read, and a mini-transaction is logged and its log emptied.
fn is_stable<W: World>(stable: &mut Stable<W>) -> Result<bool, Failed>
    requires quiet { Quiet (W.pending stable.old.world) }
    requires file { W.tells → IsFile W.World stable.old }
    requires shape { (stable.old.pages ≡ 64) × (stable.old.log.end ≡ 0) }
{
    let page = Page {
        bytes: [7; PAGE_BYTES],
    };
    stable.write_pages(&[(PageNo(20), page)])?;
    let byte = byte_of(stable)?;
    stable.append(&BODY)?;
    let logged = first_range(stable)?;
    stable.empty_log()?;
    let emptied = first_range(stable)?;
    Ok(byte == 7 && logged == Some((20, 64, 8)) && emptied.is_none())
}

/// Whether a file on this disk does so.
fn keeps_a_file(world: MemWorld) -> bool {
    match made_on(world) {
        Ok(file) => {
            let mut stable = file;
            let done = is_stable(&mut stable);
            let _world = stable.into_world();
            done == Ok(true)
        }
        Err(_world) => false,
    }
}

#[test]
fn a_file_is_written_logged_and_emptied(rt: HostRuntime) -> Result<(), Fail> {
    let world = MemWorld::new(rt.alloc(), SIZE, &[], &[], 100, 200_000)?;
    let kept = keeps_a_file(world);
    assert!(rt; kept);
    Ok(())
}
