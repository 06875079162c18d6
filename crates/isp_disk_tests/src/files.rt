//! A disk in a file.
use isp_disk::{Failed, FileWorld, World};
use std::fs;
use std::test::Fail;

fn prints(world: &mut FileWorld<HostRuntime>) -> bool {
    world.print(b"") == Ok(()) && world.print(b"a line of the test\n") == Ok(())
}

#[test]
fn a_print_opens_no_file(rt: HostRuntime) -> Result<(), Fail> {
    let path = String::from_str(rt.alloc(), "never_opened")?;
    let printed = prints(&mut FileWorld::new(&rt, path));
    let is_so = printed && fs::metadata(&rt, "never_opened").is_err();
    assert!(rt; is_so);
    Ok(())
}

const FOLDER: &str = "isp_disk_tests";

fn writes(world: &mut FileWorld<HostRuntime>) -> bool {
    world.write(3, b"abc") == Ok(()) && world.write(4, b"BC") == Ok(()) && world.sync() == Ok(())
}

fn reads_back(world: &mut FileWorld<HostRuntime>) -> bool {
    let mut piece = [7; 8];
    let written = world.read(1, &mut piece) == Ok(()) && piece == *b"\0\0aBC\0\0\0";
    let past = world.read(9000, &mut piece) == Ok(()) && piece == [0; 8];
    written && past && world.read(1 << 63, &mut piece) == Err(Failed)
}

fn fails_with_no_folder(world: &mut FileWorld<HostRuntime>) -> bool {
    world.sync() == Err(Failed)
}

#[test]
fn a_file_reads_back_what_was_written(rt: HostRuntime) -> Result<(), Fail> {
    let _ = fs::remove_dir_all(&rt, FOLDER);
    let missing = String::from_str(rt.alloc(), "isp_disk_tests/a.db")?;
    let failed = fails_with_no_folder(&mut FileWorld::new(&rt, missing));
    fs::create_dir(&rt, FOLDER)?;
    let path = String::from_str(rt.alloc(), "isp_disk_tests/a.db")?;
    let written = writes(&mut FileWorld::new(&rt, path));
    let path = String::from_str(rt.alloc(), "isp_disk_tests/a.db")?;
    let read = reads_back(&mut FileWorld::new(&rt, path));
    fs::remove_dir_all(&rt, FOLDER)?;
    let is_so = failed && written && read;
    assert!(rt; is_so);
    Ok(())
}
