//! The trees that points make.
use crate::putting::run;
use crate::seen::{is_told, sees_all};
use crate::stages::{STAGES, Stage};
use isp_page::{Fault, MemPages};
use std::alloc::Global;

fn holds(alloc: Global, stage: &Stage) -> Result<bool, Fault> {
    let mut pages = MemPages::new(alloc, 128, 4, 0)?;
    let told = run(alloc, &mut pages, stage)?;
    let seen = sees_all(alloc, &mut pages, stage)?;
    match told {
        Some(changes) => Ok(seen && is_told(&changes, &stage.told)),
        None => Ok(false),
    }
}

#[test]
fn points_make_their_trees(rt: HostRuntime) {
    for stage in &STAGES {
        assert!(rt; holds(rt.alloc(), stage) == Ok(true));
    }
}
