//! The pages that a plan comes to, as plain bytes.

use crate::plans::{Act, Plan, Run};
use isp_format::{PAGE_BYTES, Page};

/// Changes the part of a run that lies in this page.
fn put_run(page: &mut Page, number: u32, run: Run) {
    if run.page != number {
        return;
    }
    let at = run.at as usize;
    if let Some(piece) = page.bytes.get_mut(at..at + run.len as usize) {
        piece.fill(run.byte);
    }
}

/// Changes what an act puts into this page, and answers whether it is a mini-transaction that changes some page.
fn put(page: &mut Page, number: u32, act: Act) -> bool {
    match act {
        Act::Put(run) => {
            put_run(page, number, run);
            true
        }
        Act::PutThree(first, second, third) => {
            put_run(page, number, first);
            put_run(page, number, second);
            put_run(page, number, third);
            true
        }
        _ => false,
    }
}

/// A page of an empty file: the first sixteen have their kind and their own number, and page 0 the number 16.
fn empty(number: u32) -> Page {
    let mut page = Page {
        bytes: [0; PAGE_BYTES],
    };
    if number < 16 {
        page.bytes[0] = match number {
            0 => 1,
            1 => 2,
            _ => 3,
        };
        page.bytes[27] = number as u8;
    }
    if number == 0 {
        page.bytes[75] = 16;
    }
    page
}

/// A page of a file that was empty, after the first so many mini-transactions of a plan.
pub(crate) fn page_after(number: u32, plan: Plan, done: u32) -> Page {
    let mut page = empty(number);
    let mut left = done;
    for at in 0..plan.count() {
        if left > 0 && put(&mut page, number, plan.act(at)) {
            left -= 1;
        }
    }
    page
}
