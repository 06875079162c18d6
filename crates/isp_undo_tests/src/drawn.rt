//! A drawn run beside lists.
ghost use Rattle.std.specs.Prelude.{◌≡◌, ◌<◌, true, OnOk};
ghost use Rattle.isp_format.specs.Undo.{undo_slots};
ghost use Rattle.isp_page.specs.State.{none_begun};

use crate::acts::{Act, do_one, take_one};
use crate::seen::{count_of_slot, has_last};
use isp_page::{Fault, MemPages, Pages, StoreFault};
use isp_space::free_count;
use std::alloc::Global;

/// How many images a list has room for.
const MOST: usize = 64;

/// The images of a slot, from the oldest to the newest, by key and length.
#[derive(Clone, Copy)]
struct Stack {
    is_begun: bool,
    count: usize,
    images: [(i64, u16); MOST],
}

const EMPTY: Stack = Stack {
    is_begun: false,
    count: 0,
    images: [(0, 0); MOST],
};

// The newest image.
fn top(stack: &Stack) -> Option<(i64, u16)> {
    if stack.count == 0 {
        return None;
    }
    if stack.count > MOST {
        return None;
    }
    Some(stack.images[stack.count - 1])
}

// Makes the list what the call makes the slot.
fn follow(stack: &mut Stack, act: Act) {
    match act {
        Act::Push(_, key, len) => {
            if stack.count < MOST {
                stack.images[stack.count] = (key, len);
                stack.count += 1;
                stack.is_begun = true;
            }
        }
        Act::Pop(_) => {
            if stack.count > 0 {
                stack.count -= 1;
            }
        }
        Act::Finish(_) => {
            stack.count = 0;
            stack.is_begun = false;
        }
    }
}

/// A number that follows from this one.
pub(crate) fn draw_at(at: u64) -> u64 {
    let first = at.wrapping_mul(0x9E37_79B9_7F4A_7C15);
    let second = (first ^ first >> 30).wrapping_mul(0xBF58_476D_1CE4_E5B9);
    second ^ second >> 27
}

// A call on a slot with such a list: mostly pushes while it is short, pops while it is long, a finish now and then.
fn act_of(stack: &Stack, slot: u32, at: u64) -> Act {
    let draw = draw_at(at);
    let len = (draw >> 8) % 985;
    let kind = draw % 64;
    if kind == 0 {
        Act::Finish(slot)
    } else if stack.count > 0 && (stack.count == MOST || kind % 8 < 3) {
        Act::Pop(slot)
    } else {
        Act::Push(slot, at.cast_signed(), len as u16)
    }
}

// Does a drawn call on the slot and on its list; whether the newest image is then that of the list.
fn step<P: Pages>(pages: &mut P, slot: u32, stack: &mut Stack, at: u64) -> Result<bool, StoreFault>
    requires usable { P.usable pages.old ≡ true }
    requires none { P.mini pages.old ≡ none_begun }
    requires slot { slot < undo_slots }
    ensures usable { OnOk result (P.usable pages.new ≡ true) }
    ensures none { OnOk result (P.mini pages.new ≡ none_begun) }
    ensures shape { OnOk result (P.shape pages.new ≡ P.shape pages.old) }
{
    let act = act_of(stack, slot, at);
    do_one(pages, act)?;
    follow(stack, act);
    let same = has_last(pages, slot, top(stack), stack.is_begun)?;
    Ok(same)
}

// Whether all pages but those that every file has and that of the table are free or on one of the four chains.
fn has_all<P: Pages>(pages: &mut P) -> Result<bool, StoreFault>
    requires usable { P.usable pages.old ≡ true }
    ensures usable { OnOk result (P.usable pages.new ≡ true) }
    ensures mini { OnOk result (P.mini pages.new ≡ P.mini pages.old) }
    ensures shape { OnOk result (P.shape pages.new ≡ P.shape pages.old) }
{
    let free = free_count(pages)?;
    let first = count_of_slot(pages, 0)?;
    let second = count_of_slot(pages, 1)?;
    let third = count_of_slot(pages, 30)?;
    let fourth = count_of_slot(pages, 31)?;
    let used = first
        .saturating_add(second)
        .saturating_add(third)
        .saturating_add(fourth);
    Ok(free.saturating_add(used) == 111)
}

/// Four lists.
#[derive(Clone, Copy)]
struct Lists {
    first: Stack,
    second: Stack,
    third: Stack,
    fourth: Stack,
}

// Does a drawn call on one of the four slots.
fn step_one<P: Pages>(pages: &mut P, lists: &mut Lists, at: u64) -> Result<bool, StoreFault>
    requires usable { P.usable pages.old ≡ true }
    requires none { P.mini pages.old ≡ none_begun }
    ensures usable { OnOk result (P.usable pages.new ≡ true) }
    ensures none { OnOk result (P.mini pages.new ≡ none_begun) }
    ensures shape { OnOk result (P.shape pages.new ≡ P.shape pages.old) }
{
    let same = match draw_at(at.wrapping_add(4_000)) % 4 {
        0 => step(pages, 0, &mut lists.first, at)?,
        1 => step(pages, 1, &mut lists.second, at)?,
        2 => step(pages, 30, &mut lists.third, at)?,
        _ => step(pages, 31, &mut lists.fourth, at)?,
    };
    Ok(same)
}

// A drawn call, and a look at all pages.
fn step_all<P: Pages>(pages: &mut P, lists: &mut Lists, at: u64) -> Result<bool, StoreFault>
    requires usable { P.usable pages.old ≡ true }
    requires none { P.mini pages.old ≡ none_begun }
    ensures usable { OnOk result (P.usable pages.new ≡ true) }
    ensures none { OnOk result (P.mini pages.new ≡ none_begun) }
    ensures shape { OnOk result (P.shape pages.new ≡ P.shape pages.old) }
{
    let same = step_one(pages, lists, at)?;
    let all = has_all(pages)?;
    Ok(same && all)
}

// So many drawn calls.
fn run<P: Pages>(pages: &mut P, count: u64) -> Result<bool, StoreFault>
    requires usable { P.usable pages.old ≡ true }
    requires none { P.mini pages.old ≡ none_begun }
{
    take_one(pages)?;
    let mut lists = Lists {
        first: EMPTY,
        second: EMPTY,
        third: EMPTY,
        fourth: EMPTY,
    };
    for at in 0..count {
        let same = step_all(pages, &mut lists, at)?;
        if !same {
            return Ok(false);
        }
    }
    Ok(true)
}

fn all_agree(alloc: Global) -> Result<bool, Fault> {
    let mut pages = MemPages::new(alloc, 128, 4, 0)?;
    let agree = run(&mut pages, 3_000)?;
    Ok(agree)
}

#[test]
fn chains_follow_lists(rt: HostRuntime) {
    assert!(rt; all_agree(rt.alloc()) == Ok(true));
}
