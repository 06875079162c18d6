//! The calls on the space of pages.
ghost use Rattle.std.specs.Prelude.{◌≡◌, ◌+◌, ◌<◌, ◌≤◌, ◌&&◌, ◌||◌, [], min, nat_le, nat_lt, if◌then◌else◌, Some, None, ◌∷◌, ℕ, true, length, IfErr, IfOk, OnOk};
ghost use Rattle.isp_disk.specs.Moments.{image_of, put};
ghost use Rattle.isp_format.specs.Definition.{most_tables};
ghost use Rattle.isp_format.specs.Empty.{first_fresh};
ghost use Rattle.isp_format.specs.Header.{header_bytes, header_of};
ghost use Rattle.isp_format.specs.Ranges.{page_of};
ghost use Rattle.isp_format.specs.Rules.{space_number};
ghost use Rattle.isp_page.specs.Calls.{Continues};
ghost use Rattle.isp_format.specs.Space.{IsSpacePage, SpacePage};
ghost use Rattle.isp_page.specs.State.{HasRoom};
ghost use Rattle.isp_page.specs.Steps.{IsNoDamage};
ghost use Rattle.isp_page.specs.Touched.{Grows, KeepsPages, is_page};
ghost use Rattle.isp_format.specs.SpaceValues.{page_in};
ghost use Rattle.isp_space.specs.Spaces.{IsSpace, NamesSpace, Space, IsRecounted, counter_limit, free_pages, has_room, most_counted, next_free, room_pages, space_page, taken};

use isp_format::{
    FIRST_FRESH, MOST_TABLES, Page, PageNo, SPACE_PAGE, SPACE_RULE, SpaceNumbers,
    set_space_numbers, space_numbers,
};
use isp_page::{Pages, StoreFault, replace};

// The page that says the space.
const SPACE: PageNo = PageNo(SPACE_PAGE);

// How many pages have to be free for one more change.
const ROOM: u64 = 48;

// The counters of page 0 stay below this while there is room.
const MOST: u64 = 1 << 62;

// They are below this at all times.
const LIMIT: u128 = 1 << 63;

// Whether that may be the first page never used of a file of so many pages.
fn is_fresh(fresh: u32, pages: u32) -> bool
    ensures { result ≡ (nat_le first_fresh fresh && nat_le fresh pages) }
{
    FIRST_FRESH <= fresh && fresh <= pages
}

// The numbers of page 0, whose bytes come into `into`. The first page never used is from 16 on, and no page behind the last.
pub(crate) fn read_numbers<P: Pages>(
    pages: &mut P,
    into: &mut Page,
) -> Result<SpaceNumbers, StoreFault>
    requires usable { P.usable pages.old ≡ true }
    ensures kept { Continues P.Pages pages.old pages.new result }
    ensures contents { P.tells → OnOk result (P.contents pages.new ≡ P.contents pages.old) }
    ensures mini { OnOk result (P.mini pages.new ≡ P.mini pages.old) }
    ensures page { P.tells → OnOk result (into.new.bytes ≡ page_of (P.contents pages.old) space_number) }
    ensures found { P.tells → (s : Space)
        → IsSpace (P.shape pages.old).pages (P.contents pages.old) s
        → IfOk result (λ n. page_in n ≡ space_page s) }
    ensures from { IfOk result (λ n. first_fresh ≤ n.fresh) }
    ensures to { IfOk result (λ n. n.fresh ≤ (P.shape pages.old).pages) }
    ensures sound { P.tells → (s : Space)
        → IsSpace (P.shape pages.old).pages (P.contents pages.old) s
        → IfErr result IsNoDamage }
    ensures names { IfErr result NamesSpace }
{
    let count = pages.pages();
    pages.read(SPACE, into)?;
    let numbers = space_numbers(into);
    if is_fresh(numbers.fresh, count) {
        Ok(numbers)
    } else {
        Err(StoreFault::Damaged {
            page: SPACE_PAGE,
            rule: SPACE_RULE,
        })
    }
}

/// How many pages are free.
///
/// # Errors
///
/// Disk; or Damaged, with page 0 and rule 4, where page 0 says no space.
pub fn free_count<P: Pages>(pages: &mut P) -> Result<u32, StoreFault>
    requires usable { P.usable pages.old ≡ true }
    ensures kept { Continues P.Pages pages.old pages.new result }
    ensures contents { P.tells → OnOk result (P.contents pages.new ≡ P.contents pages.old) }
    ensures mini { OnOk result (P.mini pages.new ≡ P.mini pages.old) }
    ensures count { P.tells → (s : Space)
        → IsSpace (P.shape pages.old).pages (P.contents pages.old) s
        → IfOk result (λ n. n ≡ free_pages (P.shape pages.old).pages s) }
    ensures sound { P.tells → (s : Space)
        → IsSpace (P.shape pages.old).pages (P.contents pages.old) s
        → IfErr result IsNoDamage }
    ensures names { IfErr result NamesSpace }
{
    let mut page = Page::zeros();
    let numbers = read_numbers(pages, &mut page)?;
    let fresh = pages.pages() - numbers.fresh;
    Ok(capped(numbers.free_count, fresh))
}

/// Whether there is room for one more change of a row or of an entry: at least 48 pages are free, and both counters of page 0
/// are below 2^62.
///
/// # Errors
///
/// As of `free_count`.
pub fn has_room<P: Pages>(pages: &mut P) -> Result<bool, StoreFault>
    requires usable { P.usable pages.old ≡ true }
    ensures kept { Continues P.Pages pages.old pages.new result }
    ensures contents { P.tells → OnOk result (P.contents pages.new ≡ P.contents pages.old) }
    ensures mini { OnOk result (P.mini pages.new ≡ P.mini pages.old) }
    ensures room { P.tells → (s : Space)
        → IsSpace (P.shape pages.old).pages (P.contents pages.old) s
        → IfOk result (λ there. there ≡ has_room (P.shape pages.old).pages s) }
    ensures sound { P.tells → (s : Space)
        → IsSpace (P.shape pages.old).pages (P.contents pages.old) s
        → IfErr result IsNoDamage }
    ensures names { IfErr result NamesSpace }
{
    let mut page = Page::zeros();
    let numbers = read_numbers(pages, &mut page)?;
    let fresh = pages.pages() - numbers.fresh;
    Ok(is_room(&numbers, fresh))
}

// Whether there is room, where so many pages were never used.
fn is_room(numbers: &SpaceNumbers, fresh: u32) -> bool
    ensures { result ≡ (nat_le room_pages (numbers.now.free_count + fresh)
        && (nat_lt numbers.now.entries most_counted && nat_lt numbers.now.bytes most_counted)) }
{
    let free = u64::from(numbers.free_count) + u64::from(fresh);
    ROOM <= free && are_small(numbers.entries, numbers.bytes)
}

// The sum, or the greatest number where that is less.
fn capped(a: u32, b: u32) -> u32
    ensures { result ≡ min (a + b) 4294967295 }
{
    a.saturating_add(b)
}

// Whether both counters leave room.
fn are_small(entries: u64, bytes: u64) -> bool
    ensures { result ≡ (nat_lt entries most_counted && nat_lt bytes most_counted) }
{
    entries < MOST && bytes < MOST
}

// Page 0 with these numbers in the place of those that stood in it.
pub(crate) fn write_numbers<P: Pages>(
    pages: &mut P,
    old: &Page,
    numbers: &SpaceNumbers,
) -> Result<(), StoreFault>
    requires usable { P.usable pages.old ≡ true }
    requires begun { (P.mini pages.old).is_begun ≡ true }
    requires room { HasRoom 0 (P.mini pages.old) }
    ensures kept { Continues P.Pages pages.old pages.new result }
    ensures sound { IfErr result IsNoDamage }
    ensures others { P.tells → OnOk result
        (KeepsPages (is_page space_number) (P.contents pages.old) (P.contents pages.new)) }
    ensures grown { OnOk result (Grows (space_number ∷ []) (P.mini pages.old) (P.mini pages.new)) }
    ensures says { P.tells → (was : SpacePage)
        → IsSpacePage (page_of (P.contents pages.old) space_number) was
        → old.now.bytes ≡ page_of (P.contents pages.old) space_number
        → OnOk result (IsSpacePage (page_of (P.contents pages.new) space_number) (page_in numbers.now)) }
{
    let _count = pages.pages();
    let mut new = *old;
    set_space_numbers(&mut new, numbers);
    replace(pages, SPACE, old, &new)
}

// The same where the numbers are those of a space that differs in its counters alone.
fn write_counters<P: Pages>(
    pages: &mut P,
    old: &Page,
    numbers: &SpaceNumbers,
) -> Result<(), StoreFault>
    requires usable { P.usable pages.old ≡ true }
    requires begun { (P.mini pages.old).is_begun ≡ true }
    requires room { HasRoom 0 (P.mini pages.old) }
    ensures kept { Continues P.Pages pages.old pages.new result }
    ensures sound { IfErr result IsNoDamage }
    ensures others { P.tells → OnOk result
        (KeepsPages (is_page space_number) (P.contents pages.old) (P.contents pages.new)) }
    ensures grown { OnOk result (Grows (space_number ∷ []) (P.mini pages.old) (P.mini pages.new)) }
    ensures space { P.tells → (s t : Space)
        → IsSpace (P.shape pages.old).pages (P.contents pages.old) s
        → IsRecounted s t (page_in numbers.now) → old.now.bytes ≡ page_of (P.contents pages.old) space_number
        → OnOk result (IsSpace (P.shape pages.new).pages (P.contents pages.new) t) }
{
    write_numbers(pages, old, numbers)?;
    Ok(())
}

/// Adds so many bytes to those that were put into clustered trees.
///
/// # Errors
///
/// Disk; or Damaged, with page 0 and rule 4, where page 0 says no space or the sum is 2^63 or more.
pub fn add_bytes<P: Pages>(pages: &mut P, n: u64) -> Result<(), StoreFault>
    requires usable { P.usable pages.old ≡ true }
    requires begun { (P.mini pages.old).is_begun ≡ true }
    requires room { HasRoom 0 (P.mini pages.old) }
    ensures kept { Continues P.Pages pages.old pages.new result }
    ensures others { P.tells → OnOk result
        (KeepsPages (is_page space_number) (P.contents pages.old) (P.contents pages.new)) }
    ensures grown { OnOk result (Grows (space_number ∷ []) (P.mini pages.old) (P.mini pages.new)) }
    ensures added { P.tells → (s : Space)
        → IsSpace (P.shape pages.old).pages (P.contents pages.old) s
        → OnOk result (IsSpace (P.shape pages.new).pages (P.contents pages.new)
        (record s { bytes = s.bytes + n })) }
    ensures sound { P.tells → (s : Space)
        → IsSpace (P.shape pages.old).pages (P.contents pages.old) s
        → s.bytes + n < counter_limit → IfErr result IsNoDamage }
    ensures names { IfErr result NamesSpace }
{
    let mut page = Page::zeros();
    let numbers = read_numbers(pages, &mut page)?;
    match raised(numbers.bytes, n) {
        Some(bytes) => write_counters(pages, &page, &SpaceNumbers { bytes, ..numbers }),
        None => Err(StoreFault::Damaged {
            page: SPACE_PAGE,
            rule: SPACE_RULE,
        }),
    }
}

// The sum, if it is below 2^63.
fn raised(counter: u64, n: u64) -> Option<u64>
    ensures { result ≡ (if nat_lt (counter + n) counter_limit then Some (counter + n) else None) }
{
    let sum = u128::from(counter) + u128::from(n);
    if sum < LIMIT { Some(sum as u64) } else { None }
}

/// The number of the next entry of an R-tree, which rises by one.
///
/// # Errors
///
/// As of `add_bytes`.
pub fn draw_number<P: Pages>(pages: &mut P) -> Result<u64, StoreFault>
    requires usable { P.usable pages.old ≡ true }
    requires begun { (P.mini pages.old).is_begun ≡ true }
    requires room { HasRoom 0 (P.mini pages.old) }
    ensures kept { Continues P.Pages pages.old pages.new result }
    ensures others { P.tells → OnOk result
        (KeepsPages (is_page space_number) (P.contents pages.old) (P.contents pages.new)) }
    ensures grown { OnOk result (Grows (space_number ∷ []) (P.mini pages.old) (P.mini pages.new)) }
    ensures drawn { P.tells → (s : Space)
        → IsSpace (P.shape pages.old).pages (P.contents pages.old) s
        → OnOk result (IsSpace (P.shape pages.new).pages (P.contents pages.new)
        (record s { entries = s.entries + 1 })) }
    ensures number { P.tells → (s : Space)
        → IsSpace (P.shape pages.old).pages (P.contents pages.old) s
        → IfOk result (λ number. number ≡ s.entries) }
    ensures sound { P.tells → (s : Space)
        → IsSpace (P.shape pages.old).pages (P.contents pages.old) s
        → s.entries + 1 < counter_limit → IfErr result IsNoDamage }
    ensures names { IfErr result NamesSpace }
{
    let mut page = Page::zeros();
    let numbers = read_numbers(pages, &mut page)?;
    match raised(numbers.entries, 1) {
        Some(entries) => {
            write_counters(pages, &page, &SpaceNumbers { entries, ..numbers })?;
            Ok(numbers.entries)
        }
        None => Err(StoreFault::Damaged {
            page: SPACE_PAGE,
            rule: SPACE_RULE,
        }),
    }
}

/// How many tables there are, which rises by one.
///
/// # Errors
///
/// Disk; or Damaged, with page 0 and rule 4, where page 0 says no space or 64 tables and more.
pub fn count_table<P: Pages>(pages: &mut P) -> Result<u32, StoreFault>
    requires usable { P.usable pages.old ≡ true }
    requires begun { (P.mini pages.old).is_begun ≡ true }
    requires room { HasRoom 0 (P.mini pages.old) }
    ensures kept { Continues P.Pages pages.old pages.new result }
    ensures others { P.tells → OnOk result
        (KeepsPages (is_page space_number) (P.contents pages.old) (P.contents pages.new)) }
    ensures grown { OnOk result (Grows (space_number ∷ []) (P.mini pages.old) (P.mini pages.new)) }
    ensures counted { P.tells → (s : Space)
        → IsSpace (P.shape pages.old).pages (P.contents pages.old) s
        → OnOk result (IsSpace (P.shape pages.new).pages (P.contents pages.new)
        (record s { tables = s.tables + 1 })) }
    ensures count { P.tells → (s : Space)
        → IsSpace (P.shape pages.old).pages (P.contents pages.old) s
        → IfOk result (λ count. count ≡ s.tables) }
    ensures sound { P.tells → (s : Space)
        → IsSpace (P.shape pages.old).pages (P.contents pages.old) s
        → s.tables < most_tables → IfErr result IsNoDamage }
    ensures names { IfErr result NamesSpace }
{
    let mut page = Page::zeros();
    let numbers = read_numbers(pages, &mut page)?;
    if numbers.tables < MOST_TABLES {
        let tables = numbers.tables + 1;
        write_counters(pages, &page, &SpaceNumbers { tables, ..numbers })?;
        Ok(numbers.tables)
    } else {
        Err(StoreFault::Damaged {
            page: SPACE_PAGE,
            rule: SPACE_RULE,
        })
    }
}

/// How many tables there are.
///
/// # Errors
///
/// As of `free_count`.
pub fn table_count<P: Pages>(pages: &mut P) -> Result<u32, StoreFault>
    requires usable { P.usable pages.old ≡ true }
    ensures kept { Continues P.Pages pages.old pages.new result }
    ensures contents { P.tells → OnOk result (P.contents pages.new ≡ P.contents pages.old) }
    ensures mini { OnOk result (P.mini pages.new ≡ P.mini pages.old) }
    ensures count { P.tells → (s : Space)
        → IsSpace (P.shape pages.old).pages (P.contents pages.old) s
        → IfOk result (λ n. n ≡ s.tables) }
    ensures sound { P.tells → (s : Space)
        → IsSpace (P.shape pages.old).pages (P.contents pages.old) s
        → IfErr result IsNoDamage }
    ensures names { IfErr result NamesSpace }
{
    let mut page = Page::zeros();
    let numbers = read_numbers(pages, &mut page)?;
    Ok(numbers.tables)
}
