// Tables with an item for each page.
ghost use Rattle.std.specs.Prelude.{◌≡◌, ◌<◌, ◌≤◌, length};

use super::{check, check_eq};
use std::alloc::Global;
use std::process::Abort;
use vm_pages::PageTable;

// The item with which each page begins.
const FIRST: u32 = 1000;

// A table of so many pages.
fn table(rt: &impl Abort, alloc: Global, size: u32) -> PageTable<u32>
    requires { size ≤ 262144 }
{
    PageTable::new(alloc, size, FIRST).expect(rt, "memory")
}

// Ends a table. It stands here once, since a function that owns one is proved to free its parts where it ends.
fn end(_table: PageTable<u32>) {}

// Sets the item of each of some pages to its number.
fn set_numbers(rt: &impl Abort, table: &mut PageTable<u32>, pages: &[u32]) {
    for &page in pages {
        check(rt, page < table.len());
        table.set(page, page);
    }
}

// Asserts that these pages have their numbers, and each other page the first item.
fn check_numbers(rt: &impl Abort, table: &PageTable<u32>, pages: &[u32]) {
    for page in 0..table.len() {
        let wanted = if pages.contains(&page) { page } else { FIRST };
        check_eq(rt, table.get(page), wanted);
    }
}

// Sets pages of a table of so many, the last block first, and clears it in between.
fn check_table(rt: &impl Abort, alloc: Global, size: u32)
    requires some { 0 < size }
    requires few { size ≤ 262144 }
{
    let mut table = table(rt, alloc, size);
    check_eq(rt, table.len(), size);
    check_numbers(rt, &table, &[]);
    let pages = [size - 1, 0, size / 2, size / 3];
    set_numbers(rt, &mut table, &pages);
    check_numbers(rt, &table, &pages);
    table.clear();
    check_numbers(rt, &table, &[]);
    set_numbers(rt, &mut table, &[size / 2]);
    check_numbers(rt, &table, &[size / 2]);
    end(table);
}

#[test]
fn items_are_kept_in_blocks(rt: HostRuntime) {
    for size in [1, 64, 256, 257, 600] {
        check_table(&rt, rt.alloc(), size);
    }
}

#[test]
fn each_page_of_a_table_is_set(rt: HostRuntime) {
    let mut table = table(&rt, rt.alloc(), 600);
    for page in (0..600).rev() {
        set_numbers(&rt, &mut table, &[page]);
    }
    for page in 0..600 {
        check(&rt, page < table.len());
        check_eq(&rt, table.get(page), page);
    }
    end(table);
}

// Sets the item of a page of a table, and asserts which it had.
fn check_replace(rt: &impl Abort, table: &mut PageTable<u32>, page: u32, item: u32, wanted: u32) {
    check(rt, page < table.len());
    check_eq(rt, table.replace(page, item), wanted);
}

#[test]
fn replaced_items_come_back(rt: HostRuntime) {
    let mut table = table(&rt, rt.alloc(), 300);
    check_replace(&rt, &mut table, 299, 7, FIRST);
    check_replace(&rt, &mut table, 299, 299, 7);
    check_replace(&rt, &mut table, 256, 256, FIRST);
    check_replace(&rt, &mut table, 0, 0, FIRST);
    check_numbers(&rt, &table, &[0, 256, 299]);
    end(table);
}
