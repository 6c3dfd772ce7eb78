// The table of messages with its index: each call takes both buffers. Find reads the entries of a binary search and one slot.
#![tactic(auto)]

ghost use Rattle.std.specs.Prelude.{◌≡◌, length};
ghost use Rattle.arith.specs.Lists.{up_to};
ghost use Rattle.table_slots.specs.Slots.{slots, table_size};
ghost use Rattle.table_indexed.specs.Indexed.{entry_key, agrees_refusal, write_refusal, write_index, store_number, stored_table, stored_index, remove_number, removed_table, removed_index};
ghost use Rattle.table_indexed.specs.Find.{found_by};
ghost use Rattle.table_indexed.specs.Private.{mark_key, mark_key_at, entry_added, missing, in_slot};
ghost use Rattle.table_indexed.specs.Inner.{Shows};

use arith::refusals::Refusal;
use table_index_search::INDEX_SIZE;
use table_slots::{SLOT_SIZE, SLOTS, TABLE_SIZE};

// Owner, SIN and group as one number.
fn entry_key(owner: u8, sin: u8, group: u8) -> u64
    ensures { result ≡ entry_key owner sin group }
{
    (owner as u64) * 65536 + (sin as u64) * 256 + (group as u64)
}

// The key of a slot by its mark.
fn mark_key(mark: usize) -> u64
    ensures { result ≡ mark_key mark }
{
    if mark == 0 {
        return 0;
    }
    let g = (mark - 1) as u64;
    g % 3 * 65536 + g / 9 % 256 * 256 + g / 3 % 3
}

// The keys of all slots by their marks.
fn mark_keys(row: &[usize; SLOTS]) -> [u64; SLOTS]
    ensures { result ≡ up_to (mark_key_at row.now) slots }
{
    row.map(mark_key)
}

// Whether table and index agree: 0, TABLE or INDEX.
pub fn agrees(table: &[u8], index: &[u8]) -> u8
    ensures { result ≡ agrees_refusal table.now index.now }
{
    let Some(row) = table::checked_marks(table) else {
        return Refusal::Table as u8;
    };
    if !table_index_search::agrees(&mark_keys(&row), index) {
        return Refusal::Index as u8;
    }
    0
}

// Writes the index anew.
pub fn write_index(table: &[u8], index: &mut [u8]) -> u8
    ensures answer { result ≡ write_refusal table.now index.old }
    ensures output { index.new ≡ write_index table.now index.old }
{
    let Some(row) = table::checked_marks(table) else {
        return Refusal::Table as u8;
    };
    if index.len() != INDEX_SIZE {
        return Refusal::Index as u8;
    }
    table_index::rebuild(&mark_keys(&row), index);
    0
}

// Gives an owner's message its entry: the slot that has its key, else the first free one.
fn add_entry(row: &[usize; SLOTS], index: &mut [u8], owner: u8, message: &[u8])
    ensures { index.new ≡ entry_added row.now index.old owner message.now }
{
    let h = message_rows::read_header(message);
    let sin = h.sin;
    let group = table_slots::group_of(h.number);
    let place = table_slots::mark_or_free(row, table_slots::tag_of(owner, sin, group), 0);
    let i = place.unwrap_or(SLOTS);
    table_index::insert(index, entry_key(owner, sin, group), i as u8);
}

// Stores a message under its key for an owner.
pub fn store(table: &mut [u8], index: &mut [u8], owner: u8, message: &[u8]) -> u8
    ensures answer { result ≡ store_number table.old index.old owner message.now }
    ensures output { table.new ≡ stored_table table.old index.old owner message.now }
    ensures kept { index.new ≡ stored_index table.old index.old owner message.now }
{
    let Some(row) = table::checked_marks(table) else {
        return Refusal::Table as u8;
    };
    if !table_index_search::agrees(&mark_keys(&row), index) {
        return Refusal::Index as u8;
    }
    let r = table::store_marked(table, &row, owner, message);
    if r != 0 {
        return r;
    }
    add_entry(&row, index, owner, message);
    0
}

// Removes the message of an owner's key.
pub fn remove(table: &mut [u8], index: &mut [u8], owner: u8, sin: u8, group: u8) -> u8
    ensures answer { result ≡ remove_number table.old index.old owner sin group }
    ensures output { table.new ≡ removed_table table.old index.old owner sin group }
    ensures kept { index.new ≡ removed_index table.old index.old owner sin group }
{
    let a = agrees(table, index);
    if a != 0 {
        return a;
    }
    let r = table::remove(table, owner, sin, group);
    if r != 0 {
        return r;
    }
    table_index::delete(index, entry_key(owner, sin, group));
    0
}

// Where a message stands in the table: its first byte and its length, and how many entries the search looked at; zeros with a refusal.
#[repr(C)]
#[derive(Clone, Copy)]
pub struct Found {
    pub refusal: u8,
    pub at: usize,
    pub length: usize,
    pub probes: u8,
}

fn not_found(refusal: u8) -> Found
    ensures { result ≡ missing refusal }
{
    Found {
        refusal,
        at: 0,
        length: 0,
        probes: 0,
    }
}

// The message of slot i, where that is a used slot with the mark g.
fn in_slot(table: &[u8], i: usize, g: usize, probes: u8) -> Found
    requires { length table.now ≡ table_size }
    ensures { result ≡ in_slot table.now i g probes }
{
    if SLOTS <= i {
        return not_found(Refusal::Index as u8);
    }
    if table_slots::mark_of(table, i) != g {
        return not_found(Refusal::Index as u8);
    }
    let a = i * SLOT_SIZE + 1;
    Found {
        refusal: 0,
        at: a + 1,
        length: table[a] as usize,
        probes,
    }
}

// Finds the message of an owner's key.
pub fn find(table: &[u8], index: &[u8], owner: u8, sin: u8, group: u8) -> Found
    ensures { result ≡ found_by table.now index.now owner sin group }
{
    if table.len() != TABLE_SIZE {
        return not_found(Refusal::Table as u8);
    }
    if index.len() != INDEX_SIZE {
        return not_found(Refusal::Index as u8);
    }
    if !table_slots::is_owner(owner) {
        return not_found(Refusal::Owner as u8);
    }
    if 2 < group {
        return not_found(Refusal::None as u8);
    }
    let p = table_index_search::search(index, entry_key(owner, sin, group));
    let Some(slot) = p.slot else {
        return not_found(Refusal::None as u8);
    };
    in_slot(
        table,
        slot as usize,
        table_slots::tag_of(owner, sin, group),
        p.probes,
    )
}

// The message of an owner's key, as the part of the table in which it stands; empty with a refusal.
pub fn shown<'a>(table: &'a [u8], index: &[u8], owner: u8, sin: u8, group: u8) -> &'a [u8]
    ensures { Shows table.entry index.now owner sin group result }
{
    let f = find(table, index, owner, sin, group);
    let a = f.at;
    let e = a + f.length;
    &table[a..e]
}
