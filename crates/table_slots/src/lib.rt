// The slots of the table that two owners share: 32 of 132 bytes, an owner byte, a length byte, 127 message bytes and three zeros. What stands in them is read into a row of marks.
#![tactic(auto)]

ghost use Rattle.std.specs.Prelude.{◌≡◌, suc, ◌<◌, length, get_or};
ghost use Rattle.table_slots.specs.Slots.{slots, slot_size, table_size, is_owner, group_of, key, joined, all_zero};
ghost use Rattle.table_slots.specs.Inner.{no_tag, mark, mark_at, marks, mark_place, place_in, flawed_mark, sound_marks, mark_or_free};

use std::array;

pub const SLOTS: usize = 32;

const MESSAGE_SIZE: usize = 127;

pub const SLOT_SIZE: usize = 2 + MESSAGE_SIZE + 3;

pub const TABLE_SIZE: usize = SLOTS * SLOT_SIZE;

// The mark of a slot that is not well formed. Marks are numbers and no enum, so that one search of a row finds a free slot and a tag alike.
pub const NO_TAG: usize = 2305;

// Whether all bytes are zero, by the greatest: the compiler takes sixteen at a time.
fn zeros(s: &[u8]) -> bool
    ensures { result ≡ all_zero s.now }
{
    s.iter().fold(0, |n: u8, b| n.max(*b)) == 0
}

// The group of a message number.
pub fn group_of(number: u16) -> u8
    ensures { result ≡ group_of number }
{
    match number {
        ..=1022 => 0,
        ..=1024 => 1,
        _ => 2,
    }
}

// Whether there is such an owner.
#[tactic(auto, unfolding(crate::specs::Slots::is_owner))]
pub fn is_owner(owner: u8) -> bool
    ensures { result ≡ is_owner owner }
{
    matches!(owner, 1 | 2)
}

// What a used slot is looked for by: one more than its owner and key.
pub fn tag_of(owner: u8, sin: u8, group: u8) -> usize
    ensures { result ≡ suc (joined owner (key sin group)) }
{
    ((sin as usize) * 3 + (group as usize)) * 3 + (owner as usize) + 1
}

// The mark of a slot: 0 where it is free, the tag of its message where it is used.
fn slot_mark(s: &[u8]) -> usize
    requires { length s.now ≡ slot_size }
    ensures { result ≡ mark s.now }
{
    let o = s[0];
    if o == 0 {
        if zeros(s) {
            return 0;
        }
        return NO_TAG;
    }
    if !is_owner(o) {
        return NO_TAG;
    }
    let n = s[1] as usize;
    if MESSAGE_SIZE < n {
        return NO_TAG;
    }
    let e = 2 + n;
    if !zeros(&s[e..SLOT_SIZE]) {
        return NO_TAG;
    }
    let h = message_rows::read_header(&s[2..e]);
    if h.refusal != 0 {
        return NO_TAG;
    }
    tag_of(o, h.sin, group_of(h.number))
}

// The mark of slot i.
fn mark_at(table: &[u8], i: usize) -> usize
    requires { (length table.now ≡ table_size) × (i < slots) }
    ensures { result ≡ mark_at table.now i }
{
    let a = i * SLOT_SIZE;
    let e = a + SLOT_SIZE;
    slot_mark(&table[a..e])
}

// The mark of slot i; a table of another size and a place behind the last slot have no tag.
pub fn mark_of(table: &[u8], i: usize) -> usize
    ensures { result ≡ get_or (marks table.now) i no_tag }
{
    if table.len() != TABLE_SIZE {
        return NO_TAG;
    }
    if SLOTS <= i {
        return NO_TAG;
    }
    mark_at(table, i)
}

// The marks of all slots.
pub fn table_marks(table: &[u8]) -> [usize; SLOTS]
    ensures { result ≡ marks table.now }
{
    if table.len() != TABLE_SIZE {
        return [NO_TAG; SLOTS];
    }
    array::from_fn(|i| mark_at(table, i))
}

// What is looked for in the row of a table's marks: a mark's place, whether the slots are sound, and a slot for a key.

// How many slots an owner may hold.
pub const MOST: usize = 20;

// The first place with the mark g.
pub fn mark_place(row: &[usize; SLOTS], g: usize) -> Option<usize>
    ensures { result ≡ place_in (mark_place row.now g slots) }
{
    row.iter().position(|m| *m == g)
}

// Whether place i has no tag, or a key that stands before it.
fn flawed_mark(row: &[usize; SLOTS], i: usize) -> bool
    requires { i < slots }
    ensures { result ≡ flawed_mark row.now i }
{
    let g = row[i];
    if g == NO_TAG {
        return true;
    }
    if g == 0 {
        return false;
    }
    row[..i].contains(&g)
}

// Whether every slot is well formed and no key stands twice, by the marks.
pub fn sound_marks(row: &[usize; SLOTS]) -> bool
    ensures { result ≡ sound_marks row.now }
{
    !(0..SLOTS).any(|i| flawed_mark(row, i))
}

// The place of the mark g, else that of the first free slot where fewer than 20 are held.
pub fn mark_or_free(row: &[usize; SLOTS], g: usize, holds: usize) -> Option<usize>
    ensures { result ≡ place_in (mark_or_free row.now g holds) }
{
    let place = mark_place(row, g);
    if place.is_none() && holds < MOST {
        return mark_place(row, 0);
    }
    place
}
