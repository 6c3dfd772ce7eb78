// An index beside the table in 128 bytes: 32 entries of owner, SIN, group and slot, sorted. What is read of it: the binary search, and whether it agrees with a table.
#![tactic(auto)]

ghost use Rattle.std.specs.Prelude.{◌≡◌, ◌<◌, length, eqb, ltb};
ghost use Rattle.arith.specs.Lists.{all_below};
ghost use Rattle.table_index_search.specs.Index.{entries, entry_size, index_size, byte_at, number_at, key_at};
ghost use Rattle.table_index_search.specs.Search.{searched};
ghost use Rattle.table_index_search.specs.Private.{binary_search};
ghost use Rattle.table_index_search.specs.Agree.{blank_at, in_order, is_true, is_entry, is_listed, agree_at, agree};
ghost use Rattle.table_index_search.specs.Place.{key_place};
ghost use Rattle.table_index_search.specs.Inner.{placed};

pub const ENTRIES: usize = 32;

pub const ENTRY_SIZE: usize = 4;

pub const INDEX_SIZE: usize = ENTRIES * ENTRY_SIZE;

// What a search gives: the slot of the entry that has the key, and how many entries were looked at.
#[derive(Clone, Copy)]
pub struct Probe {
    pub slot: Option<u8>,
    pub probes: u8,
}

// Byte b of entry j: owner, SIN, group, slot.
fn byte_at(index: &[u8; INDEX_SIZE], j: usize, b: usize) -> u8
    requires { (j < entries) × (b < entry_size) }
    ensures { result ≡ byte_at index.now j b }
{
    let a = j * ENTRY_SIZE + b;
    index[a]
}

// Owner, SIN and group of entry j as one number.
fn number_at(index: &[u8; INDEX_SIZE], j: usize) -> u64
    requires { j < entries }
    ensures { result ≡ number_at index.now j }
{
    let owner = byte_at(index, j, 0) as u64;
    let sin = byte_at(index, j, 1) as u64;
    owner * 65536 + sin * 256 + (byte_at(index, j, 2) as u64)
}

// Whether entry j has the key.
fn is_key(index: &[u8; INDEX_SIZE], j: usize, key: u64) -> bool
    requires { j < entries }
    ensures { result ≡ eqb (key_at index.now j) key }
{
    if byte_at(index, j, 0) == 0 {
        return false;
    }
    number_at(index, j) == key
}

// Whether entry j is below the key.
fn is_below(index: &[u8; INDEX_SIZE], j: usize, key: u64) -> bool
    requires { j < entries }
    ensures { result ≡ ltb (key_at index.now j) key }
{
    if byte_at(index, j, 0) == 0 {
        return false;
    }
    number_at(index, j) < key
}

// Looks for a key among all entries. A while: the search halves, and counts the entries that it looks at.
fn binary_search(index: &[u8; INDEX_SIZE], key: u64) -> Probe
    ensures { result ≡ binary_search entries index.now key 0 entries 0 }
{
    let mut lo = 0;
    let mut end = ENTRIES;
    let mut probes = 0;
    while lo < end {
        let mid = (lo + (end - 1)) / 2;
        probes += 1;
        if is_key(index, mid, key) {
            let slot = Some(byte_at(index, mid, 3));
            return Probe { slot, probes };
        }
        if is_below(index, mid, key) {
            lo = mid + 1;
        } else {
            end = mid;
        }
    }
    Probe { slot: None, probes }
}

// Looks for a key by binary search; an index of another size has none.
pub fn search(index: &[u8], key: u64) -> Probe
    ensures { result ≡ searched index.now key }
{
    let Ok(index) = <&[u8; INDEX_SIZE]>::try_from(index) else {
        return Probe {
            slot: None,
            probes: 0,
        };
    };
    binary_search(index, key)
}

// Whether all bytes of entry j are zero.
fn is_blank(index: &[u8; INDEX_SIZE], j: usize) -> bool
    requires { j < entries }
    ensures { result ≡ blank_at index.now j }
{
    (0..ENTRY_SIZE).all(|b| byte_at(index, j, b) == 0)
}

// Whether entry j is unused, the first, or above the one before it.
fn in_order(index: &[u8; INDEX_SIZE], j: usize) -> bool
    requires { j < entries }
    ensures { result ≡ in_order index.now j }
{
    if byte_at(index, j, 0) == 0 {
        return true;
    }
    if j == 0 {
        return true;
    }
    is_below(index, j - 1, number_at(index, j))
}

// Whether entry j is zero where it is unused, and else its slot has its key.
fn is_true(marks: &[u64; ENTRIES], index: &[u8; INDEX_SIZE], j: usize) -> bool
    requires { j < entries }
    ensures { result ≡ is_true marks.now index.now j }
{
    if byte_at(index, j, 0) == 0 {
        return is_blank(index, j);
    }
    let slot = byte_at(index, j, 3) as usize;
    if ENTRIES <= slot {
        return false;
    }
    is_key(index, j, marks[slot])
}

// Whether entry j has the key and the slot.
fn is_entry(index: &[u8; INDEX_SIZE], key: u64, slot: usize, j: usize) -> bool
    requires { j < entries }
    ensures { result ≡ is_entry index.now key slot j }
{
    if !is_key(index, j, key) {
        return false;
    }
    byte_at(index, j, 3) as usize == slot
}

// Whether slot i is free or has an entry.
fn is_listed(marks: &[u64; ENTRIES], index: &[u8; INDEX_SIZE], i: usize) -> bool
    requires { i < entries }
    ensures { result ≡ is_listed marks.now index.now i }
{
    let key = marks[i];
    if key == 0 {
        return true;
    }
    (0..ENTRIES).any(|j| is_entry(index, key, i, j))
}

// Whether entry i and slot i are as in an index and a table that agree.
fn agree_at(marks: &[u64; ENTRIES], index: &[u8; INDEX_SIZE], i: usize) -> bool
    requires { i < entries }
    ensures { result ≡ agree_at marks.now index.now i }
{
    if !in_order(index, i) {
        return false;
    }
    if !is_true(marks, index, i) {
        return false;
    }
    is_listed(marks, index, i)
}

// Whether all entries and slots are as in an index and a table that agree.
fn all_agree(marks: &[u64; ENTRIES], index: &[u8; INDEX_SIZE]) -> bool
    ensures { result ≡ all_below (agree_at marks.now index.now) entries }
{
    (0..ENTRIES).all(|i| agree_at(marks, index, i))
}

// Whether the index agrees with a table that has the marks.
pub fn agrees(marks: &[u64], index: &[u8]) -> bool
    ensures { result ≡ agree marks.now index.now }
{
    let Ok(marks) = <&[u64; ENTRIES]>::try_from(marks) else {
        return false;
    };
    let Ok(index) = <&[u8; INDEX_SIZE]>::try_from(index) else {
        return false;
    };
    all_agree(marks, index)
}

// The first entry that is not below the key, 32 where all are.
fn key_place(index: &[u8; INDEX_SIZE], key: u64) -> usize
    ensures { result ≡ key_place index.now key }
{
    (0..ENTRIES)
        .position(|j| !is_below(index, j, key))
        .unwrap_or(ENTRIES)
}

// Where a key stands, or else where it belongs: the first entry that is not below it, 32 where all are. An index of another size has none.
pub fn place_of(index: &[u8], key: u64) -> Result<usize, usize>
    ensures { result ≡ placed index.now key }
{
    let Ok(index) = <&[u8; INDEX_SIZE]>::try_from(index) else {
        return Err(ENTRIES);
    };
    let at = key_place(index, key);
    if at < ENTRIES && is_key(index, at, key) {
        return Ok(at);
    }
    Err(at)
}
