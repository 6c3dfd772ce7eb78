// CRC-24Q of bytes, four bytes a step.
#![tactic(auto)]

ghost use Rattle.std.specs.Prelude.{◌≡◌, ◌<◌, ◌^◌, ◌++◌};
ghost use Rattle.frame_crc.specs.Crc.{crc_bits, crc_byte, crc_from, crc};
ghost use Rattle.frame_crc.specs.Private.{parts};

// What each four bits leave of the division from 0: 16 numbers for each of the eight places in 32 bits, the lowest first.
const PARTS: [u32; 128] = [
    0x000000, 0x864cfb, 0x8ad50d, 0x0c99f6, 0x93e6e1, 0x15aa1a, 0x1933ec, 0x9f7f17, 0xa18139,
    0x27cdc2, 0x2b5434, 0xad18cf, 0x3267d8, 0xb42b23, 0xb8b2d5, 0x3efe2e, 0x000000, 0xc54e89,
    0x0cd1e9, 0xc99f60, 0x19a3d2, 0xdced5b, 0x15723b, 0xd03cb2, 0x3347a4, 0xf6092d, 0x3f964d,
    0xfad8c4, 0x2ae476, 0xefaaff, 0x26359f, 0xe37b16, 0x000000, 0x668f48, 0xcd1e90, 0xab91d8,
    0x1c71db, 0x7afe93, 0xd16f4b, 0xb7e003, 0x38e3b6, 0x5e6cfe, 0xf5fd26, 0x93726e, 0x24926d,
    0x421d25, 0xe98cfd, 0x8f03b5, 0x000000, 0x71c76c, 0xe38ed8, 0x9249b4, 0x41514b, 0x309627,
    0xa2df93, 0xd318ff, 0x82a296, 0xf365fa, 0x612c4e, 0x10eb22, 0xc3f3dd, 0xb234b1, 0x207d05,
    0x51ba69, 0x000000, 0x8309d7, 0x805f55, 0x035682, 0x86f251, 0x05fb86, 0x06ad04, 0x85a4d3,
    0x8ba859, 0x08a18e, 0x0bf70c, 0x88fedb, 0x0d5a08, 0x8e53df, 0x8d055d, 0x0e0c8a, 0x000000,
    0x911c49, 0xa47469, 0x356820, 0xcea429, 0x5fb860, 0x6ad040, 0xfbcc09, 0x1b04a9, 0x8a18e0,
    0xbf70c0, 0x2e6c89, 0xd5a080, 0x44bcc9, 0x71d4e9, 0xe0c8a0, 0x000000, 0x360952, 0x6c12a4,
    0x5a1bf6, 0xd82548, 0xee2c1a, 0xb437ec, 0x823ebe, 0x36066b, 0x000f39, 0x5a14cf, 0x6c1d9d,
    0xee2323, 0xd82a71, 0x823187, 0xb438d5, 0x000000, 0x6c0cd6, 0xd819ac, 0xb4157a, 0x367fa3,
    0x5a7375, 0xee660f, 0x826ad9, 0x6cff46, 0x00f390, 0xb4e6ea, 0xd8ea3c, 0x5a80e5, 0x368c33,
    0x829949, 0xee959f,
];

// What 32 bits leave of the division from 0.
fn word_left(table: &[u32; 128], w: u32) -> u32
    requires { table.now ≡ parts }
    ensures { result ≡ crc_bits 32 0 w }
{
    table[(112 + w / 268435456) as usize]
        ^ table[(96 + w / 16777216 % 16) as usize]
        ^ table[(80 + w / 1048576 % 16) as usize]
        ^ table[(64 + w / 65536 % 16) as usize]
        ^ table[(48 + w / 4096 % 16) as usize]
        ^ table[(32 + w / 256 % 16) as usize]
        ^ table[(16 + w / 16 % 16) as usize]
        ^ table[(w % 16) as usize]
}

// The remainder after four more bytes: the high three take up the remainder so far.
fn crc_four(table: &[u32; 128], c: u32, word: &[u8; 4]) -> u32
    requires { (table.now ≡ parts) × (c < 2 ^ 24) }
    ensures { result ≡ crc_from c word.now }
{
    word_left(table, c * 256 ^ u32::from_be_bytes(*word))
}

// The remainder after one more byte.
#[tactic(auto, using(crate::proofs::Parts::byte_small))]
fn crc_byte(table: &[u32; 128], c: u32, x: u8) -> u32
    requires { (table.now ≡ parts) × (c < 2 ^ 24) }
    ensures { result ≡ crc_byte c x }
{
    let y = c / 65536 ^ x as u32;
    c % 65536 * 256 ^ (table[(16 + y / 16) as usize] ^ table[(y % 16) as usize])
}

// The remainder after the bytes of s, byte by byte.
fn crc_end(table: &[u32; 128], start: u32, s: &[u8]) -> u32
    requires { (table.now ≡ parts) × (start < 2 ^ 24) }
    ensures { result ≡ crc_from start s.now }
{
    let mut c = start;
    for x in s {
        c = crc_byte(table, c, *x);
    }
    c
}

// The remainder after the bytes of s by the table, which stands outside the loop so that it is not made anew at each round.
fn crc_by(table: &[u32; 128], start: u32, s: &[u8]) -> u32
    requires { (table.now ≡ parts) × (start < 2 ^ 24) }
    ensures { result ≡ crc_from start s.now }
{
    let (words, end) = s.as_chunks::<4>();
    let mut c = start;
    for word in words {
        c = crc_four(table, c, word);
    }
    crc_end(table, c, end)
}

// The CRC of s.
pub fn crc_of(s: &[u8]) -> u32
    ensures { result ≡ crc s.now }
{
    crc_by(&PARTS, 0, s)
}

// The CRC of the bytes of a and those of b behind them.
pub fn crc_of_both(a: &[u8], b: &[u8]) -> u32
    ensures { result ≡ crc (a.now ++ b.now) }
{
    let c = crc_by(&PARTS, 0, a);
    crc_by(&PARTS, c, b)
}
