// The words of a line: what stands between single spaces. Bytes put into a buffer.
#![tactic(auto)]

ghost use Rattle.std.specs.Prelude.{◌+◌, ◌≤◌, length, take, drop, ◌≡◌};
ghost use Rattle.std.proofs.Math.Seq.{paste};
ghost use Rattle.text_words.specs.Inner.{find, word, rest, Next, words, place_in, put, place_behind};
ghost use Rattle.text_words.specs.Words.{same};

// The place of the first byte `b`, the length where there is none.
pub fn find(s: &[u8], b: u8) -> usize
    ensures { result ≡ find b s.now }
{
    s.iter().position(|x| *x == b).unwrap_or(s.len())
}

// The first `n` of a list, all where there are fewer.
pub fn before<T>(s: &[T], n: usize) -> &[T]
    ensures { result.now ≡ take n s.now }
{
    &s[..n.min(s.len())]
}

// Those from `n` on, none where there are no more.
pub fn behind<T>(s: &[T], n: usize) -> &[T]
    ensures { result.now ≡ drop n s.now }
{
    &s[n.min(s.len())..]
}

// The place behind the word that begins at `from` and its space.
pub fn next(s: &[u8], from: usize) -> usize
    ensures { Next s.now from result }
{
    let n = find(behind(s, from), b' ');
    let length = s.len();
    if length <= from {
        return length;
    }
    if length - from <= n {
        return length;
    }
    from + n + 1
}

// The first word.
pub fn word(s: &[u8]) -> &[u8]
    ensures { result.now ≡ word s.now }
{
    before(s, find(s, b' '))
}

// What stands behind the first word and its space.
pub fn rest(s: &[u8]) -> &[u8]
    ensures { result.now ≡ rest s.now }
{
    behind(s, next(s, 0))
}

pub fn same(a: &[u8], b: &[u8]) -> bool
    ensures { result ≡ same a.now b.now }
{
    a == b
}

// The place of a word among the words of a line, their number where it is none of them.
pub fn place(s: &[u8], line: &[u8]) -> usize
    ensures { result ≡ place_in s.now (words line.now) }
{
    let mut from: usize = 0;
    let mut k: usize = 0;
    // A while: the step is the length of a word.
    while from < line.len() {
        if same(word(behind(line, from)), s) {
            return k;
        }
        from = next(line, from);
        k += 1;
    }
    k
}

// Copies `s` to a place of a buffer and answers the place behind it; where there is no room for all of it, nothing is copied and the answer is the place itself.
pub fn put(out: &mut [u8], at: usize, s: &[u8]) -> usize
    ensures output { out.new ≡ put out.old at s.now }
    ensures answer { result ≡ place_behind out.old at s.now }
{
    if out.len() < at {
        return at;
    }
    if out.len() - at < s.len() {
        return at;
    }
    let end = at + s.len();
    out[at..end].copy_from_slice(s);
    end
}
