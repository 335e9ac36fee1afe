// The words behind the program's name, and what they ask for.
#![tactic(auto)]

ghost use Rattle.std.specs.Prelude.{◌≡◌, ◌++◌, ◌+◌, ◌*◌, ◌-◌, ◌<◌, ◌≤◌, length, take, drop};
ghost use Rattle.list_words.specs.Words.{number_in, size_bytes, sizes_in, words_in, request_of};
ghost use Rattle.list_words.specs.Jobs.{sizes_meant, SizesHeld, WordAt, meant, Held};

// A family is asked for at no more sizes.
const MOST_SIZES: usize = 16;

// Where a word ends and where the next begins.
#[derive(Clone, Copy, Debug, PartialEq, Eq)]
pub struct Span {
    pub end: usize,
    pub next: usize,
}

// What is listed: the whole program, or a family at sizes of so many bytes.
#[derive(Clone, Copy, Debug, PartialEq, Eq)]
pub enum Job {
    Whole,
    Family(u32, usize),
}

// What is asked for: a listing or help.
#[derive(Clone, Copy, Debug, PartialEq, Eq)]
pub enum Asked {
    Listing(Job),
    Help,
}

// The number of a word, if it says one.
fn number_in(word: &[u8]) -> Option<u32>
    ensures { result ≡ number_in word.now }
{
    if word.is_empty() {
        return None;
    }
    let mut n: u32 = 0;
    for &byte in word {
        if !byte.is_ascii_digit() {
            return None;
        }
        let digit = u32::from(byte - b'0');
        n = n.checked_mul(10)?.checked_add(digit)?;
    }
    Some(n)
}

// Puts a size into four bytes at a place, low byte first.
fn put_size(n: u32, sizes: &mut [u8], at: usize)
    requires { at + 4 ≤ length sizes.old }
    ensures { take (at + 4) sizes.new ≡ take at sizes.old ++ size_bytes n }
{
    sizes[at..at + 4].copy_from_slice(&n.to_le_bytes());
}

// The word that begins at a place of a text in which a 0 ends each word.
fn word_at(text: &[u8], from: usize) -> Span
    requires { from < length text.now }
    ensures { WordAt text.now from result }
{
    match text[from..].iter().position(|byte| *byte == 0) {
        Some(size) => {
            let end = from + size;
            Span { end, next: end + 1 }
        }
        None => Span {
            end: text.len(),
            next: text.len(),
        },
    }
}

// The sizes that the words from a place on say, put into bytes, and how many bytes those are, if each word says one.
fn sizes_in(text: &[u8], from: usize, sizes: &mut [u8]) -> Option<usize>
    requires from_in_bounds { from ≤ length text.now }
    requires in_bounds { 64 ≤ length sizes.old }
    ensures sizes_after { sizes_meant result sizes.new ≡ sizes_in 16 (words_in (drop from text.now)) }
    ensures sizes_held { SizesHeld result sizes.new }
{
    let mut at = from;
    let mut many: usize = 0;
    while at < text.len() {
        if many == MOST_SIZES {
            return None;
        }
        let word = word_at(text, at);
        let end = word.end;
        let n = number_in(&text[at..end])?;
        put_size(n, sizes, 4 * many);
        many += 1;
        at = word.next;
    }
    Some(4 * many)
}

// What the words of a text ask for, if it can be done. Sizes are put into bytes.
pub fn request(text: &[u8], sizes: &mut [u8]) -> Option<Asked>
    requires { 64 ≤ length sizes.old }
    ensures sizes_after { meant result sizes.new ≡ request_of (words_in text.now) }
    ensures held { Held result sizes.new }
{
    if text.is_empty() {
        return Some(Asked::Listing(Job::Whole));
    }
    let first = word_at(text, 0);
    let end = first.end;
    if check::same(&text[..end], b"--help") {
        return Some(Asked::Help);
    }
    let family = number_in(&text[..end])?;
    let size = sizes_in(text, first.next, sizes)?;
    Some(Asked::Listing(Job::Family(family, size)))
}
