// The word, the numbers and the bytes of a record.
ghost use Rattle.std.specs.Prelude.{◌≡◌, ◌≤◌, ◌<◌, length};
ghost use Rattle.records.specs.Numbers.{signed_of, unsigned_of};

// The most tokens of a record.
const MOST: usize = 192;

// A word's characters as one number are below this while one more fits.
const WORD_LIMIT: u64 = 0x100_0000_0000_0000;

// More characters than eight: no word of a record.
const NO_WORD: u64 = u64::MAX;

// Numbers are below this while one more digit fits.
const NUMBER_LIMIT: u64 = 0x1_0000_0000;

// A number below zero is its magnitude and this.
const NEGATIVE: u64 = 0x100_0000_0000_0000;

// Past the word, a token that needs one more digit is at least this.
const OPEN: u64 = 0x400_0000_0000_0000;

// What is no number and no byte.
const NONE: u64 = 0x1000_0000_0000_0000;

// In a list, a letter is its character and this.
const LETTER: u64 = 0x100;

// In a list, a byte is itself and this.
pub const BYTE: u64 = 0x200;

// More bytes than an image or a plan may have. It stands for none, since the caller hands the count on as a length, which the exports then refuse: an Option
// would be turned back into this number.
const NO_BYTES: usize = 65;

// The value of what is no digit.
const NO_DIGIT: u8 = 0x10;

// A record's tokens: the word and the numbers, as many as `numbers`; the bytes of the first list, from `first` to `middle`; those of the second, from
// `second` to `count`.
#[derive(Clone, Copy)]
pub struct Tokens {
    pub held: [u64; MOST],
    pub numbers: usize,
    pub first: usize,
    pub middle: usize,
    pub second: usize,
    pub count: usize,
    pub good: bool,
}

// Whether a character begins a token.
fn begins(b: u8) -> bool {
    matches!(b, b' ' | b':' | b';')
}

// How many tokens there are with one character more.
fn counted(count: usize, b: u8) -> usize {
    if count <= MOST && begins(b) {
        count + 1
    } else {
        count
    }
}

// The place of the last of so many tokens.
fn last(count: usize) -> usize
    ensures { result < 192 }
{
    if 0 < count && count <= MOST {
        count - 1
    } else {
        0
    }
}

// Where a list begins: at the last token if the character is the list's own.
fn marked(mark: usize, count: usize, b: u8, own: u8) -> usize {
    if b == own { last(count) } else { mark }
}

// The value of a decimal or capital hexadecimal digit.
fn digit(b: u8) -> u8
    ensures { result ≤ 16 }
{
    match b {
        b'0'..=b'9' => b - b'0',
        b'A'..=b'F' => b - b'A' + 10,
        _ => NO_DIGIT,
    }
}

// A word with one letter more.
fn word(value: u64, b: u8) -> u64 {
    if value < WORD_LIMIT {
        return value * 256 + b as u64;
    }
    NO_WORD
}

// A decimal number with one character more.
fn decimal(value: u64, b: u8) -> u64 {
    if b == b'-' && value == 0 {
        return NEGATIVE + OPEN;
    }
    let d = digit(b);
    let magnitude = value % NEGATIVE;
    if d < 10 && magnitude < NUMBER_LIMIT {
        return value % OPEN + magnitude % NUMBER_LIMIT * 9 + d as u64;
    }
    NONE
}

// Whether a character is an event's letter.
fn is_letter(b: u8) -> bool {
    matches!(b, b'S' | b'P' | b'R' | b'N')
}

// A byte with one digit more, or an event's letter.
fn byte(value: u64, b: u8) -> u64 {
    let d = digit(b);
    if value == 0 && is_letter(b) {
        return LETTER + b as u64;
    }
    if d == NO_DIGIT {
        return NONE;
    }
    if value == 0 {
        return OPEN + d as u64;
    }
    if OPEN <= value {
        return BYTE + value % 16 * 16 + d as u64;
    }
    NONE
}

// The token at a place with one character more; bytes begin at another.
fn joined(value: u64, b: u8, at: usize, first: usize) -> u64 {
    if begins(b) {
        return 0;
    }
    if at == 0 {
        return word(value, b);
    }
    if at < first {
        return decimal(value, b);
    }
    byte(value, b)
}

// Whether what stands at a place past the word is at least a bound.
fn reaches(bound: u64, value: u64, at: usize) -> bool {
    0 < at && bound <= value
}

// Whether a character begins a list that has begun before; the first list begins no later than the second.
fn repeated(b: u8, first: usize, second: usize) -> bool {
    (b == b':' && first < MOST) || (b == b';' && second < MOST)
}

// The tokens of a text.
pub fn split(text: &[u8]) -> Tokens
    ensures within { (result.numbers ≤ result.count) × (result.middle ≤ result.count) }
{
    let mut held = [0u64; MOST];
    let mut count = 1;
    let mut first = MOST;
    let mut second = MOST;
    let mut good = true;
    let mut partial = true;
    for &b in text {
        good = good && !repeated(b, first, second);
        count = counted(count, b);
        second = marked(second, count, b, b';');
        first = marked(first, count, b, b':').min(second);
        let at = last(count);
        let value = joined(held[at], b, at, first);
        held[at] = value;
        good = good && !reaches(NONE, value, at) && !(partial && begins(b));
        partial = begins(b) || reaches(OPEN, value, at);
    }
    Tokens {
        held,
        numbers: first.min(count),
        first,
        middle: second.min(count),
        second,
        count,
        good: good && !partial && count <= MOST,
    }
}

// Puts the bytes from one place to another into lent memory: how many they are, or `NO_BYTES` where they are too many or one is none.
pub fn bytes(held: [u64; MOST], from: usize, to: usize, out: &mut [u8]) -> usize
    ensures { (result ≤ 65) × (length out.new ≡ length out.old) }
{
    for (n, i) in (from..to).enumerate() {
        let value = held[i % MOST];
        if value < BYTE || out.len() <= n {
            return NO_BYTES;
        }
        out[n] = (value % 256) as u8;
    }
    to.saturating_sub(from).min(NO_BYTES)
}

// A number as a signed one of 32 bits: the nearest.
pub fn signed(number: u64) -> i32
    ensures answer { result ≡ signed_of number }
{
    match i32::try_from(number % NEGATIVE) {
        Ok(magnitude) if number < NEGATIVE => magnitude,
        Ok(magnitude) => -magnitude,
        Err(_) if number < NEGATIVE => i32::MAX,
        Err(_) => i32::MIN,
    }
}

// A number as an unsigned one of 32 bits: the largest where it does not fit.
pub fn unsigned(number: u64) -> u32
    ensures answer { result ≡ unsigned_of number }
{
    u32::try_from(number).unwrap_or(u32::MAX)
}
