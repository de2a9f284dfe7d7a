//! Texts that are spelled from their last byte to their first: so no number's digits are counted or turned round, and a line
//! with its events is added to what is printed at once. Each function puts a text so that it ends where the bytes from `end`
//! on begin, and says where it starts.

ghost use Rattle.std.specs.Prelude.{◌≡◌, ◌≤◌, ◌<◌, ◌+◌, ◌++◌, ◌∷◌, length, drop};
ghost use Rattle.std.specs.Fmt.{decimal};
ghost use Rattle.mx_sdw.specs.Octal.{octal};
ghost use Rattle.mx_request.specs.Fields.{address_text};

use itoa::write_digits;

/// Room for the longest sixteen lines.
pub(super) type Room = [u8; 3072];

/// How many bytes that are.
pub(super) const ROOM: usize = 3072;

/// The two octal digits of each number below 64.
static PAIRS: [u8; 128] =
    *b"00010203040506071011121314151617202122232425262730313233343536374041424344454647505152535455565760616263646566677071727374757677";

/// Puts a byte.
#[inline(always)]
pub(super) fn put_byte(bytes: &mut Room, end: usize, byte: u8) -> usize
    requires within { end ≤ 3072 }
    requires room { 1 ≤ end }
    ensures put { drop result bytes.new ≡ byte ∷ drop end bytes.old }
    ensures start { result + 1 ≡ end }
{
    let start = end - 1;
    bytes[start] = byte;
    start
}

/// Puts letters.
#[inline(always)]
pub(super) fn put_letters<const N: usize>(bytes: &mut Room, end: usize, letters: &[u8; N]) -> usize
    requires within { end ≤ 3072 }
    requires room { length letters.now ≤ end }
    ensures put { drop result bytes.new ≡ letters.now ++ drop end bytes.old }
    ensures start { result + length letters.now ≡ end }
{
    let start = end - N;
    let mut left = N;
    while left > 0 {
        left -= 1;
        bytes[start + left] = letters[left];
    }
    start
}

/// Puts a text.
pub(super) fn put_text(bytes: &mut Room, end: usize, text: &[u8]) -> usize
    requires within { end ≤ 3072 }
    requires room { length text.now ≤ end }
    ensures put { drop result bytes.new ≡ text.now ++ drop end bytes.old }
    ensures start { result + length text.now ≡ end }
{
    let start = end - text.len();
    bytes[start..end].copy_from_slice(text);
    start
}

/// Puts a number in octal, in at most 22 digits.
#[inline(always)]
pub(super) fn put_octal(bytes: &mut Room, end: usize, n: u64) -> usize
    requires within { end ≤ 3072 }
    requires room { 22 ≤ end }
    ensures put { drop result bytes.new ≡ octal n ++ drop end bytes.old }
    ensures within { result ≤ end }
    ensures short { end ≤ 22 + result }
{
    spell_octal(bytes, end, n)
}

/// Puts the address `S|W`, in at most 45 bytes.
#[inline(always)]
pub(super) fn put_address(bytes: &mut Room, end: usize, segno: u16, word: u16) -> usize
    requires within { end ≤ 3072 }
    requires room { 45 ≤ end }
    ensures put { drop result bytes.new ≡ address_text segno word ++ drop end bytes.old }
    ensures within { result ≤ end }
    ensures short { end ≤ 45 + result }
{
    let at = put_octal(bytes, end, u64::from(word));
    let at = put_byte(bytes, at, b'|');
    put_octal(bytes, at, u64::from(segno))
}

/// Puts a number in decimal, in at most 20 digits.
#[inline(always)]
#[tactic(auto, using(std::proofs::lemmas::Fmt::decimal_digit))]
pub(super) fn put_decimal(bytes: &mut Room, end: usize, n: u64) -> usize
    requires within { end ≤ 3072 }
    requires room { 20 ≤ end }
    ensures put { drop result bytes.new ≡ decimal n ++ drop end bytes.old }
    ensures within { result ≤ end }
    ensures short { end ≤ 20 + result }
{
    if n < 10 {
        put_byte(bytes, end, b'0' + n as u8)
    } else {
        put_long_decimal(bytes, end, n)
    }
}

#[inline(never)]
fn put_long_decimal(bytes: &mut Room, end: usize, n: u64) -> usize
    requires within { end ≤ 3072 }
    requires room { 20 ≤ end }
    ensures put { drop result bytes.new ≡ decimal n ++ drop end bytes.old }
    ensures within { result ≤ end }
    ensures short { end ≤ 20 + result }
{
    write_digits(n, bytes, end)
}

// Spells the last digits of a number that are still to come, one or two, the last one at `start`; where they start.
#[inline(always)]
fn spell_front(bytes: &mut Room, start: usize, left: u64) -> usize
    requires few { left < 64 }
    requires within { start ≤ 3071 }
    requires room { 8 ≤ left → 1 ≤ start }
    ensures spelled { drop result bytes.new ≡ octal left ++ drop (start + 1) bytes.old }
    ensures within { result ≤ start }
{
    if left < 8 {
        bytes[start] = b'0' + left as u8;
        return start;
    }
    bytes[start] = b'0' + (left % 8) as u8;
    bytes[start - 1] = b'0' + (left / 8) as u8;
    start - 1
}

// Spells a number in octal so that it ends where the bytes from `end` on begin; where it starts.
#[inline(always)]
fn spell_octal(bytes: &mut Room, end: usize, n: u64) -> usize
    requires within { end ≤ 3072 }
    requires room { 22 ≤ end }
    ensures spelled { drop result bytes.new ≡ octal n ++ drop end bytes.old }
    ensures within { result ≤ end }
{
    let mut start = end - 1;
    let mut left = n;
    while left >= 64 {
        let pair = (left % 64) as usize;
        let (first, last) = (PAIRS[2 * pair], PAIRS[2 * pair + 1]);
        bytes[start] = last;
        bytes[start - 1] = first;
        start -= 2;
        left /= 64;
    }
    spell_front(bytes, start, left)
}
