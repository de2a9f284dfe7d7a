//! Pointer words and link words.

use super::ring;
use mx_ptr::{Pointer, is_link, link_word, read_octal};
use mx_sdw::Word;

// The word of a pointer, and whether the word is read as the pointer.
fn word(segno: u16, n: u8, word: u16, further: bool) -> Option<(u64, bool)> {
    let pointer = Pointer {
        ring: ring(n)?,
        segno,
        word,
        further,
    };
    if segno > 4095 || word > 16383 {
        return None;
    }
    let packed = pointer.pack();
    Some((packed.value(), Pointer::read(packed) == Some(pointer)))
}

#[test]
fn lays_out_words(rt: HostRuntime) {
    let came = [
        word(0o10, 4, 5, false),
        word(0o12, 4, 7, false),
        word(0o10, 0, 0, true),
        word(0o7777, 7, 0o37777, true),
    ];
    let want = [
        Some((0o001040001243, true)),
        Some((0o001240001643, true)),
        Some((0o001000000143, true)),
        Some((0o777777777743, true)),
    ];
    assert_eq!(rt; came, want);
}

#[test]
fn tells_links_from_pointers(rt: HostRuntime) {
    let third = link_word(3);
    let read = [read_octal(b"46"), read_octal(b"646"), read_octal(b"046")];
    let told = (is_link(third), Pointer::read(third));
    let want = [Some(link_word(0)), Some(third), None];
    assert_eq!(rt; (read, told), (want, (true, None)));
}
