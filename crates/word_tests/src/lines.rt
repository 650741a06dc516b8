//! Tests of what no clause says: lines read in both ways, escaped words, numbers and bytes.
use line_words::{
    BadWord, Filled, Reading, WordError, Words, read_byte, read_number, read_u32, read_usize,
    write_next_word, write_word,
};
use std::alloc::Global;
use std::test::Fail;

/// The next word of a line as a test shows it: ` PLACE:WORD`, the word escaped, or ` PLACE!` where none is spelt. False at the end.
fn push_next(alloc: Global, words: &mut Words<'_>, text: &mut String) -> Result<bool, Fail> {
    match words.next(alloc) {
        Ok(None) => Ok(false),
        Ok(Some(word)) => {
            text.push_str(format!(in alloc; " {}:", word.place())?.as_str())?;
            write_word(text, word.bytes())?;
            Ok(true)
        }
        Err(WordError::Bad(bad)) => {
            text.push_str(format!(in alloc; " {}!", bad.place)?.as_str())?;
            Ok(true)
        }
        Err(error) => Err(Fail::from(error)),
    }
}

/// All words of a line as a test shows them.
fn shown(alloc: Global, reading: Reading, line: &[u8]) -> Result<String, Fail> {
    let mut text = String::new(alloc);
    let mut words = Words::new(reading, line);
    for _ in 0..=line.len() {
        if !push_next(alloc, &mut words, &mut text)? {
            break;
        }
    }
    Ok(text)
}

#[test]
fn lines_are_read_in_two_ways(rt: HostRuntime) -> Result<(), Fail> {
    let cases: [(&[u8], &str, &str); 15] = [
        (b"", "", ""),
        (b" ", "", " 0! 1!"),
        (b"sync list", " 0:sync 5:list", " 0:sync 5:list"),
        (
            b"  show  alpha ",
            " 2:show 8:alpha",
            " 0! 1! 2:show 7! 8:alpha 14!",
        ),
        (b"%73ync", " 0:sync", " 0!"),
        (b"%2e %2E", " 0:. 4:.", " 0! 4!"),
        (b"a%20b%25", " 0:a%20b%25", " 0:a%20b%25"),
        (b"%c3%a9", " 0:%C3%A9", " 0!"),
        (b"\xc3\xa9 %C3%A9", " 0:%C3%A9 3:%C3%A9", " 0! 3:%C3%A9"),
        (b"a% b", " 0! 3:b", " 0! 3:b"),
        (b"a%2 b", " 0! 4:b", " 0! 4:b"),
        (b"%4g %G0", " 0! 4!", " 0! 4!"),
        (b"a\tb c\x7fd e\r", " 0! 4! 8!", " 0! 4! 8!"),
        (b"%00%7F%FF", " 0:%00%7F%FF", " 0:%00%7F%FF"),
        (b"!~ %21", " 0:!~ 3:!", " 0:!~ 3!"),
    ];
    for (line, free, canonical) in cases {
        assert_eq!(rt; shown(rt.alloc(), Reading::Free, line)?.as_str(), free);
        assert_eq!(rt;
            shown(rt.alloc(), Reading::Canonical, line)?.as_str(),
            canonical
        );
    }
    Ok(())
}

#[test]
fn words_are_read_into_a_buffer(rt: HostRuntime) {
    let mut room = [0; 3];
    let mut words = Words::new(Reading::Free, b" sync %73yn a%2 b%0Ac end");
    assert_eq!(rt; words.read_into(&mut room), Err(BadWord { place: 1 }));
    assert_eq!(rt;
        words.read_into(&mut room),
        Ok(Some(Filled { place: 6, len: 3 }))
    );
    assert_eq!(rt; room, *b"syn");
    assert_eq!(rt; words.read_into(&mut room), Err(BadWord { place: 12 }));
    assert_eq!(rt;
        words.read_into(&mut room),
        Ok(Some(Filled { place: 16, len: 3 }))
    );
    assert_eq!(rt; room, *b"b\nc");
    assert_eq!(rt; words.skip(), Some(22));
    assert_eq!(rt; words.skip(), None);
    assert_eq!(rt; words.read_into(&mut room), Ok(None));
}

#[test]
fn words_are_written_escaped(rt: HostRuntime) -> Result<(), Fail> {
    let mut text = String::new(rt.alloc());
    write_word(&mut text, b"link")?;
    write_next_word(&mut text, "=a b/\u{e9}%".as_bytes())?;
    write_next_word(&mut text, b"\x00\x1f\x20\x7e\x7f\xff")?;
    assert_eq!(rt; text.as_str(), "link =a%20b/%C3%A9%25 %00%1F%20~%7F%FF");
    Ok(())
}

#[test]
fn numbers_have_one_spelling(rt: HostRuntime) {
    let cases: [(&[u8], Option<u64>); 12] = [
        (b"0", Some(0)),
        (b"7", Some(7)),
        (b"10", Some(10)),
        (b"18446744073709551615", Some(u64::MAX)),
        (b"18446744073709551616", None),
        (b"", None),
        (b"00", None),
        (b"07", None),
        (b"+7", None),
        (b"-0", None),
        (b"1a", None),
        (b"\xd9\xa1", None),
    ];
    for (word, number) in cases {
        assert_eq!(rt; read_number(word, u64::MAX), number);
    }
    assert_eq!(rt; read_number(b"16", 16), Some(16));
    assert_eq!(rt; read_number(b"17", 16), None);
    assert_eq!(rt; read_u32(b"4294967295", u32::MAX), Some(u32::MAX));
    assert_eq!(rt; read_u32(b"4294967296", u32::MAX), None);
    assert_eq!(rt; read_usize(b"65536", 65536), Some(65536));
}

#[test]
fn bytes_have_two_digits(rt: HostRuntime) {
    let cases: [(&[u8], Option<u8>); 7] = [
        (b"00", Some(0)),
        (b"a9", Some(0xa9)),
        (b"Ff", Some(0xff)),
        (b"", None),
        (b"7", None),
        (b"g0", None),
        (b"123", None),
    ];
    for (word, byte) in cases {
        assert_eq!(rt; read_byte(word), byte);
    }
}
