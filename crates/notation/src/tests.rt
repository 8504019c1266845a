// Examples of each direction, and of each fault with its place.
use crate::fault::{Problem, ReadingFault, TextFault};
use crate::feed::feed_of;
use crate::text::text_of;
use crate::words::words_of;
use std::test::Fail;

// The worked feed, as docs/FEED.md has it.
const FEED: &[u8] =
    b"P\x00\x00\x00\x05\x00\x00\x00\x07S\x00\x00\x00\x00\x00\x00\x00\x10GL\x01\x00\x00\x00\x08V\x00\x00\x00\x03V\xff\xff\xff\xffFS\x00\x00\x00\x05\x00\x00\x00\x12M\x00\x00\x00\x10\x00\x00\x00\x12Q\x00\x00\x00\x11P\x00\x00\x00\x20\x00\x00\x00\x01";

const TEXT: &[u8] = b"P 5 7\nS 0 16\nG\nL 1 8\nV 3\nV -1\nF\nS 5 18\nM 16 18\nQ 17\nP 32 1\n";

#[test]
fn the_worked_feed_is_read(rt: HostRuntime) -> Result<(), Fail> {
    let text = text_of(FEED, rt.alloc())?;
    assert_eq!(rt; text.as_slice(), TEXT);
    Ok(())
}

#[test]
fn the_worked_feed_is_written(rt: HostRuntime) -> Result<(), Fail> {
    let feed = feed_of(TEXT, rt.alloc())?;
    assert_eq!(rt; feed.as_slice(), FEED);
    Ok(())
}

#[test]
fn bytes_that_are_no_command_are_hex(rt: HostRuntime) -> Result<(), Fail> {
    let text = text_of(b"AZ\x00\xff", rt.alloc())?;
    assert_eq!(rt; text.as_slice(), b"A\nX 5a00ff\n".as_slice());
    let feed = feed_of(b"A\nX 5A00ff", rt.alloc())?;
    assert_eq!(rt; feed.as_slice(), b"AZ\x00\xff".as_slice());
    Ok(())
}

#[test]
fn blank_and_comment_lines_are_passed_over(rt: HostRuntime) -> Result<(), Fail> {
    let feed = feed_of(b"# a load\n\nA\n\n#", rt.alloc())?;
    assert_eq!(rt; feed.as_slice(), b"A".as_slice());
    Ok(())
}

#[test]
fn the_ends_of_a_field_are_taken(rt: HostRuntime) -> Result<(), Fail> {
    let feed = feed_of(b"L 255 4294967295\nV -2147483648\nV 2147483647", rt.alloc())?;
    assert_eq!(rt;
        feed.as_slice(),
        b"L\xff\xff\xff\xff\xffV\x80\x00\x00\x00V\x7f\xff\xff\xff".as_slice()
    );
    Ok(())
}

#[test]
fn a_feed_is_told_in_words(rt: HostRuntime) -> Result<(), Fail> {
    let words = words_of(b"AP\x00\x00\x00\x20\xff\xff\xff\xffZ", rt.alloc())?;
    let told =
        b"at byte 0: give the load up\nat byte 1: add -1 to minute 32\nat byte 10: no command begins with byte 90\n";
    assert_eq!(rt; words.as_slice(), told.as_slice());
    let words = words_of(b"M\x00\x00\x00\x00\x00\x00\x00\x10Q\x00", rt.alloc())?;
    let told =
        b"at byte 0: ask for the mean of the minutes from 0 up to 16\nat byte 9: the feed ends inside a command\n";
    assert_eq!(rt; words.as_slice(), told.as_slice());
    Ok(())
}

#[test]
fn a_fault_has_its_place(rt: HostRuntime) {
    let cases: [(&[u8], usize, usize, Problem); 20] = [
        (b"G\nH", 2, 1, Problem::Letter),
        (b"GG", 1, 1, Problem::Letter),
        (b" G", 1, 1, Problem::Letter),
        (b"G\r\nF\r\n", 1, 1, Problem::Letter),
        (b"\n#\nL 1\n", 3, 4, Problem::Missing),
        (b"X", 1, 2, Problem::Missing),
        (b"P  5 7", 1, 3, Problem::NotNumber),
        (b"P 5 +7", 1, 5, Problem::NotNumber),
        (b"Q -1", 1, 3, Problem::NotNumber),
        (b"V -", 1, 3, Problem::NotNumber),
        (b"L 256 8", 1, 3, Problem::TooLarge),
        (b"L 1 4294967296", 1, 5, Problem::TooLarge),
        (b"V 2147483648", 1, 3, Problem::TooLarge),
        (b"V -2147483649", 1, 3, Problem::TooLarge),
        (b"Q 99999999999999999999999999", 1, 3, Problem::TooLarge),
        (b"A 1", 1, 2, Problem::Surplus),
        (b"V 3 ", 1, 4, Problem::Surplus),
        (b"F\nX 5a 00", 2, 5, Problem::Surplus),
        (b"X 5a0", 1, 3, Problem::NotHex),
        (b"X ", 1, 3, Problem::NotHex),
    ];
    for (text, line, column, problem) in cases {
        let fault = TextFault {
            line,
            column,
            problem,
        };
        assert_eq!(rt;
            feed_of(text, rt.alloc()).err(),
            Some(ReadingFault::Text(fault))
        );
    }
}
