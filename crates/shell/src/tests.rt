//! Lines with their places, and answers with their bytes.
use crate::answer::{Answer, Refused};
use crate::command::{Command, Spoken};
use crate::line::read_line;
use crate::text::push_answer;
use crate::wrong::{LineFault, Why, Wrong};
use compare::comparison::Comparison;
use haar::trend::Trend;
use link::fault::Fault as LinkFault;
use std::num::nearest_u64_to_f64;
use std::test::Fail;
use store::fault::CellFault;
use warehouse::fault::{Asked, Fault, Refusal};
use warehouse::reading::Reading;

#[test]
fn commands_are_read(rt: HostRuntime) -> Result<(), Fail> {
    let cases: [(&[u8], usize, Command); 12] = [
        (b"help", 1, Command::Help),
        (b" \t size \t", 4, Command::Size),
        (b"flat 5", 1, Command::Flat { bands: 5 }),
        (
            b"sparse 255 65535",
            1,
            Command::Sparse {
                bands: 255,
                capacity: 65535,
            },
        ),
        (
            b"add 4294967295 -9223372036854775808",
            1,
            Command::Add {
                minute: u32::MAX,
                value: i64::MIN,
            },
        ),
        (
            b"write 007 9223372036854775807",
            1,
            Command::Write {
                cell: 7,
                value: i64::MAX,
            },
        ),
        (
            b"add 0 -0",
            1,
            Command::Add {
                minute: 0,
                value: 0,
            },
        ),
        (
            b"put",
            1,
            Command::Put {
                bytes: Vec::new(rt.alloc()),
            },
        ),
        (
            b"line 52aBf0",
            1,
            Command::Line {
                bytes: b"\x52\xab\xf0".to_vec(rt.alloc())?,
            },
        ),
        (
            b"load 3 0",
            1,
            Command::Load {
                level: 3,
                index: 0,
                values: Vec::new(rt.alloc()),
            },
        ),
        (
            b"load 1\t2 -3  4",
            1,
            Command::Load {
                level: 1,
                index: 2,
                values: [-3, 4].to_vec(rt.alloc())?,
            },
        ),
        (
            b"trend 20 0",
            1,
            Command::Trend {
                level: 20,
                index: 0,
            },
        ),
    ];
    for (line, column, command) in cases {
        assert_eq!(&rt;
            read_line(line, rt.alloc()),
            Ok(Some(Spoken { column, command }))
        );
    }
    Ok(())
}

#[test]
fn silent_lines_are_passed_over(rt: HostRuntime) {
    let lines: [&[u8]; 5] = [b"", b" \t", b"#", b"# a remark", b"\t#x\xff"];
    for line in lines {
        assert_eq!(&rt; read_line(line, rt.alloc()), Ok(None));
    }
}

#[test]
fn a_wrong_word_has_its_column(rt: HostRuntime) {
    let cases: [(&[u8], usize, Why); 24] = [
        (b"nothing", 1, Why::Name),
        (b"  Size", 3, Why::Name),
        (b"siz", 1, Why::Name),
        (b"sizes", 1, Why::Name),
        (b"size\r", 1, Why::Name),
        (b"\xffsize", 1, Why::Name),
        (b"point", 6, Why::Missing),
        (b"sum 1 ", 7, Why::Missing),
        (b"load 3", 7, Why::Missing),
        (b"point -1", 7, Why::NotNumber),
        (b"point +1", 7, Why::NotNumber),
        (b"point 1x", 7, Why::NotNumber),
        (b"add 1 -", 7, Why::NotNumber),
        (b"add 1 --1", 7, Why::NotNumber),
        (b"load 1 0 1 x 2", 12, Why::NotNumber),
        (b"flat 6", 6, Why::TooLarge),
        (b"survey 256", 8, Why::TooLarge),
        (b"add 4294967296 1", 5, Why::TooLarge),
        (b"add 1 9223372036854775808", 7, Why::TooLarge),
        (b"add 1 -9223372036854775809", 7, Why::TooLarge),
        (b"point 99999999999999999999999999", 7, Why::TooLarge),
        (b"size 1", 6, Why::Surplus),
        (b"put 52 07", 8, Why::Surplus),
        (b"put 5", 5, Why::NotHex),
    ];
    for (line, column, why) in cases {
        assert_eq!(&rt;
            read_line(line, rt.alloc()).err(),
            Some(LineFault::Wrong(Wrong { column, why }))
        );
    }
}

#[test]
fn answers_are_written(rt: HostRuntime) -> Result<(), Fail> {
    let cases: [(Answer, &str); 24] = [
        (Answer::Done, "ok\n"),
        (Answer::Number(-7), "-7\n"),
        (
            Answer::Reading(Reading {
                value: -1,
                cells: 5,
            }),
            "-1 5\n",
        ),
        (Answer::Trend(Trend::Falling(0.3125)), "falling 0.3125\n"),
        (Answer::Trend(Trend::Rising(1234.5)), "rising 1234.5\n"),
        (Answer::Trend(Trend::Level), "level\n"),
        (Answer::Fit, "fit\n"),
        (Answer::Size(20), "size 20\n"),
        (
            Answer::Store {
                bands: 2,
                free: 263,
                clean: true,
            },
            "bands 2 free 263 clean yes\n",
        ),
        (
            Answer::Cell {
                cell: 5,
                value: -2147483648,
            },
            "5 -2147483648\n",
        ),
        (Answer::Cells(9), "9 cells\n"),
        (Answer::Compared(Comparison::Alike), "alike\n"),
        (Answer::Compared(Comparison::Differ(12)), "differ 12\n"),
        (Answer::Compared(Comparison::Bands), "bands\n"),
        (Answer::Audited(false), "no\n"),
        (Answer::Taken(64), "taken 64\n"),
        (Answer::Welcome(199), "welcome 199\n"),
        (Answer::Ready, "ready\n"),
        (Answer::Feeding, "feeding\n"),
        (Answer::Byte(Some(7)), "07\n"),
        (Answer::Byte(None), "none\n"),
        (
            Answer::Refused(Refused::Link(LinkFault::NoMotor)),
            "E 32 No motor\n",
        ),
        (
            Answer::Refused(Refused::Cell(CellFault::Cell(17))),
            "E 19 no cell 17\n",
        ),
        (
            Answer::Wrong(Wrong {
                column: 7,
                why: Why::NotNumber,
            }),
            "? 7: this is not a number\n",
        ),
    ];
    for (answer, lines) in cases {
        let mut text = String::new(rt.alloc());
        push_answer(&mut text, answer, rt.alloc())?;
        assert_eq!(&rt; text.as_str(), lines);
    }
    let refusal = Refusal {
        fault: Fault::Domain,
        asked: Asked::Minute(4),
    };
    let mut text = String::new(rt.alloc());
    push_answer(
        &mut text,
        Answer::Refused(Refused::Warehouse(refusal)),
        rt.alloc(),
    )?;
    assert_eq!(&rt;
        text.as_str(),
        "E 21 not inside the size, asked for minute 4\n"
    );
    Ok(())
}

// The texts are Python's shortest, written without an exponent.
#[test]
fn amounts_are_the_shortest(rt: HostRuntime) -> Result<(), Fail> {
    let cases: [(u64, u64, &str); 10] = [
        (7, 1, "rising 7\n"),
        (1, 2, "rising 0.5\n"),
        (1, 524288, "rising 0.0000019073486328125\n"),
        (3, 524288, "rising 0.0000057220458984375\n"),
        (9007199254740991, 524288, "rising 17179869183.999998\n"),
        (9007199254740991, 1, "rising 9007199254740991\n"),
        (9007199254740992, 1, "rising 9007199254740992\n"),
        (9007199254740991, 8, "rising 1125899906842623.9\n"),
        (7205759403792797, 4, "rising 1801439850948199.2\n"),
        (636562451, 512, "rising 1243286.037109375\n"),
    ];
    for (size, parts, lines) in cases {
        let amount = nearest_u64_to_f64(size) / nearest_u64_to_f64(parts);
        let mut text = String::new(rt.alloc());
        push_answer(&mut text, Answer::Trend(Trend::Rising(amount)), rt.alloc())?;
        assert_eq!(&rt; text.as_str(), lines);
    }
    Ok(())
}
