// Examples of both directions.
use crate::command::{Command, DecodeFault};
use crate::decode::decode;
use crate::line::Line;
use crate::write_line::write_line;

#[test]
fn an_addition_is_decoded(rt: HostRuntime) -> Result<(), DecodeFault> {
    let bytes = [b'P', 0, 0, 0, 5, 255, 255, 255, 249, b'F'];
    let (command, rest) = decode(&bytes)?;
    let added = Command::Add {
        minute: 5,
        value: -7,
    };
    assert_eq!(rt; command, added);
    assert_eq!(rt; rest.len(), 1);
    Ok(())
}

#[test]
fn a_cut_command_is_refused(rt: HostRuntime) {
    let fault = decode(b"Q\x00\x00\x00").map_err(DecodeFault::number);
    assert_eq!(rt; fault, Err(12));
}

#[test]
fn a_sum_is_written(rt: HostRuntime) {
    let mut buffer = [0; 8];
    let line = Line::Sum { sum: 9, cells: 15 };
    assert_eq!(rt; write_line(line, &mut buffer), Ok(7));
    assert_eq!(rt; buffer, *b"S 9 15\n\0");
}

#[test]
fn a_negative_value_is_written(rt: HostRuntime) {
    let mut buffer = [0; 7];
    let line = Line::Point {
        value: -1,
        cells: 5,
    };
    assert_eq!(rt; write_line(line, &mut buffer), Ok(7));
    assert_eq!(rt; buffer, *b"Q -1 5\n");
}
