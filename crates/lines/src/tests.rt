// Lines with the commands or faults that they give, and inputs with their lines.
use crate::command::{Command, Letter, LineFault};
use crate::lines::Lines;
use crate::parse::{command_of, parse};

// The command that a letter and its fields write.
fn written(c: char, fields: &[u8]) -> Option<Command> {
    command_of(Letter::try_from(c).ok()?, fields)
}

#[test]
fn each_letter_has_its_command(rt: HostRuntime) {
    let cases: [(char, &[u8], Command); 9] = [
        ('a', b" 1", Command::OpenAmendment { job: 1 }),
        ('i', b" 2", Command::OpenInspection { job: 2 }),
        ('r', b" 3 63", Command::Read { job: 3, record: 63 }),
        (
            'w',
            b" 4 0 840 -41200",
            Command::Write {
                job: 4,
                record: 0,
                currency: 840,
                units: -41200,
            },
        ),
        ('h', b" 5", Command::HandIn { job: 5 }),
        ('d', b" 6 1", Command::Deliver { job: 6, office: 1 }),
        ('c', b" 7", Command::Collect { job: 7 }),
        ('e', b" 8", Command::Close { job: 8 }),
        (
            'u',
            b" 9999999999999",
            Command::Withdraw { job: 9999999999999 },
        ),
    ];
    for (c, fields, command) in cases {
        assert_eq!(rt; written(c, fields), Some(command));
    }
}

#[test]
fn fields_have_one_form(rt: HostRuntime) {
    let wrong: [&[u8]; 14] = [
        b"a",
        b"a1",
        b"a ",
        b"a  1",
        b"a 1 ",
        b"a 1 2",
        b"a\t1",
        b"a 1\r",
        b"a -1",
        b"a +1",
        b"r 1",
        b"a 12345678901234",
        b"w 1 2 -3 4",
        b"w 1 2 3 --4",
    ];
    for line in wrong {
        assert_eq!(rt; parse(line), Err(LineFault::WrongFields));
    }
}

#[test]
fn length_is_checked_before_letter_and_letter_before_fields(rt: HostRuntime) {
    let unknown: [&[u8]; 5] = [b"", b"A 1", b" a 1", b"x", b"\x80 1"];
    for line in unknown {
        assert_eq!(rt; parse(line), Err(LineFault::UnknownLetter));
    }
    assert_eq!(rt; parse(&[b'x'; 80]), Err(LineFault::UnknownLetter));
    assert_eq!(rt; parse(&[b'x'; 81]), Err(LineFault::TooLong));
}

#[test]
fn newline_ends_a_line(rt: HostRuntime) {
    let mut lines = Lines::new(b"a 1\n\nu 1\r\nx");
    let expected: [&[u8]; 4] = [b"a 1", b"", b"u 1\r", b"x"];
    for line in expected {
        assert_eq!(rt; lines.next(), Some(line));
    }
    assert_eq!(rt; lines.next(), None);
    let mut ended = Lines::new(b"a 1\n");
    assert_eq!(rt; ended.next(), Some(&b"a 1"[..]));
    assert_eq!(rt; ended.next(), None);
}
