//! The line of each answer, byte for byte, and what the buffer holds behind it.

use address::Ipv4;
use lines::{Answer, write_line};
use rules::Refusal;

/// Whether a buffer of 48 bytes takes the text at its front, and behind it keeps what it held.
fn told(answer: Answer, text: &[u8]) -> bool {
    let mut buffer = [0xEE; 48];
    write_line(answer, &mut buffer) == Ok(text.len())
        && buffer.starts_with(text)
        && buffer.iter().skip(text.len()).all(|byte| *byte == 0xEE)
}

fn found(start: u32, finish: u32, hop: u16) -> Answer {
    Answer::Found(Ok((Ipv4::new(start), Ipv4::new(finish), hop)))
}

#[test]
fn updates(rt: HostRuntime) {
    assert!(rt; told(Answer::Added(Ok(())), &[0x41, 0x20, 0x6F, 0x6B, 0x0A]));
    assert!(rt; told(Answer::Added(Err(Refusal::Conflict)), b"A no 8\n"));
    assert!(rt; told(Answer::Removed(Ok(())), b"R ok\n"));
    assert!(rt; told(Answer::Removed(Err(Refusal::DefaultRange)), b"R no 4\n"));
    assert!(rt; told(Answer::Committed(Ok(0)), b"B ok 0\n"));
    assert!(rt; told(Answer::Committed(Ok(64)), b"B ok 64\n"));
    assert!(rt; told(Answer::Committed(Err(Refusal::ShortList)), b"B no 1\n"));
}

#[test]
fn lookups(rt: HostRuntime) {
    assert!(rt;
        told(
            found(0x0A00_0014, 0x0A00_001E, 8),
            b"L 10.0.0.20 10.0.0.30 8\n"
        )
    );
    assert!(rt; told(found(0, 0x0963_64C7, 100), b"L 0.0.0.0 9.99.100.199 100\n"));
    assert!(rt;
        told(
            found(0x0100_0000, 0xC8FF_0A00, 10000),
            b"L 1.0.0.0 200.255.10.0 10000\n"
        )
    );
    assert!(rt; told(Answer::Found(Err(Refusal::Uncovered)), b"L no 9\n"));
    assert!(rt; told(Answer::Found(Err(Refusal::Ambiguous)), b"L no 10\n"));
}

#[test]
fn faults(rt: HostRuntime) {
    let refusal = Refusal::FeedEnds;
    assert!(rt; told(Answer::Fault { refusal, place: 0 }, b"F no 13 0\n"));
    assert!(rt;
        told(
            Answer::Fault {
                refusal,
                place: 16384
            },
            b"F no 13 16384\n"
        )
    );
    assert!(rt;
        told(
            Answer::Fault {
                refusal,
                place: usize::MAX
            },
            b"F no 13 18446744073709551615\n"
        )
    );
}

#[test]
fn longest_line(rt: HostRuntime) {
    let text = b"L 255.255.255.255 255.255.255.255 65535\n";
    let answer = found(u32::MAX, u32::MAX, 65535);
    assert_eq!(rt; text.len(), 40);
    assert!(rt; told(answer, text));
    let mut buffer = [0; 40];
    assert!(rt; write_line(answer, &mut buffer) == Ok(40));
    assert!(rt; buffer == *text);
}

#[test]
fn short_buffers(rt: HostRuntime) {
    let short = |n| {
        let mut buffer = [0xEE; 40];
        buffer.get_mut(..n).is_some_and(|out| write_line(Answer::Added(Ok(())), out)
            == Err(Refusal::ShortBuffer))
            && buffer == [0xEE; 40]
    };
    assert!(rt; (0..=39).all(short));
    assert_eq!(rt; Refusal::ShortBuffer.number(), 16);
}
