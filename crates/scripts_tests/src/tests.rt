// Scripts that are read, and lines that are refused.
use history::{Call, Partners};
use scripts::{Script, ScriptFault, Why, read};
use std::process::Abort;
use std::test::Fail;

const EVERY_CALL: &str =
    "start 0a\n# a remark\nenrol 1 1 from 2 to 3 4\ndrop 1\npair 1 2\nunpair 1 2\nrank 1 2\nload -\nhear 1 2\nbest 4 to 5\nin-labels 1 9\nout-labels 1 9\nin-holders 1 9\nout-holders 1 9\nreach 1 2\nreach 1 2 off 3\nreach 1 2 sheet 00ff\nsave 0 9\n";

// A script, the line and the place at which it is refused, and why.
#[derive(Clone, Copy)]
struct Refused<'a>(&'a str, usize, usize, Why);

fn is_refused(rt: &(impl Abort + AllocGlobal), refused: &Refused<'_>) {
    match read(rt.alloc(), refused.0) {
        Err(ScriptFault::Malformed { line, place, why }) => {
            assert_eq!(rt; (line, place), (refused.1, refused.2));
            assert!(rt; why == refused.3);
        }
        _ => panic!(rt; "not refused"),
    }
}

fn are_refused(rt: &(impl Abort + AllocGlobal), table: &[Refused<'_>]) {
    for refused in table {
        is_refused(rt, refused);
    }
}

#[test]
fn faults_have_their_places(rt: HostRuntime) {
    let table = [
        Refused("fly 1", 1, 1, Why::Call),
        Refused("# a\n\npair 1", 3, 7, Why::Word),
        Refused("pair 1 256", 1, 8, Why::Number),
        Refused("pair 1 2 3", 1, 10, Why::Rest),
        Refused("pair  1 2", 1, 6, Why::Number),
        Refused("drop +1", 1, 6, Why::Number),
        Refused("drop x y", 1, 8, Why::Rest),
        Refused("save 1 65536", 1, 8, Why::Number),
        Refused("start -\nstart -", 2, 1, Why::Call),
    ];
    are_refused(&rt, &table);
}

#[test]
fn faults_in_lists_have_their_places(rt: HostRuntime) {
    let table = [
        Refused("load 0", 1, 6, Why::Bytes),
        Refused("load 0g", 1, 6, Why::Bytes),
        Refused("load 0A", 1, 6, Why::Bytes),
        Refused("enrol 1 1 2", 1, 11, Why::Rest),
        Refused("enrol 1 1 from 2 to 3 from 4", 1, 23, Why::Number),
        Refused("best 1 to 2 to", 1, 13, Why::Number),
        Refused("reach 1 2 past 3", 1, 11, Why::Rest),
        Refused("reach 1 2 off 0", 1, 15, Why::Number),
        Refused("reach 1 2 sheet", 1, 16, Why::Word),
    ];
    are_refused(&rt, &table);
}

fn has_partners(rt: &impl Abort, with: &Partners, sources: &[u8], listeners: &[u8]) {
    assert_eq!(rt; with.sources.as_slice(), sources);
    assert_eq!(rt; with.listeners.as_slice(), listeners);
}

#[test]
fn every_call_is_read(rt: HostRuntime) -> Result<(), Fail> {
    let Ok(Script { page, calls, lines }) = read(rt.alloc(), EVERY_CALL) else {
        panic!(&rt; "refused");
    };
    assert!(&rt; page.is_some_and(|page| page.as_slice() == [10u8].as_slice()));
    assert_eq!(&rt; calls.len(), 16);
    let numbers: Vec<usize> = (3..19usize).collect(rt.alloc())?;
    assert_eq!(&rt; lines.as_slice(), numbers.as_slice());
    match calls.get(0) {
        Some(
            Call::Enrol {
                unit: 1,
                rank: 1,
                with,
            },
        ) => has_partners(&rt, with, &[2], &[3, 4]),
        _ => panic!(&rt; "no enrolment"),
    }
    match calls.get(7) {
        Some(Call::BestPlace { unit: 4, with }) => has_partners(&rt, with, &[], &[5]),
        _ => panic!(&rt; "no question for the best place"),
    }
    match calls.get(14) {
        Some(
            Call::Reach {
                source: 1,
                listener: 2,
                sheet,
            },
        ) => assert_eq!(&rt; sheet.as_slice(), [0u8, 255].as_slice()),
        _ => panic!(&rt; "no question for a chain"),
    }
    Ok(())
}
