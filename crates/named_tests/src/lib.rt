// Tests of the named book: a store filled to its capacity by lines, and the buffer of the line call. What a test plays stands
// here. Its loops write a line a turn, which may want memory: a chain that can fail would be no plainer.
#![tactic(auto)]

use std::alloc::{AllocError, Global};

// A log that enrols the units 1 to 255, each at the rank of its number, and pairs lower to higher numbers 8,000 times.
pub fn full_log(heap: Global) -> Result<String, AllocError> {
    let mut log = String::new(heap);
    for u in 1..256u16 {
        log.push_str(format!(in heap; "e {u} u{u} {u}\n")?.as_str())?;
    }
    let pairs = (1..256u16).flat_map(|a| (a + 1..256u16).map(move |b| (a, b)));
    for (a, b) in pairs.take(8000) {
        log.push_str(format!(in heap; "p u{a} u{b}\n")?.as_str())?;
    }
    Ok(log)
}

#[cfg(test)]
mod tests {
    use super::full_log;
    use grid::Grid;
    use logs::play;
    use maps::Store;
    use named::NamedBook;
    use plain::BookFault;
    use std::test::Fail;

    // At the capacity a ring and a pairing that stands are told first; room that is freed can be used again.
    #[test]
    fn refuses_past_the_capacity(rt: HostRuntime) -> Result<(), Fail> {
        let heap = rt.alloc();
        let mut book = NamedBook::make(Grid::new());
        let log = full_log(heap)?;
        let mut answers = Vec::new(heap);
        play(&mut book, log.as_bytes(), &mut answers)?;
        answers.clear();
        let more =
            b"p u250 u251\np u2 u1\np u1 u2\na u1 u2\np u250 u251\np u1 u2\nd u1\np u252 u253\n";
        play(&mut book, more, &mut answers)?;
        let expected =
            b"refused 7 S 8\nrefused 6 B 6\nrefused 8 B 6\nok 1\nok 1\nrefused 7 S 6\nok 253\nok 1\n";
        assert!(rt; answers.as_slice() == expected.as_slice());
        Ok(())
    }

    // A buffer under 16 bytes is refused before the line is read; one of 16 is enough, and later bytes stay.
    #[test]
    fn asks_for_16_bytes(rt: HostRuntime) {
        let mut book = NamedBook::make(Grid::new());
        let mut short = [7u8; 15];
        assert_eq!(rt;
            book.line(b"e 1 crib 1", &mut short),
            Err(BookFault::ShortBuffer)
        );
        assert!(rt; short == [7u8; 15]);
        let mut buffer = [7u8; 20];
        assert_eq!(rt; book.line(b"h crib crib", &mut buffer), Ok(15));
        assert!(rt; buffer == *b"refused 13 N 3\n\x07\x07\x07\x07\x07");
    }
}
