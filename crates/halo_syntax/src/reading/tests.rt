use crate::depth::is_shallow;
use crate::file_lines::Lines;
use crate::line::Line;
use crate::reading::read_line;
use halo_symbol::WordError;
use std::rt::HostRuntime;

// What reading a line answers.
#[derive(Clone, Copy, Debug, PartialEq, Eq)]
enum Answer {
    Silent,
    Interest,
    Life,
    Ties,
    Pay,
    Premium,
    Reserve,
    Syntax,
    Memory,
}

fn told(rt: &HostRuntime, text: &[u8]) -> Answer {
    match read_line(rt.alloc(), text) {
        Ok(None) => Answer::Silent,
        Ok(Some(Line::Interest { .. })) => Answer::Interest,
        Ok(Some(Line::Life { .. })) => Answer::Life,
        Ok(Some(Line::Ties(_))) => Answer::Ties,
        Ok(Some(Line::Pay { .. })) => Answer::Pay,
        Ok(Some(Line::Premium(_))) => Answer::Premium,
        Ok(Some(Line::Reserve { .. })) => Answer::Reserve,
        Err(WordError::Syntax) => Answer::Syntax,
        Err(WordError::Memory) => Answer::Memory,
    }
}

// A comment with 17 open brackets.
const COMMENT: &[u8] = b"# a comment (((((((((((((((((";

// The lines of the rows below, one after the other.
const FILE: &[u8] = b"\xEF\xBB\xBF# a comment (((((((((((((((((\r
\r
 \t
interest 1/20\r
interest 1/20 5 1/25 010 0/1
interest 1/1 5
interest 1/20 5 125
interest 1/20/2
life\tx male\t60
life bar m 60
life x bar 60
life x m
ties even
ties odd
pay 1 A[x]
  pay 1 10|Ia[2/(x:y:<10>)] \t
pay 1
pay 1 A[x] x
pay 1 A[((((((((((((((((x))))))))))))))))]
premium x:y|bar(x:z)
premium A[x]
reserve 5
reserve 5 x bar
reserve
)))) pay 1 A[x]
\xEF\xBB\xBFties even
even\r\r
";

#[test]
fn lines_of_a_file(rt: HostRuntime) {
    let rows: [(&[u8], Answer); 27] = [
        (COMMENT, Answer::Silent),
        (b"", Answer::Silent),
        (b" \t", Answer::Silent),
        (b"interest 1/20", Answer::Interest),
        (b"interest 1/20 5 1/25 010 0/1", Answer::Interest),
        (b"interest 1/1 5", Answer::Syntax),
        (b"interest 1/20 5 125", Answer::Syntax),
        (b"interest 1/20/2", Answer::Syntax),
        (b"life\tx male\t60", Answer::Life),
        (b"life bar m 60", Answer::Syntax),
        (b"life x bar 60", Answer::Life),
        (b"life x m", Answer::Syntax),
        (b"ties even", Answer::Ties),
        (b"ties odd", Answer::Syntax),
        (b"pay 1 A[x]", Answer::Pay),
        (b"  pay 1 10|Ia[2/(x:y:<10>)] \t", Answer::Pay),
        (b"pay 1", Answer::Syntax),
        (b"pay 1 A[x] x", Answer::Syntax),
        (b"pay 1 A[((((((((((((((((x))))))))))))))))]", Answer::Pay),
        (b"premium x:y|bar(x:z)", Answer::Premium),
        (b"premium A[x]", Answer::Syntax),
        (b"reserve 5", Answer::Reserve),
        (b"reserve 5 x bar", Answer::Reserve),
        (b"reserve", Answer::Syntax),
        (b")))) pay 1 A[x]", Answer::Syntax),
        (b"\xEF\xBB\xBFties even", Answer::Syntax),
        (b"even\r", Answer::Syntax),
    ];
    let mut lines = Lines::new(FILE);
    for (row, answer) in rows {
        let Some(line) = lines.next() else {
            assert!(rt; false);
            return;
        };
        assert!(rt; line == row);
        assert_eq!(rt; told(&rt, line), answer);
        assert_eq!(rt; is_shallow(line), line != COMMENT);
    }
    assert!(rt; lines.next().is_none());
}
