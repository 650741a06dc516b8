//! What stagings ask.
use crate::driving::staged;
use std::test::Fail;

// The edits, each with the number of the operation before which it is made; which operation fails at the near and at the far root; and what was
// asked and missing.
const ROWS: &str = "\
0 dir d|_|_|;
0 fill a 0|_|_| clear open fetch a 0 keep;
0 fill a 5|_|_| clear open fetch a 0 append 5 keep;
0 fill a 5;0 fill b 5;0 dir c;0 fill c/d 5|_|_| clear open fetch a 0 append 5 keep;
0 fill b 5;0 fill a 6|_|_| clear open fetch a 0 append 6 keep open fetch b 0 append 5 keep;
0 fill a 65536|_|_| clear open fetch a 0 append 65536 keep;
0 fill a 65537|_|_| clear open fetch a 0 append 65536 fetch a 65536 append 1 keep;
0 fill a 65537;4 fill a 3|_|_| clear open fetch a 0 append 65536 fetch a 65536; a changed
0 fill a 5;0 fill b 5;2 del a|_|_| clear open fetch a 0 open fetch b 0 append 5 keep; a changed
0 fill a 5;0 fill b 6|_|0| clear open fetch a 0 open fetch b 0 append 6 keep; a failed
0 fill a 5|0|_| clear;
0 fill a 5|1|_| clear open;
0 fill a 5|2|_| clear open fetch a 0 append 5;
0 fill a 5|3|_| clear open fetch a 0 append 5 keep;";

#[test]
fn each_staging_has_its_course(rt: HostRuntime) -> Result<(), Fail> {
    let alloc = rt.alloc();
    for row in ROWS.lines() {
        let mut words = row.split('|');
        let script = words.next().unwrap_or("");
        let near = words.next().unwrap_or("");
        let far = words.next().unwrap_or("");
        let wanted = words.next().unwrap_or("");
        let text = staged(alloc, script, near, far)?;
        assert_eq!(rt; text.as_str(), wanted, "{row}");
    }
    Ok(())
}
