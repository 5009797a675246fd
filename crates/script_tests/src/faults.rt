use script::Session;
use std::test::Fail;

// The first of what is given out is a restart, the second a unit.
const BEFORE: [&str; 3] = ["open 16 16 0", "restart", "code exact 0 0 20 0 : 0*16"];

const IN_ERROR: [(&str, &str); 16] = [
    ("opened 16 16 0", "unknown command"),
    ("open 16 16", "the command is written: open W H FIRST"),
    ("page 1", "the command is written: page"),
    ("open 16 16 x", "FIRST is not a number from 0 to 4294967295"),
    (
        "open 65536 16 0 # too wide",
        "W is not a number from 0 to 65535",
    ),
    ("code near 0 0 20 0 : 0*16", "unknown kind"),
    ("code exact 0 0 20 0 : 0*4097", "more than 4096 numbers"),
    ("follow 7", "nothing was given out as 7"),
    ("follow 0", "0 is a restart, not a unit"),
    ("resume 1", "1 is a unit, not a restart"),
    ("memory camera 4194305", "N is above 4194304"),
    ("plane both", "the end is neither camera nor handset"),
    (
        "distance exact 20 both",
        "the sort is neither intra nor inter",
    ),
    ("distance exact 52 intra", "QP is above 51"),
    ("rebuild exact 20 : 0*15", "the kind takes 16 numbers"),
    (
        "levels exact 20 intra : 256*16",
        "a residual is not from -255 to 255",
    ),
];

#[test]
fn says_what_is_wrong(rt: HostRuntime) -> Result<(), Fail> {
    let mut session = Session::new(rt.alloc());
    for line in BEFORE {
        assert!(rt; session.answer_line(line.as_bytes()).is_ok());
    }
    for (line, text) in IN_ERROR {
        let Err(fault) = session.answer_line(line.as_bytes()) else {
            return Err(Fail::new(line));
        };
        assert!(rt; fault.to_string(rt.alloc())?.as_str() == text);
    }
    Ok(())
}

#[test]
fn needs_text_and_open_ends(rt: HostRuntime) {
    let mut session = Session::new(rt.alloc());
    assert!(rt; session.answer_line(b"page").is_err());
    assert!(rt; session.answer_line(b"# \xff").is_err());
    assert!(rt; matches!(session.answer_line(b" \t # page"), Ok(None)));
}
