use script_reader::{MOST_BYTES, ScriptReadFault, read_script};
use std::alloc::Global;
use std::fmt::Write;
use std::process::Abort;
use std::test::Fail;

/// The lines of the script that bytes are, each as its name, what it follows and its text; else the fault.
fn shown(alloc: Global, bytes: &[u8]) -> Result<String, Fail> {
    let mut text = String::new(alloc);
    match read_script(alloc, bytes) {
        Ok(script) => {
            for line in script.items() {
                write!(
                    text,
                    "{}.{} {:?} {:?};",
                    line.session,
                    line.place,
                    line.follows.items(),
                    line.text.text()
                )?;
            }
        }
        Err(ScriptReadFault::Bad(fault)) => write!(text, "{} {}", fault.line, fault.why.word())?,
        Err(ScriptReadFault::Memory) => write!(text, "memory")?,
    }
    Ok(text)
}

fn check(rt: &impl Abort, alloc: Global, bytes: &[u8], wanted: &str) -> Result<(), Fail> {
    let found = shown(alloc, bytes)?;
    assert_eq!(rt; found.as_str(), wanted);
    Ok(())
}

// Bytes, and the lines of the script that they are, or the fault.
const SCRIPTS: [(&[u8], &str); 34] = [
    // Blank lines and remarks say nothing, and count no place.
    (b"", ""),
    (b" ", ""),
    (b"\n \t\r\n\n", ""),
    (b"# x\n \t# y\n1 A", "1.1 [] \"A\";"),
    (
        b" \n1 A\n\n# c\n1 B\n1 C",
        "1.1 [] \"A\";1.2 [0] \"B\";1.3 [1] \"C\";",
    ),
    // A text begins past spaces and tabs, and ends with its line.
    (b"1 A\n1 B\n", "1.1 [] \"A\";1.2 [0] \"B\";"),
    (b"\t1\t \tA", "1.1 [] \"A\";"),
    (b"1  A  B \t", "1.1 [] \"A  B \\t\";"),
    (b"1", "1.1 [] \"\";"),
    (b"1 \t\n1 A", "1.1 [] \"\";1.2 [0] \"A\";"),
    (b"1 after 1.1 SELECT", "1 after"),
    (b"1 # x", "1.1 [] \"# x\";"),
    (b"1 \xc3\xa4\xe2\x82\xac\xf0\x9d\x84\x9e", "1.1 [] \"ä€𝄞\";"),
    // A carriage return ends a number, and belongs to a text.
    (b"1 A\r\n1 B\r\n", "1.1 [] \"A\\r\";1.2 [0] \"B\\r\";"),
    (b"1\rA", "1.1 [] \"\\rA\";"),
    (b"1\r", "1.1 [] \"\\r\";"),
    (b"\r# x", "1 session"),
    (b"\r1 A", "1 session"),
    // A session number is one of 1 to 64, and ends at a blank.
    (b"01 A", "1 session"),
    (b"2 A\n1 B\n2 C", "2.1 [] \"A\";1.1 [] \"B\";2.2 [0] \"C\";"),
    // Whom a line follows stands once in its list, in the order of the script.
    (
        b"1 A\n2 B\n1 after 2.1 after 1.1 after 2.1 C",
        "1.1 [] \"A\";2.1 [] \"B\";1.2 [0, 1] \"C\";",
    ),
    (b"1 A\n2 after\r1.1 B", "2 after"),
    (b"65 A", "1 session"),
    (b"1A", "1 session"),
    (b"1# x", "1 session"),
    (b"1.1 A", "1 session"),
    (b"1\xc2\xa0A", "1 session"),
    (b"\xef\xbb\xbf1 A", "1 session"),
    (b"\n\n1 A\n\nA", "5 session"),
    // A line is UTF-8 before all else, and the first bad line decides.
    (b"1 A\n\xff", "2 utf8"),
    (b"x \xff", "1 utf8"),
    (b"# \xff", "1 utf8"),
    (b"1 \xc3\n1 A", "1 utf8"),
    (b"1 A\n2 A\n\xff", "3 utf8"),
];

#[test]
fn scripts_are_read_by_the_rules(rt: HostRuntime) -> Result<(), Fail> {
    for (bytes, wanted) in SCRIPTS {
        check(&rt, rt.alloc(), bytes, wanted)?;
    }
    Ok(())
}

#[test]
fn the_longest_scripts_are_read(rt: HostRuntime) -> Result<(), Fail> {
    let alloc = rt.alloc();
    let mut bytes = vec![in alloc; b'\n'; 65_536]?;
    check(&rt, alloc, bytes.as_slice(), "")?;
    bytes.push(b' ')?;
    check(&rt, alloc, bytes.as_slice(), "65537 lines")?;
    let mut bytes = vec![in alloc; b' '; 1_048_576]?;
    check(&rt, alloc, bytes.as_slice(), "")?;
    bytes.push(b'\xff')?;
    check(&rt, alloc, bytes.as_slice(), "1 long")?;
    let mut bytes = vec![in alloc; b'\n'; MOST_BYTES]?;
    check(&rt, alloc, bytes.as_slice(), "65537 lines")?;
    bytes.push(b'\n')?;
    check(&rt, alloc, bytes.as_slice(), "0 size")
}
