// Shown forms: every text byte, alone and after a blank. The expected lines were printed by clap_builder 4.6.7's own escape.rs.
use std::process::Abort;
use std::test::Fail;
use util::escape::Escape;

const ALONE: &[u8] =
    b"\x00\n\x01\n\x02\n\x03\n\x04\n\x05\n\x06\n\x07\n\x08\n\"\\t\"\n\"\\n\"\n\"\\u{b}\"\n\"\\u{c}\"\n\"\\r\"\n\x0e\n\x0f\n\x10\n\x11\n\x12\n\x13\n\x14\n\x15\n\x16\n\x17\n\x18\n\x19\n\x1a\n\x1b\n\x1c\n\x1d\n\x1e\n\x1f\n\" \"\n!\n\"\n#\n$\n%\n&\n'\n(\n)\n*\n+\n,\n-\n.\n/\n0\n1\n2\n3\n4\n5\n6\n7\n8\n9\n:\n;\n<\n=\n>\n?\n@\nA\nB\nC\nD\nE\nF\nG\nH\nI\nJ\nK\nL\nM\nN\nO\nP\nQ\nR\nS\nT\nU\nV\nW\nX\nY\nZ\n[\n\\\n]\n^\n_\n`\na\nb\nc\nd\ne\nf\ng\nh\ni\nj\nk\nl\nm\nn\no\np\nq\nr\ns\nt\nu\nv\nw\nx\ny\nz\n{\n|\n}\n~\n\x7f\n";

const BESIDE: &[u8] =
    b"\" \\0\"\n\" \\u{1}\"\n\" \\u{2}\"\n\" \\u{3}\"\n\" \\u{4}\"\n\" \\u{5}\"\n\" \\u{6}\"\n\" \\u{7}\"\n\" \\u{8}\"\n\" \\t\"\n\" \\n\"\n\" \\u{b}\"\n\" \\u{c}\"\n\" \\r\"\n\" \\u{e}\"\n\" \\u{f}\"\n\" \\u{10}\"\n\" \\u{11}\"\n\" \\u{12}\"\n\" \\u{13}\"\n\" \\u{14}\"\n\" \\u{15}\"\n\" \\u{16}\"\n\" \\u{17}\"\n\" \\u{18}\"\n\" \\u{19}\"\n\" \\u{1a}\"\n\" \\u{1b}\"\n\" \\u{1c}\"\n\" \\u{1d}\"\n\" \\u{1e}\"\n\" \\u{1f}\"\n\"  \"\n\" !\"\n\" \\\"\"\n\" #\"\n\" $\"\n\" %\"\n\" &\"\n\" '\"\n\" (\"\n\" )\"\n\" *\"\n\" +\"\n\" ,\"\n\" -\"\n\" .\"\n\" /\"\n\" 0\"\n\" 1\"\n\" 2\"\n\" 3\"\n\" 4\"\n\" 5\"\n\" 6\"\n\" 7\"\n\" 8\"\n\" 9\"\n\" :\"\n\" ;\"\n\" <\"\n\" =\"\n\" >\"\n\" ?\"\n\" @\"\n\" A\"\n\" B\"\n\" C\"\n\" D\"\n\" E\"\n\" F\"\n\" G\"\n\" H\"\n\" I\"\n\" J\"\n\" K\"\n\" L\"\n\" M\"\n\" N\"\n\" O\"\n\" P\"\n\" Q\"\n\" R\"\n\" S\"\n\" T\"\n\" U\"\n\" V\"\n\" W\"\n\" X\"\n\" Y\"\n\" Z\"\n\" [\"\n\" \\\\\"\n\" ]\"\n\" ^\"\n\" _\"\n\" `\"\n\" a\"\n\" b\"\n\" c\"\n\" d\"\n\" e\"\n\" f\"\n\" g\"\n\" h\"\n\" i\"\n\" j\"\n\" k\"\n\" l\"\n\" m\"\n\" n\"\n\" o\"\n\" p\"\n\" q\"\n\" r\"\n\" s\"\n\" t\"\n\" u\"\n\" v\"\n\" w\"\n\" x\"\n\" y\"\n\" z\"\n\" {\"\n\" |\"\n\" }\"\n\" ~\"\n\" \\u{7f}\"\n";

// Whether the shown form goes into memory of n bytes.
fn fits(value: &[u8], n: usize) -> bool {
    let mut out = [0u8; 32];
    out.get_mut(0..n)
        .is_some_and(|part| Escape(value).write_shown(part).is_some())
}

// Adds the shown form of `value` as a line. It goes into memory of its length, and not into less.
fn add_line(rt: &impl Abort, lines: &mut Vec<u8>, value: &[u8]) -> Result<(), Fail> {
    let mut form = [0u8; 32];
    let n = Escape(value).write_shown(&mut form).ok_or("too long")?;
    assert!(rt;
        Escape(value).shown_len() == Some(n) && fits(value, n) && !fits(value, n.saturating_sub(1))
    );
    lines.extend_from_slice(form.get(0..n).ok_or("too short")?)?;
    lines.push(b'\n')?;
    Ok(())
}

// Checks the shown forms of every text byte behind these bytes, a line each.
fn every_byte(rt: &(impl Abort + AllocGlobal), before: &[u8], expected: &[u8]) -> Result<(), Fail> {
    let mut lines = Vec::new(rt.alloc());
    for b in 0..128u8 {
        let mut value = before.to_vec(rt.alloc())?;
        value.push(b)?;
        add_line(rt, &mut lines, &value)?;
    }
    assert!(rt; lines.as_slice() == expected);
    Ok(())
}

#[test]
fn every_byte_alone(rt: HostRuntime) -> Result<(), Fail> {
    every_byte(&rt, b"", ALONE)
}

#[test]
fn every_byte_after_a_blank(rt: HostRuntime) -> Result<(), Fail> {
    every_byte(&rt, b" ", BESIDE)
}

// The empty value is quoted, and a value that has quotes of its own is not, unless it has a blank.
#[test]
fn quotes(rt: HostRuntime) -> Result<(), Fail> {
    let mut lines = Vec::new(rt.alloc());
    add_line(&rt, &mut lines, b"")?;
    add_line(&rt, &mut lines, b"\"a\"")?;
    add_line(&rt, &mut lines, b"\"a b\"")?;
    add_line(&rt, &mut lines, b"a\\ b")?;
    assert!(rt; lines.as_slice() == b"\"\"\n\"a\"\n\"\\\"a b\\\"\"\n\"a\\\\ b\"\n".as_slice());
    Ok(())
}
