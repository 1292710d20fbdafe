// Styles: the marks of each of the 36, and the standard colours. A mark is 1B 5B n 6D, with 1 for bold, 4 for underline and 30 to 37 for a colour.
use builder::styled_str::{StyledStr, push_str, push_styled, put_styled, styled_len};
use builder::styling::{AnsiColor, Style, Styles};
use sink::Sink;
use std::test::Fail;

// Plain, then the eight colours; so for not bold and bold, each not underlined and underlined.
const MARKS: &[u8] =
    b"\n\x1b[30m\n\x1b[31m\n\x1b[32m\n\x1b[33m\n\x1b[34m\n\x1b[35m\n\x1b[36m\n\x1b[37m\n\x1b[4m\n\x1b[4m\x1b[30m\n\x1b[4m\x1b[31m\n\x1b[4m\x1b[32m\n\x1b[4m\x1b[33m\n\x1b[4m\x1b[34m\n\x1b[4m\x1b[35m\n\x1b[4m\x1b[36m\n\x1b[4m\x1b[37m\n\x1b[1m\n\x1b[1m\x1b[30m\n\x1b[1m\x1b[31m\n\x1b[1m\x1b[32m\n\x1b[1m\x1b[33m\n\x1b[1m\x1b[34m\n\x1b[1m\x1b[35m\n\x1b[1m\x1b[36m\n\x1b[1m\x1b[37m\n\x1b[1m\x1b[4m\n\x1b[1m\x1b[4m\x1b[30m\n\x1b[1m\x1b[4m\x1b[31m\n\x1b[1m\x1b[4m\x1b[32m\n\x1b[1m\x1b[4m\x1b[33m\n\x1b[1m\x1b[4m\x1b[34m\n\x1b[1m\x1b[4m\x1b[35m\n\x1b[1m\x1b[4m\x1b[36m\n\x1b[1m\x1b[4m\x1b[37m\n";

const COLORS: [AnsiColor; 8] = [
    AnsiColor::Black,
    AnsiColor::Red,
    AnsiColor::Green,
    AnsiColor::Yellow,
    AnsiColor::Blue,
    AnsiColor::Magenta,
    AnsiColor::Cyan,
    AnsiColor::White,
];

// The marks of the style without and with each colour, a line each.
fn add_lines(lines: &mut Vec<u8>, style: Style) -> Result<(), Fail> {
    lines.extend_from_slice(style.render().as_bytes())?;
    lines.push(b'\n')?;
    for color in COLORS {
        lines.extend_from_slice(style.fg_color(Some(color)).render().as_bytes())?;
        lines.push(b'\n')?;
    }
    Ok(())
}

#[test]
fn all_marks(rt: HostRuntime) -> Result<(), Fail> {
    let mut lines = Vec::new(rt.alloc());
    add_lines(&mut lines, Style::new())?;
    add_lines(&mut lines, Style::new().underline())?;
    add_lines(&mut lines, Style::new().bold())?;
    add_lines(&mut lines, Style::new().bold().underline())?;
    assert!(rt; lines.as_slice() == MARKS);
    Ok(())
}

// Whether a word in the style is these bytes, in memory of just their length and not in less.
fn shows(style: Style, bytes: &[u8]) -> bool {
    let mut out = [0u8; 20];
    let n = bytes.len();
    if n > 20 || styled_len(style, b"word") != Some(n as u64) {
        return false;
    }
    let written = push_styled(&mut out[..n], 0, style, b"word");
    if written != Some(n) || &out[..n] != bytes {
        return false;
    }
    if push_styled(&mut out[..n], 1, style, b"word").is_some() || &out[..n] != bytes {
        return false;
    }
    let mut pushed = StyledStr::new(&mut out[..n]);
    if pushed.push_styled(style, b"word").is_err() || pushed.as_bytes() != bytes {
        return false;
    }
    let mut put = StyledStr::new(&mut out[..n]);
    if put_styled(style, b"word", &mut put).is_err() || put.as_bytes() != bytes {
        return false;
    }
    let mut short = StyledStr::new(&mut out[..n]);
    short.put(b" ").is_ok()
        && short.push_styled(style, b"word").is_err()
        && put_styled(style, b"word", &mut short).is_err()
        && short.as_bytes() == b" ".as_slice()
}

#[test]
fn standard_colours(rt: HostRuntime) {
    let styles = Styles::styled();
    assert!(rt; shows(styles.get_error(), b"\x1b[1m\x1b[31mword\x1b[0m"));
    assert!(rt; shows(styles.get_valid(), b"\x1b[32mword\x1b[0m"));
    assert!(rt; shows(styles.get_invalid(), b"\x1b[33mword\x1b[0m"));
    assert!(rt; shows(styles.get_literal(), b"\x1b[1mword\x1b[0m"));
    assert!(rt; shows(Styles::plain().get_error(), b"word"));
    assert!(rt; shows(styles.valid(Style::new()).get_valid(), b"word"));
}

// Text is written just at its place; beyond the memory there is no place, not even for an empty text.
#[test]
fn places(rt: HostRuntime) {
    let mut out = *b"....";
    assert_eq!(rt; push_str(&mut out, 1, b"ab"), Some(3));
    assert_eq!(rt; push_str(&mut out, 3, b"cd"), None);
    assert_eq!(rt; push_str(&mut out, 4, b""), Some(4));
    assert_eq!(rt; push_str(&mut out, 5, b""), None);
    assert_eq!(rt; push_styled(&mut out, usize::MAX, Style::new(), b""), None);
    assert!(rt; &out == b".ab.");
}
