// Sheets: every role with some texts on each of them, every byte, and every style. What is expected follows from the rules.
use builder::styling::{AnsiColor, Style, Styles};
use sheet::Sheet;
use sheet::fault::SheetFault;
use sheet::page::Page;
use sheet::part::Part;
use sheet::role::Role;
use sheet::tag::Tag;
use sheet::terminal::Terminal;
use sink::Sink;
use sink::byte_area::ByteArea;
use sink::fault::SinkFault;
use std::process::Abort;
use std::test::Fail;

// What stands before a text and after it.
type Frame<'a> = (&'a [u8], &'a [u8]);

// The frame of each role: on a terminal in the standard colours, on a tag sheet and on a page.
const FRAMES: [(Role, Frame<'static>, Frame<'static>, Frame<'static>); 7] = [
    (
        Role::Error,
        (b"\x1b[1m\x1b[31m", b"\x1b[0m"),
        (b"\x1be", b"\x1bz"),
        (b"<b>", b"</b>"),
    ),
    (
        Role::Valid,
        (b"\x1b[32m", b"\x1b[0m"),
        (b"\x1bv", b"\x1bz"),
        (b"<i>", b"</i>"),
    ),
    (
        Role::Invalid,
        (b"\x1b[33m", b"\x1b[0m"),
        (b"\x1bi", b"\x1bz"),
        (b"<u>", b"</u>"),
    ),
    (
        Role::Literal,
        (b"\x1b[1m", b"\x1b[0m"),
        (b"\x1bl", b"\x1bz"),
        (b"<kbd>", b"</kbd>"),
    ),
    (Role::Fixed, (b"", b""), (b"", b""), (b"", b"")),
    (
        Role::Given,
        (b"", b""),
        (b"\x1bg", b"\x1bz"),
        (b"<q>", b"</q>"),
    ),
    (
        Role::Ready,
        (b"", b""),
        (b"\x1br", b"\x1bz"),
        (b"<samp>", b"</samp>"),
    ),
];

// Texts, which a terminal shows as they are, and what they become on a tag sheet and on a page.
const TEXTS: [(&[u8], &[u8], &[u8]); 16] = [
    (b"", b"", b""),
    (b"a", b"a", b"a"),
    (b"a b", b"a b", b"a b"),
    (b"&<>", b"&<>", b"&amp;&lt;&gt;"),
    (b"a\x1bb", b"a\x1b\x1bb", b"a<s>1b</s>b"),
    (b"\x1b", b"\x1b\x1b", b"<s>1b</s>"),
    (b"a\nb", b"a\nb", b"a\nb"),
    (b"\r", b"\r", b"<s>0d</s>"),
    (b"\t", b"\t", b"<s>09</s>"),
    (b"\x00", b"\x00", b"<s>00</s>"),
    (b"\x7f", b"\x7f", b"<s>7f</s>"),
    (b"</b>", b"</b>", b"&lt;/b&gt;"),
    (b"&amp;", b"&amp;", b"&amp;amp;"),
    (b"\x1bz", b"\x1b\x1bz", b"<s>1b</s>z"),
    (b"\x1b[0m", b"\x1b\x1b[0m", b"<s>1b</s>[0m"),
    (b"\x1f ~\x80", b"\x1f ~\x80", b"<s>1f</s> ~\x80"),
];

// A part of that role.
pub(crate) fn part(role: Role, text: &[u8]) -> Part<'_> {
    Part { role, text }
}

// An area of so many bytes.
pub(crate) fn area(rt: &impl AllocGlobal, len: usize) -> Result<ByteArea, Fail> {
    Ok(ByteArea::open(vec![in rt.alloc(); 9; len]?)?)
}

// Checks that a print that wanted one byte more than was left was refused for that, and that the area still holds `held` and no more.
pub(crate) fn refused(
    rt: &impl Abort,
    done: Result<(), SheetFault>,
    wanted: u64,
    area: &ByteArea,
    held: &[u8],
) {
    let left = wanted.saturating_sub(1);
    let sink = SinkFault { wanted, left };
    assert_eq!(rt; done, Err(SheetFault { sink }));
    assert_eq!(rt; (area.held_bytes(), area.bytes_left()), (held, left));
}

// Checks that the sheet shows the part as these bytes and tells their length, and that it puts nothing into an area of one byte less.
fn shows<S: Sheet>(
    rt: &(impl Abort + AllocGlobal),
    sheet: &S,
    part: Part<'_>,
    shown: &[u8],
) -> Result<(), Fail> {
    let len = shown.len() as u64;
    assert_eq!(rt; (sheet.measure(part), sheet.width(part)), (Some(len), len));
    let mut whole = area(rt, shown.len())?;
    assert_eq!(rt; sheet.print(part, &mut whole), Ok(()));
    assert_eq!(rt; (whole.held_bytes(), whole.bytes_left()), (shown, 0));
    if shown.is_empty() {
        return Ok(());
    }
    let mut short = area(rt, shown.len().saturating_sub(1))?;
    let done = sheet.print(part, &mut short);
    refused(rt, done, len, &short, b"");
    Ok(())
}

// The three, one after the other.
pub(crate) fn joined(
    rt: &impl AllocGlobal,
    before: &[u8],
    text: &[u8],
    after: &[u8],
) -> Result<Vec<u8>, Fail> {
    let mut all = before.to_vec(rt.alloc())?;
    all.extend_from_slice(text)?;
    all.extend_from_slice(after)?;
    Ok(all)
}

// Checks that the sheet shows the part as these bytes between the two of the frame.
fn framed<S: Sheet>(
    rt: &(impl Abort + AllocGlobal),
    sheet: &S,
    part: Part<'_>,
    coded: &[u8],
    (before, after): Frame<'_>,
) -> Result<(), Fail> {
    shows(rt, sheet, part, &joined(rt, before, coded, after)?)
}

// A terminal without styles.
pub(crate) fn plain() -> Terminal {
    Terminal {
        styles: Styles::plain(),
    }
}

// A terminal in the standard colours.
pub(crate) fn standard() -> Terminal {
    Terminal {
        styles: Styles::styled(),
    }
}

#[test]
fn roles_and_texts(rt: HostRuntime) -> Result<(), Fail> {
    for (role, colors, marks, tags) in FRAMES {
        for (text, tagged, paged) in TEXTS {
            let part = part(role, text);
            shows(&rt, &plain(), part, text)?;
            framed(&rt, &standard(), part, text, colors)?;
            framed(&rt, &Tag, part, tagged, marks)?;
            framed(&rt, &Page, part, paged, tags)?;
        }
    }
    Ok(())
}

// Some whole showings.
const STANDARD: [(Role, &[u8], &[u8]); 5] = [
    (Role::Error, b"error:", b"\x1b[1m\x1b[31merror:\x1b[0m"),
    (Role::Valid, b"", b"\x1b[32m\x1b[0m"),
    (Role::Invalid, b"pra", b"\x1b[33mpra\x1b[0m"),
    (Role::Literal, b"--quote", b"\x1b[1m--quote\x1b[0m"),
    (Role::Given, b"a & b", b"a & b"),
];

const TAGGED: [(Role, &[u8], &[u8]); 4] = [
    (Role::Error, b"error:", b"\x1beerror:\x1bz"),
    (Role::Valid, b"", b"\x1bv\x1bz"),
    (Role::Fixed, b"\x1be", b"\x1b\x1be"),
    (Role::Given, b"a\x1bz", b"\x1bga\x1b\x1bz\x1bz"),
];

const PAGED: [(Role, &[u8], &[u8]); 4] = [
    (Role::Literal, b"--a <b>", b"<kbd>--a &lt;b&gt;</kbd>"),
    (Role::Valid, b"", b"<i></i>"),
    (Role::Fixed, b"&lt;\r\n", b"&amp;lt;<s>0d</s>\n"),
    (Role::Ready, b"\x1b[1mb", b"<samp><s>1b</s>[1mb</samp>"),
];

// Checks that the sheet shows each part as the bytes beside it.
fn all_show<S: Sheet>(
    rt: &(impl Abort + AllocGlobal),
    sheet: &S,
    rows: &[(Role, &[u8], &[u8])],
) -> Result<(), Fail> {
    for (role, text, shown) in rows {
        shows(rt, sheet, part(*role, text), shown)?;
    }
    Ok(())
}

#[test]
fn whole_showings(rt: HostRuntime) -> Result<(), Fail> {
    all_show(&rt, &standard(), &STANDARD)?;
    all_show(&rt, &Tag, &TAGGED)?;
    all_show(&rt, &Page, &PAGED)
}

// The bytes 00 to 7F on a tag sheet and on a page.
const EVERY_BYTE_TAGGED: &[u8] =
    b"\x00\x01\x02\x03\x04\x05\x06\x07\x08\t\n\x0b\x0c\r\x0e\x0f\x10\x11\x12\x13\x14\x15\x16\x17\x18\x19\x1a\x1b\x1b\x1c\x1d\x1e\x1f !\"#$%&'()*+,-./0123456789:;<=>?@ABCDEFGHIJKLMNOPQRSTUVWXYZ[\\]^_`abcdefghijklmnopqrstuvwxyz{|}~\x7f";

const EVERY_BYTE_PAGED: &[u8] =
    b"<s>00</s><s>01</s><s>02</s><s>03</s><s>04</s><s>05</s><s>06</s><s>07</s><s>08</s><s>09</s>\n<s>0b</s><s>0c</s><s>0d</s><s>0e</s><s>0f</s><s>10</s><s>11</s><s>12</s><s>13</s><s>14</s><s>15</s><s>16</s><s>17</s><s>18</s><s>19</s><s>1a</s><s>1b</s><s>1c</s><s>1d</s><s>1e</s><s>1f</s> !\"#$%&amp;'()*+,-./0123456789:;&lt;=&gt;?@ABCDEFGHIJKLMNOPQRSTUVWXYZ[\\]^_`abcdefghijklmnopqrstuvwxyz{|}~<s>7f</s>";

#[test]
fn every_byte(rt: HostRuntime) -> Result<(), Fail> {
    let text: Vec<u8> = (0..128u8).collect(rt.alloc())?;
    let part = part(Role::Fixed, &text);
    shows(&rt, &standard(), part, &text)?;
    shows(&rt, &Tag, part, EVERY_BYTE_TAGGED)?;
    shows(&rt, &Page, part, EVERY_BYTE_PAGED)
}

// The mark of each colour, and those of bold and underlined texts.
const COLORS: [(Option<AnsiColor>, &[u8]); 9] = [
    (None, b""),
    (Some(AnsiColor::Black), b"\x1b[30m"),
    (Some(AnsiColor::Red), b"\x1b[31m"),
    (Some(AnsiColor::Green), b"\x1b[32m"),
    (Some(AnsiColor::Yellow), b"\x1b[33m"),
    (Some(AnsiColor::Blue), b"\x1b[34m"),
    (Some(AnsiColor::Magenta), b"\x1b[35m"),
    (Some(AnsiColor::Cyan), b"\x1b[36m"),
    (Some(AnsiColor::White), b"\x1b[37m"),
];

const BOLD: &[u8] = b"\x1b[1m";

const UNDERLINE: &[u8] = b"\x1b[4m";

// Checks how the terminal shows `x` as a literal in the style, which has these marks; the other roles are plain.
fn styled(
    rt: &(impl Abort + AllocGlobal),
    style: Style,
    bold: &[u8],
    underline: &[u8],
    color: &[u8],
) -> Result<(), Fail> {
    let marks = joined(rt, bold, underline, color)?;
    let after: &[u8] = if marks.is_empty() { b"" } else { b"\x1b[0m" };
    let sheet = Terminal {
        styles: Styles::plain().literal(style),
    };
    framed(rt, &sheet, part(Role::Literal, b"x"), b"x", (&marks, after))?;
    shows(rt, &sheet, part(Role::Error, b"x"), b"x")
}

#[test]
fn every_style(rt: HostRuntime) -> Result<(), Fail> {
    for (color, mark) in COLORS {
        let style = Style::new().fg_color(color);
        styled(&rt, style, b"", b"", mark)?;
        styled(&rt, style.bold(), BOLD, b"", mark)?;
        styled(&rt, style.underline(), b"", UNDERLINE, mark)?;
        styled(&rt, style.bold().underline(), BOLD, UNDERLINE, mark)?;
    }
    Ok(())
}
