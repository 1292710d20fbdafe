// The line on the sheets that were chosen.
use crate::failure::Failure;
use crate::files::save;
use builder::styling::Styles;
use journal::message::{Line, shown_forms};
use parts::{measure, print};
use sheet::Sheet;
use sheet::page::Page;
use sheet::tag::Tag;
use sheet::terminal::Terminal;
use sink::byte_area::ByteArea;
use std::io::Write;

const PAGE: &str = "page.html";

// What stands before the sheet's bytes in a page. The line break behind <pre> is no part of what it holds: without it, one that the bytes begin with would be lost. The styles make every element visible, an empty one too; <q> would add quotes of its own.
const HEAD: &[u8] = b"<!DOCTYPE html>
<html lang=\"en\">
<head>
<meta charset=\"utf-8\">
<title>Message</title>
<style>
b, i, u, kbd, q, samp, s { border: 1px solid; border-radius: 3px; padding: 0 2px; font: inherit; }
b { color: #b00000; font-weight: bold; }
i { color: #006000; font-style: italic; }
u { color: #7a5a00; text-decoration: underline; }
kbd { color: #000000; background: #eeeeee; font-weight: bold; }
q { color: #00408a; quotes: none; }
samp { color: #5a2d82; }
s { color: #707070; text-decoration: line-through; }
</style>
</head>
<body>
<pre>
";

const FOOT: &[u8] = b"</pre>
</body>
</html>
";

// A sheet that the line may be shown on.
#[derive(Clone, Copy)]
pub(crate) enum Choice {
    Terminal,
    Tag,
    Page,
}

impl<'a> TryFrom<&'a str> for Choice {
    type Error = Failure<'a>;

    // The sheet that a word names.
    fn try_from(word: &'a str) -> Result<Choice, Failure<'a>> {
        match word {
            "terminal" => Ok(Choice::Terminal),
            "tag" => Ok(Choice::Tag),
            "page" => Ok(Choice::Page),
            _ => Err(Failure::NoSheet(word)),
        }
    }
}

// The bytes of the line on a sheet.
fn line_on<S: Sheet>(
    rt: &HostRuntime,
    forms: &[u8],
    sheet: &S,
) -> Result<ByteArea, Failure<'static>> {
    let line = Line { forms };
    // A length beyond 64 bits is told as their largest number, as a sheet's `width` tells it.
    let wanted = measure(&line, sheet).unwrap_or(u64::MAX);
    if wanted > 1_048_576 {
        return Err(Failure::Overlong(wanted));
    }
    let memory = vec![in rt.alloc(); 0u8; wanted as usize]?;
    let mut area = ByteArea::open(memory).map_err(|_| Failure::NoArea)?;
    print(&line, sheet, &mut area).map_err(|_| Failure::NoFit)?;
    Ok(area)
}

// Shows the line on one sheet, on standard output.
fn show_on<S: Sheet>(rt: &HostRuntime, forms: &[u8], sheet: &S) -> Result<(), Failure<'static>> {
    let area = line_on(rt, forms, sheet)?;
    rt.stdout().write_all(area.held_bytes())?;
    println!(rt; "")?;
    Ok(())
}

// Shows the line as a page, in its file.
fn show_page(rt: &HostRuntime, forms: &[u8]) -> Result<(), Failure<'static>> {
    let area = line_on(rt, forms, &Page)?;
    let bytes = area.held_bytes();
    let mut page = Vec::new(rt.alloc());
    page.extend_from_slice(HEAD)?;
    page.extend_from_slice(bytes)?;
    page.extend_from_slice(FOOT)?;
    save(rt, PAGE, &page)?;
    println!(rt; "page: {} bytes, in {PAGE}", bytes.len())?;
    Ok(())
}

// Shows the line of the values on each sheet chosen; without one, nothing is done that could fail.
pub(crate) fn show_line(
    rt: &HostRuntime,
    list: &[u8],
    choices: &[Choice],
) -> Result<(), Failure<'static>> {
    if choices.is_empty() {
        return Ok(());
    }
    let forms = shown_forms(rt.alloc(), list).map_err(|why| Failure::Unshown(why))?;
    for choice in choices {
        match choice {
            Choice::Terminal => show_on(
                rt,
                &forms,
                &Terminal {
                    styles: Styles::styled(),
                },
            )?,
            Choice::Tag => show_on(rt, &forms, &Tag)?,
            Choice::Page => show_page(rt, &forms)?,
        }
    }
    Ok(())
}
