// Messages of several parts on each sheet. What is expected follows from the rules.
ghost use Rattle.parts.specs.Told.{parts_of};

use crate::sheets::{area, joined, part, plain, refused, standard};
use parts::{Message, Taker, measure, print, say};
use sheet::Sheet;
use sheet::fault::SheetFault;
use sheet::page::Page;
use sheet::part::Part;
use sheet::role::Role;
use sheet::tag::Tag;
use sink::Sink;
use std::process::Abort;
use std::test::Fail;

// A message of the parts that are given.
#[derive(Clone, Copy)]
struct Sample<'a, 'b> {
    parts: &'a [Part<'b>],
}

impl Message for Sample<'_, '_> {
    ghost parts = { λ m. parts_of m.parts.now };

    fn tell<T: Taker>(&self, to: &mut T) -> Result<(), SheetFault> {
        say(to, self.parts)
    }
}

// Like `shows`, with the calls of a message. Checks that the message is these bytes on the sheet, which follow what the area held, and that nothing is put where there is room for one byte less.
fn prints<S: Sheet>(
    rt: &(impl Abort + AllocGlobal),
    message: &Sample<'_, '_>,
    sheet: &S,
    shown: &[u8],
) -> Result<(), Fail> {
    let len = shown.len() as u64;
    assert_eq!(rt; measure(message, sheet), Some(len));
    let mut whole = area(rt, shown.len().saturating_add(2))?;
    whole.put(b"> ")?;
    assert_eq!(rt; print(message, sheet, &mut whole), Ok(()));
    assert!(rt; whole.held_bytes() == joined(rt, b"> ", shown, b"")?.as_slice());
    assert_eq!(rt; whole.bytes_left(), 0);
    if shown.is_empty() {
        return Ok(());
    }
    let mut short = area(rt, shown.len().saturating_add(1))?;
    short.put(b"> ")?;
    let done = print(message, sheet, &mut short);
    refused(rt, done, len, &short, b"> ");
    Ok(())
}

// Fixed parts stand side by side, one is empty, and so is the valid part.
#[test]
fn on_each_sheet(rt: HostRuntime) -> Result<(), Fail> {
    let parts = [
        part(Role::Error, b"error:"),
        part(Role::Fixed, b" invalid"),
        part(Role::Fixed, b" value '"),
        part(Role::Invalid, b"a\x1b<"),
        part(Role::Fixed, b"' for '"),
        part(Role::Fixed, b""),
        part(Role::Literal, b"--b"),
        part(Role::Fixed, b"'"),
        part(Role::Fixed, b"\n"),
        part(Role::Valid, b""),
        part(Role::Given, b"c&d"),
        part(Role::Ready, b"\x1b[1me\x1b[0m"),
    ];
    let message = Sample { parts: &parts };
    prints(
        &rt,
        &message,
        &plain(),
        b"error: invalid value 'a\x1b<' for '--b'\nc&d\x1b[1me\x1b[0m",
    )?;
    prints(
        &rt,
        &message,
        &standard(),
        b"\x1b[1m\x1b[31merror:\x1b[0m invalid value '\x1b[33ma\x1b<\x1b[0m' for '\x1b[1m--b\x1b[0m'\n\x1b[32m\x1b[0mc&d\x1b[1me\x1b[0m",
    )?;
    prints(
        &rt,
        &message,
        &Tag,
        b"\x1beerror:\x1bz invalid value '\x1bia\x1b\x1b<\x1bz' for '\x1bl--b\x1bz'\n\x1bv\x1bz\x1bgc&d\x1bz\x1br\x1b\x1b[1me\x1b\x1b[0m\x1bz",
    )?;
    prints(
        &rt,
        &message,
        &Page,
        b"<b>error:</b> invalid value '<u>a<s>1b</s>&lt;</u>' for '<kbd>--b</kbd>'\n<i></i><q>c&amp;d</q><samp><s>1b</s>[1me<s>1b</s>[0m</samp>",
    )
}

// No part, and an empty fixed part, are nothing on any sheet.
#[test]
fn nothing_said(rt: HostRuntime) -> Result<(), Fail> {
    let empty = [part(Role::Fixed, b"")];
    for parts in [&empty[..0], &empty] {
        let message = Sample { parts };
        prints(&rt, &message, &standard(), b"")?;
        prints(&rt, &message, &Tag, b"")?;
        prints(&rt, &message, &Page, b"")?;
    }
    Ok(())
}
