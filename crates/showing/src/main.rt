// Shows a message on each of the three sheets: what a terminal is sent in the standard colours, what a program reads, and what stands in a page.
#![tactic(auto)]

ghost use Rattle.parts.specs.Told.{parts_of};

use anyhow::{Result, anyhow};
use builder::styling::Styles;
use parts::{Message, Taker, measure, print, say};
use sheet::Sheet;
use sheet::fault::SheetFault;
use sheet::page::Page;
use sheet::part::Part;
use sheet::role::Role;
use sheet::tag::Tag;
use sheet::terminal::Terminal;
use sink::byte_area::ByteArea;
use std::io::Write;

// The parts of a message, in their order.
#[derive(Clone, Copy)]
struct Told<'a, 'b> {
    parts: &'a [Part<'b>],
}

impl Message for Told<'_, '_> {
    ghost parts = { λ m. parts_of m.parts.now };

    fn tell<T: Taker>(&self, to: &mut T) -> Result<(), SheetFault> {
        say(to, self.parts)
    }
}

fn part(role: Role, text: &[u8]) -> Part<'_> {
    Part { role, text }
}

// Prints the message on the sheet, below the sheet's name.
fn show<S: Sheet>(rt: &HostRuntime, name: &str, message: &Told<'_, '_>, sheet: &S) -> Result<()> {
    let wanted = measure(message, sheet).ok_or_else(|| anyhow!("longer than 64 bits tell"))?;
    let memory = vec![in rt.alloc(); 0u8; usize::try_from(wanted)?]?;
    let mut area = ByteArea::open(memory).map_err(|_| anyhow!("longer than an area may be"))?;
    print(message, sheet, &mut area).map_err(|_| anyhow!("longer than it was measured"))?;
    println!(rt; "{name}:")?;
    rt.stdout().write_all(area.held_bytes())?;
    Ok(())
}

// A word that nobody typed for a subcommand, with bytes in it that each sheet has to write otherwise, and two words that are near.
fn main(rt: HostRuntime) -> Result<()> {
    let parts = [
        part(Role::Error, b"error:"),
        part(Role::Fixed, b" unrecognized subcommand '"),
        part(Role::Invalid, b"x'<\x1bcy>&"),
        part(Role::Fixed, b"'\n\n  "),
        part(Role::Valid, b"tip:"),
        part(Role::Fixed, b" some similar subcommands exist: '"),
        part(Role::Valid, b"xccy"),
        part(Role::Fixed, b"', '"),
        part(Role::Valid, b""),
        part(Role::Fixed, b"'\n\n"),
        part(Role::Given, b"raw & given\t"),
        part(Role::Fixed, b"\n\n"),
        part(Role::Ready, b"\x1b[4mUsage:\x1b[0m price"),
        part(Role::Fixed, b"\n\nFor more information, try '"),
        part(Role::Literal, b"--help"),
        part(Role::Fixed, b"'"),
        part(Role::Fixed, b".\n"),
    ];
    let message = Told { parts: &parts };
    let styles = Styles::styled();
    show(&rt, "terminal", &message, &Terminal { styles })?;
    show(&rt, "tag", &message, &Tag)?;
    show(&rt, "page", &message, &Page)
}
