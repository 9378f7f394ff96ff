// The items of the input, one a line, and what is shown for each.
use crate::numbers::{two_words, whole};
use crate::show;
use drive::{RateUnit, Syringe};
use std::io;
use std::io::Write;

// Every line of `s`.
pub fn all(s: &[u8], out: &mut impl Write) -> io::Result<()> {
    for line in s.split_inclusive(|b| *b == b'\n') {
        item(line.strip_suffix(b"\n").unwrap_or(line), out)?;
        out.write_all(b"\n")?;
    }
    Ok(())
}

// One line: a letter, then what it is about.
fn item(s: &[u8], out: &mut impl Write) -> io::Result<()> {
    match s {
        [b'#', ..] => out.write_all(s),
        [b'>', rest @ ..] => show::line(rest, out),
        [b'N', rest @ ..] => number(unspaced(rest), out),
        [b'P', rest @ ..] => printed(whole(unspaced(rest)), out),
        [b'D', rest @ ..] => drive_figures(unspaced(rest), out),
        [b'V', rest @ ..] => volume(unspaced(rest), out),
        [b'R', rest @ ..] => rate(unspaced(rest), out),
        _ => out.write_all(b"!"),
    }
}

// One blank in front is passed over.
fn unspaced(s: &[u8]) -> &[u8] {
    s.strip_prefix(b" ").unwrap_or(s)
}

// N text: the thousandths that it reads as, and how they are printed.
fn number(s: &[u8], out: &mut impl Write) -> io::Result<()> {
    match decimal::read(s) {
        Some(x) => {
            write!(out, "{x} ")?;
            out.write_all(&decimal::print(x))
        }
        None => out.write_all(b"?"),
    }
}

// P thousandths: how they are printed, and whether some text gives them.
fn printed(x: u32, out: &mut impl Write) -> io::Result<()> {
    out.write_all(&decimal::print(x))?;
    if decimal::is_writable(x) {
        out.write_all(b" writable")?;
    }
    Ok(())
}

// D micrometres: the step volume, the threshold and the unit of volumes.
fn drive_figures(s: &[u8], out: &mut impl Write) -> io::Result<()> {
    let x = whole(s);
    if !drive::is_diameter(x) {
        return out.write_all(b"?OOR");
    }
    let y = syringe(x);
    let volume = y.step_volume();
    let threshold = y.step_threshold();
    write!(out, "{volume} {threshold}")?;
    show::volume_unit(y.volume_unit(), out)
}

// V micrometres, a blank, a volume in thousandths: the step target.
fn volume(s: &[u8], out: &mut impl Write) -> io::Result<()> {
    let (diameter, x) = two_words(s);
    let target = syringe(whole(diameter)).step_target(whole(x));
    write!(out, "{target}")
}

// R micrometres, a blank, a rate in thousandths of MH: whether it is usable, and its fl an hour.
fn rate(s: &[u8], out: &mut impl Write) -> io::Result<()> {
    let (diameter, x) = two_words(s);
    let y = syringe(whole(diameter));
    let x = whole(x);
    if x <= decimal::MOST {
        let hourly = drive::hourly_rate(x, RateUnit::Mh);
        write!(out, "{hourly}")?;
    }
    if y.is_usable(x, RateUnit::Mh) {
        out.write_all(b" usable")?;
    }
    Ok(())
}

fn syringe(x: u32) -> Syringe {
    Syringe {
        diameter: (x % 65_536) as u16,
    }
}
