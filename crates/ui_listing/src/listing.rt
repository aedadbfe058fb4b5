ghost use Rattle.std.specs.Prelude.{◌≡◌, ◌<◌, ◌++◌, [], length, get_or, decimal, IfOk, OnOk};
ghost use Rattle.std.specs.List.{flat_map, sum_by};
ghost use Rattle.hex.specs.Hex.{encode_lower};
ghost use Rattle.ui_frame.specs.Container.{section, fingerprint};
ghost use Rattle.ui_listing.specs.Listing as spec;
ghost use Rattle.ui_listing.specs.Listing.{element_line, lines_from, section_head, section_lines};

use itoa::Buffer;
use std::alloc::Global;
use ui_frame::{Frame, NoMemory, Section};

const SECTIONS: [Section; 10] = [
    Section::Str,
    Section::Meta,
    Section::PosBase,
    Section::Pkg,
    Section::Name,
    Section::Types,
    Section::Obj,
    Section::ObjExt,
    Section::ObjDict,
    Section::Body,
];

fn section_name(s: Section) -> &'static [u8]
    ensures { result.now ≡ spec.section_name s }
{
    match s {
        Section::Str => b"String".as_slice(),
        Section::Meta => b"Meta".as_slice(),
        Section::PosBase => b"PosBase".as_slice(),
        Section::Pkg => b"Pkg".as_slice(),
        Section::Name => b"Name".as_slice(),
        Section::Types => b"Type".as_slice(),
        Section::Obj => b"Obj".as_slice(),
        Section::ObjExt => b"ObjExt".as_slice(),
        Section::ObjDict => b"ObjDict".as_slice(),
        Section::Body => b"Body".as_slice(),
    }
}

fn put_number(out: &mut Vec<u8>, n: u128) -> Result<(), NoMemory>
    ensures { OnOk result (out.new.items ≡ out.old.items ++ decimal n) }
{
    let mut digits = Buffer::new();
    out.extend_from_slice(digits.format(n).as_bytes())?;
    Ok(())
}

fn put_text(out: &mut Vec<u8>, text: &[u8]) -> Result<(), NoMemory>
    ensures { OnOk result (out.new.items ≡ out.old.items ++ text.now) }
{
    out.extend_from_slice(text)?;
    Ok(())
}

// How many bytes an element has that there is.
fn element_length(frame: &Frame<'_>, s: Section, k: u32) -> usize
    requires { k < length (section s frame.now) }
    ensures { result ≡ length (get_or (section s frame.now) k []) }
{
    match frame.element(s, k) {
        Some(bytes) => bytes.len(),
        None => unreachable!(),
    }
}

// How many bytes the elements of a section have.
fn total(frame: &Frame<'_>, s: Section) -> u128
    ensures { result ≡ sum_by length (section s frame.now) }
{
    let mut total = 0;
    for k in 0..frame.count(s) {
        total += element_length(frame, s, k) as u128;
    }
    total
}

// Two numbers of a line, and its end.
fn put_pair(out: &mut Vec<u8>, label: &[u8], one: u128, other: u128) -> Result<(), NoMemory>
    ensures { OnOk result (out.new.items ≡ out.old.items ++ spec.pair_line label.now one other) }
{
    put_text(out, label)?;
    put_number(out, one)?;
    put_text(out, b" ")?;
    put_number(out, other)?;
    put_text(out, b"\n")
}

fn put_head(out: &mut Vec<u8>, frame: &Frame<'_>, s: Section) -> Result<(), NoMemory>
    ensures { OnOk result (out.new.items ≡ out.old.items ++ section_head frame.now s) }
{
    put_text(out, section_name(s))?;
    put_pair(out, b" ", frame.count(s) as u128, total(frame, s))
}

fn put_elements(out: &mut Vec<u8>, frame: &Frame<'_>, s: Section) -> Result<(), NoMemory>
    ensures { OnOk result (out.new.items ≡ out.old.items ++ lines_from 0 (section s frame.now)) }
{
    for k in 0..frame.count(s) {
        put_pair(out, b"  ", k as u128, element_length(frame, s, k) as u128)?;
    }
    Ok(())
}

fn put_section(out: &mut Vec<u8>, frame: &Frame<'_>, s: Section) -> Result<(), NoMemory>
    ensures { OnOk result (out.new.items ≡ out.old.items ++ section_lines frame.now s) }
{
    put_head(out, frame, s)?;
    put_elements(out, frame, s)
}

fn put_sections(out: &mut Vec<u8>, frame: &Frame<'_>, list: &[Section]) -> Result<(), NoMemory>
    ensures { OnOk result (out.new.items ≡ out.old.items ++ flat_map
        (section_lines frame.now) list.now) }
{
    for s in list {
        put_section(out, frame, *s)?;
    }
    Ok(())
}

// The sixteen digits of a fingerprint.
fn hex_of(print: [u8; 8]) -> [u8; 16]
    ensures { result ≡ encode_lower print }
{
    let mut digits = [0; 16];
    let _ = hex::encode_to_slice(print.as_slice(), &mut digits);
    digits
}

fn put_fingerprint(out: &mut Vec<u8>, frame: &Frame<'_>) -> Result<(), NoMemory>
    ensures { OnOk result (out.new.items ≡ out.old.items ++ spec.last_line frame.now) }
{
    let digits = hex_of(frame.fingerprint());
    put_text(out, b"fingerprint ")?;
    put_text(out, &digits)?;
    put_text(out, b"\n")
}

/// The lines of a container: its version, each section with the number of its elements and of their
/// bytes, each element with its number and length, and the fingerprint.
pub fn list_container(alloc: Global, frame: &Frame<'_>) -> Result<Vec<u8>, NoMemory>
    ensures { IfOk result (λ v. v.items ≡ spec.listing frame.now) }
{
    let mut out = Vec::new(alloc);
    put_text(&mut out, b"version 1 flags 0\n")?;
    put_sections(&mut out, frame, &SECTIONS)?;
    put_fingerprint(&mut out, frame)?;
    Ok(out)
}
