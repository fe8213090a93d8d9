//! A piece of a document: a text as it stands, or one that is made.
use crate::bytes::{counted, hex_bytes, push_times, small_number, split_key};
use crate::stop::Stop;
use std::alloc::Global;
use std::fs;
use std::rt::Files;

#[derive(Drop)]
pub enum Piece {
    /// These bytes.
    Bytes(Vec<u8>),
    /// The text so many times.
    Times(u32, String),
    /// The text so many times with commas between, in which each `#` stands for the number, from 0.
    List(u32, String),
    /// So many spaces.
    Spaces(u32),
    /// What the file holds.
    File(String),
    /// The one place of the first text in what stands above becomes the second.
    Change(String, String),
}

impl Piece {
    /// Reads a line of a document.
    pub fn read(alloc: Global, line: &str) -> Result<Piece, Stop> {
        if let Some(text) = line.strip_prefix(' ') {
            let text = format!(in alloc; "{text}\n")?;
            return Ok(Piece::Bytes(text.as_bytes().to_vec(alloc)?));
        }
        let (key, rest) = split_key(line);
        match key {
            "bytes" => Ok(Piece::Bytes(hex_bytes(alloc, rest)?)),
            "spaces" => Ok(Piece::Spaces(small_number(rest)?)),
            "file" => Ok(Piece::File(String::from_str(alloc, rest)?)),
            "times" => {
                let (count, text) = counted(rest)?;
                Ok(Piece::Times(count, String::from_str(alloc, text)?))
            }
            "list" => {
                let (count, text) = counted(rest)?;
                Ok(Piece::List(count, String::from_str(alloc, text)?))
            }
            "change" => {
                let Some((old, new)) = rest.split_once(" => ") else {
                    return Err(Stop::Line("a change is a text, =>, and another"));
                };
                let old = String::from_str(alloc, old)?;
                Ok(Piece::Change(old, String::from_str(alloc, new)?))
            }
            _ => Err(Stop::Line(
                "a document has text behind a space, bytes, times, list, spaces, file and change",
            )),
        }
    }

    /// Appends the bytes of the piece.
    pub fn push<R: Files + AllocGlobal>(&self, rt: &R, out: &mut Vec<u8>) -> Result<(), Stop> {
        match self {
            Piece::Bytes(bytes) => Ok(out.extend_from_slice(bytes)?),
            Piece::Times(count, text) => push_times(out, *count, text.as_bytes()),
            Piece::List(count, text) => push_list(rt.alloc(), out, *count, text.as_str()),
            Piece::Spaces(count) => push_spaces(out, *count),
            Piece::File(name) => push_file(rt, out, name.as_str()),
            Piece::Change(old, new) => {
                *out = changed(rt.alloc(), out, old.as_str(), new.as_str())?;
                Ok(())
            }
        }
    }
}

/// Appends so many spaces.
fn push_spaces(out: &mut Vec<u8>, count: u32) -> Result<(), Stop> {
    let spaces = [b' '; 4096];
    push_times(out, count / 4096, &spaces)?;
    push_times(out, count % 4096, b" ")
}

/// Appends the text so many times, with commas between.
fn push_list(alloc: Global, out: &mut Vec<u8>, count: u32, text: &str) -> Result<(), Stop> {
    for number in 0..count {
        if number > 0 {
            out.push(b',')?;
        }
        push_numbered(alloc, out, number, text)?;
    }
    Ok(())
}

/// Appends the text with the number in place of each `#`.
pub(crate) fn push_numbered(
    alloc: Global,
    out: &mut Vec<u8>,
    number: u32,
    text: &str,
) -> Result<(), Stop> {
    for (place, part) in text.split('#').enumerate() {
        if place > 0 {
            out.extend_from_slice(number.to_string(alloc)?.as_bytes())?;
        }
        out.extend_from_slice(part.as_bytes())?;
    }
    Ok(())
}

fn push_file<R: Files + AllocGlobal>(rt: &R, out: &mut Vec<u8>, name: &str) -> Result<(), Stop> {
    match fs::read(rt, name) {
        Ok(bytes) => Ok(out.extend_from_slice(&bytes)?),
        Err(_) => Err(Stop::Line("the file is not there")),
    }
}

/// The text with the one place of `old` made `new`.
fn changed(alloc: Global, text: &[u8], old: &str, new: &str) -> Result<Vec<u8>, Stop> {
    let Ok(text) = str::from_utf8(text) else {
        return Err(Stop::Line("what is changed is no text"));
    };
    let Some((before, after)) = text.split_once(old) else {
        return Err(Stop::Line("what is changed does not stand there"));
    };
    if after.contains(old) {
        return Err(Stop::Line("what is changed stands there twice"));
    }
    let mut bytes = before.as_bytes().to_vec(alloc)?;
    bytes.extend_from_slice(new.as_bytes())?;
    bytes.extend_from_slice(after.as_bytes())?;
    Ok(bytes)
}
