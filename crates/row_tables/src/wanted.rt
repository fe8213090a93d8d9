//! How a row has to end.
use crate::bytes::{counted, hex_bytes, small_number, split_key, unquoted, word_bytes};
use crate::piece::push_numbered;
use crate::stop::Stop;
use std::alloc::Global;

/// How many variables and clauses a refutation has.
#[derive(Clone, Copy)]
pub struct Refutes {
    pub variables: u32,
    pub clauses: u32,
}

#[derive(Drop)]
pub struct Wanted {
    /// The number with which the program ends.
    pub status: Option<u32>,
    /// A part of the status's text, as its `Debug` writes it.
    pub answer: String,
    /// What goes out.
    pub out: Vec<u8>,
    /// What is said of what went wrong.
    pub err: Vec<u8>,
    /// That a refutation is said in place of that, if the row says it.
    pub refutes: Option<Refutes>,
    /// The lines of the clauses with which the refutation begins, behind its first line.
    pub clauses: Vec<u8>,
}

impl Wanted {
    pub fn nothing(alloc: Global) -> Wanted {
        Wanted {
            status: None,
            answer: String::new(alloc),
            out: Vec::new(alloc),
            err: Vec::new(alloc),
            refutes: None,
            clauses: Vec::new(alloc),
        }
    }

    /// Reads a line on the end of the row.
    pub fn take(&mut self, alloc: Global, key: &str, text: &str) -> Result<(), Stop> {
        let text = unquoted(text);
        match key {
            "status" => self.status = Some(small_number(text)?),
            "answer" => self.answer = String::from_str(alloc, text)?,
            "line" => push_line(&mut self.out, text)?,
            "part" => self.out.extend_from_slice(text.as_bytes())?,
            "gives" => self.out.extend_from_slice(&hex_bytes(alloc, text)?)?,
            "gives-code" => self.out.extend_from_slice(&word_bytes(alloc, text)?)?,
            "listed" => push_listed(alloc, &mut self.out, text)?,
            "numbered" => push_numbered_lines(alloc, &mut self.out, text)?,
            "says" => push_line(&mut self.err, text)?,
            "says-part" => self.err.extend_from_slice(text.as_bytes())?,
            "refuted" => self.refutes = Some(read_refutes(text)?),
            "clause" => push_clause(&mut self.clauses, text)?,
            _ => return Err(Stop::Line("no line of a row begins with this word")),
        }
        Ok(())
    }
}

/// The numbers of variables and clauses.
fn read_refutes(text: &str) -> Result<Refutes, Stop> {
    let (variables, clauses) = split_key(text);
    Ok(Refutes {
        variables: small_number(variables)?,
        clauses: small_number(clauses)?,
    })
}

/// Appends the line of a clause with these literals.
fn push_clause(out: &mut Vec<u8>, literals: &str) -> Result<(), Stop> {
    out.push(b'c')?;
    if !literals.is_empty() {
        out.push(b' ')?;
    }
    push_line(out, literals)
}

fn push_line(out: &mut Vec<u8>, text: &str) -> Result<(), Stop> {
    out.extend_from_slice(text.as_bytes())?;
    out.push(b'\n')?;
    Ok(())
}

/// Appends so many lines that end in the text, each behind the offset of its word.
fn push_listed(alloc: Global, out: &mut Vec<u8>, text: &str) -> Result<(), Stop> {
    let (count, text) = counted(text)?;
    for number in 0..count {
        let offset = u64::from(number) * 4;
        let line = format!(in alloc; "{offset:08x} {text}")?;
        push_line(out, line.as_str())?;
    }
    Ok(())
}

/// Appends so many lines of the text, each with its number, from 0, in place of each `#`.
fn push_numbered_lines(alloc: Global, out: &mut Vec<u8>, text: &str) -> Result<(), Stop> {
    let (count, text) = counted(text)?;
    for number in 0..count {
        push_numbered(alloc, out, number, text)?;
        out.push(b'\n')?;
    }
    Ok(())
}
