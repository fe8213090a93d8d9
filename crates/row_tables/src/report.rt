//! What is said of a row that differs.
use crate::stop::Stop;

/// The most bytes that are shown of a text.
const SHOWN: usize = 300;

/// How many bytes are shown that still agree.
const BEFORE: usize = 60;

/// How many bytes the two texts begin with alike.
fn alike(one: &[u8], other: &[u8]) -> usize {
    let mut count = 0;
    for (a, b) in one.iter().zip(other) {
        if *a != *b {
            return count;
        }
        count = usize::saturating_add(count, 1);
    }
    count
}

/// What is shown of a text from a byte on.
fn shown(text: &[u8], from: usize) -> &[u8] {
    let Some(rest) = text.get(from..) else {
        return &[];
    };
    match rest.get(..SHOWN) {
        Some(front) => front,
        None => rest,
    }
}

/// Appends lines on two texts that are not equal.
pub fn push_text(report: &mut String, name: &str, wanted: &[u8], came: &[u8]) -> Result<(), Stop> {
    if wanted == came {
        return Ok(());
    }
    let same = alike(wanted, came);
    let from = same.saturating_sub(BEFORE);
    let wanted = shown(wanted, from).escape_ascii();
    let came = shown(came, from).escape_ascii();
    writeln!(
        report,
        "  {name} differs at byte {same}, shown from byte {from}"
    )?;
    writeln!(report, "    wanted {wanted}")?;
    writeln!(report, "    came   {came}")?;
    Ok(())
}

/// Appends a line on two numbers that are not equal.
pub fn push_number(report: &mut String, name: &str, wanted: u64, came: u64) -> Result<(), Stop> {
    if wanted != came {
        writeln!(report, "  {name}: wanted {wanted}, came {came}")?;
    }
    Ok(())
}
