//! The bytes that an argument stands for.
//!
//! A text stands for itself, `0x` and hexadecimal digits for their bytes, and `=` for terms with a `+` between two. A term is
//! bytes in one of the first two forms; `N*ITEM`, for N times the bytes of the item; or `N#FRONT#BEHIND`, for each number below
//! N the bytes in front, five decimal digits of the number, and the bytes behind.
use crate::stop::Stop;
use cny_report::cny_base::Bytes;
use std::alloc::Global;

// A greater number of times is refused.
const MOST_TIMES: usize = 1_000_000;

// Appends a text, or the bytes of hexadecimal digits.
fn push_item(out: &mut Bytes, item: &str, alloc: Global) -> Result<(), Stop> {
    let Some(digits) = item.strip_prefix("0x") else {
        return Ok(out.push_slice(item.as_bytes())?);
    };
    match hex::decode(alloc, digits) {
        Ok(bytes) => Ok(out.push_slice(bytes.as_slice())?),
        Err(_) => Err(Stop::Unreadable),
    }
}

fn item_of(alloc: Global, item: &str) -> Result<Bytes, Stop> {
    let mut out = Bytes::from_vec(Vec::new(alloc));
    push_item(&mut out, item, alloc)?;
    Ok(out)
}

fn times_of(text: &str) -> Result<usize, Stop> {
    match text.parse::<usize>() {
        Ok(times) if times <= MOST_TIMES => Ok(times),
        _ => Err(Stop::Unreadable),
    }
}

fn push_times(out: &mut Bytes, times: usize, item: &Bytes) -> Result<(), Stop> {
    for _ in 0..times {
        out.push_slice(item.get())?;
    }
    Ok(())
}

fn push_number(out: &mut Bytes, number: usize, alloc: Global) -> Result<(), Stop> {
    let digits = format!(in alloc; "{number:05}")?;
    Ok(out.push_slice(digits.as_bytes())?)
}

fn push_counted(
    out: &mut Bytes,
    times: usize,
    front: &str,
    behind: &str,
    alloc: Global,
) -> Result<(), Stop> {
    for number in 0..times {
        push_item(out, front, alloc)?;
        push_number(out, number, alloc)?;
        push_item(out, behind, alloc)?;
    }
    Ok(())
}

fn push_term(out: &mut Bytes, term: &str, alloc: Global) -> Result<(), Stop> {
    if let Some((times, item)) = term.split_once('*') {
        return push_times(out, times_of(times)?, &item_of(alloc, item)?);
    }
    if let Some((times, rest)) = term.split_once('#') {
        let (front, behind) = rest.split_once('#').ok_or(Stop::Unreadable)?;
        return push_counted(out, times_of(times)?, front, behind, alloc);
    }
    push_item(out, term, alloc)
}

/// The bytes that a text stands for.
pub fn bytes_of(alloc: Global, text: &str) -> Result<Bytes, Stop> {
    let Some(terms) = text.strip_prefix('=') else {
        return item_of(alloc, text);
    };
    let mut out = Bytes::from_vec(Vec::new(alloc));
    for term in terms.split('+') {
        push_term(&mut out, term, alloc)?;
    }
    Ok(out)
}
