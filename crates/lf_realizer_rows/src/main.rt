//! Reads rows, and prints which realized constants are made. README.md has the words of a row.
#![tactic(auto)]

mod fields;
mod place;

use crate::fields::Fields;
use crate::place::Place;
use lf_notation::Unread;
use std::io;

// What is printed for a line, if anything is.
fn answered(place: &mut Place, text: &str) -> Result<Option<String>, Unread> {
    let mut fields = Fields::new(text);
    let told = match fields.text()? {
        "make" => Some(place.make(&mut fields)?),
        word => {
            place.change(word, &mut fields)?;
            None
        }
    };
    fields.end()?;
    Ok(told)
}

fn tell(rt: &HostRuntime, place: &mut Place, text: &str) -> io::Result<()> {
    if text.is_empty() || text.starts_with('#') {
        return println!(rt; "{text}");
    }
    match answered(place, text) {
        Ok(None) => Ok(()),
        Ok(Some(told)) => println!(rt; "{told}"),
        Err(Unread::Malformed) => println!(rt; "unread"),
        Err(Unread::NoMemory) => println!(rt; "no memory"),
    }
}

fn tell_all(rt: &HostRuntime, place: &mut Place) -> io::Result<()> {
    for text in rt.lines(rt.alloc()) {
        let text = text?;
        tell(rt, place, text.as_str())?;
    }
    Ok(())
}

fn main(rt: HostRuntime) -> io::Result<()> {
    match Place::new(rt.alloc()) {
        Ok(mut place) => tell_all(&rt, &mut place),
        Err(_) => println!(rt; "no memory"),
    }
}
