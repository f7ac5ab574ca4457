//! Reads what the tasks of a text made and told, and prints its report. README.md has the words of a row.
#![tactic(auto)]

mod fields;
mod place;
mod values;

use crate::fields::Fields;
use crate::place::Place;
use lf_notation::Unread;
use std::io;

// What is printed for a line, if anything is.
fn answered(place: &mut Place, text: &str) -> Result<Option<String>, Unread> {
    let mut fields = Fields::new(text);
    let told = match fields.text()? {
        "report" => Some(place.report()?),
        "rank" => Some(place.rank(&mut fields)?),
        word => {
            place.change(word, &mut fields)?;
            None
        }
    };
    fields.end()?;
    Ok(told)
}

fn tell(rt: &HostRuntime, place: &mut Place, text: &str) -> io::Result<()> {
    if text.is_empty() || text.starts_with('#') {
        return println!(rt; "{text}");
    }
    match answered(place, text) {
        Ok(None) => Ok(()),
        Ok(Some(told)) => print!(rt; "{told}"),
        Err(Unread::Malformed) => println!(rt; "unread"),
        Err(Unread::NoMemory) => println!(rt; "no memory"),
    }
}

fn main(rt: HostRuntime) -> io::Result<()> {
    let mut place = Place::new(rt.alloc());
    for text in rt.lines(rt.alloc()) {
        let text = text?;
        tell(&rt, &mut place, text.as_str())?;
    }
    Ok(())
}
