//! Reads rows, and says of each call whether the kernel answers it as wanted. README.md has the words of a row.
#![tactic(auto)]

mod fields;
mod line;
mod number;
mod place;
mod recursor;
mod spending;
mod wanted;

use crate::line::{Line, read};
use crate::place::Place;
use lf_notation::Unread;
use std::io;

// What is said of a line.
#[derive(Clone, Copy)]
enum Said {
    Nothing,
    Heading,
    Holds(bool),
}

fn answered(place: &mut Place, text: &str) -> Result<Said, Unread> {
    match read(text)? {
        Line::Heading => Ok(Said::Heading),
        Line::Change(change) => {
            place.change(&change)?;
            Ok(Said::Nothing)
        }
        Line::Row(row) => Ok(Said::Holds(place.holds(&row)?)),
        Line::Recursor(written, shown) => Ok(Said::Holds(place.shows(&written, &shown)?)),
    }
}

fn tell(rt: &HostRuntime, text: &str, said: Result<Said, Unread>) -> io::Result<()> {
    match said {
        Ok(Said::Nothing) => Ok(()),
        Ok(Said::Heading) => println!(rt; "{text}"),
        Ok(Said::Holds(true)) => println!(rt; "as wanted"),
        Ok(Said::Holds(false)) => println!(rt; "otherwise"),
        Err(Unread::Malformed) => println!(rt; "unread"),
        Err(Unread::NoMemory) => println!(rt; "no memory"),
    }
}

fn tell_all(rt: &HostRuntime, place: &mut Place) -> io::Result<()> {
    for text in rt.lines(rt.alloc()) {
        let text = text?;
        tell(rt, text.as_str(), answered(place, text.as_str()))?;
    }
    Ok(())
}

fn main(rt: HostRuntime) -> io::Result<()> {
    match Place::new(rt.alloc()) {
        Ok(mut place) => tell_all(&rt, &mut place),
        Err(_) => println!(rt; "no memory"),
    }
}
