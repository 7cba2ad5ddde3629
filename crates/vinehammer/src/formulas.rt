//! Takes the coupon formula with "start" bound twice through check, translation and reading back.
use crate::leg_and_stub::{NAMES, RECORDS, TEXT, listing};
use domain::screen::Screen;
use formula::load::{Code, Loader};
use reading::reader::Reader;
use semantics::kind::NodeKind;
use semantics::layout::Node;
use std::{fmt, io};
use whole::Whole;

/// Prints records or instructions in a row.
fn print_row<T: fmt::Display>(rt: &HostRuntime, row: &[T]) -> io::Result<()> {
    for item in row {
        print!(rt; " {item}")?;
    }
    println!(rt; "")
}

fn print_back(rt: &HostRuntime, code: &Code) -> io::Result<()> {
    let mut reader = Reader::new(rt.alloc())?;
    // Blank before, so that what is printed is what was read.
    let mut back = [Node::new(NodeKind::Num, 0, 0); RECORDS];
    match reader.give_back(&code.items, NAMES.len(), &mut back) {
        Ok(count) => {
            println!(rt; "read back, {count} records:")?;
            print_row(rt, &back[..count])
        }
        Err(_) => println!(rt; "not read back"),
    }
}

/// Prints the formula, its listing, its code, and the listing read back from the code.
pub fn print_formula(rt: &HostRuntime) -> io::Result<()> {
    println!(rt; "a coupon formula, \"start\" bound twice:")?;
    for line in TEXT {
        println!(rt; "  {line}")?;
    }
    let listing = listing();
    let count = listing.len();
    println!(rt; "its listing, {count} records:")?;
    print_row(rt, &listing)?;
    let mut loader = Loader::new(rt.alloc())?;
    let mut code = Code::new(rt.alloc())?;
    match loader.load(&Screen { below: Whole }, &NAMES, &listing, &mut code) {
        Ok(count) => {
            println!(rt; "its code, {count} instructions:")?;
            print_row(rt, &code.items)?;
            print_back(rt, &code)
        }
        Err(refusal) => println!(rt; "{refusal}"),
    }
}
