// Refusals for people.
use layout::refusal::Numbered;
use std::io;

// What is refused, and with which number.
pub fn show_refusal(rt: &impl Print, what: &str, refusal: &impl Numbered) -> io::Result<()> {
    let number = refusal.number();
    println!(rt; "The {what} is refused with {number}.")
}
