//! What lines say whose positions have an address in front.

ghost use Rattle.std.specs.Prelude.{◌≡◌, ◌∷◌};
ghost use Rattle.cg_lines.specs.Lines.{words};
ghost use Rattle.cg_lines.specs.Addressed.{alone, with_address, addressed_cost, addressed_calls, addressed_other};
ghost use Rattle.cg_lines.specs.Addressed.{addressed_shape, addressed_of, positions_line};

use crate::front::{leading_spaces, strip};
use crate::line::{Line, begins_position, calls_after, cost_line, shape};
use crate::parts::{Words, split_word};
use crate::positions::are_two_parts;
use crate::sub_position::{SubPosition, sub_position_of};
use byte_text::TextRef;

/// What a line says by itself: what it says without the address in front of its position, and that address.
#[derive(Debug, Drop)]
pub struct AddressedLine<'a> {
    pub line: Line<'a>,
    /// `None` where the line has no position.
    pub address: Option<SubPosition>,
}

/// A line that has no position.
fn alone(line: Line<'_>) -> AddressedLine<'_>
    ensures { result ≡ alone line.entry }
{
    AddressedLine {
        line,
        address: None,
    }
}

/// A line with this address in front of its position, or a bad one where there is no address.
fn with_address<'a>(
    address: Option<SubPosition>,
    bad: Line<'a>,
    line: Line<'a>,
) -> AddressedLine<'a>
    ensures { result ≡ with_address address bad.entry line.entry }
{
    match address {
        None => alone(bad),
        Some(address) => AddressedLine {
            line,
            address: Some(address),
        },
    }
}

fn addressed_cost(text: &[u8]) -> AddressedLine<'_>
    ensures { result ≡ addressed_cost text.now }
{
    let (address, rest) = split_word(text);
    let (_, rest) = rest.split_at(leading_spaces(rest));
    with_address(sub_position_of(address), Line::BadCost, cost_line(rest))
}

fn addressed_calls(value: &[u8]) -> AddressedLine<'_>
    ensures { result ≡ addressed_calls (words value.now) }
{
    let mut words = Words::new(value);
    let Some(count) = words.next() else {
        return alone(Line::BadCalls);
    };
    let Some(address) = words.next() else {
        return alone(Line::BadCalls);
    };
    with_address(
        sub_position_of(address),
        Line::BadCalls,
        calls_after(count, words),
    )
}

/// What a line on positions says without addresses.
fn positions_line<'a>(text: &[u8]) -> Line<'a>
    ensures { result ≡ positions_line (words text.now) }
{
    if are_two_parts(text) {
        Line::Positions(TextRef::new(b"line"))
    } else {
        Line::Bad
    }
}

fn addressed_other(line: Line<'_>) -> AddressedLine<'_>
    ensures { result ≡ addressed_other line.entry }
{
    match line {
        Line::Positions(text) => alone(positions_line(text.as_bytes())),
        other => alone(other),
    }
}

fn addressed_shape(text: &[u8]) -> AddressedLine<'_>
    ensures { result ≡ addressed_shape text.now }
{
    let Some(first) = text.first() else {
        return alone(Line::Blank);
    };
    if begins_position(*first) {
        addressed_cost(text)
    } else if text.starts_with(b"calls=") {
        addressed_calls(&text[6..])
    } else {
        addressed_other(shape(text))
    }
}

/// What a line of the file says by itself.
pub fn addressed_of(line: &[u8]) -> AddressedLine<'_>
    ensures { result ≡ addressed_of line.now }
{
    addressed_shape(strip(line))
}
