//! Decodes many words by one of the two forms of the decoder. The words are those of the table's rows in turn, with the
//! other bits drawn.

use rv_decode::{Instr, ROWS, decode, decode_by_search};

/// What the program decodes with.
#[derive(Clone, Copy)]
enum Form {
    Fields,
    Search,
    /// Nothing: the cost of making the words alone.
    Words,
}

/// The next number of a linear congruential generator.
fn next_random(seed: u32) -> u32 {
    seed.wrapping_mul(1_664_525).wrapping_add(1_013_904_223)
}

/// A number that depends on each field.
fn digest(instr: Instr) -> u32 {
    let registers = u32::from(instr.rd) ^ u32::from(instr.rs1) ^ u32::from(instr.rs2);
    registers ^ instr.imm.cast_unsigned() ^ u32::from(instr.order) ^ instr.op as u32
}

fn decoded_digest(form: Form, word: u32) -> u32 {
    let instr = match form {
        Form::Fields => decode(word),
        Form::Search => decode_by_search(word),
        Form::Words => return word,
    };
    instr.map_or(1, digest)
}

/// The checksum over so many words.
fn run(form: Form, count: u32) -> u32 {
    let mut seed = 1;
    let mut sum = 0u32;
    for turn in 0..count {
        seed = next_random(seed);
        let row = ROWS[(turn % 59) as usize];
        let word = row.bits | (seed & !row.mask);
        sum = sum.wrapping_add(decoded_digest(form, word));
    }
    sum
}

fn form_of(word: &str) -> Option<Form> {
    match word {
        "fields" => Some(Form::Fields),
        "search" => Some(Form::Search),
        "words" => Some(Form::Words),
        _ => None,
    }
}

/// `FORM WORDS`: FORM is `fields`, `search` or `words`.
pub fn decoder(word: &str, numbers: &[u32]) -> Option<u64> {
    let &[count] = numbers else {
        return None;
    };
    Some(u64::from(run(form_of(word)?, count)))
}
