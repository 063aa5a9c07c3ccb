// Tables that are texts: each line is a row.
use g4_tokens::{END, EOF, MOST_TYPES};
use std::alloc::{AllocError, Global};

/// What a row asks, and the answer; no answer is empty.
pub fn answered(row: &str) -> (&str, &str) {
    row.split_once(" => ").unwrap_or((row, ""))
}

/// The first field, and the fields after it.
pub fn cut(fields: &str) -> (&str, &str) {
    fields.split_once(" | ").unwrap_or((fields, ""))
}

/// The number of a word; 0 where it is none.
pub fn number(word: &str) -> u32 {
    match word {
        "MOST" => MOST_TYPES,
        "EOF" => EOF,
        "END" => END,
        _ => word.parse::<u32>().unwrap_or(0),
    }
}

/// The numbers of a text, with `,` between two; `_` is none.
pub fn numbers(alloc: Global, text: &str) -> Result<Vec<u32>, AllocError> {
    let mut all = Vec::new(alloc);
    for word in text.split(',') {
        if word != "_" {
            all.push(number(word))?;
        }
    }
    Ok(all)
}

/// Adds what a row asks and the answer that was found.
pub fn push_row(wrong: &mut String, asked: &str, found: &str) -> Result<(), AllocError> {
    wrong.push_str(asked)?;
    wrong.push_str(" => ")?;
    wrong.push_str(found)?;
    wrong.push('\n')
}
