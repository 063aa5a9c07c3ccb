// What escapes in literals and sets mean.
ghost use Rattle.std.specs.Prelude.{◌≡◌, ◌≤◌, ◌+◌, ◌<◌, ◌^◌, length, IfSome};
ghost use Rattle.std.specs.List.{prefix_len};
ghost use Rattle.std.specs.Str.Parse.{digits_value, AllDigits};
ghost use Rattle.g4_chars.specs.Escapes.{breaks, coded, four_digits, braced_digits, unicode_escape, control, itself, short_escape, begins, is_name_part, property, named_escape, set_escape, other_escape, escape, is_hexadecimal, NameIsWithin};

/// Where an escape occurs.
#[derive(Clone, Copy)]
pub enum Context {
    Literal,
    Set,
}

/// What an escape means.
#[derive(Clone, Copy)]
pub enum Meaning {
    Character(char),
    /// The property with this name, or its complement; the name is the first `length` characters after the `{`.
    Property { complement: bool, length: usize },
}

/// What an escape means, and how many characters after the backslash belong to it.
#[derive(Clone, Copy)]
pub struct Escape {
    pub meaning: Meaning,
    pub taken: usize,
}

fn begins(c: char, text: &[char]) -> bool
    ensures { result ≡ begins c text.now }
{
    match text {
        [first, ..] => *first == c,
        [] => false,
    }
}

fn coded(code: u32, taken: usize) -> Option<Escape>
    ensures value { result ≡ coded code taken }
    ensures name { IfSome result (λ e. NameIsWithin e.taken e.meaning) }
{
    let character = char::from_u32(code)?;
    Some(Escape {
        meaning: Meaning::Character(character),
        taken,
    })
}

/// How many hexadecimal digits the text begins with.
fn hexadecimal_length(text: &[char]) -> usize
    ensures value { result ≡ prefix_len is_hexadecimal text.now }
    ensures within { result ≤ length text.now }
{
    text.iter().take_while(|c| c.is_digit(16)).count()
}

/// The number that hexadecimal digits write.
fn hexadecimal_value(digits: &[char]) -> u32
    requires few { length digits.now ≤ 6 }
    requires all { AllDigits 16 digits.now }
    ensures { result ≡ digits_value 16 digits.now }
{
    let mut value = 0;
    for digit in digits {
        value = value * 16 + digit.to_digit(16).unwrap_or(0);
    }
    value
}

fn four_digits(text: &[char]) -> Option<Escape>
    ensures value { result ≡ four_digits text.now }
    ensures within { IfSome result (λ e. e.taken ≤ length text.now + 1) }
    ensures name { IfSome result (λ e. NameIsWithin e.taken e.meaning) }
{
    if hexadecimal_length(text) >= 4 {
        coded(hexadecimal_value(&text[..4]), 5)
    } else {
        None
    }
}

fn braced_digits(text: &[char]) -> Option<Escape>
    ensures value { result ≡ braced_digits text.now }
    ensures within { IfSome result (λ e. e.taken ≤ length text.now + 2) }
    ensures name { IfSome result (λ e. NameIsWithin e.taken e.meaning) }
{
    let count = hexadecimal_length(text);
    if count > 0 && count <= 6 && begins('}', &text[count..]) {
        coded(hexadecimal_value(&text[..count]), count + 3)
    } else {
        None
    }
}

fn unicode_escape(text: &[char]) -> Option<Escape>
    ensures value { result ≡ unicode_escape text.now }
    ensures within { IfSome result (λ e. e.taken ≤ length text.now + 1) }
    ensures name { IfSome result (λ e. NameIsWithin e.taken e.meaning) }
{
    if begins('{', text) {
        braced_digits(&text[1..])
    } else {
        four_digits(text)
    }
}

/// How many characters of a property's name the text begins with.
fn name_length(text: &[char]) -> usize
    ensures value { result ≡ prefix_len is_name_part text.now }
    ensures within { result ≤ length text.now }
{
    text.iter()
        .take_while(|c| **c != '}' && **c != ']' && **c != '\\' && **c != '\n')
        .count()
}

fn property(complement: bool, text: &[char]) -> Option<Escape>
    ensures value { result ≡ property complement text.now }
    ensures within { IfSome result (λ e. e.taken ≤ length text.now + 2) }
    ensures name { IfSome result (λ e. NameIsWithin e.taken e.meaning) }
{
    let length = name_length(text);
    if begins('}', &text[length..]) {
        Some(Escape {
            meaning: Meaning::Property { complement, length },
            taken: length + 3,
        })
    } else {
        None
    }
}

fn named_escape(complement: bool, text: &[char]) -> Option<Escape>
    ensures value { result ≡ named_escape complement text.now }
    ensures within { IfSome result (λ e. e.taken ≤ length text.now + 1) }
    ensures name { IfSome result (λ e. NameIsWithin e.taken e.meaning) }
{
    if begins('{', text) {
        property(complement, &text[1..])
    } else {
        None
    }
}

fn control(c: char) -> Option<char>
    ensures { result ≡ control c }
{
    match c {
        'n' => Some('\n'),
        'r' => Some('\r'),
        't' => Some('\t'),
        'b' => Some('\u{8}'),
        'f' => Some('\u{C}'),
        _ => None,
    }
}

fn breaks(context: Context, c: char) -> bool
    ensures { result ≡ breaks context c }
{
    matches!(context, Context::Literal) && c == '\n'
}

fn itself(context: Context, c: char) -> Option<Escape>
    ensures value { result ≡ itself context c }
    ensures name { IfSome result (λ e. NameIsWithin e.taken e.meaning) }
{
    if c.is_ascii_alphanumeric() || breaks(context, c) {
        None
    } else {
        Some(Escape {
            meaning: Meaning::Character(c),
            taken: 1,
        })
    }
}

fn short_escape(context: Context, c: char) -> Option<Escape>
    ensures value { result ≡ short_escape context c }
    ensures short { IfSome result (λ e. e.taken ≤ 1) }
    ensures name { IfSome result (λ e. NameIsWithin e.taken e.meaning) }
{
    match control(c) {
        Some(character) => Some(Escape {
            meaning: Meaning::Character(character),
            taken: 1,
        }),
        None => itself(context, c),
    }
}

fn set_escape(c: char, rest: &[char]) -> Option<Escape>
    ensures value { result ≡ set_escape c rest.now }
    ensures within { IfSome result (λ e. e.taken ≤ length rest.now + 1) }
    ensures name { IfSome result (λ e. NameIsWithin e.taken e.meaning) }
{
    if c == 'p' || c == 'P' {
        named_escape(c == 'P', rest)
    } else {
        short_escape(Context::Set, c)
    }
}

fn other_escape(context: Context, c: char, rest: &[char]) -> Option<Escape>
    ensures value { result ≡ other_escape context c rest.now }
    ensures within { IfSome result (λ e. e.taken ≤ length rest.now + 1) }
    ensures name { IfSome result (λ e. NameIsWithin e.taken e.meaning) }
{
    match context {
        Context::Literal => short_escape(context, c),
        Context::Set => set_escape(c, rest),
    }
}

/// The escape, given what follows its backslash: none where it is a bad one.
pub fn read_escape(context: Context, rest: &[char]) -> Option<Escape>
    ensures value { result ≡ escape context rest.now }
    ensures within { IfSome result (λ e. e.taken ≤ length rest.now) }
    ensures name { IfSome result (λ e. NameIsWithin e.taken e.meaning) }
{
    match rest {
        [] => None,
        ['u', rest @ ..] => unicode_escape(rest),
        [c, rest @ ..] => other_escape(context, *c, rest),
    }
}
