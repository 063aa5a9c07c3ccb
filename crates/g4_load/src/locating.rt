// Which file a fault of a grammar of several files is in.
ghost use Rattle.std.specs.Prelude.{◌≡◌, IfOk, slice_get};
ghost use Rattle.g4_load.specs.Locating.{IsFileOf, IsFileOfCheck, IsLocated, file_name, file_of_rule, or_main};

use crate::fault::GrammarFault;
use crate::stop::Stop;
use crate::whole::{Origin, Whole};
use g4_base::Text;
use g4_checks::{CheckFault, holder_of};
use std::alloc::{AllocError, Global};

/// The name of the file with this number, or else the main file's.
fn name_of<'a>(main: &'a str, origin: &'a Origin, file: usize) -> &'a str
    ensures { result.now ≡ or_main main.now (slice_get origin.now.names file) }
{
    match origin.names.as_slice().get(file) {
        Some(name) => name.as_str(),
        None => main,
    }
}

/// The name of the file of the rule with this number among the rules of a grammar, or else the main file's.
fn file_in<'a>(main: &'a str, origin: &'a Origin, rule: usize) -> &'a str
    ensures { result.now ≡ file_name main.now origin.now (slice_get origin.now.files rule) }
{
    match origin.files.as_slice().get(rule) {
        Some(file) => name_of(main, origin, *file),
        None => main,
    }
}

/// The name of the file of the rule with this number, if it is given; else the main file's. The rules of a lexer grammar come last.
fn file_of_rule<'a>(main: &'a str, whole: &'a Whole, rule: Option<usize>) -> &'a str
    ensures { result.now ≡ file_of_rule main.now whole.now rule }
{
    let Some(rule) = rule else {
        return main;
    };
    match whole.own.files.as_slice().get(rule) {
        Some(file) => name_of(main, &whole.own, *file),
        None => file_in(
            main,
            &whole.lexer,
            rule.saturating_sub(whole.own.files.len()),
        ),
    }
}

/// The name of the file of a fault of rules: of the rule that holds its place, or else the main file's.
fn file_of_check(
    alloc: Global,
    main: &str,
    whole: &Whole,
    fault: &CheckFault,
) -> Result<Text, AllocError>
    ensures { IfOk result (IsFileOfCheck main.now whole.now fault.now) }
{
    match fault {
        CheckFault::Reference(fault) => {
            let holder = holder_of(alloc, &whole.source, fault)?;
            Text::copy_of(alloc, file_of_rule(main, whole, holder))
        }
        CheckFault::Recursion(_) => Text::copy_of(alloc, main),
    }
}

/// The name of the file of a fault.
fn file_of(
    alloc: Global,
    main: &str,
    whole: &Whole,
    fault: &GrammarFault,
) -> Result<Text, AllocError>
    ensures { IfOk result (IsFileOf main.now whole.now fault.now) }
{
    match fault {
        GrammarFault::Check(fault) => file_of_check(alloc, main, whole, fault),
        _ => Text::copy_of(alloc, main),
    }
}

/// The fault in the file that holds its place, or else in the main file, which has this name.
pub fn located(
    alloc: Global,
    main: &str,
    whole: &Whole,
    fault: GrammarFault,
) -> Result<Stop, AllocError>
    ensures { IfOk result (IsLocated main.now whole.now fault) }
{
    let file = file_of(alloc, main, whole, &fault)?;
    Ok(Stop::Fault(file, fault))
}
