// What is reported of a command line that ends before any file is parsed.
ghost use Rattle.std.specs.Prelude.{◌≡◌, IfOk};
ghost use Rattle.g4_tool.specs.Ends.{fault_line, recursion_line, reference_line, stop_line, stop_status};

use crate::messages::{
    absent, bad_import, bad_set, bad_tokens, limit, no_lexer, no_rule, no_token_type, syntax,
    twice, usage,
};
use crate::rule_messages::{
    empty_loop, empty_operator, label_clash, left_cycle, lexer_predicate, no_primary, undefined,
    unknown_command, unknown_predicate,
};
use crate::status::Status;
use g4_checks::{CheckFault, ReferenceFault};
use g4_load::{GrammarFault, Stop};
use g4_outcome::{Line, large, not_utf8};
use g4_recursion::RecursionFault;
use std::alloc::{AllocError, Global};

/// The line of a fault of what a grammar names.
fn reference_line(alloc: Global, name: &str, fault: &ReferenceFault) -> Result<Line, AllocError>
    ensures { IfOk result (λ line. line ≡ reference_line name.now fault.now) }
{
    match fault {
        ReferenceFault::UndefinedRule(rule) => undefined(alloc, name, "rule ", rule.as_str()),
        ReferenceFault::UnknownMode(mode) => undefined(alloc, name, "mode ", mode.as_str()),
        ReferenceFault::UnknownCommand(command) => unknown_command(alloc, name, command.as_str()),
        ReferenceFault::UnknownChannel(channel) => {
            undefined(alloc, name, "channel ", channel.as_str())
        }
        ReferenceFault::LexerPredicate(place) => lexer_predicate(alloc, name, *place),
        ReferenceFault::UnknownPredicate(place) => unknown_predicate(alloc, name, *place),
        ReferenceFault::LabelClash(label) => label_clash(alloc, name, label.as_str()),
    }
}

/// The line of a fault of how rules call each other.
fn recursion_line(alloc: Global, name: &str, fault: &RecursionFault) -> Result<Line, AllocError>
    ensures { IfOk result (λ line. line ≡ recursion_line name.now fault.now) }
{
    match fault {
        RecursionFault::NoPrimary(rule) => no_primary(alloc, name, rule.as_str()),
        RecursionFault::EmptyOperator(rule, alternative) => {
            empty_operator(alloc, name, rule.as_str(), *alternative)
        }
        RecursionFault::EmptyLoop(rule) => empty_loop(alloc, name, rule.as_str()),
        RecursionFault::LeftCycle(rules) => left_cycle(alloc, name, rules.as_slice()),
    }
}

/// The line of a grammar's fault.
fn fault_line(alloc: Global, name: &str, fault: &GrammarFault) -> Result<Line, AllocError>
    ensures { IfOk result (λ line. line ≡ fault_line name.now fault.now) }
{
    match fault {
        GrammarFault::NotUtf8(at) => not_utf8(alloc, name, *at),
        GrammarFault::Syntax(place, characters) => {
            syntax(alloc, name, *place, characters.as_slice())
        }
        GrammarFault::BadSet(place) => bad_set(alloc, name, *place),
        GrammarFault::Nesting => limit(alloc, name, "nesting 256"),
        GrammarFault::RuleTwice(rule) => twice(alloc, name, rule.as_str()),
        GrammarFault::BadImport(imported) => bad_import(alloc, name, imported.as_str()),
        GrammarFault::BadTokensLine(line) => bad_tokens(alloc, name, *line),
        GrammarFault::NotALexer(grammar) => no_lexer(alloc, name, grammar.as_str()),
        GrammarFault::LiteralWithoutToken(literal) => no_token_type(alloc, name, literal.as_str()),
        GrammarFault::Rules => limit(alloc, name, "rules 4096"),
        GrammarFault::Types => limit(alloc, name, "types 4096"),
        GrammarFault::Check(CheckFault::Reference(fault)) => reference_line(alloc, name, fault),
        GrammarFault::Check(CheckFault::Recursion(fault)) => recursion_line(alloc, name, fault),
        GrammarFault::UnknownStart(start) => no_rule(alloc, name, start.as_str()),
        GrammarFault::Alternatives => limit(alloc, name, "alternatives 1024"),
        GrammarFault::States => limit(alloc, name, "states 65536"),
        GrammarFault::Cells => limit(alloc, name, "cells 16777216"),
    }
}

/// The line that is reported.
pub fn line_of(alloc: Global, stop: &Stop) -> Result<Line, AllocError>
    ensures { IfOk result (λ line. line ≡ stop_line stop.now) }
{
    match stop {
        Stop::Usage => usage(alloc),
        Stop::Absent(name) => absent(alloc, name.as_str()),
        Stop::TooLarge(name, size) => large(alloc, name.as_str(), *size),
        Stop::Fault(name, fault) => fault_line(alloc, name.as_str(), fault),
    }
}

/// The status of the run.
pub fn status_of(stop: &Stop) -> Status
    ensures { result ≡ stop_status stop.now }
{
    match stop {
        Stop::Usage => Status::Usage,
        Stop::Absent(_) | Stop::TooLarge(_, _) => Status::Unread,
        Stop::Fault(_, _) => Status::GrammarRefused,
    }
}
