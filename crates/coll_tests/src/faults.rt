//! The text that each fault is shown as: its number, a blank, and its name.
//!
//! A table has all variants of its type; a fault that another one holds is shown as itself, which one row for each shows.

use crate::assertions::assert_same;
use coll_bench::{BenchFault, Fault, RunFault};
use coll_key::KeyFault;
use coll_lex::{LexFault, ReadStop, WriteStop};
use coll_requests::{DeltaCause, RequestFault};
use coll_syntax::SyntaxFault;
use coll_table::{LoadCause, LoadFault, Refusal};
use std::alloc::Global;
use std::fmt::Display;
use std::process::Abort;

const READ_STOPS: &[(ReadStop, &str)] = &[
    (ReadStop::LineTooLong, "10 LineTooLong"),
    (ReadStop::ReadFault, "67 ReadFault"),
];

const WRITE_STOPS: &[(WriteStop, &str)] = &[(WriteStop::WriteFault, "68 WriteFault")];

const LEX_FAULTS: &[(LexFault, &str)] = &[
    (LexFault::NotUtf8, "1 NotUtf8"),
    (LexFault::OpenSymbol, "2 OpenSymbol"),
    (LexFault::EmptySymbol, "3 EmptySymbol"),
    (LexFault::BadName, "4 BadName"),
    (LexFault::BadCodePoint, "5 BadCodePoint"),
    (LexFault::OpenString, "6 OpenString"),
    (LexFault::CharacterConstant, "8 CharacterConstant"),
    (LexFault::DanglingEscape, "9 DanglingEscape"),
    (LexFault::LineTooLong, "10 LineTooLong"),
    (LexFault::BadCharDirective, "11 BadCharDirective"),
    (LexFault::TooManyLines, "12 TooManyLines"),
    (LexFault::OutOfMemory, "70 OutOfMemory"),
];

const SYNTAX_FAULTS: &[(SyntaxFault, &str)] = &[
    (SyntaxFault::UnknownStatement, "20 UnknownStatement"),
    (SyntaxFault::MissingOperand, "21 MissingOperand"),
    (SyntaxFault::ExtraOperand, "22 ExtraOperand"),
    (SyntaxFault::BadRule, "23 BadRule"),
    (SyntaxFault::TooManyLevels, "24 TooManyLevels"),
    (SyntaxFault::WeightTooLong, "25 WeightTooLong"),
    (SyntaxFault::ElementLength, "26 ElementLength"),
    (SyntaxFault::BlockTooLong, "27 BlockTooLong"),
    (SyntaxFault::EmptyString, "28 EmptyString"),
    (SyntaxFault::BadOperand, "29 BadOperand"),
    (SyntaxFault::OutOfMemory, "70 OutOfMemory"),
];

const LOAD_CAUSES: &[(LoadCause, &str)] = &[
    (LoadCause::Lex(LexFault::NotUtf8), "1 NotUtf8"),
    (LoadCause::Syntax(SyntaxFault::BadRule), "23 BadRule"),
    (LoadCause::NoCategory, "30 NoCategory"),
    (LoadCause::NoRules, "31 NoRules"),
    (LoadCause::RulesDiffer, "32 RulesDiffer"),
    (LoadCause::DeclaredTwice, "33 DeclaredTwice"),
    (LoadCause::NotDeclared, "34 NotDeclared"),
    (LoadCause::PlacedTwice, "35 PlacedTwice"),
    (LoadCause::SymbolWithWeights, "36 SymbolWithWeights"),
    (LoadCause::TooManyWeights, "37 TooManyWeights"),
    (LoadCause::WeightNotPlaced, "38 WeightNotPlaced"),
    (LoadCause::StringTwice, "39 StringTwice"),
    (LoadCause::SectionTwice, "40 SectionTwice"),
    (LoadCause::OutsideOrder, "41 OutsideOrder"),
    (LoadCause::Full, "42 Full"),
    (LoadCause::NoEnd, "43 NoEnd"),
    (LoadCause::ReadFault, "67 ReadFault"),
    (LoadCause::OutOfMemory, "70 OutOfMemory"),
    (LoadCause::NotASymbol, "73 NotASymbol"),
];

const REFUSALS: &[(Refusal, &str)] = &[
    (Refusal::DeclaredTwice, "33 DeclaredTwice"),
    (Refusal::NotDeclared, "34 NotDeclared"),
    (Refusal::SymbolWithWeights, "36 SymbolWithWeights"),
    (Refusal::TooManyWeights, "37 TooManyWeights"),
    (Refusal::WeightNotPlaced, "38 WeightNotPlaced"),
    (Refusal::StringTwice, "39 StringTwice"),
    (Refusal::Full, "42 Full"),
    (Refusal::TargetNotPlaced, "50 TargetNotPlaced"),
    (Refusal::TwiceInBlock, "51 TwiceInBlock"),
    (Refusal::NoSuchSection, "52 NoSuchSection"),
    (Refusal::SectionAfterItself, "53 SectionAfterItself"),
    (Refusal::NotPlaced, "54 NotPlaced"),
    (Refusal::NoWeights, "55 NoWeights"),
    (Refusal::OutOfMemory, "70 OutOfMemory"),
    (Refusal::NotASymbol, "73 NotASymbol"),
];

const KEY_FAULTS: &[(KeyFault, &str)] = &[
    (KeyFault::TextTooLong, "65 TextTooLong"),
    (KeyFault::OutOfMemory, "70 OutOfMemory"),
];

const REQUEST_FAULTS: &[(RequestFault, &str)] = &[
    (RequestFault::Lex(LexFault::BadName), "4 BadName"),
    (
        RequestFault::Syntax(SyntaxFault::EmptyString),
        "28 EmptyString",
    ),
    (RequestFault::BlockOpen, "62 BlockOpen"),
    (RequestFault::BlockNotEnded, "63 BlockNotEnded"),
    (RequestFault::UnknownCommand, "64 UnknownCommand"),
    (RequestFault::NoBlock, "69 NoBlock"),
];

const DELTA_CAUSES: &[(DeltaCause, &str)] = &[
    (DeltaCause::Request(RequestFault::NoBlock), "69 NoBlock"),
    (DeltaCause::NoCategory, "30 NoCategory"),
    (DeltaCause::NoEnd, "43 NoEnd"),
];

const STILL_NEEDED: BenchFault = BenchFault::StillNeeded {
    statement: 4,
    refusal: Refusal::WeightNotPlaced,
};

const BENCH_FAULTS: &[(BenchFault, &str)] = &[
    (BenchFault::Table(Refusal::NotPlaced), "54 NotPlaced"),
    (BenchFault::NothingToUndo, "60 NothingToUndo"),
    (BenchFault::NothingToRedo, "61 NothingToRedo"),
    (BenchFault::HistoryFull, "66 HistoryFull"),
    (STILL_NEEDED, "71 StillNeeded"),
    (BenchFault::NoSuchStatement, "72 NoSuchStatement"),
];

const LOAD_FAULT: LoadFault = LoadFault {
    line: 12,
    cause: LoadCause::PlacedTwice,
};

const FAULTS: &[(Fault, &str)] = &[
    (Fault::Read(ReadStop::ReadFault), "67 ReadFault"),
    (Fault::Write(WriteStop::WriteFault), "68 WriteFault"),
    (Fault::Lex(LexFault::OpenSymbol), "2 OpenSymbol"),
    (Fault::Syntax(SyntaxFault::BadOperand), "29 BadOperand"),
    (Fault::Load(LOAD_FAULT), "35 PlacedTwice"),
    (Fault::Table(Refusal::Full), "42 Full"),
    (Fault::Key(KeyFault::TextTooLong), "65 TextTooLong"),
    (Fault::Bench(BenchFault::HistoryFull), "66 HistoryFull"),
    (Fault::Bench(STILL_NEEDED), "71 StillNeeded"),
    (Fault::BlockOpen, "62 BlockOpen"),
    (Fault::BlockNotEnded, "63 BlockNotEnded"),
    (Fault::UnknownCommand, "64 UnknownCommand"),
    (Fault::NoBlock, "69 NoBlock"),
];

const WITH_LINES: &[(RunFault, &str)] = &[(
    RunFault {
        input: 0,
        line: 65_536,
        fault: Fault::Lex(LexFault::LineTooLong),
    },
    "65536: 10 LineTooLong",
)];

// Asserts that each of these faults is shown so.
fn assert_shown<F: Display>(rt: &impl Abort, alloc: Global, faults: &[(F, &str)]) {
    for (fault, text) in faults {
        let shown = format!(in alloc; "{fault}").expect(rt, text);
        assert_same(rt, *text, shown.as_str(), *text);
        drop(shown);
    }
}

const LOADS: &[(LoadFault, &str)] = &[(LOAD_FAULT, "line 12: 35 PlacedTwice")];

#[test]
fn a_fault_is_shown_by_its_number_and_name(rt: HostRuntime) {
    let alloc = rt.alloc();
    assert_shown(&rt, alloc, READ_STOPS);
    assert_shown(&rt, alloc, WRITE_STOPS);
    assert_shown(&rt, alloc, LEX_FAULTS);
    assert_shown(&rt, alloc, SYNTAX_FAULTS);
    assert_shown(&rt, alloc, LOAD_CAUSES);
    assert_shown(&rt, alloc, REFUSALS);
    assert_shown(&rt, alloc, KEY_FAULTS);
    assert_shown(&rt, alloc, REQUEST_FAULTS);
    assert_shown(&rt, alloc, DELTA_CAUSES);
    assert_shown(&rt, alloc, BENCH_FAULTS);
    assert_shown(&rt, alloc, FAULTS);
}

#[test]
fn the_fault_of_a_load_or_a_run_is_shown_with_its_line(rt: HostRuntime) {
    assert_shown(&rt, rt.alloc(), LOADS);
    assert_shown(&rt, rt.alloc(), WITH_LINES);
}
