//! The rules of a table: those that most sections of the source have.
//!
//! Sections of a source may have rules of their own, and a table has one rule for each level. Where the source is read with
//! `DIACRIT_BACKWARD` defined, the rules with `backward` are meant, as far as a section has such.

use coll_source_lines::{Adjustment, Report, Said, SourceLine, SourcePlace};
use coll_syntax::{Rule, Rules};
use std::alloc::{AllocError, Global};

// Rules, and how many sections have them.
#[derive(Drop)]
struct Having {
    rules: Rules,
    sections: u32,
}

// The rules of a section, and where it begins.
#[derive(Drop)]
struct Given {
    place: SourcePlace,
    rules: Rules,
}

/// The rules that the table gets, and those that were made alike told; one level `forward` where no line gives any.
pub(crate) fn common_rules(
    alloc: Global,
    lines: &[SourceLine],
    backward: bool,
    report: &mut Report,
) -> Result<Rules, AllocError> {
    let given = given_rules(alloc, lines)?;
    let chosen = chosen_rules(counted(alloc, given.as_slice())?, backward);
    for section in given.iter() {
        if !section.rules.is_same(&chosen) {
            report.count(Adjustment::RulesMadeAlike, section.place)?;
        }
    }
    Ok(chosen)
}

// The rules of each section that gives some. The first one always does: where it gives none, it has one level `forward`.
fn given_rules(alloc: Global, lines: &[SourceLine]) -> Result<Vec<Given>, AllocError> {
    let mut given = Vec::new(alloc);
    for line in lines {
        if let Said::OrderStart { rules, .. } = &line.said {
            let rules = match rules {
                Some(rules) => rules.copied(),
                None if given.is_empty() => forward(),
                None => continue,
            };
            given.push(Given {
                place: line.place,
                rules,
            })?;
        }
    }
    Ok(given)
}

// One level, `forward`.
fn forward() -> Rules {
    Rules::one(Rule {
        backward: false,
        position: false,
    })
}

// All rules that are given, with the number of sections that have them.
fn counted(alloc: Global, given: &[Given]) -> Result<Vec<Having>, AllocError> {
    let mut counts = Vec::new(alloc);
    for section in given {
        count_section(&mut counts, &section.rules)?;
    }
    Ok(counts)
}

// Counts a section with these rules.
fn count_section(counts: &mut Vec<Having>, rules: &Rules) -> Result<(), AllocError> {
    for known in counts.iter_mut() {
        if known.rules.is_same(rules) {
            known.sections = known.sections.saturating_add(1);
            return Ok(());
        }
    }
    counts.push(Having {
        rules: rules.copied(),
        sections: 1,
    })?;
    Ok(())
}

// The rules of most sections, of those with `backward` if they are meant and there are any; of as many the first.
fn chosen_rules(counts: Vec<Having>, backward: bool) -> Rules {
    let mut chosen = Having {
        rules: forward(),
        sections: 0,
    };
    for known in counts {
        chosen = better(chosen, known, backward);
    }
    chosen.rules
}

// Which of two counts is meant.
fn better(chosen: Having, other: Having, backward: bool) -> Having {
    let is_meant = backward && goes_backward(&other.rules);
    let was_meant = backward && goes_backward(&chosen.rules);
    if is_meant == was_meant {
        if chosen.sections < other.sections {
            return other;
        }
        return chosen;
    }
    if is_meant { other } else { chosen }
}

// Whether a level of rules goes backward.
fn goes_backward(rules: &Rules) -> bool {
    rules.get().iter().any(|rule| rule.backward)
}
