//! The fault that a batch answers is told first.
//!
//! A survey finds it too, as one of many; there it has what it is about, and in a block its own line. Where a survey hasn't found it, it
//! is told as the batch answers it.

ghost use Rattle.std.specs.Prelude.{◌≡◌, ◌<◌, ◌∷◌, true, false, length, get_or, All, IfNone, IfSome, OnOk};
ghost use Rattle.coll_lint.specs.Lints.{AreOthers, BeginsWith, IsPutFirst, is_answered as answered_so};
ghost use Rattle.coll_findings.specs.ToldFaults.{AreOnce};
ghost use Rattle.coll_findings.specs.declared.findings.FoundFault.{FoundFault};

use coll_faults::RunFault;
use coll_findings::{About, FoundFault};
use std::alloc::AllocError;

/// Puts the fault that a batch answers before those of a survey, from which it is taken out where it is among them.
pub(crate) fn put_first(first: RunFault, faults: &mut Vec<FoundFault>) -> Result<(), AllocError>
    ensures begins { OnOk result (BeginsWith first faults.new.items) }
    ensures others { OnOk result (IsPutFirst first faults.old.items faults.new.items) }
    ensures once { OnOk result (AreOnce faults.old.items → AreOnce faults.new.items) }
{
    let told = found_as(first, faults);
    faults.insert(0, told)?;
    Ok(())
}

/// What is told of a fault that a batch answers. It is taken out of the faults of a survey where it is among them.
pub fn found_as(first: RunFault, faults: &mut Vec<FoundFault>) -> FoundFault
    ensures fault { result.fault ≡ first }
    ensures others { AreOthers faults.old.items faults.new.items }
    ensures once { AreOnce faults.old.items → AreOnce (result ∷ faults.new.items) }
{
    match place_of(&first, faults.as_slice()) {
        Some(place) => {
            let FoundFault {
                fault: _,
                line,
                about,
                sentence,
            } = faults.remove(place);
            FoundFault::new(first, line, about, Some(sentence))
        }
        None => FoundFault::new(first, first.line, About::Nothing, None),
    }
}

// Where the first of these faults stands that is the one that a batch answers.
fn place_of(first: &RunFault, found: &[FoundFault]) -> Option<usize>
    ensures none { IfNone result (All (λ other. answered_so first.now other ≡ false) found.now) }
    ensures found { IfSome result (λ place. (other : FoundFault) → answered_so first.now (get_or found.now place other) ≡ true) }
    ensures within { IfSome result (λ place. place < length found.now) }
{
    found.iter().position(|other| is_answered(first, other))
}

// Whether a fault that a survey found is the one that a batch answers.
fn is_answered(first: &RunFault, found: &FoundFault) -> bool
    ensures { result ≡ answered_so first.now found.now }
{
    (found.fault.line == first.line || found.line == first.line)
        && found.fault.input == first.input
        && found.fault.fault.number() == first.fault.number()
}
