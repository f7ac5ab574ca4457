//! The document of a number of definitions, to try the program with.
#![tactic(auto)]

ghost use Rattle.std.specs.Prelude.{◌≡◌, ◌++◌, IfOk, OnOk, codes, string_bytes};
ghost use Rattle.lf_gen.specs.Document as spec;

use lf_base::NoMemory;
use std::alloc::Global;

fn definition(alloc: Global, i: u32) -> Result<String, NoMemory>
    ensures { IfOk result (λ text. string_bytes text ≡ spec.definition i) }
{
    Ok(format!(in alloc; "def g{i} (x : Nat) : Nat := x + {i}\n")?)
}

// The equation and its proof stand apart, as each text is short for the search.
fn equation(alloc: Global, i: u32) -> Result<String, NoMemory>
    ensures { IfOk result (λ text. string_bytes text ≡ spec.equation i) }
{
    Ok(format!(in alloc; "g{i} x = x + {i}")?)
}

fn theorem(alloc: Global, i: u32) -> Result<String, NoMemory>
    ensures { IfOk result (λ text. string_bytes text ≡ spec.theorem i) }
{
    let equation = equation(alloc, i)?;
    let equation = equation.as_str();
    Ok(format!(in alloc; "theorem t{i} (x : Nat) : {equation} := by unfold g{i}; rfl\n")?)
}

/// The text of `k` definitions `gI`, each followed by a theorem `tI` that unfolds it, I counting from 1: two lines for
/// each, with a line feed behind every line. Fails only by want of memory.
pub fn document(alloc: Global, k: u32) -> Result<String, NoMemory>
    ensures { IfOk result (λ text. string_bytes text ≡ spec.document k) }
{
    let mut text = String::new(alloc);
    let mut i = 0;
    while i < k {
        i += 1;
        text.push_str(definition(alloc, i)?.as_str())?;
        text.push_str(theorem(alloc, i)?.as_str())?;
    }
    Ok(text)
}
