//! The answer about two filters as an object of JSON.

ghost use Rattle.std.specs.Prelude.{◌≡◌, ◌++◌, IfOk, OnOk, codes, string_bytes};
ghost use Rattle.cli_compare.specs.Deciding.{IsObject, PutsWitnessObject, cause_text, size_json, with_witness};

use crate::line::put_both;
use crate::pair::FilterPair;
use crate::sameness::{packet_of_witness, put_cause};
use bpfvm::NoMemory;
use cli_answers::dump::put_hex;
use filter_same::{Cause, Sameness, Witness};
use std::alloc::{AllocError, Global};

/// Appends the lengths of a witness.
fn put_size(line: &mut String, witness: &Witness) -> Result<(), AllocError>
    ensures { OnOk result (string_bytes line.new ≡ string_bytes line.old ++ size_json witness.now) }
{
    let captured = witness.bytes.len();
    write!(
        line,
        ",\"length\":{},\"captured\":{captured},\"bytes\":\"",
        witness.wire
    )
}

/// Appends the lengths and the bytes of a witness.
fn put_members(line: &mut String, witness: &Witness) -> Result<(), AllocError>
    ensures { OnOk result (string_bytes line.new ≡ with_witness (string_bytes line.old) witness.now) }
{
    put_size(line, witness)?;
    put_hex(line, witness.bytes.as_slice())?;
    line.push_str("\",")
}

/// The object for an answer that has a witness. It begins with `head`.
fn witness_object(
    alloc: Global,
    head: &str,
    pair: &FilterPair,
    witness: &Witness,
) -> Result<String, NoMemory>
    ensures { IfOk result (λ text. PutsWitnessObject pair.now witness.now head.now (string_bytes text)) }
{
    let mut line = String::new(alloc);
    let mut text = String::new(alloc);
    line.push_str(head)?;
    put_members(&mut line, witness)?;
    put_both(&mut line, &mut text, pair, &packet_of_witness(witness))?;
    Ok(line)
}

/// The object of what is not decided.
fn undecided_object(alloc: Global, budget: usize, cause: Cause) -> Result<String, NoMemory>
    ensures { IfOk result (λ text. string_bytes text ≡ codes "{\"answer\":\"not decided\",\"cause\":\"" ++ cause_text budget cause ++ codes "\"}\n") }
{
    let mut line = String::new(alloc);
    line.push_str("{\"answer\":\"not decided\",\"cause\":\"")?;
    put_cause(&mut line, budget, cause)?;
    line.push_str("\"}\n")?;
    Ok(line)
}

/// A text of its own.
fn text_of(alloc: Global, text: &str) -> Result<String, NoMemory>
    ensures { IfOk result (λ copy. string_bytes copy ≡ text.now) }
{
    let mut copy = String::new(alloc);
    copy.push_str(text)?;
    Ok(copy)
}

/// The object for an answer: which it is; why, if it is none; and the packet that shows a difference, with what each filter answers to it and
/// why.
pub(crate) fn object_of(
    alloc: Global,
    pair: &FilterPair,
    budget: usize,
    sameness: &Sameness,
) -> Result<String, NoMemory>
    ensures { IfOk result (λ text. IsObject pair.now budget sameness.now (string_bytes text)) }
{
    match sameness {
        Sameness::Same => text_of(alloc, "{\"answer\":\"same\"}\n"),
        Sameness::SameAsCaptured => text_of(alloc, "{\"answer\":\"same as captured\"}\n"),
        Sameness::Short(witness) => witness_object(
            alloc,
            "{\"answer\":\"differ only where one aborts\"",
            pair,
            witness,
        ),
        Sameness::Differ(witness) => {
            witness_object(alloc, "{\"answer\":\"differ\"", pair, witness)
        }
        Sameness::NotDecided(cause) => undecided_object(alloc, budget, *cause),
    }
}
