//! Calls on flavors, and their score.
use line_words::Answer;
use line_words::cny_dep::{Flavor, FlavorFlag, InstructionSet, Sense, score};

fn sense_word(sense: Sense) -> &'static str {
    match sense {
        Sense::Required => "required ",
        Sense::Preferred => "preferred ",
        Sense::PreferNot => "not preferred ",
        Sense::Forbidden => "forbidden ",
    }
}

// Each flag as its sense, its word and a semicolon.
fn push_flags(flags: &[FlavorFlag], answer: &mut Answer) {
    for flag in flags {
        answer.text(sense_word(flag.sense));
        answer.text(flag.word.get());
        answer.text(";");
    }
}

// Each set as its word and its flags in braces.
fn push_sets(sets: &[InstructionSet], answer: &mut Answer) {
    for set in sets {
        answer.text(set.word.get());
        answer.text("{");
        push_flags(set.flags.get(), answer);
        answer.text("}");
    }
}

/// The canonical text of a flavor, its flags and its sets, and the text that is written of them.
pub fn flavor(flavor: &Flavor, answer: &mut Answer) {
    answer.ok(flavor.text());
    answer.tab();
    push_flags(flavor.parts().flags.get(), answer);
    answer.tab();
    push_sets(flavor.parts().sets.get(), answer);
    answer.tab();
    answer.made(flavor.write());
}

/// `Flavor::empty`.
pub fn empty(answer: &mut Answer) {
    let made = Flavor::empty(answer.alloc());
    if let Some(made) = answer.kept(made) {
        flavor(&made, answer);
    }
}

/// `score` of a trove's flavor and a system's.
pub fn scored(trove: &Flavor, system: &Flavor, answer: &mut Answer) {
    match score(trove, system) {
        Some(worth) => answer.formatted(format!(in answer.alloc(); "ok\t{worth}")),
        None => answer.field("none"),
    }
}
