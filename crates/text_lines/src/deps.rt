//! Calls on dependencies.
use line_words::Answer;
use line_words::cny_dep::{Class, Dep, Flag, satisfies};
use line_words::cny_report::cny_base::Name;

// The flags, a semicolon behind each.
fn push_flags(flags: &[Flag], answer: &mut Answer) {
    for flag in flags {
        answer.text(flag.text());
        answer.text(";");
    }
}

/// The canonical text of a dependency, and its parts.
pub fn dep(dep: &Dep, answer: &mut Answer) {
    answer.ok(dep.text());
    answer.field(dep.class().word());
    answer.field(dep.name());
    answer.tab();
    push_flags(dep.flags(), answer);
    answer.tab();
    answer.made(dep.write());
}

/// `Dep::of_trove` of a name.
pub fn of_trove(name: &Name, answer: &mut Answer) {
    let made = Dep::of_trove(answer.alloc(), name);
    if let Some(made) = answer.kept(made) {
        dep(&made, answer);
    }
}

/// `Class::of_word` of a text.
pub fn class(word: &str, answer: &mut Answer) {
    match Class::of_word(word) {
        Some(class) => answer.ok(class.word()),
        None => answer.field("none"),
    }
}

/// `satisfies` of what is provided and what is required.
pub fn satisfied(provide: &Dep, require: &Dep, answer: &mut Answer) {
    answer.holds(satisfies(provide, require));
}
