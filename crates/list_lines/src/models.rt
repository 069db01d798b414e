//! Calls on system models.
use crate::jobs::listed;
use crate::specs::config_of;
use line_words::{Answer, Line};
use repo_index::Catalogue;
use repo_index::cny_base::CONFIG_LIMIT;
use sys_model::{Model, ModelLine, wanted};

// The word of a line and what stands behind it.
fn said(line: &ModelLine, answer: &mut Answer) {
    let (word, rest) = match line {
        ModelLine::Install { spec: _, text } => ("install ", text.get()),
        ModelLine::Update { spec: _, text } => ("update ", text.get()),
        ModelLine::Erase { name } => ("erase ", name.text()),
    };
    answer.field(word);
    answer.text(rest);
}

fn lines(model: &Model, answer: &mut Answer) {
    answer.each(model.lines.get(), said);
}

// A file of at most the greatest size, and what is told of its model.
fn read<F: FnOnce(&Model, &mut Answer)>(line: &mut Line, answer: &mut Answer, tell: F)
    requires { F.IsAlwaysCallable tell }
{
    let bytes = line.bytes(0);
    if bytes.len() > CONFIG_LIMIT {
        return line.unreadable();
    }
    answer.outcome(Model::read(line.alloc(), bytes), tell);
}

/// `model BYTES`: what the lines of a model file say.
pub fn model(line: &mut Line, answer: &mut Answer) {
    read(line, answer, lines);
}

/// `wanted BYTES LABELS FLAVOR`: the list that a model file wants by a configuration.
pub fn made(catalogue: &Catalogue, line: &mut Line, answer: &mut Answer) {
    if let Some(config) = config_of(line, 1, 2) {
        read(line, answer, |model: &Model, answer: &mut Answer| {
            answer.outcome(wanted(answer.alloc(), catalogue, model, &config), listed);
        });
    }
}
